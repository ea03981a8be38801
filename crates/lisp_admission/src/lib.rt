//! What a Map-Server checks before it accepts a Map-Register or sends an unsolicited Map-Notify (notice): site,
//! key, tag, prefixes and limits, and its nonces against the store (RFC 9301 sections 5.6, 5.7 and 8.2).
//!
//! # Decisions
//!
//! - What a Map-Server checks is apart from the Map-Server, since most of its wrong bodies are tried here and each costs a
//!   check of the crate. `lisp_server` passes `Refused` and `NoticeFault` on.
//! - A Map-Register beyond a limit of its site is refused whole, and nothing is stored for it. Limits are checked behind the tag:
//!   who has no key of the site learns nothing of them.
//! - `least_ttl` and `most_ttl` refuse a record that would live for another TTL, and never change what one means: where bit T is
//!   set the Map-Server has to time a registration out by the TTL that was sent (RFC 9301 section 5.6), and a Map-Notify repeats
//!   the record. Where the TTL isn't what a record lives for they say nothing: bit T clear, a withdrawal (0), and 0xffffffff.
#![tactic(auto)]

mod checks;
pub mod laws;
mod limit;
mod nonces;
mod notice_fault;
mod pairs;
mod refused;

pub use checks::{key_at, key_under, most_jump_at, most_routers_at, most_rows_at};
pub use limit::Limit;
pub use nonces::{check_nonce, next_nonce, save_nonce, save_notice};
pub use notice_fault::NoticeFault;
pub use pairs::{NOTICES, pair_of, router_of};
pub use refused::Refused;
