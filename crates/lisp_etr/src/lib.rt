//! The site router (ETR, RFC 9301 section 8.2): it registers its database with each of its Map-Servers,
//! under nonces that it saves before it sends them, again and again until it is acknowledged, and anew a
//! minute after the send that was.
//!
//! # Decisions
//!
//! - `Etr::receive` takes the time and doesn't use it: a round counts from the time of the send that is acknowledged.
//! - A round keeps the time at which the next one would be due, a minute after its last send, and not the time of that send. So
//!   only `send` adds to a time, and only it asks for one of at most 2^62 ms.
//! - A router begins a block of nonces where the one before ends, or at its start. So the first send after a start always
//!   saves.
//! - A Map-Register is built from a copy of the database's records, since a message owns what it carries.
//! - The timers and acknowledgements of all 16 parts are made at the start, in arrays. So a change of the database takes no
//!   memory.
//! - Parts are known by their numbers, also over a change of the database. A late Map-Notify for a part that is gone is shown,
//!   since that Map-Register was accepted, but moves no timer.
//! - A nonce is of one part, the one whose last nonce it is: nonces of a router rise over all parts, so there is at most one.
//! - `Etr::rotate` takes any Key ID and key but its present one. Whether the site has the key, and whether it was used before a
//!   loss, is checked by a network (`lisp_world`).
#![tactic(auto)]

mod config;
mod etr;
mod hearing;
pub mod laws;
mod notify_fault;
mod rotate_fault;
mod round;
mod rounds;
mod seen;
mod send_fault;
mod sending;
mod servers;
mod start_fault;

pub use config::EtrConfig;
pub use etr::Etr;
pub use notify_fault::NotifyFault;
pub use rotate_fault::{RotateFault, RotateRefused};
pub use seen::Seen;
pub use send_fault::SendFault;
pub use servers::Servers;
pub use start_fault::{StartFault, StartRefused};
