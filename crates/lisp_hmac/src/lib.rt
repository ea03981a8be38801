//! HMAC-SHA-256 (RFC 2104) and the tag of 128 bits that authenticates a LISP control message
//! (RFC 9301 sections 5.6 and 12.5, RFC 4868 section 2.3). Nothing here takes memory.
//!
//! # Decisions
//!
//! - A key is made ready once and holds the states of both digests after the padded secret. So the tag of a Map-Register of 84
//!   bytes takes 3 blocks of SHA-256 in place of 5.
#![tactic(auto)]

mod block;
mod hmac;
mod key;
mod secret;
mod tag;

pub use hmac::hmac_sha256;
pub use key::Key;
pub use tag::{TAG_LEN, checks, tag128};
