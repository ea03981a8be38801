//! What a Map-Server and a router send for an EID-Prefix that a Map-Request asks for (RFC 9301 sections 5.5, 8.3 and 8.4): what an ITR
//! that keeps it says of each address is what they would say of that address.
//!
//! # Decisions
//!
//! - Records are made in two walks over the prefixes inside: the first finds the least TTL, which all have, the second makes them. So the
//!   list of the prefixes isn't kept beside that of the records.
//! - Where records don't fit one message, the length of the prefix is halved: a wider prefix never needs less
//!   (`laws::wider_fits_not`).
//! - A router's database is walked whole for each question: it has at most 1,024 records. Whether the records fit is seen by their count and
//!   size alone, before any is made.
//! - The prefix of a router's negative reply is found in one walk: the length that is enough for the records so far only grows.
#![tactic(auto)]

mod early;
pub mod laws;
mod narrowing;
mod own_hole;
mod own_narrowing;
mod own_records;
mod records;
mod reply;
mod router;
mod server;

pub use early::{QUIET, is_starting};
pub use reply::{Negative, Reply};
pub use router::router_reply;
pub use server::server_reply;
