//! What a node does for a Map-Request (RFC 9301 sections 5.2 to 5.8, 8.2 and 8.3): bytes in, datagrams out, by the rows of a Map-Server or the
//! database of a router, which stay as they are. What each EID-Prefix is replied with is said by `lisp_replies`.
//!
//! # Decisions
//!
//! - A Map-Reply goes to the first ITR-RLOC of the node's own address family, and to no other one: where that isn't replied to, nothing
//!   is sent.
//! - What a Map-Request asks for is known before anything of a node is looked at: what isn't served costs no look-up.
#![tactic(auto)]

// What is taken of a Map-Request, and what is sent for it.
mod asking;
mod datagram;
mod replier;
mod sending;
mod unasked;

// What a node does for one.
mod handling;
pub mod laws;
mod outcome;
mod router;
mod server;

pub use asking::{Asked, router_asked, server_asked};
pub use datagram::Datagram;
pub use handling::Handled;
pub use outcome::Outcome;
pub use replier::Replier;
pub use router::router_handles;
pub use sending::sends;
pub use server::server_handles;
pub use unasked::Unasked;
