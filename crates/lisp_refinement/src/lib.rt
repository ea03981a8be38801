//! What an event makes of a network of Map-Servers and site routers, that a network which handles such events matches a
//! legal trace, and what queries of its nodes return then (RFC 9301 sections 5.6, 5.7, 8.2 and 8.3).
//!
//! # Decisions
//!
//! - What a call of a node comes to is stated apart from the trace, in the words of its core's contract (`Calls`, `Events`). So
//!   code speaks of no trace, and the laws that join the two speak of no code.
//! - It is a crate between the model and the nodes, so that its many laws aren't proved again whenever a node or the network
//!   changes.
#![tactic(auto)]

pub mod asked;
pub mod headline;
pub mod laws;
pub mod replied;
