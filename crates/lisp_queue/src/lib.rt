//! Datagrams that were received and wait to be heard or answered, and the order in which a group takes them, so that one source can't
//! starve the others. Each kind has a queue of its own, so that neither kind takes the places of the other.
//!
//! # Decisions
//!
//! - The half that one source may take is by address, since a source port is the sender's choice. A datagram that finds no room
//!   is dropped, as a socket without room drops it.
#![tactic(auto)]

mod incoming;
mod kind;
pub mod laws;
mod queue;

pub use incoming::Incoming;
pub use kind::Kind;
pub use queue::{Queue, Waiting};
