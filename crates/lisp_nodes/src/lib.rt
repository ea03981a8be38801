//! A Map-Server or a router with its store, and what bytes that arrive make of it (RFC 9301 sections 5.6, 5.7 and 8.2).
//!
//! # Decisions
//!
//! - The used keys of a router are two tables of 256 flags, so that nothing is searched and no memory is taken. A start that is
//!   refused after a loss counts: the next restart starts the router under that key.
#![tactic(auto)]

mod arming;
mod arrival;
mod asked;
mod datagram;
mod router_core;
mod router_node;
mod server_node;
mod used_keys;

pub use arrival::{Arrival, hear, post_reply, post_to, router_hears, server_hears};
pub use asked::{changed, noticed, reloaded, resent, rotated, sent};
pub use datagram::Datagram;
pub use router_node::{RouterNode, Start};
pub use server_node::ServerNode;
