//! A network of Map-Servers and site routers that takes one event at a time (RFC 9301 sections 5.6, 5.7, 8.2 and 8.3):
//! what its state is, what a turn makes of it, and that a network which makes such turns stands for a legal trace.
//!
//! # Decisions
//!
//! - The headline is a clause of each call of a network, though it follows from the others: a reader finds it where the network
//!   is used.
//! - A network keeps of its configuration what its nodes need: the address of each node, the identity of each router, the
//!   numbers of its Map-Servers, and the sites of each Map-Server. It keeps the sites also for the keys of its routers: these
//!   stay when a Map-Server takes others.
//! - The network checks keys, and the router's core doesn't (`UnknownKey`, `KeyUsed`). Both come before the router is asked,
//!   also for one that is down.
//! - Room for a datagram is made before each call that may send one. So an event may run out of memory though its node then
//!   sends nothing.
//! - Only routers lose their stores: a Map-Server without its nonces would accept old messages again, unless its routers change
//!   their keys.
#![tactic(auto)]

mod change;
mod deliver;
mod junk;
mod lose;
mod new;
mod nodes;
mod notice;
mod reload;
mod request;
mod resend;
mod restart;
mod room;
mod rotate;
mod run;
mod send;
mod step;
mod tick;
mod world;

pub use lisp_model::{Event, Line, Refusal, WorldFault};
pub use lisp_nodes::Datagram;
pub use new::{router_node, router_settings};
pub use world::World;
