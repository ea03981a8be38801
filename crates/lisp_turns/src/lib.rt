//! A Map-Server or a router that runs: it takes turns over its socket, its clock and its lines, whatever these are (RFC 9301
//! sections 8.2 and 8.3). What it prints and sends is a legal trace's part of it.
//!
//! # Decisions
//!
//! - A turn reads the clock once, after the receive, so that what is heard and what is due have one moment. Dead rows are
//!   dropped before the datagram is heard, as a tick does in `play`.
//! - A Map-Server never waits for a group to fill: a group is what waits already. So a lone Map-Register is answered at once.
//! - An order is done after the datagrams of a turn and before the commit, so that one sync keeps both. A question is answered
//!   after the commit, so that no answer shows what a failed commit loses.
//! - A datagram is printed before it is sent, so a line may be of a message that the socket then refused; the next line says
//!   so.
//! - A line that can't be written doesn't keep its message back: the turn goes on to its end, and then the node ends. The nonce
//!   is saved by then, and a Map-Server that kept the answer back would let the registration lapse.
//! - The socket, the clock, the commit, the lines and the users share one log, so that a contract can say in which order they
//!   were used. Of the system's own devices the log isn't known, so nothing is claimed of them.
//! - A row that dies is printed before the datagram is heard, one row after another. So each is printed once, and a router that
//!   registers at that moment comes after it.
//! - A failed send is printed each time, unlike a failed receive: there is at most one for each line.
//! - Where Map-Requests wait apart (`is_asked`), no core hears one: it is a question, and the last thing in a turn, so that no reply
//!   shows what isn't committed. A turn answers as many as it hears datagrams at most, so neither kind keeps the other waiting.
#![tactic(auto)]

// What is outside, and what is told of it.
mod act;
mod outside;
mod pause;
mod place;
mod telling;

// The nodes.
mod node;
mod node_core;
mod order;
mod router;
mod server;

// Their turns.
mod group;
mod intake;
pub mod laws;
mod requests;
mod turn;

pub use act::Act;
pub use node::Node;
pub use node_core::NodeCore;
pub use order::Order;
pub use outside::{
    Clock, Commit, Control, Endpoint, Lines, Outside, Printed, Received, Request, Requests,
    SocketCall,
};
pub use place::Place;
pub use requests::Resolving;
pub use turn::{Uncommitted, take_turns};
