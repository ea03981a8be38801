//! Schedules of a network of Map-Servers and site routers: what each event may come to (RFC 9301 sections 5.6, 5.7,
//! 8.2 and 8.3), and what every such schedule promises.
//!
//! # Decisions
//!
//! - A step names the node that acted, and shows its store afterwards; no node acts in a tick, nor in a delivery to an address
//!   without a node. A trace has its last step first, so that each definition is one recursion.
//! - What arrives of a datagram is the message that was sent, under the sender's secret; bytes from outside are read. That
//!   reading gives the message that was sent is a law of the messages.
//! - A send is legal only to a Map-Server, with a message that fits its format: no trace says that the fields of a database's
//!   records are in their ranges.
//! - The trace doesn't know which nonces a router saved ahead. So a send may leave the stored values as they were, if none is
//!   below the nonce.
//! - That an obedient store may load is part of what a base is (`IsBase` of `lisp_admission`). So each clause that names a base
//!   says it.
//! - What arrives at a router comes to one line, by one function of what was heard, or to out of memory. So the line is also
//!   what must come.
//! - A router's settings are read by one look-up of the trace (`etr_config`), and the records of an entry by another
//!   (`sent_records`): both may change in a schedule.
//! - "No change between two entries" counts each event that gives the router a database, also while it is down.
//! - That addresses and identities are distinct, and that a router's list names servers and none twice, is a condition of the
//!   laws that need it (`IsNetwork`). Else a notice could be answered under the number of a node that isn't there.
#![tactic(auto)]

mod event;
pub mod laws;
mod line;
mod refusal;
mod world_fault;

pub use event::Event;
pub use line::Line;
pub use refusal::Refusal;
pub use world_fault::WorldFault;
