//! A Map-Server for a program that keeps its nonces itself: the program loads the last nonce of a datagram's pair, passes
//! it with the datagram, and saves the nonce of an accepted Map-Register before it sends the answer.
//!
//! # Decisions
//!
//! - The program keeps the nonces: no function of its own is let in, since no proof could see what it does.
//! - `pair_needed` finds the pair by the ends of the datagram, and doesn't read each record: `Server::receive` does so anyway.
//!   Where a pair is needed, it is proved to be that one.
//! - A save that fails is a restart: the Map-Server already holds the nonce and its rows. Starting again takes no memory, so
//!   that it can't fail.
//! - A router has no restart of its own: its start takes memory, which may be refused, so it is started again.
#![tactic(auto)]

mod host_store;
mod hosted;
pub mod laws;
mod notice;
mod pair;
mod parts;
mod receiving;
mod replying;
mod router_handle;
mod router_send;
mod router_start;
mod server_handle;

pub use hosted::{HostedRouter, HostedServer};
pub use notice::{HostedNotice, notify_kept};
pub use pair::pair_needed;
pub use parts::BoxParts;
pub use receiving::receive_kept;
pub use replying::{HostedReply, router_reply_of, server_reply_of};
pub use router_handle::RouterHandle;
pub use router_send::{HostedRegister, send_kept};
pub use router_start::start_kept;
pub use server_handle::ServerHandle;
