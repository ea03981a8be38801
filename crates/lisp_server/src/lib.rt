//! The Map-Server (RFC 9301 section 8.2): it receives Map-Registers, refuses in order those that it may
//! not accept, holds the records of the others for as long as they live, and answers with Map-Notifies.
//! It also sends unsolicited Map-Notifies (notices), each again until it is acknowledged, up to seven times.
//!
//! # Decisions
//!
//! - A nonce that was loaded for a refused message isn't kept in memory: the next message loads it again.
//! - Last nonces, contacts and notices are kept in the order of their pairs and routers and found by halving. Contracts see
//!   look-ups and a map, and not that order.
//! - A Map-Server has as an invariant that the router of each row was heard, under a key that its site has a secret for. So
//!   `notify` has no third reason to find a router not registered.
//! - Which of several notices a Map-Notify-Ack would end is left open in the contract: no two that stand have one nonce
//!   (`notices_differ` in `lisp_model`).
//! - A notice's time is at most 2^62 ms, as that of `expire`: a timer and a row's deadline add to it, and at the end of the
//!   clock live and dead would look alike. `receive` asks for no such bound.
//! - A notice has no parts, since a router answers one as a whole. Where one message can't carry the router's live records it
//!   is `TooLarge`.
//! - The rows of a Map-Register are pushed with a test for room, though there is room (`Origin::rows`). Without it LLVM moves a
//!   record by two moves that overlap: fewer instructions, and no faster.
#![tactic(auto)]

mod accepted_rows;
mod arrival;
mod contacts;
mod last_nonces;
pub mod laws;
mod receive_ack;
mod receive_register;
mod reply;
mod reserved;
mod send_notice;
mod server;
mod standing_notice;
mod standing_notices;
mod tables;
mod took;

pub use lisp_admission::{Limit, NoticeFault, Refused};
pub use server::Server;
pub use took::Took;
