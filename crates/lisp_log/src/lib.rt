//! What a node that runs without an end writes of itself: its lines, with what one needs at night behind them. Repeats of refusals and
//! of answers to Map-Requests are summed, and lines wait in a bounded buffer while they can't be written, so that neither a stranger
//! nor whoever reads the lines can fill a disk, take memory, or hold the node back.
//!
//! # Decisions
//!
//! - Lines are summed by the second of the node's clock, and not from the first of each on. Then one table is enough, which
//!   is emptied each second.
//! - Only refusals of datagrams are summed: those of what is due have a pause of their own.
//! - Answers to Map-Requests (RFC 9301 sections 5.2 to 5.5, 8.2 and 8.3) are summed as refusals are: anybody may ask, and each EID-Prefix
//!   that is asked for has a line, so that a stranger could else fill a disk. They are summed whatever the EID-Prefix is, by the address
//!   that the line names: the ITR-RLOC, or the router that the Map-Request goes on to.
//! - 64 pairs of what repeats and an address are told apart, and the table has 80 entries more for all others: there are 66 things that
//!   repeat, and one without an entry would be told each time. So at most 144 of these lines are printed in a second, and as many sums.
//! - What was written stays before the bytes that wait until it is as much as they may be. So a reader who takes little at a
//!   time costs no move of all that waits.
//! - Once a line was dropped, all are until what waits has been written. So the line `dropped N` stands where they are missing,
//!   and a slow reader gets few of these.
//! - Who is refused as replaying is named by source address: the line of a refusal names no router, and a Map-Register that
//!   somebody repeats is as authentic as the router's own.
//! - That a router moved is told behind the line of its Map-Register, and not summed: two machines with one identity are so seen once a
//!   minute, with both addresses. Where routers were heard has no bound of its own, since only one that has a key is heard.
//! - The kinds of errors are std's words (`StorageFull`), and not a table of ours.
#![tactic(auto)]

// What is told.
mod moves;
mod repeats;
mod replays;
mod silences;

// Its text, and where it waits until it is written.
mod byte_queue;
mod text;
mod waiting;

// All of it together.
pub mod laws;
mod log;

pub use log::Log;
pub use moves::{Moves, Whereabouts};
pub use repeats::{Repeat, Repeated, Repeats, Source};
pub use replays::{Replay, Replays};
pub use silences::{Silence, Silences};
pub use text::{Device, OVER_BUDGET, device_of, replay_text};
pub use waiting::{Sink, Waiting};
