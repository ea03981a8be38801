//! How many bytes of replies a node may send in a second, to each destination and to all, so that it doesn't amplify what others send:
//! a Map-Server answers to addresses that the asker names (RFC 9301 sections 5.2 and 8.3).
//!
//! # Decisions
//!
//! - Time is cut into slots of a second, and a message may be sent only where what was sent in the slot before and in the present one
//!   leaves room for it. Any second lies in two slots that follow one another; so under a steady load half of the budget may go unused.
//! - Memory is taken once, for 4,096 destinations; where so many are known, replies to others wait for a later slot. A message costs
//!   one walk over the rows, a second one where it is taken, and at most three more where a slot begins with it.
//! - A refused message changes nothing, and begins no slot: what is known is that of the messages which were sent, whatever else came.
#![tactic(auto)]

mod budget;
mod destination;
pub mod laws;
mod rows;

pub use budget::Budget;
