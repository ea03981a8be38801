//! A look: what a Map-Server, or the router that it forwards to, answers about an EID (RFC 9301 sections 5.2 to 5.8; RFC 6835).
//!
//! # Decisions
//!
//! - A Map-Reply is taken from anybody who has the nonce: a Map-Server forwards a Map-Request to a router, which answers by itself. All
//!   tries have one nonce, so that a late Map-Reply to the first is taken too.
//! - The inner header has the family of the EID. Where the ITR-RLOC is of the other one, the inner source is the unspecified address:
//!   nobody sends there, since a Map-Reply goes to the ITR-RLOC of the Map-Request.
//! - Time counts from the first Map-Request.
#![tactic(auto)]

// What is asked, and what answers it.
mod answer;
mod fault;
mod look;
mod positive;
mod text;

// Asking, over any socket and clock.
mod asking;
mod looking;
mod outside;

// The system's socket and clock.
mod question;
mod socket;

pub use answer::Answer;
pub use asking::ask;
pub use fault::LookFault;
pub use look::{Look, answers, datagram_of, request_of};
pub use looking::look_for;
pub use outside::{Outside, Received};
pub use positive::is_positive;
pub use question::{Question, run_look};
pub use text::answer_text;
