//! The answer to one line: a Map-Register, given as hexadecimal digits, is answered as a fresh
//! Map-Server with one site would answer it.
//!
//! # Decisions
//!
//! - `answer` is a crate of its own, which `lispd` passes on: the wrong body that repeats its input is tried over this crate
//!   alone.
//! - A condition on the secret's length (1 to 256 bytes) is the caller's: `answer` is right for any secret, so its contract
//!   asks for none.
//! - A Map-Notify-Ack is refused whatever its tag, since no notice stands at a fresh server.
#![tactic(auto)]

mod answering;
mod fault;
mod fresh;
mod input;
mod line;
mod site;
mod words;

pub use answering::answer;
pub use fault::AnswerFault;
pub use site::{AnswerSetup, DEFAULT_KEY, DEFAULT_SECRET, DEFAULT_SITE, default_prefix};
