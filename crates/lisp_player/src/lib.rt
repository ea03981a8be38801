//! Plays a schedule: a configuration and a script, over a network that begins with stores that keep nothing (`play`), also noting
//! which commands it doesn't take (`play_noting`); gives what each of its commands came to, in place of writing it (`history_of`);
//! and plays commands over a network that is there, one after another (`play_on`). Scripts and their faults are passed on.
//!
//! # Decisions
//!
//! - A command that the network doesn't take is reported once the play has ended (`play_noting`). It is kept until then, so
//!   that it isn't lost for an output that can't be written.
//! - The text of a command is made after its event was taken, since only then it is known. So where memory runs out, the
//!   network may be one event further than what was printed.
//! - `play` asks for one byte at a time, and the program puts a buffer between: what is read is then exactly what the contract
//!   says.
#![tactic(auto)]

mod asked;
mod command;
mod history;
mod kept_nonce;
mod outcome;
mod playing;
mod schedule;
mod untaken;

pub use history::{History, history_of};
pub use kept_nonce::KeptNonce;
pub use lisp_lines::{DatagramPlace, write_line};
pub use lisp_script::{Command, PlayFault, ScriptFault, ScriptWhat, parse_script};
pub use outcome::Outcome;
pub use playing::play_on;
pub use schedule::{play, play_noting};
pub use untaken::{Untaken, fault_number};
