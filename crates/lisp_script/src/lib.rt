//! Scripts: the events of a schedule and what is asked of its nodes, a line each. And where they are read: an input to its
//! end, a schedule; why an input can't be taken, or a play or a node ends.
//!
//! # Decisions
//!
//! - The bound on reads is tested and not proved: contracts see what is left of std's readers, and not how often they were
//!   asked.
//! - The sites of `reload` are words too, put together again with a space behind each: so every line is cut in one way, and TOML
//!   reads them as the line had them, since it minds no spaces between values, and no value of sites has a space in it. `---` is a
//!   word before them, as before a script, so that what is behind it is plainly of another language.
//! - `toml` asks for memory of its own and says nothing of when it is refused. So a script may run out of memory at a `reload`
//!   whatever its allocator; without one the contracts say where it may.
//! - `WorldFault` stands in `lisp_model`, so that scripts and what the program's words need are read without a network.
#![tactic(auto)]

mod command;
mod fault;
mod input;
mod input_fault;
mod line_numbers;
mod parts;
mod play_fault;
mod run_fault;
mod schedule;
mod script;
mod spelling;
mod verb;
mod words;

pub use command::Command;
pub use fault::{ScriptFault, ScriptWhat};
pub use input::read_to_end;
pub use input_fault::InputFault;
pub use line_numbers::{command_lines, schedule_lines};
pub use play_fault::PlayFault;
pub use run_fault::RunFault;
pub use schedule::read_schedule;
pub use script::parse_script;
