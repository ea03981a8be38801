//! The questions and orders of a user to a node that runs, each a line of a script without the node's name; and the node's replies: lines
//! of a schedule, or its counters.
//!
//! # Decisions
//!
//! - `records`, `routers` and `counts` are no words of a schedule: what they say is since a process's start, or stands in the
//!   schedule's own lines.
//! - No answer is empty: a list has a line with its number, and `counts` its longest save. `lispd ask` takes one without a line
//!   for cut off. No line of an answer is `end`, which closes it on the socket.
//! - `disallowed` is a question of its own that `lispd tell` asks before `change`, which stays the order that a schedule has.
//!   It is answered by the site alone: whether a Map-Server has another configuration only the operator knows, who has
//!   `--force`.
//! - What a node does on an order isn't written into the configuration: that is the operator's file.
//! - A Map-Server is told other sites by a connection that brings their text first (`sites N`, then the bytes) and then says what is to be done
//!   with them. A long text comes in several parts, each with the sites that it says, so that no turn of the node reads much. So `reload` is a line of its own here, and `reload --- ..`, as a schedule has it, is no order (80).
//! - The sites of a part are gathered all or not at all, behind those before. `compare` and `reload` take the gathered ones, and leave none.
//! - The moment of the question serves all parts of an answer that comes by parts, so that the ages in it are of one moment: a router
//!   that is heard meanwhile has the age 0.
//! - `routers` counts all rows before its first line, since a router's line has its rows. Its lines come by parts too: how many they are
//!   depends on who registers.
#![tactic(auto)]

mod answer;
mod compare;
mod disallowed;
mod gathering;
mod line;
mod part;
mod question;

pub use answer::{fault_text, outcome_text};
pub use gathering::{Ungathered, gather, gathered_text};
pub use line::question_in;
pub use part::{Part, Progress, answer_part};
pub use question::Question;
