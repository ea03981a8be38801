//! What a capture of the LISP control plane's port has, as text: a line for each message that says who sent it, what it is and whether its
//! tag checks, or why it can't be read (RFC 9301 section 5).
//! Or as a schedule, in which what it brought to nodes is given to them again.
//!
//! # Decisions
//!
//! - Each packet gives a text, which is empty where it is none to or from UDP port 4342. So the lines of a capture are those of its
//!   packets, one after the other, and no more than one is in memory.
//! - Lines take the sites of a configuration and not all of it: without one there are no sites, and no tag is known.
//! - A packet that may be one of the control plane is told though it isn't read: an IP fragment, one that was cut, or damaged.
//! - In a schedule time passes in whole ms since the first packet, so that no part of a ms is lost between two.
#![tactic(auto)]

mod entry;
mod fault_text;
mod line;
mod message_text;
mod pieces;
mod reading;
mod schedule;
mod tag;
mod transcript;
mod verdict;
mod writing;

pub use line::line_text;
pub use schedule::Schedule;
pub use tag::Tag;
pub use transcript::Transcript;
pub use verdict::tag_of;
pub use writing::{WriteFault, write_lines, write_schedule};
