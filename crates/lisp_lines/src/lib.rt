//! The text of each line that an event or a query of a schedule prints, and of what a Map-Server or a router answers that is asked, and
//! writing them.
//!
//! # Decisions
//!
//! - `write_bytes` takes the place of std's `write_all`, which says nothing of what went out where it fails.
//! - A text that must be exact when memory runs out is appended a character at a time (`put_carried`, `put_acks`): std says
//!   nothing of what a `write!` that failed leaves.
//! - Lines don't name part 0, so that those of a router whose database fits one message have no part.
//! - Rows are listed by their places and not over a copy: a copy of 100,000 rows is itself the stall. A part of 256 rows took
//!   less than a millisecond when it was measured.
//! - Few rows come at once, sorted: an answer of one part is exact whatever happens, and most lists are short.
//! - A list by parts closes with its number, since nobody knows it before. `lispd ask` compares it with the rows that came.
#![tactic(auto)]

mod append;
mod carried;
mod datagram_place;
mod held;
mod identity;
mod line;
mod listing;
mod name;
mod nodes;
mod output;
mod query;
mod records;
mod reply;
mod router;
mod server;
mod walk;
mod wording;
mod writing;

pub use carried::put_carried;
pub use datagram_place::DatagramPlace;
pub use held::{hold_by_parts, put_held};
pub use line::line_text;
pub use listing::{MOST_ROWS, RowsPart, next_rows};
pub use name::{node_name, put_router_word, router_name};
pub use nodes::nodes_text;
pub use output::{Unwritten, write_bytes};
pub use query::{ask_text, due_router_text, due_server_text, hold_text, put_acks, put_row};
pub use records::records_text;
pub use reply::request_text;
pub use router::{RouterQuestion, router_answer};
pub use server::{ServerQuestion, server_answer};
pub use walk::{Walk, holds_at_least};
pub use wording::Wording;
pub use writing::{write_line, write_text};
