//! Nodes on UDP sockets: each has a socket at its address, UDP port 4342 (RFC 9301 section 5), and a clock, takes turns (`serve_over`,
//! `route_over`, `live`), and prints what it does; and a whole network, each node of which has a socket (`play_over`).
//!
//! # Decisions
//!
//! - A node that opened its pipe again is its own reader, so it never sees that the others are gone: its lines fill the pipe
//!   and are dropped. A pipe of another user can't be opened again, and ends the node when its reader goes away: the kit's
//!   write that raises no signal stands beside its calls for child processes, which no program of ours may reach.
//! - With `--json` the log waits as words, and a line becomes an object as it is written: so what waits is bounded and dropped as ever, and
//!   the time of an object is that at which it was made.
//! - To ask for room before each write (`epoll`) would leave a race with others that write to the same pipe. So standard output
//!   doesn't wait.
//! - A node's clock tells ms since 1970, so that the nodes of a machine read one clock; but from the start on it goes by the monotonic
//!   clock, so that setting the date does nothing to rows and timers.
//! - Each life of a node has a budget of its own for what it sends for Map-Requests: the second of rest between two lives keeps what
//!   both send out of one second.
#![tactic(auto)]

// What each node has: a place, and the system's devices.
mod entry;
mod inbox;
mod mailbox;
mod pace;
mod paced_mailbox;
mod save_times;
mod socket;
mod stopwatch;

// Where its lines go: to a writer, each at once, or to a log.
mod journal;
mod line_output;
mod line_writer;
mod object_output;
mod output;
mod printer;
mod standard_output;

// One node, which takes turns.
mod life;
mod lives;
mod resolving;
mod starting;

// A whole network.
mod datagrams;
mod network;

pub use entry::{NodeEntry, NodeKind, entry_at, number_named};
pub use inbox::inbox_at;
pub use journal::Journal;
pub use life::{Life, route_over, serve_over};
pub use line_output::LineForm;
pub use line_writer::LineWriter;
pub use lives::live;
pub use network::play_over;
pub use paced_mailbox::PacedMailbox;
pub use printer::Printer;
pub use resolving::Answering;
pub use save_times::{SaveTimes, TimedStore};
pub use stopwatch::{Stopwatch, ms_since_1970, us_between};
