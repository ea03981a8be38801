//! Files and streams that programs read and write, and what a program prints where one fails: which it is, what
//! was tried, and the system's error. The configuration and the script of a file; why a program on
//! sockets and files ended; the line that closes an answer on a control socket.
//!
//! # Decisions
//!
//! - A number alone says the same of a full disk and a missing folder, so the second line has the path, what was tried and the
//!   system's error. Of a database it is std's word for the error's kind, since SQLite keeps no more.
//! - Readers and writers are watched (`WatchedReader`, `WatchedWriter`), so that `play` and `answer` need not pass an error on.
//!   `RunFault` stays a number and a line, and an `Ending` has the words too.
//! - The line that closes an answer stands here, since the node that writes it (`lisp_control_socket`) and the program that reads it
//!   (`lispd_cli`) both stand on this crate. The program judges by it alone whether an answer is whole, and by none of its words.
#![tactic(auto)]

mod closing;
mod ending;
mod files;
pub mod laws;
mod problem;
mod watched;

pub use closing::{closed, whole};
pub use ending::Ending;
pub use files::{read_config, read_script};
pub use problem::{FileTrouble, Problem, STANDARD_INPUT, STANDARD_OUTPUT};
pub use watched::{WatchedReader, WatchedWriter};
