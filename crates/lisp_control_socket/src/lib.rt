//! The Unix socket in the folder of a node that runs: a user asks the node there, tells it what to do, gives it sites, and has it copy its
//! database (`ControlSocket`). What a line asks and what answers it are of `lisp_control`.
//!
//! # Decisions
//!
//! - A node has one connection at a time, and the others wait in the system's queue. One that doesn't take its answer in time
//!   is dropped.
//! - `--control` names a folder and not a socket: who may write the folder may connect. What isn't a socket is never removed,
//!   since the folder need not be the node's.
//! - The socket gets the write bits of its folder's mode right after it was made, since the kit has no call for the umask. Who
//!   connected before is dropped.
//! - A node whose socket can't be made runs without it, with a warning: a long path is no reason to stop a Map-Server.
//! - A copy of a database is made of its two files, and not by SQLite: between two calls of a node they stand as the last commit left them,
//!   and nobody else writes them. Both are copied as they are, since a database of nonces without its log isn't opened. Names of files that
//!   the node reads at a start are refused, so that a copy can't keep it from starting.
#![tactic(auto)]

mod backup;
mod bound_socket;
mod connection;
mod control;

pub use backup::DatabaseFolder;
pub use connection::AskedNode;
pub use control::ControlSocket;
