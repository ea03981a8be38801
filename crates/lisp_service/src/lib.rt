//! What the folders of nodes are used for (`use_folders`): a Map-Server, a site router, or a whole network in one process that a script drives
//! runs over them (`run_server`, `run_router`, `run_loop`), on sockets of `lisp_udp`; or of a node that doesn't run, what is kept there is
//! listed, forgotten, raised or checked (`lisp_upkeep`).
//!
//! # Decisions
//!
//! - A node runs until it is killed, since the kit sees no signals. Nothing is lost by that: a nonce is synced before its
//!   message is answered or sent.
//! - With `--turns` a test reads each line, and all lines are as in a schedule. Without it the node is a service and prints
//!   through `lisp_log`, so only then come sources, kinds of errors and sums.
//! - In `loop` the stores obey the disk and not the script: `doubt`, `loadfails` and the value that a restart picks have no
//!   effect.
#![tactic(auto)]

mod devices;
mod folder_use;
mod network;
mod node;
mod subject;

pub use folder_use::{FolderUse, use_folders};
pub use subject::{NodeStart, Stretch, Subject, run_loop, run_router, run_server, run_subject};
