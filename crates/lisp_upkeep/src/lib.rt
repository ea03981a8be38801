//! The nonces that nodes keep in their folders, files or databases, and their upkeep. A folder is locked, and its store opened
//! (`open_folder`); of a node that doesn't run, it is read whole (`check_store`), the nonces that a Map-Server accepted of routers are listed
//! or removed (`forget`), and all are raised, so that an old copy of a store can be put back (`raise_nonces`).
//!
//! # Decisions
//!
//! - Each Map-Register that is accepted raises the nonce of its router under its key. So a nonce that stands in an older list, and is
//!   the same now, is of a router that wasn't heard since under that key. No clock has a part in it.
//! - An `AcceptedNonce` is of a received nonce by its type: those that a router sent and those of notices can't be listed, and so not be
//!   named to be forgotten.
//! - A line is written again before it is taken, as the name of a pair's file is: so no other text than that of a nonce is its line.
//! - What is raised is what is kept now, whatever pair it is of: what a Map-Server accepted, what its notices used, what a router sent.
//!   A copy is old in all of them.
//! - A nonce is raised to the greatest of its kind at most, and stays there: no pair keeps the others from being raised.
//! - By how much is a number of 32 bits: so a slip of it is far from using up the nonces of a key, of which a router has 2^63.
//! - Without `--database` a folder that has `nonces.db` is refused, whatever is in it: even an empty one was meant to be the
//!   truth.
#![tactic(auto)]

// The folder of a node, and what is kept there.
mod folder;
mod storage;

// What is printed: lines of nonces.
mod accepted_nonce;
mod line;
mod output;
mod store_lines;

// A list of nonces.
mod list;
mod list_fault;
mod unheard_nonces;

// What a node keeps that doesn't run: read whole; removed; and raised.
mod checking;
mod forgetting;
pub mod laws;
mod raising;

pub use checking::check_store;
pub use folder::{DATABASE, LockedFolder, open_folder};
pub use forgetting::{Forgetting, forget};
pub use output::{flush, print};
pub use raising::raise_nonces;
pub use storage::{NodeStore, Storage};
