//! Whether a database's write-ahead log is damaged (the SQLite file format, section 4). SQLite reads a log up to its first frame that
//! doesn't go on from the one before, and drops the rest without a word: what a crash left of a transaction, or what damage cut off.
//! This crate tells the one from the other, by the bytes alone.
//!
//! # Decisions
//!
//! - A commit is synced before the next one begins, and the first byte of a new header is written last, once the others are
//!   synced. So a crash leaves a part of one transaction, and a header that is whole or has another first byte.
//! - What two crashes left in one log isn't taken for damage: the frames of the one don't go on from those of the other.
#![tactic(auto)]

mod bytes;
mod damage;
mod frame;
mod header;

pub use damage::is_damaged;
