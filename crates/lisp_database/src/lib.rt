//! The nonces of a router or a Map-Server in one SQLite database: a table of a row for each pair, with what SQL says of a load, a save
//! and a removal (`load_nonce`, `save_nonce`, `forget_nonce`), of the list of all (`load_nonces`), of groups of saves (`begin`, `commit`),
//! and of who wrote last (`load_writer`), over any connection. A `SqliteTable` is a connection as the table of a node's database.
//!
//! # Decisions
//!
//! - Each pair has one row, in words that an operator reads. A nonce is a text of 20 digits, since SQLite's integers end at
//!   2^63 - 1; zeros in front give texts the order of numbers.
//! - A save is an INSERT with ON CONFLICT DO UPDATE of all columns: one page changes, so the log gets 4 kB a save. INSERT OR
//!   REPLACE gives the row a new number, which changes the index too: 13 kB, and twice the processor's time.
//! - Statements are no values of ours: the kit's connection keeps the plans of the last 64 texts, so each of ours is compiled
//!   once.
//! - The primary key begins with the xTR-ID: comparisons then end at the first column, and a start is quicker.
//! - The table has rowids, since the kit's grammar has no WITHOUT ROWID.
#![tactic(auto)]

mod columns;
mod crash;
mod failure;
mod group;
mod nonces;
mod reading;
mod schema;
mod sqlite_table;
mod table;
mod tables;
mod writer;

pub use columns::{kind_word, site_digits, xtr_digits};
pub use crash::save_and_crash;
pub use group::{begin, commit};
pub use nonces::load_nonces;
pub use schema::is_of_nonces;
pub use sqlite_table::{SqliteTable, SystemDisk, SystemStore};
pub use table::{count_pairs, forget_nonce, keep_greatest, load_nonce, save_nonce};
pub use tables::make_tables;
pub use writer::{load_writer, save_writer};
