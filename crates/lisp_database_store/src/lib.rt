//! A store of nonces in a database of the system's, `DatabaseStore`: over a `Database` it commits each save, over a `SharedDatabase` its
//! saves wait for a commit. A `Database` takes over the nonces that are kept in files, and tells whether another machine wrote it last.
//! One that isn't to be opened is read (`read_database`).
//!
//! # Decisions
//!
//! - A node holds its database open and locked from its start on: another program would have to be trusted to keep nonces
//!   rising.
//! - The files are looked at before each save and after it, by device, inode and length. What is saved into a file that has
//!   lost its name is gone at the next start, so it isn't answered.
//! - Once files were lost, none is opened again until the node starts: nobody can say which nonces another file lacks.
//! - A take-over keeps the greater nonce where both the file and the database have one: nonces only rise, so that one is the
//!   later. The files are renamed and not removed, which is left to an operator.
//! - `application_id` and `user_version` stand in the first page of a new file, which is put in place before the kit opens it.
//!   The kit refuses these pragmas, and keeps the fields.
//! - Stores and groups are written over any open database (`SystemTable`), in words whose meaning is that database's own
//!   (`Meaning`). So none of them loads what is stated of SQLite, and each proves in a second in place of three.
//! - `DatabaseStore` works over a database of its own or over a shared one, by the trait `Keeper`. Neither is called honest, so
//!   what a load found and a save kept are words of that trait: the laws of an honest store alone would let it save another
//!   nonce.
//! - A database that is only looked at isn't opened: an open may write to the log, as to what a crash left of a commit. It is read in
//!   memory, and checked there as an open checks it: each page, the index and the constraints.
//! - Of what is in a cell a contract knows nothing, so `SharedDatabase::commit` alone may say that a commit was done
//!   (`SomeIsDone`).
#![tactic(auto)]

mod database;
mod failure;
mod files;
mod group;
mod keeper;
mod log_file;
mod new_file;
mod reading;
mod reopening;
mod shared;
mod store;
mod table;
mod taking;
mod writer;

pub use database::Database;
pub use failure::Failure;
pub use keeper::Keeper;
pub use lisp_store::{Change, KeptNonce};
pub use reading::read_database;
pub use shared::SharedDatabase;
pub use store::DatabaseStore;
pub use table::{SystemTable, Table};
