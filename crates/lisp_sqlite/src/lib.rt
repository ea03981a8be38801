//! SQLite's databases in the system's files, for what is written over databases of any kind.
//!
//! # Decisions
//!
//! - A function with a value of the connection's type, which has hundreds of fields, takes half a minute to prove, and so does a
//!   call that names that type. So what runs on sockets takes the kind of database as a type parameter, and the program names SQLite's
//!   in one call. `run_task` spares other callers that half minute: it names the type for them.
#![tactic(auto)]

use lisp_database::{SqliteTable, SystemDisk, SystemStore};
use lisp_database_store::SystemTable;
use sqlite::{File, FileStore};

/// SQLite's databases in the system's files, as a kind of database.
pub type Sqlite = SqliteTable<FileStore<File>>;

/// What is to be done over databases of any kind.
pub trait Task {
    /// What comes of it.
    type Output;

    /// Does it over databases of the kind `T`.
    fn run<T: SystemTable>(self) -> Self::Output;
}

/// Does a task over SQLite's databases in the system's files.
pub fn run_task<K: Task>(task: K) -> K::Output {
    run_on::<File, K>(task)
}

// Does a task over SQLite's databases on a disk of this kind. This and the next one are functions of their own, since a proof over a
// value with all fields of SQLite's connection, of its store and of the system's files needs more memory than one over each.
fn run_on<D: SystemDisk, K: Task>(task: K) -> K::Output {
    run_over::<FileStore<D>, K>(task)
}

// Does a task over SQLite's databases in a store of this kind.
fn run_over<S: SystemStore, K: Task>(task: K) -> K::Output {
    task.run::<SqliteTable<S>>()
}
