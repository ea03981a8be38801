//! A connection as the table of a node's database.

ghost use Rattle.std.specs.Prelude.{◌≡◌, Ok, IfOk, IfErr};
ghost use Rattle.lisp_database.specs.Fault.{load_fault};
ghost use Rattle.lisp_database.specs.Meaning.{sqlite_meaning};

use crate::failure::failure_of;
use crate::group::{begin, commit};
use crate::nonces::load_nonces;
use crate::reading::{disk_of, nonces_on};
use crate::table::{count_pairs, forget_nonce, keep_greatest, load_nonce, save_nonce};
use crate::tables::make_tables;
use crate::writer::{load_writer, save_writer};
use lisp_database_store::{Failure, KeptNonce, SystemTable, Table};
use lisp_nonces::Pair;
use lisp_store::Writer;
use sqlite::{Alter, Connection, Error, ErrorCode, File, FileStore, Files};
use sqlite_disk::Disk;
use sqlite_trees::error::StoreError;
use std::alloc::Global;

/// SQLite's connection, as the table of a node's database: its calls are the functions of this crate.
#[derive(Drop)]
pub struct SqliteTable<S: Alter> {
    connection: Connection<S>,
}

impl<S: Alter + Drop> Table for SqliteTable<S> {
    ghost means = { sqlite_meaning S.Store };

    #[tactic(auto, unfolding(crate::specs::Meaning::sqlite_meaning))]
    fn make_tables(&mut self) -> Result<(), Failure> {
        told(make_tables(&mut self.connection))
    }

    #[tactic(auto, unfolding(crate::specs::Meaning::sqlite_meaning))]
    fn load(&mut self, pair: &Pair) -> Result<Option<u64>, Failure> {
        told(load_nonce(&mut self.connection, pair))
    }

    #[tactic(auto, unfolding(crate::specs::Meaning::sqlite_meaning))]
    fn save(&mut self, pair: &Pair, nonce: u64) -> Result<(), Failure> {
        told(save_nonce(&mut self.connection, pair, nonce))?;
        Ok(())
    }

    #[tactic(auto, unfolding(crate::specs::Meaning::sqlite_meaning))]
    fn forget(&mut self, pair: &Pair) -> Result<(), Failure> {
        told(forget_nonce(&mut self.connection, pair))?;
        Ok(())
    }

    #[tactic(auto, unfolding(crate::specs::Meaning::sqlite_meaning))]
    fn nonces(&mut self) -> Result<Vec<KeptNonce>, Failure> {
        told(load_nonces(&mut self.connection))
    }

    #[tactic(auto, unfolding(crate::specs::Meaning::sqlite_meaning))]
    fn keep_greatest(&mut self, pair: &Pair, nonce: u64) -> Result<(), Failure> {
        told(keep_greatest(&mut self.connection, pair, nonce))
    }

    #[tactic(auto, unfolding(crate::specs::Meaning::sqlite_meaning))]
    fn begin(&mut self) -> Result<(), Failure> {
        told(begin(&mut self.connection))
    }

    #[tactic(auto, unfolding(crate::specs::Meaning::sqlite_meaning))]
    fn commit(&mut self) -> Result<(), Failure> {
        told(commit(&mut self.connection))
    }

    #[tactic(auto, unfolding(crate::specs::Meaning::sqlite_meaning))]
    fn has_transaction(&self) -> bool {
        !self.connection.is_autocommit()
    }

    #[tactic(auto, unfolding(crate::specs::Meaning::sqlite_meaning))]
    fn count_pairs(&mut self) -> Result<usize, Failure> {
        told(count_pairs(&mut self.connection))
    }

    #[tactic(auto, unfolding(crate::specs::Meaning::sqlite_meaning))]
    fn load_writer(&mut self) -> Result<Option<Writer>, Failure> {
        told(load_writer(&mut self.connection))
    }

    #[tactic(auto, unfolding(crate::specs::Meaning::sqlite_meaning))]
    fn save_writer(&mut self, writer: &Writer) -> Result<(), Failure> {
        told(save_writer(&mut self.connection, writer))
    }
}

// The answer of a call, with its error as the database has it.
fn told<V: Drop>(answer: Result<V, Error>) -> Result<V, Failure>
    ensures done { IfOk answer (λ value. result ≡ Ok value) }
    ensures same { IfOk result (λ value. answer ≡ Ok value) }
    ensures fault { IfErr answer
        (λ error. IfErr result (λ failure. failure.fault ≡ load_fault error)) }
{
    match answer {
        Ok(value) => Ok(value),
        Err(error) => Err(failure_of(error)),
    }
}

// Why a log wasn't moved.
fn unmoved(error: StoreError) -> ErrorCode {
    match error {
        StoreError::OutOfMemory => ErrorCode::OutOfMemory,
        StoreError::Corrupt => ErrorCode::DatabaseCorrupt,
        StoreError::Full => ErrorCode::DiskFull,
        StoreError::Io | StoreError::Broken | StoreError::Unstorable => ErrorCode::SystemIoFailure,
    }
}

/// A store of the system's, over which SQLite opens databases by a path.
pub trait SystemStore: Alter + Drop {
    /// Opens the database at `path`, or an empty one where nothing is there.
    fn open(rt: &HostRuntime, path: &str) -> Result<Connection<Self>, Error>;

    /// Moves what its log has into the file, syncs both, and closes them.
    fn close(self) -> Result<(), Error>;
}

impl<S: SystemStore> SystemTable for SqliteTable<S> {
    fn open(rt: &HostRuntime, path: &str) -> Result<SqliteTable<S>, Failure> {
        let connection = told(S::open(rt, path))?;
        Ok(SqliteTable { connection })
    }

    fn read(alloc: Global, file: &[u8], log: &[u8]) -> Result<Vec<KeptNonce>, Failure> {
        let files = Files {
            log: disk_of(alloc, log)?,
            db: disk_of(alloc, file)?,
        };
        told(nonces_on(alloc, files))
    }

    fn close(self) -> Result<(), Failure> {
        told(self.connection.into_store().close())
    }
}

/// A disk of the system's, on which such a store is.
pub trait SystemDisk: Disk + Drop {
    /// As `SystemStore::open`.
    fn open(rt: &HostRuntime, path: &str) -> Result<Connection<FileStore<Self>>, Error>;
}

impl<D: SystemDisk> SystemStore for FileStore<D> {
    fn open(rt: &HostRuntime, path: &str) -> Result<Connection<FileStore<D>>, Error> {
        D::open(rt, path)
    }

    fn close(mut self) -> Result<(), Error> {
        match self.checkpoint() {
            Ok(()) => Ok(()),
            Err(error) => Err(Error::SqliteFailure(unmoved(error))),
        }
    }
}

impl SystemDisk for File {
    fn open(rt: &HostRuntime, path: &str) -> Result<Connection<FileStore<File>>, Error> {
        Connection::open(rt, path)
    }
}
