//! Where nodes keep their nonces.

use lisp_database_store::Database;
use lisp_store::{FileStore, SystemFolder};

/// Where nodes keep their nonces.
#[derive(Clone, Copy, Debug, PartialEq, Eq)]
pub enum Storage {
    /// In a file for each pair.
    Files,
    /// In a database for each node, the file `nonces.db` in its folder. It takes over the nonces that files keep.
    Database {
        /// How many datagrams a Map-Server takes in a turn at most, whose nonces are committed together: 1 to 64. A router commits each
        /// nonce before it sends, whatever this says.
        group: u8,
    },
}

/// Where a node keeps its nonces, opened.
#[derive(Drop)]
pub enum NodeStore<'a, T> {
    /// In files.
    Files(FileStore<SystemFolder<'a, HostRuntime>>),
    /// In a database.
    Database {
        /// The database.
        database: Database<T>,
        /// How many datagrams are committed together at most.
        group: u8,
    },
}
