//! What the folders of nodes are used for.

use crate::subject::{Subject, run_subject};
use lisp_database_store::SystemTable;
use lisp_files::Ending;
use lisp_upkeep::{Forgetting, Storage, check_store, forget, raise_nonces};
use std::io::Write;

/// What the folders of nodes are used for.
#[derive(Clone, Copy)]
pub enum FolderUse<'a> {
    /// Nodes run over them.
    Run {
        /// The file of their configuration.
        config: &'a str,
        /// What runs.
        subject: Subject<'a>,
    },
    /// The nonces that a Map-Server accepted, which doesn't run, are listed or removed.
    Forget {
        /// Its name.
        name: &'a str,
        /// What is wanted of them.
        forgetting: Forgetting<'a>,
    },
    /// The nonces that a node keeps, which doesn't run, are raised.
    Raise {
        /// Its name.
        name: &'a str,
        /// By how much.
        by: u32,
    },
    /// What a node keeps, which doesn't run, is read whole.
    Check {
        /// Its name.
        name: &'a str,
    },
}

/// Uses the folders `dir`/NAME as is asked for. Faults: those of `run_subject`; or, where nothing runs, of the list 93, 87, 89, 95 and 141
/// for its first faulty line, 93 for the folder and the store in it, 88 where a line can't be written, and 97.
pub fn use_folders<T: SystemTable, W: Write>(
    rt: &HostRuntime,
    dir: &str,
    storage: Storage,
    wanted: FolderUse<'_>,
    writer: &mut W,
) -> Result<(), Ending> {
    match wanted {
        FolderUse::Run { config, subject } => {
            run_subject::<T, W>(rt, config, dir, storage, subject, writer)
        }
        FolderUse::Forget { name, forgetting } => {
            forget::<T, W>(rt, dir, name, storage, forgetting, writer)
        }
        FolderUse::Raise { name, by } => raise_nonces::<T, W>(rt, dir, name, storage, by, writer),
        FolderUse::Check { name } => check_store::<T, W>(rt, dir, name, storage, writer),
    }
}
