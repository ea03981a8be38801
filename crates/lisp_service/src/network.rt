//! A network whose nodes keep their nonces in folders.

ghost use Rattle.std.specs.Prelude.{◌≡◌, IfOk, length};
ghost use Rattle.lisp_sites.specs.Numbers.{node_count};

use lisp_database_store::{Database, DatabaseStore, SystemTable};
use lisp_files::{Ending, read_script};
use lisp_memory::FallibleVec;
use lisp_sites::Config;
use lisp_store::{FileStore, SystemFolder};
use lisp_udp::{entry_at, play_over};
use lisp_upkeep::{LockedFolder, Storage, open_folder};
use std::cell::Cell;
use std::fs::{File, Files};
use std::io::{ErrorKind, Write};

/// Plays a script over a network as `run_loop` does, with the configuration that was read, and with the file or the folder that failed, where
/// one did.
pub(crate) fn run_network<T: SystemTable, W: Write>(
    rt: &HostRuntime,
    config: &Config,
    file: &str,
    dir: &str,
    storage: Storage,
    writer: &mut W,
) -> Result<(), Ending> {
    let commands = read_script(rt, config, file)?;
    let failure = Cell::new(None);
    let folders = open_folders(rt, config, dir)?;
    match storage {
        Storage::Files => {
            let stores = file_stores(rt, &folders, &failure)?;
            Ok(play_over(rt, config, stores, &commands, writer)?)
        }
        Storage::Database { .. } => {
            let stores = database_stores::<T>(rt, &folders, &failure)?;
            Ok(play_over(rt, config, stores, &commands, writer)?)
        }
    }
}

// The folder of each node, Map-Servers first.
fn open_folders<R: Files<File = File> + AllocGlobal>(
    rt: &R,
    config: &Config,
    dir: &str,
) -> Result<Vec<LockedFolder>, Ending>
    ensures { IfOk result (λ folders. length folders.items ≡ node_count config.now) }
{
    let mut folders = Vec::new(rt.alloc());
    for number in 0..config.node_count() {
        folders.try_push(open_folder(rt, dir, entry_at(config, number).name)?)?;
    }
    Ok(folders)
}

// A store in the files of each folder. `failure` holds the kind of the last error of their devices.
fn file_stores<'a>(
    rt: &HostRuntime,
    folders: &Vec<LockedFolder>,
    failure: &'a Cell<Option<ErrorKind>>,
) -> Result<Vec<FileStore<SystemFolder<'a, HostRuntime>>>, Ending>
    ensures { IfOk result (λ stores. length stores.items ≡ length folders.now.items) }
{
    let mut stores = Vec::new(rt.alloc());
    for folder in folders {
        stores.try_push(folder.file_store(rt, failure)?)?;
    }
    Ok(stores)
}

// A store in a database of each folder. `failure` holds the kind of the last error of their devices.
fn database_stores<'a, T: SystemTable>(
    rt: &HostRuntime,
    folders: &Vec<LockedFolder>,
    failure: &'a Cell<Option<ErrorKind>>,
) -> Result<Vec<DatabaseStore<'a, Database<T>>>, Ending>
    ensures { IfOk result (λ stores. length stores.items ≡ length folders.now.items) }
{
    let mut stores = Vec::new(rt.alloc());
    for folder in folders {
        stores.try_push(DatabaseStore::over(folder.database(rt)?, failure))?;
    }
    Ok(stores)
}
