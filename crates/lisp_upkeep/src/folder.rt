//! The folders in which nodes keep their nonces.

ghost use Rattle.std.specs.Prelude.{◌≡◌, ◌↔◌, [], IsOk, IfOk, IfErr};
ghost use Rattle.lisp_script.specs.RunFault.{numbered};
ghost use Rattle.lisp_upkeep.specs.Folder.{OpensSigned, database_fault};

use crate::raising::raise;
use crate::storage::{NodeStore, Storage};
use lisp_database_store::{Change, Database, DatabaseStore, Failure, SystemTable, read_database};
use lisp_files::{Ending, Problem};
use lisp_memory::FallibleString;
use lisp_nonces::{Pair, StoreFault};
use lisp_script::RunFault;
use lisp_store::{
    FileStore, FoundFiles, KeptNonce, SystemFolder, count_pairs, find_files, forget_nonce,
    is_file_there, read_nonces,
};
use std::alloc::AllocError;
use std::cell::Cell;
use std::fs::{self, File, Files, TryLockError};
use std::io::{self, ErrorKind};

/// The name of the database in the folder of its node.
pub const DATABASE: &str = "nonces.db";

/// The folder of a node, and the lock that keeps other processes out of it while this value lives.
#[derive(Drop)]
pub struct LockedFolder {
    path: String,
    _lock: File,
}

/// The folder `dir`/`name`, made where it isn't there. Fault: 93 where it can't be made, or where another process has it.
pub fn open_folder<R: Files<File = File> + AllocGlobal>(
    rt: &R,
    dir: &str,
    name: &str,
) -> Result<LockedFolder, Ending> {
    make_folder(rt, dir)?;
    let path = String::try_format(rt.alloc(), format_args!("{dir}/{name}"))?;
    make_folder(rt, path.as_str())?;
    let lock = lock_folder(rt, path.as_str())?;
    Ok(LockedFolder { path, _lock: lock })
}

/// The folder `dir`/`name`, which is to be there. Fault: 93 where it isn't, or where another process has it.
pub(crate) fn find_folder<R: Files<File = File> + AllocGlobal>(
    rt: &R,
    dir: &str,
    name: &str,
) -> Result<LockedFolder, Ending> {
    let path = String::try_format(rt.alloc(), format_args!("{dir}/{name}"))?;
    is_folder(rt, path.as_str())?;
    let lock = lock_folder(rt, path.as_str())?;
    Ok(LockedFolder { path, _lock: lock })
}

impl LockedFolder {
    /// Its path.
    pub fn path(&self) -> &str {
        self.path.as_str()
    }

    /// As `open_store`, but a database is to be there. Fault: 93 where it isn't.
    pub(crate) fn find_store<'a, T: SystemTable>(
        &self,
        rt: &HostRuntime,
        storage: Storage,
        failure: &'a Cell<Option<ErrorKind>>,
    ) -> Result<NodeStore<'a, T>, Ending> {
        if let Storage::Database { .. } = storage {
            self.find_database(rt)?;
        }
        self.open_store(rt, storage, failure)
    }

    // Refuses a folder without a database.
    fn find_database(&self, rt: &HostRuntime) -> Result<(), Ending> {
        let database = self.database_path(rt)?;
        let path = database.as_str();
        match is_file_there(rt, path) {
            Ok(true) => Ok(()),
            Ok(false) => Err(Ending::of_file(rt.alloc(), path, Problem::Missing)),
            Err(error) => Err(Ending::of_file(rt.alloc(), path, looked(error))),
        }
    }

    /// The node's store there. `failure` holds the kind of the last error of its device from now on. Faults: those of `file_store` and
    /// of `database`.
    pub fn open_store<'a, T: SystemTable>(
        &self,
        rt: &HostRuntime,
        storage: Storage,
        failure: &'a Cell<Option<ErrorKind>>,
    ) -> Result<NodeStore<'a, T>, Ending> {
        match storage {
            Storage::Files => Ok(NodeStore::Files(self.file_store(rt, failure)?)),
            Storage::Database { group } => Ok(NodeStore::Database {
                database: self.database(rt)?,
                group,
            }),
        }
    }

    /// The store in its files. `failure` holds the kind of the last error of its device from now on. Faults: 93 where the folder has
    /// a database, or something else of its name; 97.
    pub fn file_store<'a>(
        &self,
        rt: &HostRuntime,
        failure: &'a Cell<Option<ErrorKind>>,
    ) -> Result<FileStore<SystemFolder<'a, HostRuntime>>, Ending> {
        self.refuse_database(rt)?;
        Ok(FileStore::open(rt, self.path.as_str(), failure)?)
    }

    // Refuses a folder with a database.
    fn refuse_database(&self, rt: &HostRuntime) -> Result<(), Ending> {
        let database = self.database_path(rt)?;
        let path = database.as_str();
        match is_file_there(rt, path) {
            Ok(false) => Ok(()),
            Ok(true) => Err(Ending::of_file(rt.alloc(), path, Problem::HasDatabase)),
            Err(error) => Err(Ending::of_file(rt.alloc(), path, looked(error))),
        }
    }

    /// The database in it, made where it isn't there. It takes over what files of the folder keep. Where another machine wrote it
    /// last, or this one before it was started again, that is a warning on standard error. Faults: 93 where the database or a file
    /// can't be opened, read or written, or holds something else; 97.
    pub fn database<T: SystemTable>(&self, rt: &HostRuntime) -> Result<Database<T>, Ending> {
        let path = self.database_path(rt)?;
        match self.signed(rt, path.as_str()) {
            Ok((database, change)) => {
                warn(rt, path.as_str(), change);
                Ok(database)
            }
            Err(unsigned) => Err(self.unsigned(rt, path.as_str(), unsigned)),
        }
    }

    // The database at a path, and what changed since it was written last.
    fn signed<T: SystemTable>(
        &self,
        rt: &HostRuntime,
        path: &str,
    ) -> Result<(Database<T>, Change), Unsigned>
        ensures { IfOk result (λ signed. OpensSigned T.Table.means signed.0.table signed.1) }
    {
        let mut database = match Database::open(rt, path) {
            Ok(database) => database,
            Err(failure) => return Err(Unsigned::at(Step::Open, failure)),
        };
        match database.take_over(rt, self.path.as_str()) {
            Ok(_) => {}
            Err(failure) => return Err(Unsigned::at(Step::TakeOver, failure)),
        }
        match database.sign(rt) {
            Ok(change) => Ok((database, change)),
            Err(failure) => Err(Unsigned::at(Step::Sign, failure)),
        }
    }

    // Why the node ends where its database isn't opened and signed.
    fn unsigned(&self, rt: &HostRuntime, path: &str, unsigned: Unsigned) -> Ending
        ensures { result.fault ≡ numbered (database_fault unsigned.failure.fault) }
    {
        match unsigned.failure.fault {
            StoreFault::OutOfMemory => Ending::from(RunFault::MEMORY),
            StoreFault::Device | StoreFault::Damaged => self.unusable(rt, path, unsigned),
        }
    }

    // The same, where memory didn't run out.
    fn unusable(&self, rt: &HostRuntime, path: &str, unsigned: Unsigned) -> Ending
        ensures { result.fault ≡ numbered 93 }
    {
        let failure = unsigned.failure;
        let (path, problem) = match unsigned.step {
            Step::Open => (path, unopened(rt, path, failure)),
            Step::TakeOver => (self.path.as_str(), untaken(failure)),
            Step::Sign => (path, unwritten(failure)),
        };
        Ending::of_file(rt.alloc(), path, problem)
    }

    /// How many pairs the store there keeps nonces for. Fault: 93 where it can't be read, or where it is known to keep some and keeps
    /// none.
    pub fn pairs<T: SystemTable>(
        &self,
        rt: &HostRuntime,
        store: &mut NodeStore<'_, T>,
        is_known: bool,
    ) -> Result<usize, Ending> {
        let path = self.path.as_str();
        let problem = match counted(rt, path, store) {
            Ok(0) if is_known => Problem::NoNonces,
            Ok(pairs) => return Ok(pairs),
            Err(error) => Problem::Count(error),
        };
        Err(Ending::of_file(rt.alloc(), path, problem))
    }

    /// The nonces that the store there keeps. Faults: 93 where they can't be read, or one is damaged; 97.
    pub(crate) fn nonces<T: SystemTable>(
        &self,
        rt: &HostRuntime,
        store: &mut NodeStore<'_, T>,
    ) -> Result<Vec<KeptNonce>, Ending> {
        match store {
            NodeStore::Files(_) => match read_nonces(rt, self.path.as_str()) {
                Ok(nonces) => Ok(nonces),
                Err(error) => Err(self.broken_files(rt, error, Problem::Read(error))),
            },
            NodeStore::Database { database, .. } => match database.nonces() {
                Ok(nonces) => Ok(nonces),
                Err(failure) => Err(self.broken_database(
                    rt,
                    failure,
                    Problem::Read(error_of(failure)),
                )),
            },
        }
    }

    /// What the store there keeps, read as it lies there, and which of its files are damaged: those beside a database too, which it takes
    /// over. Nothing is changed. Faults: 93 where the folder or the database can't be read, or isn't what is to be there, or the database is
    /// damaged; 97.
    pub(crate) fn find_nonces<T: SystemTable>(
        &self,
        rt: &HostRuntime,
        storage: Storage,
    ) -> Result<FoundFiles, Ending> {
        let mut kept = match storage {
            Storage::Files => {
                self.refuse_database(rt)?;
                Vec::new(rt.alloc())
            }
            Storage::Database { .. } => self.database_nonces::<T>(rt)?,
        };
        match find_files(rt, self.path.as_str()) {
            Ok(mut found) => {
                found.nonces.append(&mut kept)?;
                Ok(found)
            }
            Err(error) => Err(self.broken_files(rt, error, Problem::Read(error))),
        }
    }

    // The nonces of its database, which isn't opened.
    fn database_nonces<T: SystemTable>(&self, rt: &HostRuntime) -> Result<Vec<KeptNonce>, Ending> {
        self.find_database(rt)?;
        let database = self.database_path(rt)?;
        let path = database.as_str();
        match read_database::<T, HostRuntime>(rt, path) {
            Ok(nonces) => Ok(nonces),
            Err(failure) => Err(self.unsigned(rt, path, Unsigned::at(Step::Open, failure))),
        }
    }

    /// Refuses what was found in it where a file is damaged. Faults: 93, 97.
    pub(crate) fn refuse_damaged(&self, rt: &HostRuntime, found: &FoundFiles) -> Result<(), Ending>
        ensures { IsOk result ↔ (found.now.damaged.items ≡ []) }
    {
        if found.damaged.is_empty() {
            return Ok(());
        }
        let path = self.path.as_str();
        Err(Ending::of_file(rt.alloc(), path, Problem::DamagedNonce))
    }

    /// Removes what the store there keeps for a pair, and is done once that is synced. Faults: 93 where it can't be removed; 97.
    pub(crate) fn forget<T: SystemTable>(
        &self,
        rt: &HostRuntime,
        store: &mut NodeStore<'_, T>,
        pair: &Pair,
    ) -> Result<(), Ending> {
        match store {
            NodeStore::Files(_) => match forget_nonce(rt, self.path.as_str(), pair) {
                Ok(()) => Ok(()),
                Err(error) => Err(self.broken_files(rt, error, Problem::Forget(error))),
            },
            NodeStore::Database { database, .. } => match database.forget(pair) {
                Ok(()) => Ok(()),
                Err(failure) => Err(self.broken_database(
                    rt,
                    failure,
                    Problem::Forget(error_of(failure)),
                )),
            },
        }
    }

    /// Raises these nonces in the store there, and is done once each is synced. `failure` holds the kind of the last error of the store's
    /// device. Faults: 93 where one can't be saved; 97.
    pub(crate) fn raise<T: SystemTable>(
        &self,
        rt: &HostRuntime,
        store: NodeStore<'_, T>,
        failure: &Cell<Option<ErrorKind>>,
        nonces: &[KeptNonce],
        by: u32,
    ) -> Result<(), Ending> {
        let raised = match store {
            NodeStore::Files(mut store) => raise(&mut store, nonces, by),
            NodeStore::Database { database, .. } => {
                let mut store = DatabaseStore::over(database, failure);
                raise(&mut store, nonces, by)
            }
        };
        match raised {
            Ok(()) => Ok(()),
            Err(StoreFault::OutOfMemory) => Err(Ending::from(RunFault::MEMORY)),
            Err(StoreFault::Device | StoreFault::Damaged) => {
                let error = io::Error::from(failure.get().unwrap_or(ErrorKind::Other));
                Err(Ending::of_file(rt.alloc(), self.path.as_str(), Problem::Write(error)))
            }
        }
    }

    // Why a call over the files failed; `refused` says what the system refused.
    fn broken_files(&self, rt: &HostRuntime, error: io::Error, refused: Problem) -> Ending {
        let problem = match error.kind() {
            ErrorKind::OutOfMemory => return Ending::from(RunFault::MEMORY),
            ErrorKind::InvalidData => Problem::DamagedNonce,
            _ => refused,
        };
        Ending::of_file(rt.alloc(), self.path.as_str(), problem)
    }

    // The same, of the database.
    fn broken_database(&self, rt: &HostRuntime, failure: Failure, refused: Problem) -> Ending {
        let problem = match failure.fault {
            StoreFault::OutOfMemory => return Ending::from(RunFault::MEMORY),
            StoreFault::Damaged => Problem::NoDatabase,
            StoreFault::Device => refused,
        };
        match self.database_path(rt) {
            Ok(path) => Ending::of_file(rt.alloc(), path.as_str(), problem),
            Err(error) => Ending::from(error),
        }
    }

    fn database_path(&self, rt: &HostRuntime) -> Result<String, AllocError> {
        let path = self.path.as_str();
        String::try_format(rt.alloc(), format_args!("{path}/{DATABASE}"))
    }
}

/// What was tried with a database.
#[derive(Clone, Copy)]
enum Step {
    /// It was opened, or made.
    Open,
    /// It took over what files keep.
    TakeOver,
    /// Who writes it was kept.
    Sign,
}

/// Why a database isn't opened and signed.
#[derive(Clone, Copy)]
struct Unsigned {
    step: Step,
    failure: Failure,
}

impl Unsigned {
    fn at(step: Step, failure: Failure) -> Unsigned
        ensures { (result.step ≡ step) × (result.failure ≡ failure) }
    {
        Unsigned { step, failure }
    }
}

// The system's error of a database that failed.
fn error_of(failure: Failure) -> io::Error {
    io::Error::from(failure.kind)
}

// What is wrong with a database that can't be opened or made.
fn unopened(rt: &HostRuntime, path: &str, failure: Failure) -> Problem {
    match is_file_there(rt, path) {
        Ok(is_there) => unusable_file(is_there, failure),
        Err(error) => looked(error),
    }
}

// The same, where a file of its name is there, or nothing is.
fn unusable_file(is_there: bool, failure: Failure) -> Problem {
    match failure.fault {
        StoreFault::Damaged if failure.kind == ErrorKind::NotFound => Problem::LogGone,
        StoreFault::Damaged if is_there => Problem::NoDatabase,
        StoreFault::Damaged => Problem::LogAlone,
        _ => Problem::Open(io::Error::from(failure.kind)),
    }
}

// What is wrong with a folder whose files can't be taken over.
fn untaken(failure: Failure) -> Problem {
    match failure.fault {
        StoreFault::Damaged => Problem::DamagedNonce,
        _ => Problem::TakeOver(io::Error::from(failure.kind)),
    }
}

// What is wrong with a database in which it can't be kept who writes it.
fn unwritten(failure: Failure) -> Problem {
    match failure.fault {
        StoreFault::Damaged => Problem::NoDatabase,
        _ => Problem::Write(io::Error::from(failure.kind)),
    }
}

// How many pairs a store keeps nonces for, in its folder.
fn counted<T: SystemTable>(
    rt: &HostRuntime,
    path: &str,
    store: &mut NodeStore<'_, T>,
) -> io::Result<usize> {
    match store {
        NodeStore::Files(_) => count_pairs(rt, path),
        NodeStore::Database { database, .. } => match database.pairs() {
            Ok(pairs) => Ok(pairs),
            Err(failure) => Err(io::Error::from(failure.kind)),
        },
    }
}

// Says that a database was written elsewhere, or before the machine was started again: it may be an old copy that was put back.
fn warn(rt: &HostRuntime, path: &str, change: Change) {
    let words = match change {
        Change { machine: true, .. } => "on another machine",
        Change { boot: true, .. } => "before this machine was started again",
        _ => return,
    };
    let path = path.escape_debug();
    let _ = eprintln!(rt; "warning: {path} was last written {words}");
}

fn make_folder<R: Files + AllocGlobal>(rt: &R, path: &str) -> Result<(), Ending>
    ensures { IfErr result (λ ending. ending.fault ≡ numbered 93) }
{
    match fs::create_dir(rt, path) {
        Ok(()) => Ok(()),
        Err(error) if error.kind() == ErrorKind::AlreadyExists => is_folder(rt, path),
        Err(error) => Err(Ending::of_file(rt.alloc(), path, Problem::Make(error))),
    }
}

// Refuses what stands at the path where it is no folder.
fn is_folder<R: Files + AllocGlobal>(rt: &R, path: &str) -> Result<(), Ending>
    ensures { IfErr result (λ ending. ending.fault ≡ numbered 93) }
{
    let problem = match fs::metadata(rt, path) {
        Ok(found) if found.is_dir() => return Ok(()),
        Ok(_) => Problem::NoFolder,
        Err(error) => Problem::Look(error),
    };
    Err(Ending::of_file(rt.alloc(), path, problem))
}

// The system frees the lock when the process ends, however it ends.
fn lock_folder<R: Files<File = File> + AllocGlobal>(rt: &R, folder: &str) -> Result<File, Ending> {
    let path = String::try_format(rt.alloc(), format_args!("{folder}/lock"))?;
    let path = path.as_str();
    match open_lock(rt, path) {
        Ok(file) => match file.try_lock() {
            Ok(()) => Ok(file),
            Err(TryLockError::WouldBlock) => {
                Err(Ending::of_file(rt.alloc(), folder, Problem::Taken))
            }
            Err(TryLockError::Error(error)) => {
                Err(Ending::of_file(rt.alloc(), path, Problem::Lock(error)))
            }
        },
        Err(problem) => Err(Ending::of_file(rt.alloc(), path, problem)),
    }
}

// The file of a lock, made where it isn't there.
fn open_lock<R: Files<File = File>>(rt: &R, path: &str) -> Result<File, Problem> {
    if let Err(error) = is_file_there(rt, path) {
        return Err(looked(error));
    }
    match File::create(rt, path) {
        Ok(file) => Ok(file),
        Err(error) => Err(Problem::Open(error)),
    }
}

// What is wrong where `is_file_there` fails: the system's error, or that what is there is no file.
fn looked(error: io::Error) -> Problem {
    match error.raw_os_error() {
        Some(_) => Problem::Look(error),
        None => Problem::NoFile,
    }
}
