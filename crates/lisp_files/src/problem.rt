//! What is wrong with a file, a folder or a stream.

ghost use Rattle.std.specs.Prelude.{◌≡◌, None};

use lisp_memory::{FallibleString, Memory};
use std::alloc::Global;
use std::fmt::{self, Display, Formatter, Write};
use std::io;
use thiserror::Error;

/// What standard input is called where it fails.
pub const STANDARD_INPUT: &str = "standard input";

/// What standard output is called where it fails.
pub const STANDARD_OUTPUT: &str = "standard output";

/// What is wrong with a file, a folder or a stream: what was tried with it, with the system's error,
/// or what it is.
#[derive(Clone, Copy, Debug, Error)]
pub enum Problem {
    /// It can't be opened.
    #[error("can't be opened: {0}")]
    Open(io::Error),
    /// It can't be read.
    #[error("can't be read: {0}")]
    Read(io::Error),
    /// It can't be written.
    #[error("can't be written: {0}")]
    Write(io::Error),
    /// A folder that can't be made.
    #[error("can't be made: {0}")]
    Make(io::Error),
    /// The system doesn't tell what it is.
    #[error("can't be looked at: {0}")]
    Look(io::Error),
    /// It can't be locked.
    #[error("can't be locked: {0}")]
    Lock(io::Error),
    /// A folder whose files of nonces can't be taken over into its database.
    #[error("its nonces can't be taken over: {0}")]
    TakeOver(io::Error),
    /// A folder whose nonces can't be counted.
    #[error("its nonces can't be counted: {0}")]
    Count(io::Error),
    /// A folder of which a nonce can't be removed.
    #[error("a nonce in it can't be removed: {0}")]
    Forget(io::Error),
    /// A folder that another process has.
    #[error("another process has it")]
    Taken,
    /// It stands where a folder is to be, and is none.
    #[error("isn't a folder")]
    NoFolder,
    /// It stands where a file is to be, and is a folder, a device, a pipe or a link.
    #[error("isn't a file")]
    NoFile,
    /// A database, where nonces are to be in files.
    #[error("a database has the nonces: give --database")]
    HasDatabase,
    /// It is to be a database of nonces, and is none, or a damaged one.
    #[error("isn't a database of nonces, or is damaged")]
    NoDatabase,
    /// A database that is to be there, and isn't.
    #[error("isn't there")]
    Missing,
    /// A database that isn't there, though its log is.
    #[error("isn't there, and its log (-wal) is")]
    LogAlone,
    /// A database of nonces without its log.
    #[error("its log (-wal) is gone; sqlite3 without -readonly removes it")]
    LogGone,
    /// A folder in which a file of nonces holds none.
    #[error("a file of nonces in it is damaged")]
    DamagedNonce,
    /// A folder that is to have nonces, and has none.
    #[error("keeps no nonces, and --known was given")]
    NoNonces,
}

/// A file, a folder or a stream with what is wrong with it, in words on one line: characters that
/// would begin another are escaped.
#[derive(Clone, Copy, Debug)]
pub struct FileTrouble<'a> {
    /// Its path, or what it is called.
    pub path: &'a str,
    /// What is wrong with it.
    pub problem: Problem,
}

impl FileTrouble<'_> {
    /// It in words; `None` where memory runs out for them.
    pub fn words(&self, alloc: Global) -> Option<String>
        ensures { result ≡ None → ⟦<Global as Memory>⟧.may_refuse }
    {
        String::try_format(alloc, format_args!("{self}")).ok()
    }
}

impl Display for FileTrouble<'_> {
    fn fmt<W: Write>(&self, formatter: &mut Formatter<W>) -> fmt::Result {
        write!(formatter, "{}: {}", self.path.escape_debug(), self.problem)
    }
}
