//! Copies of the database of a node that runs, each of one moment.

ghost use Rattle.std.specs.Prelude.{◌≡◌, ◌↔◌, IsTrue, OnErr};
ghost use Rattle.std.specs.List.{list_all};
ghost use Rattle.lisp_lines.specs.Front.{GivesText};
ghost use Rattle.lisp_control_socket.specs.Backup.{IsBackupName, backup_text, is_own_name, is_plain_byte, refused_text};

use lisp_memory::{FallibleString, Memory};
use std::alloc::{AllocError, Global};
use std::fs::{self, Files, OpenFile, OpenOptions};
use std::io::{self, ErrorKind};
use std::str;

/// The most bytes of a copy's name.
const MOST_BYTES: usize = 100;

/// The folder of a node that keeps a database there.
#[derive(Clone, Copy)]
pub struct DatabaseFolder<'a> {
    /// The system.
    pub rt: &'a HostRuntime,
    /// The path of the folder.
    pub path: &'a str,
    /// The name of the database in it.
    pub database: &'a str,
}

/// Copies the database of the node with a name, and its log, under the name `file` and that with `-wal` added, into its folder, where one
/// has a database. What is answered: a line `backup NAME FILE bytes N`, with the bytes of both, once all is synced; or the fault 145 where
/// there is no database, the name isn't plain or a file stands there, or the copy can't be made: then none has the name.
pub(crate) fn backup(
    alloc: Global,
    name: &str,
    folder: Option<DatabaseFolder<'_>>,
    file: &[u8],
) -> Result<String, AllocError> {
    let (Some(folder), Ok(file)) = (folder, str::from_utf8(file)) else {
        return refused(alloc);
    };
    if !is_backup_name(file) {
        return refused(alloc);
    }
    match copy_database(folder, file) {
        Ok(bytes) => made(alloc, name, file, bytes),
        Err(_) => refused(alloc),
    }
}

fn made(alloc: Global, name: &str, file: &str, bytes: u64) -> Result<String, AllocError>
    ensures text { GivesText result (backup_text name.now file.now bytes) }
    ensures memory { OnErr result ⟦<Global as Memory>⟧.may_refuse }
{
    let mut text = String::new(alloc);
    text.try_write(format_args!("backup {name} {file} bytes {bytes}"))?;
    text.try_push('\n')?;
    Ok(text)
}

fn refused(alloc: Global) -> Result<String, AllocError>
    ensures text { GivesText result refused_text }
    ensures memory { OnErr result ⟦<Global as Memory>⟧.may_refuse }
{
    String::try_from_str(alloc, "fault 145\n")
}

// Whether a copy may have the name. Whoever may tell the node to make one may choose it: so it is of its folder, and of no file that the
// node reads at a start.
fn is_backup_name(name: &str) -> bool
    ensures { IsTrue result ↔ IsBackupName name.now }
{
    let bytes = name.as_bytes();
    1 <= bytes.len()
        && bytes.len() <= MOST_BYTES
        && are_plain(bytes)
        && !bytes.starts_with(b".")
        && !is_own_name(bytes)
}

fn are_plain(bytes: &[u8]) -> bool
    ensures { result ≡ list_all is_plain_byte bytes.now }
{
    bytes.iter().all(|byte| is_plain_byte(*byte))
}

fn is_plain_byte(byte: u8) -> bool
    ensures { result ≡ is_plain_byte byte }
{
    matches!(byte, b'0'..=b'9' | b'A'..=b'Z' | b'a'..=b'z' | b'-' | b'.' | b'_')
}

fn is_own_name(name: &[u8]) -> bool
    ensures { result ≡ is_own_name name.now }
{
    name.starts_with(b"nonces.db") || name.ends_with(b".nonce") || name == b"control".as_slice()
}

// Copies the log first, then the database: so a database that has the name has its log. How many bytes both have. Between two calls of the
// node both files stand as the last commit left them.
fn copy_database(folder: DatabaseFolder<'_>, file: &str) -> io::Result<u64> {
    let DatabaseFolder {
        rt,
        path: folder,
        database,
    } = folder;
    let from = String::try_format(rt.alloc(), format_args!("{folder}/{database}"))?;
    let from_log = String::try_format(rt.alloc(), format_args!("{folder}/{database}-wal"))?;
    let to = String::try_format(rt.alloc(), format_args!("{folder}/{file}"))?;
    let to_log = String::try_format(rt.alloc(), format_args!("{folder}/{file}-wal"))?;
    refuse_there(rt, to.as_str())?;
    let log = copy_file(rt, folder, from_log.as_str(), to_log.as_str())?;
    match copy_file(rt, folder, from.as_str(), to.as_str()) {
        Ok(bytes) => Ok(log.saturating_add(bytes)),
        Err(error) => {
            let _ = fs::remove_file(rt, to_log.as_str());
            Err(error)
        }
    }
}

// Copies a file to a path where nothing is. The copy is written into a new file, named with `.new` added, which is synced and then renamed;
// last the folder is synced. Where that fails neither is there.
fn copy_file<R: Files + AllocGlobal>(
    rt: &R,
    folder: &str,
    from: &str,
    to: &str,
) -> io::Result<u64> {
    let new = String::try_format(rt.alloc(), format_args!("{to}.new"))?;
    let new = new.as_str();
    refuse_there(rt, to)?;
    OpenOptions::new()
        .write(true)
        .create_new(true)
        .open(rt, new)?;
    match write_file(rt, folder, from, new, to) {
        Ok(bytes) => Ok(bytes),
        Err(error) => {
            let _ = fs::remove_file(rt, new);
            let _ = fs::remove_file(rt, to);
            Err(error)
        }
    }
}

// Writes the bytes of a file into a new one that is empty, and names it. How many they are.
fn write_file<R: Files>(rt: &R, folder: &str, from: &str, new: &str, to: &str) -> io::Result<u64> {
    let bytes = fs::copy(rt, from, new)?;
    fs::open(rt, new)?.sync_all()?;
    fs::rename(rt, new, to)?;
    fs::open(rt, folder)?.sync_all()?;
    Ok(bytes)
}

// Refuses a path where something is, whatever it is.
fn refuse_there<R: Files>(rt: &R, path: &str) -> io::Result<()> {
    match fs::symlink_metadata(rt, path) {
        Ok(_) => Err(io::Error::from(ErrorKind::AlreadyExists)),
        Err(error) if error.kind() == ErrorKind::NotFound => Ok(()),
        Err(error) => Err(error),
    }
}
