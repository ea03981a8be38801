//! A folder of the system's.

ghost use Rattle.std.specs.Prelude.{◌≡◌, ◌≤◌, ◌+◌, ◌-◌, ◌^◌, min, false, IfOk, IfSome, OnErr, IsErrOf, length};
ghost use Rattle.std.specs.FinMap.{empty};
ghost use Rattle.lisp_store.specs.Folder.{FolderState, has_any_contents};
ghost use Rattle.lisp_store.specs.declared.folder.FolderFault.{FolderFault};

use crate::folder::{Folder, FolderFault};
use lisp_memory::{FallibleString, Memory};
use std::alloc::{AllocError, Global};
use std::cell::Cell;
use std::fs::OpenFile;
use std::io::{ErrorKind, Read, Write};
use std::rt::Files;
use std::{fs, io};

/// A folder of the system's. A file is replaced by a new one, named with `.new` added, that is written and synced, then
/// renamed over the old one; last the folder is synced. So a crash leaves the old file or the new one, and perhaps a new
/// file that was not renamed, which the next `replace` writes over. Where its device fails, the kind of the system's error is
/// put into a cell of the caller's.
///
/// That the disk returns what was synced, and that nobody else writes the folder or takes it away, is a premise: nothing is
/// said of the files, so the folder isn't called honest.
#[derive(Drop)]
pub struct SystemFolder<'a, R> {
    rt: R,
    dir: String,
    faults: u64,
    // The kind of the last failure.
    failure: &'a Cell<Option<ErrorKind>>,
}

impl<'a, R: Files + AllocGlobal + Clone + Drop> SystemFolder<'a, R> {
    /// The folder `dir`, which must be there; touches no file. `failure` holds the kind of the last error of its device from now
    /// on.
    pub fn open(
        rt: &R,
        dir: &str,
        failure: &'a Cell<Option<ErrorKind>>,
    ) -> Result<SystemFolder<'a, R>, AllocError>
        ensures memory { R.is_infallible rt.now → OnErr result ⟦<Global as Memory>⟧.may_refuse }
    {
        Ok(SystemFolder {
            rt: rt.clone()?,
            dir: String::try_from_str(rt.alloc(), dir)?,
            faults: 0,
            failure,
        })
    }
}

impl<R: Files + AllocGlobal> Folder for SystemFolder<'_, R> {
    ghost seen = { λ f. record { files = empty; faults = f.faults; is_honest = false } };

    ghost may_refuse = { ⟦<Global as Memory>⟧.may_refuse };

    /// `Device` also where the name is that of a link, even to a file. Memory is taken for the path alone.
    fn read(&mut self, name: &str, buffer: &mut [u8]) -> Result<Option<usize>, FolderFault> {
        let path = self.path(name, "")?;
        match read_file(&self.rt, path.as_str(), buffer) {
            Ok(found) => Ok(found),
            Err(error) => Err(self.failed(&error)),
        }
    }

    /// `Device` also where what has the name with `.new` added is no file. Memory is taken for the two paths alone, before
    /// anything is written.
    fn replace(&mut self, name: &str, bytes: &[u8]) -> Result<(), FolderFault> {
        let path = self.path(name, "")?;
        let new = self.path(name, ".new")?;
        let (dir, path, new) = (self.dir.as_str(), path.as_str(), new.as_str());
        match replace_file(&self.rt, dir, path, new, bytes) {
            Ok(()) => Ok(()),
            Err(error) => Err(self.failed(&error)),
        }
    }

    ghost has_contents = { λ f. has_any_contents empty f.faults };
}

impl<R: Files + AllocGlobal> SystemFolder<'_, R> {
    // Counts that the device failed, and tells the kind of its error.
    fn failed(&mut self, error: &io::Error) -> FolderFault
        ensures fault { result ≡ FolderFault.Device }
        ensures once { self.new.faults ≡ min (self.old.faults + 1) (2 ^ 64 - 1) }
        ensures rises { self.old.faults ≤ self.new.faults }
    {
        self.faults = self.faults.saturating_add(1);
        self.failure.set(Some(error.kind()));
        FolderFault::Device
    }

    // The path of a name in the folder, with an end added.
    fn path(&self, name: &str, end: &str) -> Result<String, AllocError>
        ensures memory { OnErr result ⟦<Global as Memory>⟧.may_refuse }
    {
        let dir = self.dir.as_str();
        String::try_format(self.rt.alloc(), format_args!("{dir}/{name}{end}"))
    }
}

/// Whether a file has the path; an error where a folder, a device, a pipe or a link has it: opening a pipe waits for a writer.
pub fn is_file_there<R: Files>(files: &R, path: &str) -> io::Result<bool> {
    match fs::symlink_metadata(files, path) {
        Ok(found) if found.is_file() => Ok(true),
        Ok(_) => Err(io::Error::from(ErrorKind::InvalidInput)),
        Err(error) if error.kind() == ErrorKind::NotFound => Ok(false),
        Err(error) => Err(error),
    }
}

// Reads a file until it ends or the buffer is full: how many bytes it has; `None` where there is no file.
fn read_file<R: Files>(files: &R, path: &str, buffer: &mut [u8]) -> io::Result<Option<usize>>
    ensures within { IfOk result (λ found. IfSome found (λ count. count ≤ length buffer.new)) }
    ensures room { length buffer.new ≡ length buffer.old }
{
    if !is_file_there(files, path)? {
        return Ok(None);
    }
    let mut file = fs::open(files, path)?;
    let mut count = 0;
    for _ in 0..u64::MAX {
        match file.read(&mut buffer[count..]) {
            Ok(0) => return Ok(Some(count)),
            Ok(more) => count += more,
            Err(error) if error.kind() == ErrorKind::Interrupted => {}
            Err(error) => return Err(error),
        }
    }
    Err(io::Error::from(ErrorKind::Interrupted))
}

// Writes bytes into a new file, and puts that in the place of the old one. A crash leaves one of them whole only in this
// order: the file is synced before it is renamed, and the folder after.
fn replace_file<R: Files>(
    files: &R,
    dir: &str,
    path: &str,
    new: &str,
    bytes: &[u8],
) -> io::Result<()> {
    is_file_there(files, new)?;
    let mut file = fs::create(files, new)?;
    file.write_all(bytes)?;
    file.sync_all()?;
    fs::rename(files, new, path)?;
    fs::open(files, dir)?.sync_all()
}
