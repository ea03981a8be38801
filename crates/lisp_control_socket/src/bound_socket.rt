//! A Unix socket in its place in a folder.

use lisp_memory::FallibleString;
use std::fs::{self, Files, Permissions};
use std::io::{self, ErrorKind};
use std::os::unix::fs::{FileTypeExt, MetadataExt, PermissionsExt, lchown};
use std::os::unix::net::{UnixListener, UnixStream};

/// The name of the socket in its folder.
const NAME: &str = "control";

/// Who may write: the owner, the group, others.
const WRITERS: u32 = 0o222;

/// That of the group.
const GROUP: u32 = 0o020;

/// How long the place of the socket isn't looked at again, in ms.
const LOOK_MS: u64 = 5_000;

/// A file, by its device and its inode.
#[derive(Clone, Copy, PartialEq, Eq)]
struct FileId {
    device: u64,
    inode: u64,
}

/// A socket in a folder, which is bound again where somebody removes it. Of what the system makes of its calls nothing is known.
#[derive(Drop)]
pub(crate) struct BoundSocket<'a> {
    rt: &'a HostRuntime,
    folder: &'a str,
    listener: UnixListener,
    file: FileId,
    // From this moment on its place is looked at again, in ms; 0 before the first time.
    look_at: u64,
    // Whether a warning said that nobody can connect any more.
    is_warned: bool,
}

impl<'a> BoundSocket<'a> {
    /// A socket in a folder, in the place of one that a killed process left. Who may write the folder
    /// may connect, and its group only where the socket can have it. What is no socket, and has its
    /// name, stays: that is an error.
    pub(crate) fn bind(rt: &'a HostRuntime, folder: &'a str) -> io::Result<BoundSocket<'a>> {
        let path = String::try_format(rt.alloc(), format_args!("{folder}/{NAME}"))?;
        remove_left(rt, path.as_str());
        let (listener, file) = listen_at(rt, folder, path.as_str())?;
        Ok(BoundSocket {
            rt,
            folder,
            listener,
            file,
            look_at: 0,
            is_warned: false,
        })
    }

    /// The next connection that waits, if one does.
    pub(crate) fn accept(&self) -> Option<UnixStream> {
        let (stream, _) = self.listener.accept().ok()?;
        Some(stream)
    }

    /// Looks every five seconds whether the socket is in its place, at a moment in ms, and binds another one
    /// where it was removed. What else lies there stays: that is a warning, once.
    pub(crate) fn keep_bound(&mut self, now: u64) {
        if now < self.look_at {
            return;
        }
        self.look_at = now.saturating_add(LOOK_MS);
        match self.bound_again() {
            Ok(()) => self.is_warned = false,
            Err(error) => self.warn(&error),
        }
    }

    fn bound_again(&mut self) -> io::Result<()> {
        let folder = self.folder;
        let path = String::try_format(self.rt.alloc(), format_args!("{folder}/{NAME}"))?;
        match file_at(self.rt, path.as_str()) {
            Ok(file) if file == self.file => Ok(()),
            Ok(_) => Err(io::Error::from(ErrorKind::AlreadyExists)),
            Err(error) if error.kind() == ErrorKind::NotFound => {
                let (listener, file) = listen_at(self.rt, folder, path.as_str())?;
                self.listener = listener;
                self.file = file;
                Ok(())
            }
            Err(error) => Err(error),
        }
    }

    // Says once that nobody can connect.
    fn warn(&mut self, error: &io::Error) {
        if self.is_warned {
            return;
        }
        self.is_warned = true;
        warn(self.rt, self.folder, error);
    }
}

/// Says on standard error that a node can't be asked at a folder.
pub(crate) fn warn(rt: &HostRuntime, folder: &str, error: &io::Error) {
    let folder = folder.escape_debug();
    let _ = eprintln!(rt; "warning: {folder}: nobody can ask the node: {error}");
}

// Removes the socket that a killed process left.
fn remove_left<R: Files>(rt: &R, path: &str) {
    if let Ok(found) = fs::symlink_metadata(rt, path) {
        if found.file_type().is_socket() {
            let _ = fs::remove_file(rt, path);
        }
    }
}

// A socket at a path of the folder, and its file.
fn listen_at(rt: &HostRuntime, folder: &str, path: &str) -> io::Result<(UnixListener, FileId)> {
    let listener = UnixListener::bind(rt, path)?;
    let writers = writers(rt, folder, path)?;
    fs::set_permissions(rt, path, Permissions::from_mode(writers))?;
    listener.set_nonblocking(true)?;
    drop_waiting(&listener);
    let file = file_at(rt, path)?;
    Ok((listener, file))
}

// The file at a path. No link is followed.
fn file_at<R: Files>(rt: &R, path: &str) -> io::Result<FileId> {
    let found = fs::symlink_metadata(rt, path)?;
    Ok(FileId {
        device: found.dev(),
        inode: found.ino(),
    })
}

// Who may write the folder may write the socket. It gets the folder's group; where it can't have
// that, its group may not. No link is followed: who may write the folder can put one in its place.
fn writers<R: Files>(rt: &R, folder: &str, path: &str) -> io::Result<u32> {
    let found = fs::metadata(rt, folder)?;
    let writers = found.permissions().mode() & WRITERS;
    if fs::symlink_metadata(rt, path)?.gid() == found.gid() {
        return Ok(writers);
    }
    match lchown(rt, path, None, Some(found.gid())) {
        Ok(()) => Ok(writers),
        Err(_) => Ok(writers & !GROUP),
    }
}

// Drops who connected before the socket had its mode: it may be anybody.
fn drop_waiting(listener: &UnixListener) {
    for _ in 0..u32::MAX {
        if listener.accept().is_err() {
            return;
        }
    }
}
