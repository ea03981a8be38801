//! Standard output that never waits.

ghost use Rattle.std.specs.Prelude.{◌≤◌, None, length};

use lisp_log::Sink;
use std::fs::{self, File, Files, OpenOptions};
use std::os::fd::AsRawFd;
use std::os::unix::fs::FileTypeExt;

/// Standard output, as a file.
const PATH: &str = "/proc/self/fd/1";

/// The descriptor of standard output.
const DESCRIPTOR: i32 = 1;

/// The most bytes of one write, which a pipe takes whole or not at all (`PIPE_BUF`).
const MOST_BYTES: usize = 4_096;

/// Standard output, which takes what it can at once.
///
/// The mode of a descriptor that doesn't wait holds for each that shares its open file, in any process, as a shell's. So a pipe
/// or a terminal is opened anew, and the mode is set there. What can't be opened anew, as a socket, gets it itself. A regular
/// file needs none, and is written where it stands, since others may write it too.
#[derive(Drop)]
pub(crate) struct StandardOutput {
    kind: Kind,
    // The pipe or terminal, opened anew.
    anew: Option<File>,
}

impl StandardOutput {
    /// That of the process.
    pub(crate) fn open<R: Files<File = File>>(rt: &R) -> StandardOutput {
        let kind = Kind::of_output(rt);
        let output = StandardOutput {
            kind,
            anew: kind.open_anew(rt),
        };
        if kind != Kind::RegularFile {
            os::set_nonblocking(output.descriptor(), true);
        }
        output
    }

    fn descriptor(&self) -> i32 {
        match &self.anew {
            Some(file) => file.as_raw_fd(),
            None => DESCRIPTOR,
        }
    }

    // How many of the bytes it took; 0 where it took none, or failed. A write to a socket that nobody reads raises a signal, and a
    // send doesn't.
    fn write(&self, bytes: &[u8]) -> usize
        ensures { result ≤ length bytes.now }
    {
        let parts: [&[u8]; 4] = [bytes, &[], &[], &[]];
        let count = match self.kind {
            Kind::Socket => os::sendv(self.descriptor(), parts),
            _ => os::writev(self.descriptor(), parts),
        };
        usize::try_from(count).unwrap_or(0).min(bytes.len())
    }
}

impl Sink for StandardOutput {
    ghost taken = { λ _. None };

    /// In writes of whole lines, where a line isn't longer than a write may be.
    fn take(&mut self, bytes: &[u8]) -> usize {
        let mut taken = 0;
        while taken < bytes.len() {
            let rest = &bytes[taken..];
            let count = self.write(&rest[..front(rest)]);
            if count == 0 {
                break;
            }
            taken += count;
        }
        taken
    }
}

/// What standard output is.
#[derive(Clone, Copy, PartialEq, Eq)]
enum Kind {
    RegularFile,
    // A pipe, or a device, as a terminal is.
    Stream,
    Socket,
    Unknown,
}

impl Kind {
    fn of_output<R: Files>(rt: &R) -> Kind {
        let Ok(found) = fs::metadata(rt, PATH) else {
            return Kind::Unknown;
        };
        let found = found.file_type();
        if found.is_file() {
            Kind::RegularFile
        } else if found.is_fifo() || found.is_char_device() {
            Kind::Stream
        } else if found.is_socket() {
            Kind::Socket
        } else {
            Kind::Unknown
        }
    }

    // It is opened for reading, too: opening a pipe for writing alone waits for a reader, and a write to a pipe that nobody
    // reads raises a signal.
    fn open_anew<R: Files<File = File>>(self, rt: &R) -> Option<File> {
        if self != Kind::Stream {
            return None;
        }
        OpenOptions::new()
            .read(true)
            .write(true)
            .open(rt, PATH)
            .ok()
    }
}

// How many of the bytes are written at once: up to the end of a line, where one is near.
fn front(bytes: &[u8]) -> usize
    ensures { result ≤ length bytes.now }
{
    let most = bytes.len().min(MOST_BYTES);
    match bytes[..most].iter().rposition(|byte| *byte == b'\n') {
        Some(end) => end + 1,
        None => most,
    }
}
