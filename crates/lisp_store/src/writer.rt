//! Who wrote a store last.

ghost use Rattle.std.specs.Prelude.{◌↔◌, ◌≤◌, IsTrue, IfOk, length};
ghost use Rattle.lisp_store.specs.Writer.{IsOther, IsNew, IsNews, TellsChange, KeepsKnown};

use lisp_memory::FallibleString;
use std::alloc::AllocError;
use std::fs;
use std::io::{self, Read};
use std::rt::Files;

/// The machine's id, made when the system was installed.
const MACHINE_ID: &str = "/etc/machine-id";

/// The boot's id, made when the system started.
const BOOT_ID: &str = "/proc/sys/kernel/random/boot_id";

/// More bytes than an id has.
const ROOM: usize = 64;

/// Who wrote a store last: a machine, and a start of that machine. An id that isn't known is an empty text.
#[derive(Debug, Drop, PartialEq, Eq)]
pub struct Writer {
    /// The machine's id.
    pub machine_id: String,
    /// The id of its start.
    pub boot_id: String,
}

/// What is another than at the last writer.
#[derive(Clone, Copy, Debug, PartialEq, Eq)]
pub struct Change {
    /// The machine.
    pub machine: bool,
    /// The start of the machine.
    pub boot: bool,
}

impl Writer {
    /// This machine, and this start of it.
    pub fn of_this_start<R: Files + AllocGlobal>(rt: &R) -> Result<Writer, AllocError> {
        Ok(Writer {
            machine_id: read_id(rt, MACHINE_ID)?,
            boot_id: read_id(rt, BOOT_ID)?,
        })
    }

    /// Whether something is known of this writer that the last one hadn't.
    pub fn is_news(&self, last: &Writer) -> bool
        ensures { IsTrue result ↔ IsNews last.now self.now }
    {
        is_new(last.machine_id.as_str(), self.machine_id.as_str())
            || is_new(last.boot_id.as_str(), self.boot_id.as_str())
    }

    /// This writer, with what is known of the last one in the place of what isn't known of it.
    pub fn joined(self, last: Writer) -> Writer
        ensures machine { KeepsKnown last.machine_id self.machine_id result.machine_id }
        ensures boot { KeepsKnown last.boot_id self.boot_id result.boot_id }
    {
        Writer {
            machine_id: known(last.machine_id, self.machine_id),
            boot_id: known(last.boot_id, self.boot_id),
        }
    }
}

impl Change {
    /// What is another than at the last writer, where both are known.
    pub fn between(last: &Writer, now: &Writer) -> Change
        ensures { TellsChange last.now now.now result }
    {
        Change {
            machine: is_other(last.machine_id.as_str(), now.machine_id.as_str()),
            boot: is_other(last.boot_id.as_str(), now.boot_id.as_str()),
        }
    }
}

// Whether two ids are known, and are not the same.
fn is_other(last: &str, now: &str) -> bool
    ensures { IsTrue result ↔ IsOther last.now now.now }
{
    !last.is_empty() && !now.is_empty() && last != now
}

// Whether an id is known now, and wasn't the last.
fn is_new(last: &str, now: &str) -> bool
    ensures { IsTrue result ↔ IsNew last.now now.now }
{
    !now.is_empty() && last != now
}

// The last id, where there is none now.
fn known(last: String, now: String) -> String
    ensures { KeepsKnown last now result }
{
    if now.is_empty() { last } else { now }
}

// An id in a file, without the white space around it; an empty text where it can't be read.
fn read_id<R: Files + AllocGlobal>(rt: &R, path: &str) -> Result<String, AllocError> {
    let mut buffer = [0; ROOM];
    let count = read_front(rt, path, &mut buffer).unwrap_or(0);
    let id = str::from_utf8(&buffer[..count]).unwrap_or("");
    String::try_from_str(rt.alloc(), id.trim())
}

// Reads the front of a file: how many bytes that are.
fn read_front<R: Files>(rt: &R, path: &str, buffer: &mut [u8]) -> io::Result<usize>
    ensures { IfOk result (λ count. count ≤ length buffer.new) }
{
    fs::open(rt, path)?.read(buffer)
}
