//! The object of a line that a running node prints.

ghost use Rattle.std.specs.Prelude.{◌≡◌, ◌++◌, drop, IfOk, OnOk, OnErr, codes};
ghost use Rattle.json.specs.Print.{quoted};
ghost use Rattle.lisp_json.specs.Severity.{severity_word};
ghost use Rattle.lisp_json.specs.Timed.{IsTimedObjectOf, head_text, timed_text};

use crate::object::object_of_words;
use crate::quoting::put_quoted;
use crate::severity::Severity;
use crate::time::time_of;
use crate::words::words_of;
use lisp_memory::{FallibleCopies, Memory};
use std::alloc::AllocError;

/// The object of a line that a running node prints, without the line feed. Before the line's own members it has the time, so many ms after
/// 1970-01-01T00:00:00Z, in UTC, and how severe the line is.
pub fn timed_object_of<A: Memory + Copy>(
    alloc: A,
    ms: u64,
    line: &str,
) -> Result<Vec<u8, A>, AllocError>
    ensures object { IfOk result (λ object. IsTimedObjectOf ms line.now object.items) }
    ensures memory { OnErr result A.may_refuse }
{
    let words = words_of(alloc, line)?;
    let words = words.as_slice();
    let object = object_of_words(alloc, words)?;
    timed_text(
        alloc,
        &time_of(ms),
        Severity::of_words(words),
        object.as_slice(),
    )
}

// An object with a time and a severity before its members.
fn timed_text<A: Memory + Copy>(
    alloc: A,
    time: &[u8],
    severity: Severity,
    object: &[u8],
) -> Result<Vec<u8, A>, AllocError>
    ensures text { IfOk result (λ text. text.items ≡ timed_text time.now severity object.now) }
    ensures memory { OnErr result A.may_refuse }
{
    let mut out = Vec::new(alloc);
    put_time(&mut out, time)?;
    put_severity(&mut out, severity)?;
    put_members(&mut out, object)?;
    Ok(out)
}

// Appends the begin of an object, and a time. Out of memory, it may leave a part of them, as the functions below do.
fn put_time<A: Memory>(out: &mut Vec<u8, A>, time: &[u8]) -> Result<(), AllocError>
    ensures text { OnOk result (out.new.items
        ≡ out.old.items ++ codes "{\"time\":\"" ++ time.now ++ codes "\"") }
    ensures memory { OnErr result A.may_refuse }
{
    out.try_extend_from_slice(b"{\"time\":\"")?;
    out.try_extend_from_slice(time)?;
    out.try_extend_from_slice(b"\"")
}

fn put_severity<A: Memory>(out: &mut Vec<u8, A>, severity: Severity) -> Result<(), AllocError>
    ensures text { OnOk result (out.new.items
        ≡ out.old.items ++ codes ",\"severity\":" ++ quoted (severity_word severity) ++ codes ",") }
    ensures memory { OnErr result A.may_refuse }
{
    out.try_extend_from_slice(b",\"severity\":")?;
    put_quoted(out, severity.word())?;
    out.try_extend_from_slice(b",")
}

// Appends all of an object behind its brace.
fn put_members<A: Memory>(out: &mut Vec<u8, A>, object: &[u8]) -> Result<(), AllocError>
    ensures text { OnOk result (out.new.items ≡ out.old.items ++ drop 1 object.now) }
    ensures memory { OnErr result A.may_refuse }
{
    match object {
        [_, members @ ..] => out.try_extend_from_slice(members),
        [] => Ok(()),
    }
}
