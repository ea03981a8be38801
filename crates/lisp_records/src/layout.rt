//! Where the parts of a record stand among bytes.

ghost use Rattle.std.specs.Prelude.{◌≡◌, ◌≤◌, length, drop, IfOk};
ghost use Rattle.lisp_records.specs.Layout.{LaysOut, Skips};
ghost use Rattle.lisp_records.specs.Result.{Reads};
ghost use Rattle.lisp_records.specs.Reading.{locator_at, locators_at};

use crate::fault::RecordFault;
use crate::locator::{Locator, read_locator};
use crate::record::{MapRecord, read_start, record_of};
use std::alloc::{Allocator, Global};

/// A record where it lies among bytes: what it says but its locators, and where these are (RFC 9301 section 5.4).
#[derive(Debug, Drop)]
pub struct RecordLayout<A: Allocator = Global> {
    /// The record, without its locators.
    pub fields: MapRecord<A>,
    /// How many locators it has.
    pub locator_count: u8,
    /// Where its first locator begins; the others follow.
    pub locators_at: usize,
    /// Where it ends.
    pub end: usize,
}

/// The layout of the record that begins at byte `at`. Takes no memory: `alloc` is only that of a list of locators which
/// stays empty. The faults are those of [`read_record`](crate::read_record), in the same order, but `OutOfMemory`; past the
/// end of the bytes it is `Short`.
pub fn record_layout<A: Allocator>(
    alloc: A,
    bytes: &[u8],
    at: usize,
) -> Result<RecordLayout<A>, RecordFault>
    ensures { LaysOut bytes.now at result }
{
    if at > bytes.len() {
        return Err(RecordFault::Short);
    }
    let (_, record) = bytes.split_at(at);
    let (addr, locators) = read_start(record)?;
    let rest = skip_locators(record[4], locators)?;
    Ok(RecordLayout {
        fields: record_of(record, addr, Vec::new(alloc)),
        locator_count: record[4],
        locators_at: bytes.len() - locators.len(),
        end: bytes.len() - rest.len(),
    })
}

// The bytes after so many locators.
fn skip_locators(count: u8, bytes: &[u8]) -> Result<&[u8], RecordFault>
    ensures { Skips (λ rest. rest.now) result (locators_at count bytes.now) }
{
    let mut rest = bytes;
    for _ in 0..count {
        let (_, after) = read_locator(rest)?;
        rest = after;
    }
    Ok(rest)
}

/// The locator that begins at byte `at`, and where it ends; takes no memory. The faults come in the order `Short` (no 8
/// bytes), `Afi`, `Short` (no whole address).
pub fn locator_at(bytes: &[u8], at: usize) -> Result<(Locator, usize), RecordFault>
    ensures locator { Reads (λ x. (x.0, drop x.1 bytes.now)) result
        (locator_at (drop at bytes.now)) }
    ensures within { IfOk result (λ x. (at ≤ x.1) × (x.1 ≤ length bytes.now)) }
{
    if at > bytes.len() {
        return Err(RecordFault::Short);
    }
    let (_, locator) = bytes.split_at(at);
    let (locator, rest) = read_locator(locator)?;
    Ok((locator, bytes.len() - rest.len()))
}
