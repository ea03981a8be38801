//! Where the parts of a message stand among its bytes.

ghost use Rattle.std.specs.Prelude.{◌≤◌, length, drop, IfOk};
ghost use Rattle.lisp_records.specs.Layout.{Skips};
ghost use Rattle.lisp_messages.specs.Layout.{LaysOut};
ghost use Rattle.lisp_messages.specs.Reading.{records_of};

use crate::fault::ReadFault;
use crate::message::Message;
use crate::reading::{HEAD_LEN, read_kind, read_tail};
use lisp_records::record_layout;
use std::alloc::{Allocator, Global};

/// A message where it lies among bytes: what it says but its records, and where these are (RFC 9301 sections 5.6 and 5.7).
#[derive(Debug, Drop)]
pub struct MessageLayout<A: Allocator = Global> {
    /// The message, without its records.
    pub fields: Message<A>,
    /// How many records it has.
    pub record_count: u8,
    /// Where its first record begins; the others follow. Always 32.
    pub records_at: usize,
    /// Where its last record ends.
    pub records_end: usize,
}

/// The layout of the message that the bytes spell, all of the bytes. Takes no memory: `alloc` is only that of lists which
/// stay empty. The faults are those of [`read_message`](crate::read_message), in the same order, but `OutOfMemory`.
pub fn message_layout<A: Allocator + Copy>(
    alloc: A,
    bytes: &[u8],
) -> Result<MessageLayout<A>, ReadFault>
    ensures { LaysOut bytes.now result }
{
    let kind = read_kind(bytes)?;
    let records_end = skip_records(alloc, bytes)?;
    let (_, tail) = bytes.split_at(records_end);
    let fields = read_tail(kind, bytes, Vec::new(alloc), tail)?;
    Ok(MessageLayout {
        fields,
        record_count: bytes[3],
        records_at: HEAD_LEN,
        records_end,
    })
}

// Where the records after the first 32 bytes end.
fn skip_records<A: Allocator + Copy>(alloc: A, bytes: &[u8]) -> Result<usize, ReadFault>
    requires { 32 ≤ length bytes.now }
    ensures records { Skips (λ end. drop end bytes.now) result (records_of bytes.now) }
    ensures within { IfOk result (λ end. (32 ≤ end) × (end ≤ length bytes.now)) }
{
    let mut at = HEAD_LEN;
    for place in 0..bytes[3] {
        match record_layout(alloc, bytes, at) {
            Ok(layout) => at = layout.end,
            Err(fault) => return Err(ReadFault::of_record(place, fault)),
        }
    }
    Ok(at)
}
