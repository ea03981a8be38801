//! Why a message isn't read, and at which byte.

ghost use Rattle.std.specs.Prelude.{◌≡◌, ◌++◌, ◌≤◌, ◌<◌, drop, length, slice_index, codes, OnOk, OnErr};
ghost use Rattle.lisp_memory.specs.Appending.{StringGrowsBy};
ghost use Rattle.lisp_transcript.specs.Fault.{fault_byte, fault_text, inside_text, records_end, tail_len};

use lisp_memory::{FallibleString, Memory};
use lisp_messages::ReadFault;
use lisp_records::record_layout;
use std::alloc::{AllocError, Allocator};

// The bytes of a message before its records.
const HEAD_LEN: usize = 32;

/// Appends the fault of a message, and the byte at which it lies. Out of memory, it may leave a part of them.
#[tactic(auto, using(crate::proofs::Appends::steps))]
pub(crate) fn put_fault<A: Memory + Copy>(
    alloc: A,
    text: &mut String<A>,
    bytes: &[u8],
    fault: ReadFault,
) -> Result<(), AllocError>
    ensures text { OnOk result (StringGrowsBy text.old text.new (fault_text bytes.now fault)) }
    ensures memory { OnErr result A.may_refuse }
{
    let number = fault.number();
    let byte = fault_byte(alloc, bytes, fault);
    text.try_write(format_args!("can't be read: read {number}"))?;
    put_inside(text, fault)?;
    text.try_write(format_args!(" at byte {byte}"))
}

// Appends a record's place and fault. Out of memory, it may leave a part of them.
#[tactic(auto, unfolding(crate::specs::Fault::inside_text))]
fn put_inside<A: Memory>(text: &mut String<A>, fault: ReadFault) -> Result<(), AllocError>
    ensures text { OnOk result (StringGrowsBy text.old text.new (inside_text fault)) }
    ensures memory { OnErr result A.may_refuse }
{
    match fault {
        ReadFault::Record(place, fault) => {
            let number = fault.number();
            text.try_write(format_args!(" record {place} fault {number}"))
        }
        _ => Ok(()),
    }
}

// The byte at which a fault lies. Takes no memory.
#[tactic(auto, unfolding(crate::specs::Fault::fault_byte))]
fn fault_byte<A: Allocator + Copy>(alloc: A, bytes: &[u8], fault: ReadFault) -> usize
    ensures { result ≡ fault_byte bytes.now fault }
{
    match fault {
        ReadFault::Short => bytes.len(),
        ReadFault::OutOfMemory | ReadFault::Kind | ReadFault::NoIds => 0,
        ReadFault::Algorithm => 13,
        ReadFault::AuthLength => 14,
        ReadFault::Trailing => records_end(alloc, bytes, byte_at(bytes, 3)) + tail_len(bytes),
        ReadFault::Record(place, _) => records_end(alloc, bytes, place),
    }
}

// The bytes after the records of a message: in a Map-Register the xTR-ID and the Site-ID.
fn tail_len(bytes: &[u8]) -> usize
    ensures value { result ≡ tail_len bytes.now }
    ensures small { result ≤ 24 }
{
    if byte_at(bytes, 0) / 16 == 3 { 24 } else { 0 }
}

// A byte; 0 past the end.
fn byte_at(bytes: &[u8], at: usize) -> u8
    ensures { result ≡ slice_index bytes.now at }
{
    bytes.get(at).copied().unwrap_or(0)
}

// Where so many records end that follow the 32 bytes before them; where one can't be read, where that begins.
fn records_end<A: Allocator + Copy>(alloc: A, bytes: &[u8], count: u8) -> usize
    ensures end { result ≡ records_end count bytes.now }
    ensures within { result ≤ length bytes.now }
{
    let mut at = records_start(bytes);
    for _ in 0..count {
        match record_layout(alloc, bytes, at) {
            Ok(layout) => at = layout.end,
            Err(_) => return at,
        }
    }
    at
}

// Where the records of a message begin; where it ends, if that is before.
fn records_start(bytes: &[u8]) -> usize
    ensures start { drop result bytes.now ≡ drop HEAD_LEN bytes.now }
    ensures within { result ≤ length bytes.now }
{
    if bytes.len() < HEAD_LEN {
        bytes.len()
    } else {
        HEAD_LEN
    }
}
