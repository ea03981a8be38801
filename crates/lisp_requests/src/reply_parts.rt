//! Where the records of a Map-Reply stand among its bytes.

ghost use Rattle.std.specs.Prelude.{◌≡◌, ◌≤◌, length, drop, slice_index, IfOk};
ghost use Rattle.lisp_records.specs.Layout.{Skips};
ghost use Rattle.lisp_requests.specs.ReplyLayout.{LaysOutReply, HasReplyFields};
ghost use Rattle.lisp_requests.specs.Reading.{items_at};
ghost use Rattle.lisp_requests.specs.Reply.{reply_record_at};

use crate::fault::RequestFault;
use crate::head::{HEAD_LEN, KIND_AT, RECORD_COUNT_AT, read_nonce};
use crate::reply::{ECHO_NONCE, PROBE, SEC, read_head};
use lisp_records::{is_set, record_layout};
use std::alloc::Allocator;

/// A Map-Reply where it lies among bytes: what it says but its records, and where these are (RFC 9301 section 5.4). The
/// flags are those of [`MapReply`](crate::MapReply).
#[derive(Clone, Copy, Debug, PartialEq, Eq)]
pub struct ReplyLayout {
    pub probe: bool,
    pub echo_nonce: bool,
    pub sec: bool,
    /// The nonce.
    pub nonce: u64,
    /// How many records it has.
    pub record_count: u8,
    /// Where the first record begins; the others follow, to the end.
    pub records_at: usize,
}

/// The layout of the Map-Reply that the bytes spell, all of them. Takes no memory: `alloc` is only that of lists which stay
/// empty. The faults are those of [`read_reply`](crate::read_reply), in the same order, but `OutOfMemory`.
pub fn reply_layout<A: Allocator + Copy>(
    alloc: A,
    bytes: &[u8],
) -> Result<ReplyLayout, RequestFault>
    ensures { LaysOutReply bytes.now result }
{
    let _ = read_head(bytes)?;
    let end = skip_records(alloc, bytes)?;
    if end != bytes.len() {
        return Err(RequestFault::Trailing);
    }
    Ok(layout_of(bytes))
}

// The layout of a Map-Reply whose first bytes are these.
fn layout_of(head: &[u8]) -> ReplyLayout
    requires { 12 ≤ length head.now }
    ensures fields { HasReplyFields result head.now }
    ensures count { result.record_count ≡ slice_index head.now 3 }
    ensures place { result.records_at ≡ 12 }
{
    ReplyLayout {
        probe: is_set(head[KIND_AT], PROBE),
        echo_nonce: is_set(head[KIND_AT], ECHO_NONCE),
        sec: is_set(head[KIND_AT], SEC),
        nonce: read_nonce(head),
        record_count: head[RECORD_COUNT_AT],
        records_at: HEAD_LEN,
    }
}

// Where the records after the first 12 bytes end.
fn skip_records<A: Allocator + Copy>(alloc: A, bytes: &[u8]) -> Result<usize, RequestFault>
    requires { 12 ≤ length bytes.now }
    ensures records { Skips (λ end. drop end bytes.now) result
        (items_at reply_record_at (slice_index bytes.now 3) (drop 12 bytes.now)) }
    ensures within { IfOk result (λ end. end ≤ length bytes.now) }
{
    let mut at = HEAD_LEN;
    for _ in 0..bytes[RECORD_COUNT_AT] {
        match record_layout(alloc, bytes, at) {
            Ok(layout) => at = layout.end,
            Err(fault) => return Err(RequestFault::from(fault)),
        }
    }
    Ok(at)
}
