//! The Map-Reply.

ghost use Rattle.std.specs.Prelude.{◌≡◌, ◌<◌, ◌≤◌, ◌++◌, ◌^◌, [], length, drop, slice_index, Ok, IfOk, OnOk, OnErr};
ghost use Rattle.std.specs.List.{AllByRecursion};
ghost use Rattle.lisp_records.specs.Record.{IsMapRecord};
ghost use Rattle.lisp_records.specs.Result.{Reads, PassesFault};
ghost use Rattle.lisp_requests.specs.Reading.{Gives, IfOutOfMemory, items_at};
ghost use Rattle.lisp_requests.specs.Reply.{MapReplyValue, IsMapReply, SpellsReply, reply_record_at, reply_head_at, map_reply_of, reply_at, TakesMemory, reply_kind, written_records, written_reply_head, written_reply};

use crate::fault::RequestFault;
use crate::head::{HEAD_LEN, KIND_AT, RECORD_COUNT_AT, head, read_nonce};
use lisp_memory::{FallibleCopies, FallibleVec, Memory};
use lisp_records::{MapRecord, Records, is_set, read_record, write_record};
use std::alloc::{AllocError, Allocator, Global};
use std::marker::Model;

/// The message type.
const MAP_REPLY: u8 = 2;

// The flags in the first byte.
pub(crate) const PROBE: u8 = 0x08;

pub(crate) const ECHO_NONCE: u8 = 0x04;

pub(crate) const SEC: u8 = 0x02;

/// A Map-Reply (RFC 9301 sections 5.4 and 5.5), type 2, with at most 255 records:
///
/// ```text
/// byte 0        type 2 in the high 4 bits, P 0x08, E 0x04, S 0x02, the rest reserved
/// byte 1, 2     reserved
/// byte 3        Record Count
/// byte 4 to 11  nonce
/// byte 12 on    the records, to the end
/// ```
#[derive(Debug, Drop)]
pub struct MapReply<A: Allocator = Global> {
    /// P: it answers a probe.
    pub probe: bool,
    /// E: the sender is capable of echoing nonces.
    pub echo_nonce: bool,
    /// S: the sender is capable of LISP-SEC; kept, and without effect here.
    pub sec: bool,
    /// The nonce of the Map-Request that it answers.
    pub nonce: u64,
    /// The records, at most 255.
    pub records: Records<A>,
}

impl<A: Allocator> Model for MapReply<A> {
    ghost use Rattle.std.specs.Prelude.{◌<◌, length};
    ghost use Rattle.lisp_requests.specs.Reply.{MapReplyValue};

    ghost Value = { MapReplyValue };

    ghost view = { λ m. record { probe = m.probe; echo_nonce = m.echo_nonce; sec = m.sec; nonce = m.nonce; records = m.records } };

    ghost invariant = { λ m. length m.records < 256 };
}

/// The Map-Reply that the bytes spell, all of them, its records in memory of `alloc`. Reserved bits are ignored. The
/// faults come in this order: `Short` (no 12 bytes), `Kind`, for each record those of
/// [`read_record`](lisp_records::read_record), then `Trailing`. `OutOfMemory` may come in place of any answer past the
/// first 12 bytes, where there are records.
pub fn read_reply<A: Memory + Copy>(alloc: A, bytes: &[u8]) -> Result<MapReply<A>, RequestFault>
    // What is read is spelled by the bytes.
    ensures found { IfOk result (λ m. SpellsReply bytes.now m) }

    // What is spelled so is read, unless memory runs out.
    ensures only { (m : MapReplyValue) → SpellsReply bytes.now m → Gives (λ m. m) result (Ok m) }

    // Which answer it is.
    ensures exact { Gives (λ m. m) result (reply_at bytes.now) }

    // Before the first record nothing takes memory.
    ensures early { PassesFault (reply_head_at bytes.now) result }
    ensures memory { IfOutOfMemory result A.may_refuse }
    ensures grows { IfOutOfMemory result (TakesMemory bytes.now) }
{
    read_whole(alloc, bytes)
}

fn read_whole<A: Memory + Copy>(alloc: A, bytes: &[u8]) -> Result<MapReply<A>, RequestFault>
    ensures exact { Gives (λ m. m) result (reply_at bytes.now) }
    ensures early { PassesFault (reply_head_at bytes.now) result }
    ensures memory { IfOutOfMemory result (A.may_refuse × TakesMemory bytes.now) }
{
    let rest = read_head(bytes)?;
    let (records, tail) = read_records(alloc, bytes[RECORD_COUNT_AT], rest)?;
    if !tail.is_empty() {
        return Err(RequestFault::Trailing);
    }
    Ok(reply_of(bytes, records))
}

// The Map-Reply whose first bytes are these, of the records that were read after them.
fn reply_of<A: Allocator>(head: &[u8], records: Vec<MapRecord<A>, A>) -> MapReply<A>
    requires head { 12 ≤ length head.now }
    requires few { length records.items < 256 }
    ensures { result ≡ map_reply_of head.now records.items }
{
    MapReply {
        probe: is_set(head[KIND_AT], PROBE),
        echo_nonce: is_set(head[KIND_AT], ECHO_NONCE),
        sec: is_set(head[KIND_AT], SEC),
        nonce: read_nonce(head),
        records: Records::from_vec(records),
    }
}

/// The bytes after the first 12, where these are as they must be.
#[tactic(auto, unfolding(crate::specs::Reply::reply_head_at))]
pub(crate) fn read_head(bytes: &[u8]) -> Result<&[u8], RequestFault>
    ensures rest { Reads (λ rest. rest.now) result (reply_head_at bytes.now) }
    ensures skips { IfOk result (λ rest. rest.now ≡ drop 12 bytes.now) }
    ensures plain { IfOutOfMemory result ⊥ }
    ensures head { OnOk result (12 ≤ length bytes.now) }
{
    if bytes.len() < HEAD_LEN {
        return Err(RequestFault::Short);
    }
    if bytes[KIND_AT] / 16 != MAP_REPLY {
        return Err(RequestFault::Kind);
    }
    let (_, rest) = bytes.split_at(HEAD_LEN);
    Ok(rest)
}

// So many records from the front of the bytes, and the bytes after them.
fn read_records<A: Memory + Copy>(
    alloc: A,
    count: u8,
    bytes: &[u8],
) -> Result<(Vec<MapRecord<A>, A>, &[u8]), RequestFault>
    ensures records { Gives (λ x. (x.0.items, x.1.now)) result
        (items_at reply_record_at count bytes.now) }
    ensures count { IfOk result (λ x. length x.0.items ≡ count) }
    ensures memory { IfOutOfMemory result (A.may_refuse × (0 < count)) }
{
    let mut records = Vec::new(alloc);
    let mut rest = bytes;
    for _ in 0..count {
        match read_record(alloc, rest, 0) {
            Ok((record, next)) => {
                records.try_push(record)?;
                let (_, after) = rest.split_at(next);
                rest = after;
            }
            Err(fault) => return Err(RequestFault::from(fault)),
        }
    }
    Ok((records, rest))
}

/// The written spelling of a Map-Reply: all reserved bits 0. It lies in memory of `alloc`; out of memory is the only
/// refusal.
pub fn write_reply<A: Memory, B: Allocator>(
    alloc: A,
    reply: &MapReply<B>,
) -> Result<Vec<u8, A>, AllocError>
    ensures written { IfOk result (λ v. v.items ≡ written_reply reply.now) }
    ensures spells { IfOk result (λ v. SpellsReply v.items reply.now) }
    ensures known { OnOk result (IsMapReply reply.now) }
    ensures memory { OnErr result A.may_refuse }
{
    let mut out = Vec::new(alloc);
    put_reply(&mut out, reply)?;
    Ok(out)
}

// The written spelling, in an empty buffer.
fn put_reply<A: Memory, B: Allocator>(
    out: &mut Vec<u8, A>,
    reply: &MapReply<B>,
) -> Result<(), AllocError>
    requires { out.old.items ≡ [] }
    ensures written { OnOk result (out.new.items ≡ written_reply reply.now) }
    ensures known { OnOk result (IsMapReply reply.now) }
    ensures memory { OnErr result A.may_refuse }
{
    let records = reply.records.as_slice();
    out.try_extend_from_slice(&head_of(reply))?;
    put_records(out, records)
}

// The bytes before the records.
fn head_of<A: Allocator>(reply: &MapReply<A>) -> [u8; HEAD_LEN]
    ensures head { result ≡ written_reply_head reply.now }
    ensures nonce { reply.now.nonce < 2 ^ 64 }
    ensures few { length reply.now.records < 256 }
{
    let count = reply.records.as_slice().len() as u8;
    head(kind_of(reply), 0, 0, count, reply.nonce)
}

// The first byte: type, P, E and S.
fn kind_of<A: Allocator>(reply: &MapReply<A>) -> u8
    ensures { result ≡ reply_kind reply.now }
{
    MAP_REPLY * 16
        + u8::from(reply.probe) * PROBE
        + u8::from(reply.echo_nonce) * ECHO_NONCE
        + u8::from(reply.sec) * SEC
}

// Appends the written spellings of the records, one after the other.
fn put_records<A: Memory, B: Allocator>(
    out: &mut Vec<u8, A>,
    records: &[MapRecord<B>],
) -> Result<(), AllocError>
    ensures records { OnOk result (out.new.items ≡ out.old.items ++ written_records records.now) }
    ensures known { OnOk result (AllByRecursion IsMapRecord records.now) }
    ensures memory { OnErr result A.may_refuse }
{
    for record in records {
        write_record(record, out)?;
    }
    Ok(())
}
