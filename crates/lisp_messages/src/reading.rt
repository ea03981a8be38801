//! Reading a message.

ghost use Rattle.std.specs.Prelude.{◌≡◌, ◌<◌, ◌≤◌, length, IfOk, OnOk, Ok};
ghost use Rattle.lisp_messages.specs.Message.{MessageValue};
ghost use Rattle.lisp_messages.specs.Meaning.{message_value};
ghost use Rattle.lisp_messages.specs.Spelling.{Spells};
ghost use Rattle.lisp_records.specs.Result.{Reads, PassesFault};
ghost use Rattle.lisp_messages.specs.Reading.{Gives, IfOutOfMemory, HasRecords, TakesMemory, kind_at, records_of, nonce_of, tail_at, message_at};

use crate::fault::ReadFault;
use crate::kind::Kind;
use crate::message::Message;
use crate::notify::read_notify;
use crate::register::read_register;
use lisp_memory::{FallibleVec, Memory};
use lisp_records::{MapRecord, read_record};
use std::alloc::Allocator;

/// The one Algorithm ID that is served: HMAC-SHA-256-128-None (RFC 9301 section 12.5).
pub(crate) const HMAC_SHA_256_128_NONE: u8 = 2;

/// Where the Key ID stands (RFC 9301 section 5.6).
pub(crate) const KEY_ID_AT: usize = 12;

/// Where the Algorithm ID stands.
const ALGORITHM_AT: usize = 13;

/// Where the Authentication Data Length stands, 2 bytes.
const AUTH_LENGTH_AT: usize = 14;

/// Where the Authentication Data stands.
pub(crate) const AUTH_AT: usize = 16;

/// The bytes of a message before its records.
pub(crate) const HEAD_LEN: usize = 32;

/// The message that the bytes spell, all of the bytes; its records in memory of `alloc`. Reserved
/// bits are ignored. The faults come in this order: `Short` (no 16 bytes), `Kind` (type other than
/// 3, 4 and 5), `Algorithm` (other than 2), `AuthLength` (other than 16), `Short` (no 32 bytes),
/// `Record` for the first record that can't be read; then for a Map-Register `NoIds` (bit I is
/// clear), `Short` or `Trailing` (other than 24 bytes after the records), for the other two
/// `Trailing` (other than 0 or 24 bytes there, which are ignored). `OutOfMemory` may come in place
/// of any answer past the bytes before the records, where there are records.
pub fn read_message<A: Memory + Copy>(alloc: A, bytes: &[u8]) -> Result<Message<A>, ReadFault>
    // What is read is spelled so.
    ensures found { IfOk result (λ m. Spells bytes.now (message_value m)) }

    // What is spelled so is read, unless memory runs out.
    ensures only { (x : MessageValue) → Spells bytes.now x → Gives message_value result (Ok x) }

    // Which answer it is.
    ensures exact { Gives message_value result (message_at bytes.now) }

    // Before the first record nothing takes memory.
    ensures early { PassesFault (kind_at bytes.now) result }
    ensures memory { IfOutOfMemory result A.may_refuse }
    ensures grows { IfOutOfMemory result (TakesMemory bytes.now) }
{
    read_whole(alloc, bytes)
}

fn read_whole<A: Memory + Copy>(alloc: A, bytes: &[u8]) -> Result<Message<A>, ReadFault>
    ensures exact { Gives message_value result (message_at bytes.now) }
    ensures early { PassesFault (kind_at bytes.now) result }
    ensures memory { IfOutOfMemory result (A.may_refuse × TakesMemory bytes.now) }
{
    let kind = read_kind(bytes)?;
    let (records, tail) = read_records(alloc, bytes)?;
    read_tail(kind, bytes, records, tail)
}

/// The message of a kind, by its records and what stands after them.
pub(crate) fn read_tail<A: Allocator>(
    kind: Kind,
    bytes: &[u8],
    records: Vec<MapRecord<A>, A>,
    tail: &[u8],
) -> Result<Message<A>, ReadFault>
    requires head { 32 ≤ length bytes.now }
    requires few { length records.items < 256 }
    ensures { Reads message_value result (tail_at kind bytes.now records.items tail.now) }
{
    match kind {
        Kind::Register => read_register(bytes, records, tail),
        Kind::Notify => read_notify(false, bytes, records, tail),
        Kind::NotifyAck => read_notify(true, bytes, records, tail),
    }
}

/// The message type, where the 32 bytes before the records are as they must be.
#[tactic(auto, unfolding(crate::specs::Reading::kind_at))]
pub(crate) fn read_kind(bytes: &[u8]) -> Result<Kind, ReadFault>
    ensures kind { Reads (λ k. k) result (kind_at bytes.now) }
    ensures head { OnOk result (32 ≤ length bytes.now) }
{
    if bytes.len() < AUTH_AT {
        return Err(ReadFault::Short);
    }
    let kind = Kind::from_number(bytes[0] / 16)?;
    if bytes[ALGORITHM_AT] != HMAC_SHA_256_128_NONE {
        return Err(ReadFault::Algorithm);
    }
    let auth_length = u16::from_be_bytes([bytes[AUTH_LENGTH_AT], bytes[AUTH_LENGTH_AT + 1]]);
    if auth_length as usize != lisp_hmac::TAG_LEN {
        return Err(ReadFault::AuthLength);
    }
    if bytes.len() < HEAD_LEN {
        return Err(ReadFault::Short);
    }
    Ok(kind)
}

// The records after the first 32 bytes, and the bytes after them.
fn read_records<A: Memory + Copy>(
    alloc: A,
    bytes: &[u8],
) -> Result<(Vec<MapRecord<A>, A>, &[u8]), ReadFault>
    requires { 32 ≤ length bytes.now }
    ensures records { Gives (λ x. (x.0.items, x.1.now)) result (records_of bytes.now) }
    ensures memory { IfOutOfMemory result (A.may_refuse × HasRecords bytes.now) }
{
    let mut records = Vec::new(alloc);
    records.make_room(usize::from(bytes[3]))?;
    let mut at = HEAD_LEN;
    for place in 0..bytes[3] {
        match read_record(alloc, bytes, at) {
            Ok((record, next)) => {
                records.try_push(record)?;
                at = next;
            }
            Err(fault) => return Err(ReadFault::of_record(place, fault)),
        }
    }
    let (_, tail) = bytes.split_at(at);
    Ok((records, tail))
}

/// The nonce of a message.
pub(crate) fn read_nonce(bytes: &[u8]) -> u64
    requires { 32 ≤ length bytes.now }
    ensures { result ≡ nonce_of bytes.now }
{
    let (_, after) = bytes.split_at(4);
    let (nonce, _) = after.split_first_chunk::<8>().unwrap();
    u64::from_be_bytes(*nonce)
}
