//! What is written in each message alike.

ghost use Rattle.std.specs.Prelude.{◌≡◌, ◌∷◌, ◌++◌, ◌<◌, ◌^◌, replicate, All, OnErr, OnOk};
ghost use Rattle.lisp_records.specs.Record.{IsMapRecord};
ghost use Rattle.lisp_messages.specs.Spelling.{common};
ghost use Rattle.lisp_messages.specs.Written.{written_records};

use crate::reading::{HEAD_LEN, HMAC_SHA_256_128_NONE};
use lisp_hmac::TAG_LEN;
use lisp_memory::{FallibleCopies, FallibleVec, Memory};
use lisp_records::{MapRecord, write_record};
use std::alloc::{AllocError, Allocator};

// The bytes of a message without its records: the 32 before them, xTR-ID and Site-ID.
const MESSAGE_LEN: usize = 56;

// The bytes of a record with one IPv4 locator.
const RECORD_LEN: usize = 28;

/// The bytes before the records, by the first byte, the third and the fields of each message; the Authentication Data
/// as zeros.
#[rattlefmt::skip]
pub(crate) fn head(kind: u8, flags: u8, count: u8, nonce: u64, key_id: u8) -> [u8; HEAD_LEN]
    ensures head { result ≡ kind ∷ 0 ∷ flags ∷ common count nonce key_id (replicate 16 0) }
    ensures fits { (nonce < 2 ^ 64) × (key_id < 256) }
{
    let [n0, n1, n2, n3, n4, n5, n6, n7] = nonce.to_be_bytes();
    [
        kind, 0, flags, count, n0, n1, n2, n3, n4, n5, n6, n7,
        key_id, HMAC_SHA_256_128_NONE, 0, TAG_LEN as u8,
        0, 0, 0, 0, 0, 0, 0, 0, 0, 0, 0, 0, 0, 0, 0, 0,
    ]
}

/// Makes room for a message with so many records, as if each had one IPv4 locator, so that mostly nothing moves while
/// it is written, and appends the bytes before the records.
pub(crate) fn put_head<A: Memory>(
    out: &mut Vec<u8, A>,
    head: &[u8; HEAD_LEN],
    records: usize,
) -> Result<(), AllocError>
    requires { records < 256 }
    ensures head { OnOk result (out.new.items ≡ out.old.items ++ head.now) }
    ensures memory { OnErr result A.may_refuse }
{
    out.make_room(MESSAGE_LEN + records * RECORD_LEN)?;
    out.try_extend_from_slice(head)
}

/// Appends the written spellings of the records, one after the other.
pub(crate) fn put_records<A: Memory, B: Allocator>(
    out: &mut Vec<u8, A>,
    records: &[MapRecord<B>],
) -> Result<(), AllocError>
    ensures records { OnOk result (out.new.items ≡ out.old.items ++ written_records records.now) }
    ensures known { OnOk result (All IsMapRecord records.now) }
    ensures memory { OnErr result A.may_refuse }
{
    for record in records {
        write_record(record, out)?;
    }
    Ok(())
}
