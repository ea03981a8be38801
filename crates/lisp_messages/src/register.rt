//! The Map-Register.

ghost use Rattle.std.specs.Prelude.{◌≡◌, ◌^◌, ◌<◌, ◌≤◌, [], ◌++◌, length, replicate, IfOk, OnOk, OnErr};
ghost use Rattle.std.specs.Int.{w64, to_be_bytes};
ghost use Rattle.std.specs.List.{AllByRecursion};
ghost use Rattle.lisp_messages.specs.Message.{Registers, IsMapRegister, FitMessage};
ghost use Rattle.lisp_messages.specs.Spelling.{Spells};
ghost use Rattle.lisp_messages.specs.Authentic.{IsAuthentic, signed_register};
ghost use Rattle.lisp_messages.specs.Written.{register_kind, register_flags, written_register, written_register_head};
ghost use Rattle.lisp_records.specs.Result.{Reads};
ghost use Rattle.lisp_messages.specs.Meaning.{message_value};
ghost use Rattle.lisp_messages.specs.Reading.{ids_at, register_at};

use crate::authentication::sign_written;
use crate::fault::ReadFault;
use crate::kind::Kind;
use crate::message::Message;
use crate::reading::{HEAD_LEN, KEY_ID_AT, read_nonce};
use crate::writing::{head, put_head, put_records};
use lisp_hmac::Key;
use lisp_memory::{FallibleCopies, Memory};
use lisp_records::{MapRecord, Records, is_set};
use std::alloc::{AllocError, Allocator, Global};
use std::marker::Model;

// The flags in the first byte.
const PROXY: u8 = 0x08;

const SEC: u8 = 0x04;

const IDS: u8 = 0x02;

// The flags in the third byte.
const EID_NOTIFY: u8 = 0x10;

const USE_TTL: u8 = 0x08;

const MERGE: u8 = 0x04;

const WANT_NOTIFY: u8 = 0x01;

/// A Map-Register (RFC 9301 section 5.6), type 3, with at most 255 records:
///
/// ```text
/// byte 0        type 3 in the high 4 bits, P 0x08, S 0x04, I 0x02 (always set), the rest reserved
/// byte 1        reserved
/// byte 2        E 0x10, T 0x08, a 0x04, M 0x01, the rest reserved
/// byte 3        Record Count
/// byte 4 to 11  nonce
/// byte 12       Key ID
/// byte 13       Algorithm ID: 2 is HMAC-SHA-256-128-None
/// byte 14, 15   Authentication Data Length: 16
/// byte 16 on    Authentication Data, the records, xTR-ID (16 bytes), Site-ID (8 bytes)
/// ```
#[derive(Debug, Drop)]
pub struct MapRegister<A: Allocator = Global> {
    /// P: the Map-Server is to answer Map-Requests for the router.
    pub proxy: bool,
    /// S: the router is capable of LISP-SEC; kept, and without effect here.
    pub sec: bool,
    /// E: dynamic EID discovery; kept, and without effect here.
    pub eid_notify: bool,
    /// T: registrations time out by the TTL of their records.
    pub use_ttl: bool,
    /// a: the records are to be merged with those of other routers.
    pub merge: bool,
    /// M: a Map-Notify is wanted.
    pub want_notify: bool,
    /// The nonce, which rises from one Map-Register of a router to its next.
    pub nonce: u64,
    /// The secret that the message is authenticated under.
    pub key_id: u8,
    /// The records, at most 255.
    pub records: Records<A>,
    /// The xTR-ID: which router of the site.
    pub xtr: [u8; 16],
    /// The Site-ID.
    pub site: u64,
}

impl<A: Allocator> Model for MapRegister<A> {
    ghost use Rattle.std.specs.Prelude.{◌<◌, length};
    ghost use Rattle.lisp_messages.specs.Message.{MapRegisterValue};

    ghost Value = { MapRegisterValue };

    ghost view = { λ m. record { proxy = m.proxy; sec = m.sec; eid_notify = m.eid_notify; use_ttl = m.use_ttl; merge = m.merge; want_notify = m.want_notify; nonce = m.nonce; key_id = m.key_id; records = m.records; xtr = m.xtr; site = m.site } };

    ghost invariant = { λ m. length m.records < 256 };
}

/// The written spelling of a Map-Register, authentic under a secret: bit I set, all reserved bits 0. It lies in memory
/// of `alloc`; out of memory is the only refusal. For one message alone: many are written by `write_register_under`.
pub fn write_register<A: Memory, B: Allocator>(
    alloc: A,
    message: &MapRegister<B>,
    secret: &[u8],
) -> Result<Vec<u8, A>, AllocError>
    ensures written { IfOk result (λ v. v.items ≡ signed_register secret.now message.now) }
    ensures authentic { IfOk result (λ v. IsAuthentic v.items secret.now) }
    ensures spells { IfOk result (λ v. Spells v.items (Registers message.now)) }
    ensures known { OnOk result (IsMapRegister message.now) }
    ensures memory { OnErr result A.may_refuse }
{
    write_register_under(alloc, message, &Key::new(secret))
}

/// As `write_register`, under a key that was made ready.
pub fn write_register_under<A: Memory, B: Allocator>(
    alloc: A,
    message: &MapRegister<B>,
    key: &Key,
) -> Result<Vec<u8, A>, AllocError>
    ensures written { IfOk result (λ v. v.items ≡ signed_register key.now message.now) }
    ensures authentic { IfOk result (λ v. IsAuthentic v.items key.now) }
    ensures spells { IfOk result (λ v. Spells v.items (Registers message.now)) }
    ensures known { OnOk result (IsMapRegister message.now) }
    ensures memory { OnErr result A.may_refuse }
{
    let mut out = Vec::new(alloc);
    put_register(&mut out, message)?;
    sign_written(&mut out, key);
    Ok(out)
}

// The written spelling, its Authentication Data zeros.
fn put_register<A: Memory, B: Allocator>(
    out: &mut Vec<u8, A>,
    message: &MapRegister<B>,
) -> Result<(), AllocError>
    requires { out.old.items ≡ [] }
    ensures written { OnOk result (out.new.items ≡ written_register message.now (replicate 16 0)) }
    ensures known { OnOk result (IsMapRegister message.now) }
    ensures memory { OnErr result A.may_refuse }
{
    let records = message.records.as_slice();
    put_head(out, &head_of(message), records.len())?;
    put_records(out, records)?;
    put_ids(out, message.xtr, message.site)
}

// The bytes before the records.
fn head_of<A: Allocator>(message: &MapRegister<A>) -> [u8; HEAD_LEN]
    ensures head { result ≡ written_register_head message.now (replicate 16 0) }
    ensures fits { FitMessage message.now.nonce message.now.key_id message.now.records }
{
    let count = message.records.as_slice().len() as u8;
    head(
        kind_of(message),
        flags_of(message),
        count,
        message.nonce,
        message.key_id,
    )
}

// The first byte: type, P, S and I.
fn kind_of<A: Allocator>(message: &MapRegister<A>) -> u8
    ensures { result ≡ register_kind message.now }
{
    Kind::Register.number() * 16
        + u8::from(message.proxy) * PROXY
        + u8::from(message.sec) * SEC
        + IDS
}

// The third byte: E, T, a and M.
fn flags_of<A: Allocator>(message: &MapRegister<A>) -> u8
    ensures { result ≡ register_flags message.now }
{
    u8::from(message.eid_notify) * EID_NOTIFY
        + u8::from(message.use_ttl) * USE_TTL
        + u8::from(message.merge) * MERGE
        + u8::from(message.want_notify) * WANT_NOTIFY
}

// xTR-ID and Site-ID.
fn put_ids<A: Memory>(out: &mut Vec<u8, A>, xtr: [u8; 16], site: u64) -> Result<(), AllocError>
    ensures ids { OnOk result (out.new.items ≡ out.old.items ++ (xtr ++ to_be_bytes w64 site)) }
    ensures fits { (length xtr ≡ 16) × (site < 2 ^ 64) }
    ensures bytes { OnOk result (AllByRecursion (λ n. n < 256) xtr) }
    ensures memory { OnErr result A.may_refuse }
{
    out.try_extend_from_slice(&xtr)?;
    out.try_extend_from_slice(&site.to_be_bytes())
}

/// The message that is the Map-Register of these bytes and records, by what stands after the
/// records: `NoIds`, then `Short` or `Trailing`.
pub(crate) fn read_register<A: Allocator>(
    bytes: &[u8],
    records: Vec<MapRecord<A>, A>,
    tail: &[u8],
) -> Result<Message<A>, ReadFault>
    requires head { 32 ≤ length bytes.now }
    requires few { length records.items < 256 }
    ensures { Reads message_value result (register_at bytes.now records.items tail.now) }
{
    if !is_set(bytes[0], IDS) {
        return Err(ReadFault::NoIds);
    }
    let (xtr, site) = read_ids(tail)?;
    Ok(Message::Register(MapRegister {
        proxy: is_set(bytes[0], PROXY),
        sec: is_set(bytes[0], SEC),
        eid_notify: is_set(bytes[2], EID_NOTIFY),
        use_ttl: is_set(bytes[2], USE_TTL),
        merge: is_set(bytes[2], MERGE),
        want_notify: is_set(bytes[2], WANT_NOTIFY),
        nonce: read_nonce(bytes),
        key_id: bytes[KEY_ID_AT],
        records: Records::from_vec(records),
        xtr,
        site,
    }))
}

// xTR-ID and Site-ID, which end the message.
#[tactic(auto, unfolding(crate::specs::Reading::ids_at))]
fn read_ids(tail: &[u8]) -> Result<([u8; 16], u64), ReadFault>
    ensures { Reads (λ x. x) result (ids_at tail.now) }
{
    let Some((xtr, rest)) = tail.split_first_chunk::<16>() else {
        return Err(ReadFault::Short);
    };
    let Some((site, rest)) = rest.split_first_chunk::<8>() else {
        return Err(ReadFault::Short);
    };
    if !rest.is_empty() {
        return Err(ReadFault::Trailing);
    }
    Ok((*xtr, u64::from_be_bytes(*site)))
}
