//! The Map-Notify and the Map-Notify-Ack.

ghost use Rattle.std.specs.Prelude.{◌≡◌, ◌<◌, ◌≤◌, [], length, replicate, IfOk, OnOk, OnErr};
ghost use Rattle.lisp_messages.specs.Message.{Notifies, IsMapNotify, FitMessage};
ghost use Rattle.lisp_messages.specs.Meaning.{message_value};
ghost use Rattle.lisp_messages.specs.Spelling.{Spells};
ghost use Rattle.lisp_messages.specs.Authentic.{IsAuthentic, signed_notify};
ghost use Rattle.lisp_messages.specs.Written.{written_notify, written_notify_head};
ghost use Rattle.lisp_records.specs.Result.{Reads};
ghost use Rattle.lisp_messages.specs.Reading.{notify_at};

use crate::authentication::sign_written;
use crate::fault::ReadFault;
use crate::kind::Kind;
use crate::message::Message;
use crate::reading::{HEAD_LEN, KEY_ID_AT, read_nonce};
use crate::writing::{head, put_head, put_records};
use lisp_hmac::Key;
use lisp_memory::Memory;
use lisp_records::{MapRecord, Records};
use std::alloc::{AllocError, Allocator, Global};
use std::marker::Model;

/// A Map-Notify, type 4, or a Map-Notify-Ack, type 5 (RFC 9301 section 5.7), with at most 255
/// records. Its bytes are those of a Map-Register, without flags and with nothing after the
/// records; 24 bytes there are ignored.
#[derive(Debug, Drop)]
pub struct MapNotify<A: Allocator = Global> {
    /// Whether it is a Map-Notify-Ack.
    pub ack: bool,
    /// The nonce of the Map-Register that it answers, or the server's own.
    pub nonce: u64,
    /// The secret that the message is authenticated under.
    pub key_id: u8,
    /// The records, at most 255.
    pub records: Records<A>,
}

impl<A: Allocator> Model for MapNotify<A> {
    ghost use Rattle.std.specs.Prelude.{◌<◌, length};
    ghost use Rattle.lisp_messages.specs.Message.{MapNotifyValue};

    ghost Value = { MapNotifyValue };

    ghost view = { λ m. record { ack = m.ack; nonce = m.nonce; key_id = m.key_id; records = m.records } };

    ghost invariant = { λ m. length m.records < 256 };
}

/// The message that is a Map-Notify, or Map-Notify-Ack, of these bytes and records; `Trailing` where
/// neither nothing nor 24 bytes stand after the records.
pub(crate) fn read_notify<A: Allocator>(
    ack: bool,
    bytes: &[u8],
    records: Vec<MapRecord<A>, A>,
    tail: &[u8],
) -> Result<Message<A>, ReadFault>
    requires head { 32 ≤ length bytes.now }
    requires few { length records.items < 256 }
    ensures { Reads message_value result (notify_at ack bytes.now records.items tail.now) }
{
    if !(tail.is_empty() || tail.len() == 24) {
        return Err(ReadFault::Trailing);
    }
    Ok(Message::Notify(MapNotify {
        ack,
        nonce: read_nonce(bytes),
        key_id: bytes[KEY_ID_AT],
        records: Records::from_vec(records),
    }))
}

/// The written spelling of a Map-Notify or Map-Notify-Ack, authentic under a secret: all reserved bits 0, and nothing
/// after the records. It lies in memory of `alloc`; out of memory is the only refusal. For one message alone: many are
/// written by `write_notify_under`.
pub fn write_notify<A: Memory, B: Allocator>(
    alloc: A,
    message: &MapNotify<B>,
    secret: &[u8],
) -> Result<Vec<u8, A>, AllocError>
    ensures written { IfOk result (λ v. v.items ≡ signed_notify secret.now message.now) }
    ensures authentic { IfOk result (λ v. IsAuthentic v.items secret.now) }
    ensures spells { IfOk result (λ v. Spells v.items (Notifies message.now)) }
    ensures known { OnOk result (IsMapNotify message.now) }
    ensures memory { OnErr result A.may_refuse }
{
    write_notify_under(alloc, message, &Key::new(secret))
}

/// As `write_notify`, under a key that was made ready.
pub fn write_notify_under<A: Memory, B: Allocator>(
    alloc: A,
    message: &MapNotify<B>,
    key: &Key,
) -> Result<Vec<u8, A>, AllocError>
    ensures written { IfOk result (λ v. v.items ≡ signed_notify key.now message.now) }
    ensures authentic { IfOk result (λ v. IsAuthentic v.items key.now) }
    ensures spells { IfOk result (λ v. Spells v.items (Notifies message.now)) }
    ensures known { OnOk result (IsMapNotify message.now) }
    ensures memory { OnErr result A.may_refuse }
{
    let mut out = Vec::new(alloc);
    put_notify(&mut out, message)?;
    sign_written(&mut out, key);
    Ok(out)
}

// The written spelling, its Authentication Data zeros.
fn put_notify<A: Memory, B: Allocator>(
    out: &mut Vec<u8, A>,
    message: &MapNotify<B>,
) -> Result<(), AllocError>
    requires { out.old.items ≡ [] }
    ensures written { OnOk result (out.new.items ≡ written_notify message.now (replicate 16 0)) }
    ensures known { OnOk result (IsMapNotify message.now) }
    ensures memory { OnErr result A.may_refuse }
{
    let records = message.records.as_slice();
    put_head(out, &head_of(message), records.len())?;
    put_records(out, records)?;
    Ok(())
}

// The bytes before the records.
fn head_of<A: Allocator>(message: &MapNotify<A>) -> [u8; HEAD_LEN]
    ensures head { result ≡ written_notify_head message.now (replicate 16 0) }
    ensures fits { FitMessage message.now.nonce message.now.key_id message.now.records }
{
    let kind = if message.ack {
        Kind::NotifyAck
    } else {
        Kind::Notify
    };
    let records = message.records.as_slice();
    let (count, nonce, key_id) = (records.len() as u8, message.nonce, message.key_id);
    head(kind.number() * 16, 0, count, nonce, key_id)
}
