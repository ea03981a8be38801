//! Writing messages into the caller's buffer.

ghost use Rattle.std.specs.Prelude.{◌≡◌, ◌<◌, ℕ, List, Result, length, IfOk, OnErr, IsErrOf};
ghost use Rattle.lisp_memory.specs.Refusal.{MachineMayRefuse};
ghost use Rattle.lisp_messages.specs.Authentic.{signed};
ghost use Rattle.lisp_messages.specs.Written.{written};
ghost use Rattle.lisp_registration.specs.Meaning.{Makes, datagram_in, encapsulated_bytes_in, kind_in, reply_bytes_in, request_bytes_in};
ghost use Rattle.lisp_registration.specs.Told.{TellsWritten, length_in, put_in};
ghost use Rattle.lisp_registration.specs.declared.fault.WriteFault.{WriteFault};
ghost use Rattle.lisp_registration.specs.declared.fault.WriteFault.TheVariants.{OutOfMemory};

use crate::address::{PlainAddress, PlainPrefix};
use crate::fault::WriteFault;
use crate::message::PlainMessage;
use crate::record::{PlainLocator, PlainRecord, records_of};
use crate::requests::{PlainEncapsulated, PlainReply, PlainRequest};
use lisp_hmac::Key;
use lisp_memory::Memory;
use lisp_messages::{Kind, write_notify_under, write_register_under};
use lisp_records::Records;
use lisp_requests::{write_encapsulated, write_reply, write_request};
use std::alloc::{AllocError, Allocator, Global};

/// Writes the message of these fields, records and locators, authentic under a secret of any length, into the buffer: bit I
/// set, all reserved bits 0. Each record has so many of the locators as it counts, those of the first record first. At 0,
/// `length` bytes of the buffer are the message, and those behind are as they were. At `Room` 102, `length` is what it
/// needs. Else (`Field` 103, `Counts` 104, `OutOfMemory` 105) all is as it was. The memory that it takes is given back.
#[unsafe(no_mangle)]
pub extern "C" fn lisp_registration_write_message(
    alloc: Global,
    message: &PlainMessage,
    records: &[PlainRecord],
    locators: &[PlainLocator],
    secret: &[u8],
    buffer: &mut [u8],
    length: &mut usize,
) -> u16
    ensures written { TellsWritten (datagram_in message.now records.now locators.now secret.now)
        buffer.old length.old result buffer.new length.new }
    ensures memory { result ≡ 105 → MachineMayRefuse }
{
    let written = datagram(alloc, message, records, locators, secret);
    put_written(&written, buffer, length)
}

// The bytes of the message. Faults: `Field` for its type, then those of `records_of`.
fn datagram<A: Memory + Copy>(
    alloc: A,
    message: &PlainMessage,
    records: &[PlainRecord],
    locators: &[PlainLocator],
    secret: &[u8],
) -> Result<Vec<u8, A>, WriteFault>
    ensures value { Makes (λ v. v.items) result
        (datagram_in message.now records.now locators.now secret.now) }
    ensures memory { IsErrOf result OutOfMemory → A.may_refuse }
{
    let Ok(kind) = Kind::from_number(message.kind) else {
        return Err(WriteFault::Field);
    };
    let records = records_of(alloc, records, locators)?;
    let bytes = signed(alloc, kind, message, records, &Key::new(secret))?;
    Ok(bytes)
}

// The bytes of a message of this type and of these records.
fn signed<A: Memory>(
    alloc: A,
    kind: Kind,
    message: &PlainMessage,
    records: Records<A>,
    key: &Key,
) -> Result<Vec<u8, A>, AllocError>
    requires few { length records < 256 }
    ensures value { IfOk result
        (λ v. v.items ≡ signed key.now (written (kind_in kind message.now records))) }
    ensures memory { OnErr result A.may_refuse }
{
    match kind {
        Kind::Register => write_register_under(alloc, &message.register(records), key),
        Kind::Notify => write_notify_under(alloc, &message.notify(false, records), key),
        Kind::NotifyAck => write_notify_under(alloc, &message.notify(true, records), key),
    }
}

/// Puts a message that was written in front of a buffer, and its length into `length`: 0, or the number of `Room` 102 where
/// the buffer has no room for it, or of the fault for which it was not written.
pub(crate) fn put_written<A: Allocator>(
    written: &Result<Vec<u8, A>, WriteFault>,
    buffer: &mut [u8],
    length: &mut usize,
) -> u16
    ensures written { (datagram : Result (List ℕ) WriteFault)
        → Makes (λ v. v.items) written.now datagram →
        TellsWritten datagram buffer.old length.old result buffer.new length.new }
    ensures memory { result ≡ 105 → IsErrOf written.now OutOfMemory }
{
    match written {
        Ok(bytes) => {
            *length = bytes.len();
            if put(bytes, buffer) {
                0
            } else {
                WriteFault::Room.number()
            }
        }
        Err(fault) => fault.number(),
    }
}

/// Puts bytes in front of a buffer; whether it has room for them.
pub(crate) fn put(bytes: &[u8], buffer: &mut [u8]) -> bool
    ensures { (result, buffer.new) ≡ put_in bytes.now buffer.old }
{
    if bytes.len() > buffer.len() {
        return false;
    }
    buffer[..bytes.len()].copy_from_slice(bytes);
    true
}

/// Puts bytes in front of a buffer; how many of it are those: none where it has no room for them.
pub(crate) fn put_length(bytes: &[u8], buffer: &mut [u8]) -> usize
    ensures length { result ≡ length_in bytes.now buffer.old }
    ensures buffer { buffer.new ≡ (put_in bytes.now buffer.old).1 }
{
    if put(bytes, buffer) { bytes.len() } else { 0 }
}

/// Writes the Map-Request of these fields, ITR-RLOCs and EID-Prefixes into the buffer: M, R, I and all reserved bits 0, and
/// nothing after the records. At 0, `length` bytes of the buffer are the message, and those after them are as they were. At
/// `Room` 102, `length` is what it needs. Else (`Field` 103, `Counts` 104, `OutOfMemory` 105) all is as it was. The memory
/// that it takes is given back.
#[unsafe(no_mangle)]
pub extern "C" fn lisp_registration_write_request(
    alloc: Global,
    request: &PlainRequest,
    itr_rlocs: &[PlainAddress],
    eids: &[PlainPrefix],
    buffer: &mut [u8],
    length: &mut usize,
) -> u16
    ensures written { TellsWritten (request_bytes_in request.now itr_rlocs.now eids.now)
        buffer.old length.old result buffer.new length.new }
    ensures memory { result ≡ 105 → MachineMayRefuse }
{
    let written = request_bytes(alloc, request, itr_rlocs, eids);
    put_written(&written, buffer, length)
}

// The bytes of a Map-Request. Faults: those of `PlainRequest::request`.
fn request_bytes<A: Memory + Copy>(
    alloc: A,
    request: &PlainRequest,
    itr_rlocs: &[PlainAddress],
    eids: &[PlainPrefix],
) -> Result<Vec<u8, A>, WriteFault>
    ensures value { Makes (λ v. v.items) result
        (request_bytes_in request.now itr_rlocs.now eids.now) }
    ensures memory { IsErrOf result OutOfMemory → A.may_refuse }
{
    let request = request.request(alloc, itr_rlocs, eids)?;
    let bytes = write_request(alloc, &request)?;
    Ok(bytes)
}

/// Writes the Map-Reply of these fields, records and locators into the buffer: all reserved bits 0. Each record has so many
/// of the locators as it counts, those of the first record first. At 0, `length` bytes of the buffer are the message, and
/// those behind are as they were. At `Room` 102, `length` is what it needs. Else (`Field` 103, `Counts` 104, `OutOfMemory`
/// 105) all is as it was. The memory that it takes is given back.
#[unsafe(no_mangle)]
pub extern "C" fn lisp_registration_write_reply(
    alloc: Global,
    reply: &PlainReply,
    records: &[PlainRecord],
    locators: &[PlainLocator],
    buffer: &mut [u8],
    length: &mut usize,
) -> u16
    ensures written { TellsWritten (reply_bytes_in reply.now records.now locators.now)
        buffer.old length.old result buffer.new length.new }
    ensures memory { result ≡ 105 → MachineMayRefuse }
{
    let written = reply_bytes(alloc, reply, records, locators);
    put_written(&written, buffer, length)
}

// The bytes of a Map-Reply. Faults: those of `records_of`.
fn reply_bytes<A: Memory + Copy>(
    alloc: A,
    reply: &PlainReply,
    records: &[PlainRecord],
    locators: &[PlainLocator],
) -> Result<Vec<u8, A>, WriteFault>
    ensures value { Makes (λ v. v.items) result
        (reply_bytes_in reply.now records.now locators.now) }
    ensures memory { IsErrOf result OutOfMemory → A.may_refuse }
{
    let records = records_of(alloc, records, locators)?;
    let bytes = write_reply(alloc, &reply.reply(records))?;
    Ok(bytes)
}

/// Writes a control message after the headers of these fields into the buffer: IPv4 or IPv6 by the source address, both
/// checksums, and all reserved bits 0. At 0, `length` bytes of the buffer are the whole, and those after them are as they were.
/// At `Room` 102, `length` is what it needs. Else (`Field` 103, `OutOfMemory` 105) all is as it was. The memory that it takes
/// is given back.
#[unsafe(no_mangle)]
pub extern "C" fn lisp_registration_write_encapsulated(
    alloc: Global,
    encapsulated: &PlainEncapsulated,
    message: &[u8],
    buffer: &mut [u8],
    length: &mut usize,
) -> u16
    ensures written { TellsWritten (encapsulated_bytes_in encapsulated.now message.now)
        buffer.old length.old result buffer.new length.new }
    ensures memory { result ≡ 105 → MachineMayRefuse }
{
    let written = encapsulated_bytes(alloc, encapsulated, message);
    put_written(&written, buffer, length)
}

// The bytes of an encapsulated message. Faults: those of `PlainEncapsulated::around`.
fn encapsulated_bytes<A: Memory>(
    alloc: A,
    encapsulated: &PlainEncapsulated,
    message: &[u8],
) -> Result<Vec<u8, A>, WriteFault>
    ensures value { Makes (λ v. v.items) result
        (encapsulated_bytes_in encapsulated.now message.now) }
    ensures memory { IsErrOf result OutOfMemory → A.may_refuse }
{
    let request = encapsulated.around(message)?;
    let bytes = write_encapsulated(alloc, &request)?;
    Ok(bytes)
}
