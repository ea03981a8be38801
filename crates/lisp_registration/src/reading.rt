//! Reading messages where their bytes lie.

ghost use Rattle.std.specs.Prelude.{◌≡◌, IfOk};
ghost use Rattle.lisp_requests.specs.Encapsulated.{StandsAt, encapsulated_at};
ghost use Rattle.lisp_requests.specs.Fault.{fault_number};
ghost use Rattle.lisp_requests.specs.Reply.{reply_at};
ghost use Rattle.lisp_registration.specs.Plain.{plain_encapsulated, plain_reply};
ghost use Rattle.lisp_registration.specs.Told.{RecordsStand, TellsEid, TellsLocator, TellsMessage, TellsRecord, TellsRequest, TellsRloc, told};

use crate::address::{PlainAddress, PlainPrefix};
use crate::message::PlainMessage;
use crate::record::{PlainLocator, PlainRecord};
use crate::requests::{PlainEncapsulated, PlainReply, PlainRequest};
use lisp_messages::message_layout;
use lisp_records::{locator_at, record_layout};
use lisp_requests::{eid_record_at, itr_rloc_at, read_encapsulated, reply_layout, request_layout};
use std::alloc::Global;

/// What the message that the bytes spell says, all of the bytes, and where its records are; takes no memory. 0 is done; else
/// it is the number of the first fault from left to right (`Short` 1, `Kind` 10, `Algorithm` 11, `AuthLength` 12, `NoIds` 13,
/// `Trailing` 14, `Record` 15), and `message` is as it was.
#[unsafe(no_mangle)]
pub extern "C" fn lisp_registration_read_message(
    alloc: Global,
    bytes: &[u8],
    message: &mut PlainMessage,
) -> u16
    ensures { TellsMessage bytes.now message.old result message.new }
{
    match message_layout(alloc, bytes) {
        Ok(layout) => {
            *message = PlainMessage::of(&layout);
            0
        }
        Err(fault) => fault.number(),
    }
}

/// What the record that begins at byte `at` says, and where its locators are; takes no memory. 0 is done; else it is the
/// number of the first fault (`Short` 1, `Afi` 2, `Mask` 3), and `entry` is as it was.
#[unsafe(no_mangle)]
pub extern "C" fn lisp_registration_read_record(
    alloc: Global,
    bytes: &[u8],
    at: usize,
    entry: &mut PlainRecord,
) -> u16
    ensures { TellsRecord bytes.now at entry.old result entry.new }
{
    match record_layout(alloc, bytes, at) {
        Ok(layout) => {
            *entry = PlainRecord::of(&layout);
            0
        }
        Err(fault) => fault.number(),
    }
}

/// What the locator that begins at byte `at` says; takes no memory. 0 is done; else it is the number of the first fault
/// (`Short` 1, `Afi` 2), and `locator` is as it was.
#[unsafe(no_mangle)]
pub extern "C" fn lisp_registration_read_locator(
    bytes: &[u8],
    at: usize,
    locator: &mut PlainLocator,
) -> u16
    ensures { TellsLocator bytes.now at locator.old result locator.new }
{
    match locator_at(bytes, at) {
        Ok((found, end)) => {
            *locator = PlainLocator::of(&found, end);
            0
        }
        Err(fault) => fault.number(),
    }
}

/// What the Map-Request that the bytes begin with says, and where its ITR-RLOCs and EID-Prefixes are; takes no memory. 0 is
/// done; else it is the number of the first fault from left to right (`Short` 110, `Kind` 111, `NoRecord` 122, `Afi` 123,
/// `Mask` 124), and `request` is as it was.
#[unsafe(no_mangle)]
pub extern "C" fn lisp_registration_read_request(bytes: &[u8], request: &mut PlainRequest) -> u16
    ensures { TellsRequest bytes.now request.old result request.new }
{
    match request_layout(bytes) {
        Ok(layout) => {
            *request = PlainRequest::of(&layout);
            0
        }
        Err(fault) => fault.number(),
    }
}

/// The ITR-RLOC that begins at byte `at`, and where it ends; takes no memory. 0 is done; else it is the number of the first
/// fault (`Short` 110, `Afi` 123), and `itr_rloc` and `end` are as they were.
#[unsafe(no_mangle)]
pub extern "C" fn lisp_registration_read_itr_rloc(
    bytes: &[u8],
    at: usize,
    itr_rloc: &mut PlainAddress,
    end: &mut usize,
) -> u16
    ensures { TellsRloc bytes.now at itr_rloc.old end.old result itr_rloc.new end.new }
{
    match itr_rloc_at(bytes, at) {
        Ok((addr, next)) => {
            *itr_rloc = PlainAddress::of(addr);
            *end = next;
            0
        }
        Err(fault) => fault.number(),
    }
}

/// The EID-Prefix of the record of a Map-Request that begins at byte `at`, and where that ends; takes no memory. 0 is done;
/// else it is the number of the first fault (`Short` 110, `Afi` 123, `Mask` 124), and `eid` and `end` are as they were.
#[unsafe(no_mangle)]
pub extern "C" fn lisp_registration_read_eid(
    bytes: &[u8],
    at: usize,
    eid: &mut PlainPrefix,
    end: &mut usize,
) -> u16
    ensures { TellsEid bytes.now at eid.old end.old result eid.new end.new }
{
    match eid_record_at(bytes, at) {
        Ok((prefix, next)) => {
            *eid = PlainPrefix::of(&prefix);
            *end = next;
            0
        }
        Err(fault) => fault.number(),
    }
}

/// What the Map-Reply that the bytes spell says, all of the bytes, and where its records are; takes no memory. 0 is done;
/// else it is the number of the first fault from left to right (`Short` 110, `Kind` 111, `Afi` 123, `Mask` 124, `Trailing`
/// 125), and `reply` is as it was.
#[unsafe(no_mangle)]
pub extern "C" fn lisp_registration_read_reply(
    alloc: Global,
    bytes: &[u8],
    reply: &mut PlainReply,
) -> u16
    ensures told { (result, reply.new)
        ≡ told plain_reply fault_number (reply_at bytes.now) reply.old }
    ensures stand { RecordsStand bytes.now reply.new (reply_at bytes.now) }
{
    match reply_layout(alloc, bytes) {
        Ok(layout) => {
            *reply = PlainReply::of(&layout);
            0
        }
        Err(fault) => fault.number(),
    }
}

/// What stands around the message that is encapsulated in the bytes, and where that message is; takes no memory. 0 is done;
/// else it is the number of the first fault from left to right (110 to 121), and `encapsulated` is as it was.
#[unsafe(no_mangle)]
pub extern "C" fn lisp_registration_read_encapsulated(
    bytes: &[u8],
    encapsulated: &mut PlainEncapsulated,
) -> u16
    ensures told { (result, encapsulated.new) ≡
        told (plain_encapsulated bytes.now) fault_number
        (encapsulated_at bytes.now) encapsulated.old }
    ensures stands { IfOk (encapsulated_at bytes.now)
        (λ m. StandsAt bytes.now encapsulated.new.message_at m.message) }
{
    match read_encapsulated(bytes) {
        Ok(found) => {
            *encapsulated = PlainEncapsulated::of(bytes, &found);
            0
        }
        Err(fault) => fault.number(),
    }
}
