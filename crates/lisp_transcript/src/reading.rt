//! What is told of the bytes of a datagram.

ghost use Rattle.std.specs.Prelude.{◌≡◌, ◌≢◌, IfOk, OnOk, OnErr};
ghost use Rattle.std.specs.Bool.{OnTrue, OnFalse};
ghost use Rattle.lisp_messages.specs.declared.fault.ReadFault.TheVariants.{OutOfMemory};
ghost use Rattle.lisp_memory.specs.Appending.{StringGrowsBy};
ghost use Rattle.lisp_messages.specs.Meaning.{message_value};
ghost use Rattle.lisp_messages.specs.Reading.{message_at};
ghost use Rattle.lisp_records.specs.Result.{Reads};
ghost use Rattle.lisp_transcript.specs.Message.{message_text, read_text, type_of};
ghost use Rattle.lisp_transcript.specs.Tag.{tag_of};

use crate::fault_text::put_fault;
use crate::message_text::put_known;
use crate::verdict::tag_of;
use lisp_memory::{FallibleString, Memory};
use lisp_messages::{Message, ReadFault, read_message};
use lisp_policy::Sites;
use std::alloc::{AllocError, Allocator};

/// Appends what is told of a datagram's bytes. Out of memory, it may leave a part of it.
#[tactic(auto, unfolding(crate::specs::Message::message_text))]
pub(crate) fn put_message<A: Memory + Copy, B: Allocator>(
    alloc: A,
    text: &mut String<A>,
    sites: &Sites<B>,
    bytes: &[u8],
) -> Result<(), AllocError>
    ensures text { OnOk result (StringGrowsBy text.old text.new
        (message_text (tag_of sites.now bytes.now) bytes.now)) }
    ensures memory { OnErr result A.may_refuse }
{
    match type_of(bytes) {
        1 => text.try_write("map-request"),
        2 => text.try_write("map-reply"),
        8 => text.try_write("encapsulated"),
        _ => put_read(alloc, text, sites, bytes),
    }
}

// The number of a message's type (RFC 9301 section 5.1).
fn type_of(bytes: &[u8]) -> u8
    ensures { result ≡ type_of bytes.now }
{
    match bytes {
        [first, ..] => first / 16,
        [] => 0,
    }
}

// Appends what is told of a message of registration, or why it isn't read. Out of memory, it may leave a part of it.
fn put_read<A: Memory + Copy, B: Allocator>(
    alloc: A,
    text: &mut String<A>,
    sites: &Sites<B>,
    bytes: &[u8],
) -> Result<(), AllocError>
    ensures text { OnOk result (StringGrowsBy text.old text.new
        (read_text (tag_of sites.now bytes.now) bytes.now (message_at bytes.now))) }
    ensures memory { OnErr result A.may_refuse }
{
    match read(alloc, bytes)? {
        Ok(message) => {
            let tag = tag_of(sites, bytes, &message);
            put_known(alloc, text, tag, &message)
        }
        Err(fault) => put_fault(alloc, text, bytes, fault),
    }
}

// The message that the bytes are, or why it isn't read.
fn read<A: Memory + Copy>(
    alloc: A,
    bytes: &[u8],
) -> Result<Result<Message<A>, ReadFault>, AllocError>
    ensures read { IfOk result (λ read. Reads message_value read (message_at bytes.now)) }
    ensures memory { OnErr result A.may_refuse }
{
    match read_message(alloc, bytes) {
        Ok(message) => Ok(Ok(message)),
        Err(fault) => {
            if ran_out(fault) {
                Err(AllocError)
            } else {
                Ok(Err(fault))
            }
        }
    }
}

// Whether memory ran out.
fn ran_out(fault: ReadFault) -> bool
    ensures out { OnTrue result (fault ≡ OutOfMemory) }
    ensures others { OnFalse result (fault ≢ OutOfMemory) }
{
    fault == ReadFault::OutOfMemory
}
