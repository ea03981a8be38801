//! What a Map-Server and a router send for an EID-Prefix that a Map-Request asks for.

ghost use Rattle.std.specs.Prelude.{◌≡◌, ◌<◌, ◌≤◌, length, IfOk, IsErr};
ghost use Rattle.lisp_memory.specs.Refusal.{MachineMayRefuse};
ghost use Rattle.lisp_embedded.specs.Replying.{reply_room};
ghost use Rattle.lisp_registration.specs.Replied.{goes_on_to, plain_replied, replied_kind, TellsRouterReply, TellsServerReply, probed_in, told_replied};
ghost use Rattle.lisp_registration.specs.Handle.{message_room};

use crate::address::{PlainAddress, PlainPrefix};
use crate::fault::{HandleFault, WriteFault};
use crate::items::Says;
use crate::writing::put;
use lisp_embedded::{HostedReply, RouterHandle, ServerHandle, router_reply_of, server_reply_of};
use lisp_mapping::Outcome;
use lisp_records::Addr;
use std::alloc::{AllocError, Allocator, Global};

/// The kind of a Map-Reply with records.
const RECORDS: u8 = 0;

/// The kind of a negative Map-Reply.
const NEGATIVE: u8 = 1;

/// The kind of a Map-Request that goes on to a router.
const FORWARD: u8 = 2;

/// The kind of nothing, because the Map-Server has just started.
const SILENT: u8 = 3;

/// What is sent for an EID-Prefix that a Map-Request asks for, in plain numbers, but the bytes of the Map-Reply (RFC 9301 sections 5.4,
/// 8.2 and 8.3).
#[repr(C)]
#[derive(Clone, Copy)]
pub struct PlainReplied {
    /// 0 is a Map-Reply with records, 1 a negative Map-Reply, 2 the Map-Request as it came, on its way to a router, 3 nothing.
    pub kind: u8,
    /// The address that a Map-Request goes on to, else all is 0.
    pub to: PlainAddress,
    /// How many bytes of the buffer are the Map-Reply; 0 where none is sent.
    pub length: usize,
}

impl PlainReplied {
    /// What is sent, in plain numbers.
    pub(crate) fn of<A: Allocator>(hosted: &HostedReply<A>) -> PlainReplied
        ensures { result ≡ plain_replied hosted.now }
    {
        PlainReplied {
            kind: kind_of(&hosted.outcome),
            to: goes_on_to(&hosted.outcome),
            length: hosted.bytes.len(),
        }
    }
}

// The kind.
const fn kind_of(outcome: &Outcome) -> u8
    ensures { result ≡ replied_kind outcome.now }
{
    match outcome {
        Outcome::Replied(_) => RECORDS,
        Outcome::Negative(_) => NEGATIVE,
        Outcome::Forwarded(_) => FORWARD,
        Outcome::Silent => SILENT,
    }
}

// Where the Map-Request goes on to.
fn goes_on_to(outcome: &Outcome) -> PlainAddress
    ensures { result ≡ goes_on_to outcome.now }
{
    match outcome {
        Outcome::Forwarded(to) => PlainAddress::of(*to),
        Outcome::Replied(_) | Outcome::Negative(_) | Outcome::Silent => PlainAddress::none(),
    }
}

// The family of an address that isn't probed.
const NO_FAMILY: u16 = 0;

/// Tells what a Map-Server sends at a time, in ms, for an EID-Prefix that a Map-Request with this nonce asks for, by the rows that are
/// alive then (RFC 9301 sections 5.4, 5.5, 8.3 and 8.4). `starting`, where it isn't 0, says that its life has just begun, so that rows
/// may not have come back yet. A Map-Reply is the first `replied.length` bytes of the buffer; a Map-Request goes on as it came to
/// `replied.to`, UDP port 4342. The Map-Server is as it was. 0 is done; else (`Field` 103 where the family of the EID-Prefix is neither
/// IPv4 nor IPv6, or its mask longer than its address, `Null` 100 where the handle holds none, `OutOfMemory` 105, `Room` 102 where the
/// buffer has no room for the Map-Reply: 16,440 bytes always have) all is as it was.
#[unsafe(no_mangle)]
pub extern "C" fn lisp_registration_server_reply(
    alloc: Global,
    server: &mut ServerHandle,
    eid: &PlainPrefix,
    nonce: u64,
    starting: u8,
    now: u64,
    buffer: &mut [u8],
    replied: &mut PlainReplied,
) -> u16
    ensures told { TellsServerReply eid.now nonce starting now
        server.old.value buffer.old replied.old
        result server.new.value buffer.new replied.new }
    ensures room { result ≡ 102 → length buffer.old < message_room }
    ensures memory { result ≡ 105 → MachineMayRefuse }
{
    let Some(asked) = eid.said() else {
        return HandleFault::Field.number();
    };
    match server.take(alloc) {
        Some(hosted) => {
            let made = server_reply_of(alloc, &hosted.server, &asked, nonce, starting != 0, now);
            *server = ServerHandle::of(hosted);
            tell_replied(&made, buffer, replied)
        }
        None => HandleFault::Null.number(),
    }
}

/// Tells what a router sends for an EID-Prefix that a Map-Request with this nonce asks for, by its present database (RFC 9301 sections
/// 5.4, 5.5, 7.1 and 8.2). `probe`, where it isn't 0, says that the Map-Request is a probe (P), so that the Map-Reply is one; each
/// locator of the address that is probed has the probe bit, where its family isn't 0. A Map-Reply is the first `replied.length` bytes
/// of the buffer: a router sends nothing else. The router is as it was. 0 is done; else (`Field` 103 where the family of the EID-Prefix
/// is neither IPv4 nor IPv6, or its mask longer than its address, and where the family of the probed address is none of 0, IPv4 and
/// IPv6, `Null` 100 where the handle holds none, `OutOfMemory` 105, `Room` 102 where the buffer has no room for the Map-Reply: 16,440
/// bytes always have) all is as it was.
#[unsafe(no_mangle)]
pub extern "C" fn lisp_registration_router_reply(
    alloc: Global,
    router: &mut RouterHandle,
    eid: &PlainPrefix,
    nonce: u64,
    probe: u8,
    probed: &PlainAddress,
    buffer: &mut [u8],
    replied: &mut PlainReplied,
) -> u16
    ensures told { TellsRouterReply eid.now nonce probe probed.now
        router.old.value buffer.old replied.old
        result router.new.value buffer.new replied.new }
    ensures room { result ≡ 102 → length buffer.old < message_room }
    ensures memory { result ≡ 105 → MachineMayRefuse }
{
    let Some(asked) = eid.said() else {
        return HandleFault::Field.number();
    };
    let probed = match probed_of(probed) {
        Ok(probed) => probed,
        Err(fault) => return fault.number(),
    };
    match router.take(alloc) {
        Some(hosted) => {
            let made = router_reply_of(alloc, &hosted.router, &asked, nonce, probe != 0, probed);
            *router = RouterHandle::of(hosted);
            tell_replied(&made, buffer, replied)
        }
        None => HandleFault::Null.number(),
    }
}

// The address that is probed, which is none of family 0. Fault: `Field`.
fn probed_of(plain: &PlainAddress) -> Result<Option<Addr>, HandleFault>
    ensures { result ≡ probed_in plain.now }
{
    if plain.family == NO_FAMILY {
        return Ok(None);
    }
    match plain.said() {
        Some(addr) => Ok(Some(addr)),
        None => Err(HandleFault::Field),
    }
}

// Tells what is sent, with the Map-Reply in the buffer; or the number of why not.
fn tell_replied<A: Allocator>(
    made: &Result<HostedReply<A>, AllocError>,
    buffer: &mut [u8],
    replied: &mut PlainReplied,
) -> u16
    requires short { IfOk made.now (λ hosted. length hosted.bytes ≤ reply_room) }
    ensures told { (result, (buffer.new, replied.new))
        ≡ told_replied made.now buffer.old replied.old }
    ensures room { result ≡ 102 → length buffer.old < message_room }
    ensures memory { result ≡ 105 → IsErr made.now }
{
    match made {
        Ok(hosted) => {
            if !put(&hosted.bytes, buffer) {
                return HandleFault::Room.number();
            }
            *replied = PlainReplied::of(hosted);
            0
        }
        Err(AllocError) => WriteFault::OutOfMemory.number(),
    }
}
