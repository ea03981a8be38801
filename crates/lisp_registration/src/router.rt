//! A router that a program in C holds: what is due, sending and receiving.

ghost use Rattle.std.specs.Prelude.{◌≡◌};
ghost use Rattle.lisp_memory.specs.Refusal.{MachineMayRefuse};
ghost use Rattle.lisp_registration.specs.Router.{plain_due, plain_sent, plain_seen, TellsSeen, TellsSent, answer_bytes, told_due, told_seen, told_sent};

use crate::address::PlainAddress;
use crate::fault::HandleFault;
use crate::room::{ready, source};
use crate::writing::put_length;
use lisp_embedded::{HostedRegister, RouterHandle, send_kept};
use lisp_etr::{NotifyFault, Seen, SendFault};
use std::alloc::{Allocator, Global};

/// A Map-Register that a router is due to send, in plain numbers, or none.
#[repr(C)]
#[derive(Clone, Copy)]
pub struct PlainDue {
    /// The number of the Map-Server, from 0 on.
    pub server: usize,
    /// The part of the router's database, from 0 on.
    pub part: usize,
    /// 1 where one is due, else 0, and then all is 0.
    pub is_there: u8,
}

impl PlainDue {
    /// What is due, in plain numbers, or nothing.
    pub(crate) fn of(due: Option<(usize, usize)>) -> PlainDue
        ensures { result ≡ plain_due due }
    {
        match due {
            Some((server, part)) => PlainDue {
                server,
                part,
                is_there: 1,
            },
            None => PlainDue {
                server: 0,
                part: 0,
                is_there: 0,
            },
        }
    }
}

/// A Map-Register that is to be sent, in plain numbers, but its bytes (RFC 9301 section 5.6).
#[repr(C)]
#[derive(Clone, Copy)]
pub struct PlainSent {
    /// What has to be saved for the router's pair before it is sent: the end of the block of nonces that it begins; else 0.
    pub nonce: u64,
    /// 1 where that has to be saved, 0 where its nonce is of a block that was saved.
    pub must_save: u8,
    /// The address of its Map-Server.
    pub to: PlainAddress,
    /// How many bytes of the buffer are the Map-Register.
    pub length: usize,
}

impl PlainSent {
    /// A Map-Register in plain numbers, of which so many bytes are in the buffer.
    pub(crate) fn of<A: Allocator>(register: &HostedRegister<A>, length: usize) -> PlainSent
        ensures { result ≡ plain_sent register.now length }
    {
        let to = PlainAddress::of(register.to);
        let (nonce, must_save) = match register.save {
            Some(nonce) => (nonce, 1),
            None => (0, 0),
        };
        PlainSent {
            nonce,
            must_save,
            to,
            length,
        }
    }
}

/// What a router made of a Map-Notify that it took, in plain numbers (RFC 9301 section 5.7).
#[repr(C)]
#[derive(Clone, Copy)]
pub struct PlainSeen {
    /// The nonce: of the Map-Register that is acknowledged, or the Map-Server's own one of a notice.
    pub nonce: u64,
    /// The number of the Map-Server that it came from.
    pub server: usize,
    /// The part of the router's database whose Map-Register is acknowledged; 0 of a notice.
    pub part: usize,
    /// 1 where it is an unsolicited Map-Notify (notice), 0 where a Map-Register is acknowledged.
    pub is_notice: u8,
    /// How many bytes of the buffer are the answer to a notice; 0 where none is sent.
    pub reply_length: usize,
}

impl PlainSeen {
    /// A Map-Notify that was taken, in plain numbers, with the length of its answer.
    pub(crate) fn of<A: Allocator>(seen: &Seen<A>, reply_length: usize) -> PlainSeen
        ensures { result ≡ plain_seen seen.now reply_length }
    {
        match seen {
            Seen::Counted {
                server,
                part,
                nonce,
            } => PlainSeen {
                nonce: *nonce,
                server: *server,
                part: *part,
                is_notice: 0,
                reply_length,
            },
            Seen::Notice {
                server,
                nonce,
                records: _,
                answer: _,
            } => PlainSeen {
                nonce: *nonce,
                server: *server,
                part: 0,
                is_notice: 1,
                reply_length,
            },
        }
    }
}

/// Tells the first Map-Server, by its number, that is due a Map-Register at a time, in ms, and the first part of the router's
/// database that is due there; or none (RFC 9301 section 8.2). Takes no memory. 0 is done; `Null` 100 where the handle holds
/// none, and all is as it was.
#[unsafe(no_mangle)]
pub extern "C" fn lisp_registration_router_due(
    alloc: Global,
    router: &mut RouterHandle,
    now: u64,
    due: &mut PlainDue,
) -> u16
    ensures { (result, (router.new.value, due.new)) ≡ told_due now router.old.value due.old }
{
    match router.take(alloc) {
        Some(hosted) => {
            *due = PlainDue::of(hosted.router.due(now));
            *router = RouterHandle::of(hosted);
            0
        }
        None => HandleFault::Null.number(),
    }
}

/// Makes the Map-Register of a part of the router's database to a Map-Server, both by their numbers, at a time, in ms. The
/// Map-Register is the first `sent.length` bytes of the buffer. Where `sent.must_save` is 1 the program has to save
/// `sent.nonce` for the router's pair before it sends it to `sent.to`; where that fails, it has to start the router again (RFC
/// 9301 sections 5.6 and 8.2). 0 is done; else all is as it was: `Room` 102 where the buffer has fewer than 16,440 bytes,
/// `Clock` 73 for a time above 2^62 ms, `Null` 100 where the handle holds none, `NoServer` 40, `NoPart` 49, `NonceSpent` 41,
/// `OutOfMemory` 48.
#[unsafe(no_mangle)]
pub extern "C" fn lisp_registration_router_send(
    alloc: Global,
    router: &mut RouterHandle,
    server: usize,
    part: usize,
    now: u64,
    buffer: &mut [u8],
    sent: &mut PlainSent,
) -> u16
    ensures sent { TellsSent server part now router.old.value buffer.old sent.old
        result router.new.value buffer.new sent.new }
    ensures memory { result ≡ 48 → MachineMayRefuse }
{
    if let Err(fault) = ready(buffer, now) {
        return fault.number();
    }
    match router.take(alloc) {
        Some(mut hosted) => {
            let answer = send_kept(alloc, &mut hosted.router, server, part, now);
            *router = RouterHandle::of(hosted);
            tell_sent(&answer, buffer, sent)
        }
        None => HandleFault::Null.number(),
    }
}

/// Receives a datagram that came from an address at a time, in ms, which isn't used: a new round counts from the send that
/// is acknowledged. Where `seen.is_notice` is 1 the first `seen.reply_length` bytes of the buffer are the Map-Notify-Ack to
/// send to where it came from (RFC 9301 sections 5.7 and 8.2). 0 is done; else all is as it was: `Field` 103 where the family
/// of the address is neither IPv4 nor IPv6, `Room` 102 where the buffer has less room than the datagram has bytes, `Null` 100
/// where the handle holds none, `Read` 43, `NotMine` 44, `WrongKey` 45, `BadAuth` 46, `Stale` 47. `OutOfMemory` 48 may come in
/// place of any answer past the first 32 bytes where the datagram has records, and in place of a notice.
#[unsafe(no_mangle)]
pub extern "C" fn lisp_registration_router_receive(
    alloc: Global,
    router: &mut RouterHandle,
    from: &PlainAddress,
    bytes: &[u8],
    now: u64,
    buffer: &mut [u8],
    seen: &mut PlainSeen,
) -> u16
    ensures seen { TellsSeen from.now bytes.now router.old.value buffer.old seen.old
        result router.new.value buffer.new seen.new }
    ensures memory { result ≡ 48 → MachineMayRefuse }
{
    let from = match source(from, bytes, buffer) {
        Ok(from) => from,
        Err(fault) => return fault.number(),
    };
    match router.take(alloc) {
        Some(mut hosted) => {
            let answer = hosted.router.receive(from, bytes, now);
            *router = RouterHandle::of(hosted);
            tell_seen(&answer, buffer, seen)
        }
        None => HandleFault::Null.number(),
    }
}

// Tells a Map-Register, in the buffer, or none where the buffer has no room for it; or the number of why there is none.
fn tell_sent<A: Allocator>(
    answer: &Result<HostedRegister<A>, SendFault>,
    buffer: &mut [u8],
    sent: &mut PlainSent,
) -> u16
    ensures { (result, (buffer.new, sent.new)) ≡ told_sent answer.now buffer.old sent.old }
{
    match answer {
        Ok(register) => {
            let bytes = register.bytes.as_slice();
            let length = put_length(bytes, buffer);
            *sent = PlainSent::of(register, length);
            0
        }
        Err(fault) => fault.number(),
    }
}

// Tells what was taken, and its answer in the buffer, or none where the buffer has no room for it; or the number of the
// refusal.
fn tell_seen<A: Allocator>(
    answer: &Result<Seen<A>, NotifyFault>,
    buffer: &mut [u8],
    seen: &mut PlainSeen,
) -> u16
    ensures { (result, (buffer.new, seen.new)) ≡ told_seen answer.now buffer.old seen.old }
{
    match answer {
        Ok(found) => {
            let reply = answer_of(found);
            let reply_length = put_length(reply, buffer);
            *seen = PlainSeen::of(found, reply_length);
            0
        }
        Err(refused) => refused.number(),
    }
}

// The answer to a notice; no bytes where none is sent.
fn answer_of<A: Allocator>(seen: &Seen<A>) -> &[u8]
    ensures { result.now ≡ answer_bytes seen.now }
{
    match seen {
        Seen::Notice { answer, .. } => answer.as_slice(),
        Seen::Counted { .. } => &[],
    }
}
