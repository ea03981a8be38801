//! Dead rows, and the unsolicited Map-Notifies (notices) of a Map-Server.

ghost use Rattle.std.specs.Prelude.{◌≡◌, ◌≤◌, IfOk, IfErr, IsErrOf, OnErr};
ghost use Rattle.lisp_admission.specs.declared.notice_fault.NoticeFault.{NoticeFault};
ghost use Rattle.lisp_memory.specs.Refusal.{MachineMayRefuse};
ghost use Rattle.lisp_records.specs.Moment.{max_moment};
ghost use Rattle.lisp_server.specs.Notices.{RefusesResend};
ghost use Rattle.lisp_registration.specs.Notices.{plain_notice, Dropped, ExpiresRows, SendsAgain, TellsDue, TellsNotice, TellsResent, told_notice};

use crate::address::PlainAddress;
use crate::fault::HandleFault;
use crate::pair::{PlainNonce, PlainRouter};
use crate::room::{in_time, ready};
use crate::writing::put_length;
use lisp_embedded::{HostedNotice, ServerHandle, notify_kept};
use lisp_memory::Memory;
use lisp_records::RouterId;
use lisp_server::{NoticeFault, Server};
use std::alloc::{Allocator, Global};

/// A notice that is to be sent, in plain numbers, but its bytes (RFC 9301 section 5.7).
#[repr(C)]
#[derive(Clone, Copy)]
pub struct PlainNotice {
    /// Its nonce, which has to be saved before it is sent; 0 of a notice that is sent again.
    pub nonce: u64,
    /// Where to send it.
    pub to: PlainAddress,
    /// How many bytes of the buffer are the notice.
    pub length: usize,
}

impl PlainNotice {
    /// A notice in plain numbers, of which so many bytes are in the buffer.
    pub(crate) fn of<A: Allocator>(notice: &HostedNotice<A>, length: usize) -> PlainNotice
        ensures { result ≡ plain_notice notice.now length }
    {
        PlainNotice {
            nonce: notice.nonce,
            to: PlainAddress::of(notice.to),
            length,
        }
    }
}

/// Makes a router a notice of what is held of it, at a time, in ms, with `kept`, the nonce that the program loaded for the pair
/// of all notices. The notice is the first `notice.length` bytes of the buffer. The program has to save `notice.nonce` before
/// it sends the notice to `notice.to`; where that fails, it has to start the Map-Server again. The notice stands until it is
/// acknowledged (RFC 9301 sections 5.7 and 8.2). 0 is done; else all is as it was: `Room` 102 where the buffer has fewer than
/// 16,440 bytes, `Clock` 73 for a time above 2^62 ms, `Null` 100 where the handle holds none, `NotRegistered` 62, `TooLarge` 63,
/// `NonceSpent` 64. `OutOfMemory` 66 may come in place of each of the last three, also in place
/// of 0.
#[unsafe(no_mangle)]
pub extern "C" fn lisp_registration_server_notify(
    alloc: Global,
    server: &mut ServerHandle,
    kept: &PlainNonce,
    router: &PlainRouter,
    now: u64,
    buffer: &mut [u8],
    notice: &mut PlainNotice,
) -> u16
    ensures told { TellsNotice kept.now router.now now server.old.value buffer.old notice.old
        result server.new.value buffer.new notice.new }
    ensures memory { result ≡ 66 → MachineMayRefuse }
{
    if let Err(fault) = ready(buffer, now) {
        return fault.number();
    }
    match server.take(alloc) {
        Some(mut hosted) => {
            let kept = kept.kept();
            let made = notify_kept(alloc, &mut hosted.server, kept, &router.router(), now);
            *server = ServerHandle::of(hosted);
            tell_notice(&made, buffer, notice)
        }
        None => HandleFault::Null.number(),
    }
}

/// Makes the notice to a router again that is due at a time, in ms: the same bytes for the same address. The notice is the
/// first `notice.length` bytes of the buffer; `notice.nonce` is 0, since nothing is to be saved. 0 is done; else all is as it
/// was: `Room` 102 where the buffer has fewer than 16,440 bytes, `Clock` 73 for a time above 2^62 ms, `Null` 100 where the handle
/// holds none, `NotDue` 67, `OutOfMemory` 66.
#[unsafe(no_mangle)]
pub extern "C" fn lisp_registration_server_resend(
    alloc: Global,
    server: &mut ServerHandle,
    router: &PlainRouter,
    now: u64,
    buffer: &mut [u8],
    notice: &mut PlainNotice,
) -> u16
    ensures told { TellsResent router.now now server.old.value buffer.old notice.old
        result server.new.value buffer.new notice.new }
    ensures memory { result ≡ 66 → MachineMayRefuse }
{
    if let Err(fault) = ready(buffer, now) {
        return fault.number();
    }
    match server.take(alloc) {
        Some(mut hosted) => {
            let made = resend(&mut hosted.server, &router.router(), now);
            *server = ServerHandle::of(hosted);
            tell_notice(&made, buffer, notice)
        }
        None => HandleFault::Null.number(),
    }
}

/// Drops the rows that are dead at a time, in ms. Takes no memory. 0 is done; else (`Null` 100 where the handle holds none,
/// `Clock` 73 for a time above 2^62 ms) all is as it was.
#[unsafe(no_mangle)]
pub extern "C" fn lisp_registration_server_expire(
    alloc: Global,
    server: &mut ServerHandle,
    now: u64,
) -> u16
    ensures { ExpiresRows now server.old.value result server.new.value }
{
    match server.take(alloc) {
        Some(mut hosted) => {
            let number = expire(&mut hosted.server, now);
            *server = ServerHandle::of(hosted);
            number
        }
        None => HandleFault::Null.number(),
    }
}

/// Tells the least router, by Site-ID, then xTR-ID, to which a notice is due at a time, in ms, or none. Takes no memory. 0 is
/// done; `Null` 100 where the handle holds none, and all is as it was.
#[unsafe(no_mangle)]
pub extern "C" fn lisp_registration_server_due(
    alloc: Global,
    server: &mut ServerHandle,
    now: u64,
    router: &mut PlainRouter,
) -> u16
    ensures { TellsDue now server.old.value router.old result server.new.value router.new }
{
    match server.take(alloc) {
        Some(hosted) => {
            *router = PlainRouter::of(hosted.server.due_notices(now));
            *server = ServerHandle::of(hosted);
            0
        }
        None => HandleFault::Null.number(),
    }
}

// Drops the rows that are dead at a time, where that isn't too late.
fn expire<A: Allocator + Copy>(server: &mut Server<A>, now: u64) -> u16
    ensures { Dropped server.old now (result, server.new) }
{
    match in_time(now) {
        Ok(()) => {
            server.expire(now);
            0
        }
        Err(fault) => fault.number(),
    }
}

// The notice to a router that is due, again: it has no new nonce.
fn resend<A: Memory + Copy>(
    server: &mut Server<A>,
    router: &RouterId,
    now: u64,
) -> Result<HostedNotice<A>, NoticeFault>
    requires { now ≤ max_moment }
    ensures again { IfOk result (SendsAgain server.old server.new router.now now) }
    ensures refused { IfErr result (RefusesResend server.old.notices router.now now) }
    ensures err { OnErr result (server.new ≡ server.old) }
    ensures memory { IsErrOf result NoticeFault.OutOfMemory → A.may_refuse }
{
    let (to, bytes) = server.resend(router, now)?;
    Ok(HostedNotice {
        to,
        bytes,
        nonce: 0,
    })
}

// Tells a notice, in the buffer, or none where the buffer has no room for it; or the number of why there is none.
fn tell_notice<A: Allocator>(
    made: &Result<HostedNotice<A>, NoticeFault>,
    buffer: &mut [u8],
    notice: &mut PlainNotice,
) -> u16
    ensures { (result, (buffer.new, notice.new)) ≡ told_notice made.now buffer.old notice.old }
{
    match made {
        Ok(found) => {
            let bytes = found.bytes.as_slice();
            let length = put_length(bytes, buffer);
            *notice = PlainNotice::of(found, length);
            0
        }
        Err(fault) => fault.number(),
    }
}
