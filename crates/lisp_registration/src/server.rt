//! A Map-Server that a program in C holds.

ghost use Rattle.std.specs.Prelude.{◌≡◌, None};
ghost use Rattle.lisp_memory.specs.Refusal.{MachineMayRefuse};
ghost use Rattle.lisp_registration.specs.Server.{plain_received, RestartsServer, TellsPair, TellsReceived, reply_bytes, told_received};
ghost use Rattle.lisp_registration.specs.Starting.{MayRunOut, ReloadsServer, StartsNode, text_server, text_sites};

use crate::address::PlainAddress;
use crate::fault::HandleFault;
use crate::pair::{PlainNonce, PlainPair};
use crate::room::source;
use crate::starting::{restart, sites_of, started_server};
use crate::writing::put_length;
use lisp_embedded::{ServerHandle, pair_needed, receive_kept};
use lisp_server::{Refused, Took};
use std::alloc::{Allocator, Global};

/// What a Map-Server made of a datagram that it took, in plain numbers.
#[repr(C)]
#[derive(Clone, Copy)]
pub struct PlainReceived {
    /// The nonce: of the Map-Register that was accepted, which has to be saved; or of the notice that is done.
    pub nonce: u64,
    /// The Site-ID of the router.
    pub site: u64,
    /// Its xTR-ID.
    pub xtr: [u8; 16],
    /// The Key ID of an accepted Map-Register, else 0.
    pub key_id: u8,
    /// 1 where a Map-Register was accepted, 0 where a Map-Notify-Ack ended a notice.
    pub accepted: u8,
    /// How many bytes of the buffer are the answer; 0 where none is sent.
    pub reply_length: usize,
}

impl PlainReceived {
    /// A message that was taken, in plain numbers, with the length of its answer.
    pub(crate) fn of<A: Allocator>(took: &Took<A>, reply_length: usize) -> PlainReceived
        ensures { result ≡ plain_received took.now reply_length }
    {
        match took {
            Took::Accepted {
                router,
                key,
                nonce,
                reply: _,
            } => PlainReceived {
                nonce: *nonce,
                site: router.site,
                xtr: router.xtr,
                key_id: *key,
                accepted: 1,
                reply_length,
            },
            Took::NoticeDone { router, nonce } => PlainReceived {
                nonce: *nonce,
                site: router.site,
                xtr: router.xtr,
                key_id: 0,
                accepted: 0,
                reply_length,
            },
        }
    }
}

/// Starts a Map-Server of the sites of a configuration, TOML in UTF-8; it holds nothing yet. What the handle held before is
/// gone. 0 is done; else (`NotUtf8` 95, a fault of the configuration 20 to 24, `OutOfMemory` 105) the handle is as it was.
#[unsafe(no_mangle)]
pub extern "C" fn lisp_registration_server_start(
    alloc: Global,
    configuration: &[u8],
    server: &mut ServerHandle,
) -> u16
    ensures started { StartsNode
        (text_server configuration.now) server.old.value result server.new.value }
    ensures memory { result ≡ 105 → MachineMayRefuse }
    ensures reading { result ≡ 24 → MayRunOut configuration.now }
{
    match started_server(alloc, configuration) {
        Ok(hosted) => {
            *server = ServerHandle::of(hosted);
            0
        }
        Err(fault) => fault.number(),
    }
}

/// Stops the Map-Server that the handle holds, if it holds one; it holds none from then on, and all memory is given back.
#[unsafe(no_mangle)]
pub extern "C" fn lisp_registration_server_stop(alloc: Global, server: &mut ServerHandle)
    ensures { server.new.value ≡ None }
{
    *server = ServerHandle::none(alloc);
}

/// Starts the Map-Server again, as after a crash: its sites are kept, all else is gone. Takes no memory. 0 is done; `Null` 100
/// where the handle holds none.
#[unsafe(no_mangle)]
pub extern "C" fn lisp_registration_server_restart(alloc: Global, server: &mut ServerHandle) -> u16
    ensures { RestartsServer server.old.value result server.new.value }
{
    match server.take(alloc) {
        Some(mut hosted) => {
            restart(alloc, &mut hosted);
            *server = ServerHandle::of(hosted);
            0
        }
        None => HandleFault::Null.number(),
    }
}

/// Has the Map-Server take the sites of a configuration, TOML in UTF-8, in place of its own. Where these have all that its own
/// have, each site with its keys, their secrets and its prefixes, under limits that are as wide, it goes on with what it holds,
/// and `goes_on` is 1; else it starts anew with these sites alone, and `goes_on` is 0. 0 is done; else (`NotUtf8` 95, a fault of
/// the configuration 20 to 24, `OutOfMemory` 105, then `Null` 100 where the handle holds none) all is as it was.
#[unsafe(no_mangle)]
pub extern "C" fn lisp_registration_server_reload(
    alloc: Global,
    configuration: &[u8],
    server: &mut ServerHandle,
    goes_on: &mut u8,
) -> u16
    ensures reloaded { ReloadsServer (text_sites configuration.now) server.old.value goes_on.old
        result server.new.value goes_on.new }
    ensures memory { result ≡ 105 → MachineMayRefuse }
    ensures reading { result ≡ 24 → MayRunOut configuration.now }
{
    let sites = match sites_of(alloc, configuration) {
        Ok(sites) => sites,
        Err(fault) => return fault.number(),
    };
    match server.take(alloc) {
        Some(mut hosted) => {
            *goes_on = u8::from(hosted.server.reload(sites));
            *server = ServerHandle::of(hosted);
            0
        }
        None => HandleFault::Null.number(),
    }
}

/// Tells the pair whose last nonce a datagram needs, of a Map-Register that of its router and Key ID, or none. Nothing is
/// checked. Takes no memory.
#[unsafe(no_mangle)]
pub extern "C" fn lisp_registration_server_pair(alloc: Global, bytes: &[u8], pair: &mut PlainPair)
    ensures { TellsPair bytes.now pair.new }
{
    *pair = PlainPair::of(pair_needed(alloc, bytes));
}

/// Receives a datagram that came from an address at a time, in ms, with `kept`, the nonce that the program loaded for the
/// pair that it needs. Where `received.accepted` is 1 the program has to save `received.nonce` for that pair before it sends
/// the first `received.reply_length` bytes of the buffer to where the datagram came from; where that fails, it has to start
/// the Map-Server again (RFC 9301 sections 5.6, 5.7 and 8.2). 0 is done; else all is as it was: `Field` 103 where the family
/// of the address is neither IPv4 nor IPv6, `Room` 102 where the buffer has less room than the datagram has bytes, `Null` 100
/// where the handle holds none, `Read` 50; of a Map-Register `UnknownSite` 51, `UnknownKey` 52, `BadAuth` 53, `Router` 69, `Source`
/// 136, `MergeAsked` 54, `NotAllowed` 55, `Ttl` 137, `Replay` 57, `Jump` 138, `Routers` 139, `Rows` 140; of a Map-Notify-Ack `NoNotice` 60, `BadAuth` 53; of a
/// Map-Notify `NotMine` 61. `OutOfMemory` 58 may come in place of each answer from `Read` on, also in place of 0.
#[unsafe(no_mangle)]
pub extern "C" fn lisp_registration_server_receive(
    alloc: Global,
    server: &mut ServerHandle,
    kept: &PlainNonce,
    from: &PlainAddress,
    bytes: &[u8],
    now: u64,
    buffer: &mut [u8],
    received: &mut PlainReceived,
) -> u16
    ensures received { TellsReceived kept.now from.now bytes.now now server.old.value buffer.old
        received.old
        result server.new.value buffer.new received.new }
    ensures memory { result ≡ 58 → MachineMayRefuse }
{
    let from = match source(from, bytes, buffer) {
        Ok(from) => from,
        Err(fault) => return fault.number(),
    };
    match server.take(alloc) {
        Some(mut hosted) => {
            let answer = receive_kept(alloc, &mut hosted.server, kept.kept(), from, bytes, now);
            *server = ServerHandle::of(hosted);
            tell_received(&answer, buffer, received)
        }
        None => HandleFault::Null.number(),
    }
}

/// Tells what was taken: what there is to save, and its answer in the buffer, or none where the buffer has no room for it; or
/// the number of the refusal.
pub(crate) fn tell_received<A: Allocator>(
    answer: &Result<Took<A>, Refused>,
    buffer: &mut [u8],
    received: &mut PlainReceived,
) -> u16
    ensures { (result, (buffer.new, received.new))
        ≡ told_received answer.now buffer.old received.old }
{
    match answer {
        Ok(took) => {
            let reply = reply_of(took);
            let reply_length = put_length(reply, buffer);
            *received = PlainReceived::of(took, reply_length);
            0
        }
        Err(refused) => refused.number(),
    }
}

// The answer of a message that was taken; no bytes where none is sent.
fn reply_of<A: Allocator>(took: &Took<A>) -> &[u8]
    ensures { result.now ≡ reply_bytes took.now }
{
    match took {
        Took::Accepted {
            reply: Some(bytes),
            ..
        } => bytes.as_slice(),
        _ => &[],
    }
}
