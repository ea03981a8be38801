//! A notice with the nonce that the program kept.

ghost use Rattle.std.specs.Prelude.{◌≡◌, ◌≤◌, IfOk, IfErr, OnErr, IsErrOf};
ghost use Rattle.lisp_admission.specs.declared.notice_fault.NoticeFault.{NoticeFault};
ghost use Rattle.lisp_records.specs.Moment.{max_moment};
ghost use Rattle.lisp_embedded.specs.Notices.{AnnouncesKept, IsOfNoStore, RefusesKeptNotice, notice_of_this_call};

use crate::host_store::host_store;
use lisp_admission::NOTICES;
use lisp_memory::Memory;
use lisp_nonces::StoreFault;
use lisp_records::{Addr, RouterId};
use lisp_server::{NoticeFault, Server};
use std::alloc::{Allocator, Global};

/// An unsolicited Map-Notify (notice) that is to be sent once its nonce is saved.
#[derive(Debug, Drop)]
pub struct HostedNotice<A: Allocator = Global> {
    /// The address to send it to.
    pub to: Addr,
    /// The datagram.
    pub bytes: Vec<u8, A>,
    /// Its nonce, which has to be saved before it is sent, for the pair of all notices.
    pub nonce: u64,
}

/// A Map-Server makes a router a notice at a time, in ms, of at most 2^62, as `Server::notify`, over a store that keeps what
/// the program passed: `kept`, the nonce that it loaded for the pair of all notices, or `None` where it has saved none. The
/// program has to save the nonce before it sends the notice. Where that fails, it has to start the Map-Server again, as
/// after a crash. The refusals are those of `Server::notify`: `OutOfMemory` may come in place of each, and is told where the
/// store's memory runs out; so `StoreLoad` and `StoreSave` never come.
pub fn notify_kept<A: Memory + Copy>(
    alloc: A,
    server: &mut Server<A>,
    kept: Option<u64>,
    router: &RouterId,
    now: u64,
) -> Result<HostedNotice<A>, NoticeFault>
    requires { now ≤ max_moment }
    ensures announces { IfOk result
        (λ n. AnnouncesKept kept server.old server.new router.now now n) }
    ensures refused { IfErr result (RefusesKeptNotice kept server.old router.now now) }
    ensures err { OnErr result (server.new ≡ server.old) }
    ensures memory { IsErrOf result NoticeFault.OutOfMemory → A.may_refuse }
    ensures storeless { IfErr result IsOfNoStore }
{
    let mut store = host_store(alloc, &NOTICES, kept)?;
    let (to, bytes) = match server.notify(&mut store, router, now) {
        Ok(sent) => sent,
        Err(fault) => return Err(of_this_call(fault)),
    };
    let nonce = server.last_nonce(&NOTICES).unwrap();
    Ok(HostedNotice { to, bytes, nonce })
}

// A refusal of the store of this call: its memory is that of the call.
fn of_this_call(fault: NoticeFault) -> NoticeFault
    ensures { result ≡ notice_of_this_call fault }
{
    match fault {
        NoticeFault::StoreLoad(StoreFault::OutOfMemory) => NoticeFault::OutOfMemory,
        NoticeFault::StoreSave(StoreFault::OutOfMemory) => NoticeFault::OutOfMemory,
        other => other,
    }
}
