//! What a router does.

ghost use Rattle.std.specs.Prelude.{◌≡◌, Err, IfOk, OnErr};
ghost use Rattle.lisp_mapping.specs.Handling.{Handles, IsHandled, RepliesEach, probed};
ghost use Rattle.lisp_records.specs.Address.{family};
ghost use Rattle.lisp_replies.specs.Own.{IsOwnReply};
ghost use Rattle.lisp_requests.specs.declared.fault.RequestFault.TheVariants.{OutOfMemory};
ghost use Rattle.lisp_mapping.specs.Asked.{router_asked};
ghost use Rattle.lisp_mapping.specs.declared.unasked.Unasked.TheVariants.{Request};

use crate::handling::{Handled, handle};
use crate::{Asked, Unasked, router_asked};
use lisp_etr::Etr;
use lisp_memory::{FallibleVec, Memory};
use lisp_records::{Addr, Prefix};
use lisp_replies::Reply;
use lisp_requests::RequestFault;
use std::alloc::{AllocError, Allocator};

/// What a router at an address sends for a datagram that is an Encapsulated Map-Request, or a Map-Request that came alone from a UDP port,
/// by its present database (RFC 9301 sections 5.5, 7.1 and 8.2), in memory of `alloc`. `resolve` are the prefixes of ITR-RLOCs to which it
/// sends Map-Replies; the address family of its address is that of the ITR-RLOC. The faults come in the order of
/// [`Unasked`](crate::Unasked).
pub fn router_handles<A: Memory + Copy, B: Memory + Copy>(
    alloc: A,
    router: &Etr<B>,
    own: &Addr,
    resolve: &[Prefix],
    port: u16,
    bytes: &[u8],
) -> Result<Handled<A>, Unasked>
    ensures handles { Handles {A = A}
        (λ asked eid reply. IsOwnReply router.now.database eid (probed asked own.now) reply)
        bytes.now (router_asked resolve.now (family own.now) port bytes.now) result }
    ensures memory { result ≡ Err (Request OutOfMemory) → A.may_refuse }
{
    let asked = router_asked(alloc, resolve, own.family(), port, bytes)?;
    match handled_by(alloc, router, own, asked, bytes) {
        Ok(handled) => Ok(handled),
        Err(AllocError) => Err(Unasked::Request(RequestFault::OutOfMemory)),
    }
}

// What it does for a Map-Request that came as these bytes.
fn handled_by<A: Memory + Copy, B: Memory + Copy>(
    alloc: A,
    router: &Etr<B>,
    own: &Addr,
    asked: Asked<A>,
    bytes: &[u8],
) -> Result<Handled<A>, AllocError>
    ensures handled { IfOk result (λ handled. IsHandled {A = A}
        (λ eid reply. IsOwnReply router.now.database eid (probed asked own.now) reply)
        asked bytes.now handled) }
    ensures memory { OnErr result A.may_refuse }
{
    let replies = replies_by(alloc, router, &asked.eids, probed(&asked, own))?;
    handle(alloc, asked, bytes, replies)
}

// The address that it probes its locators for.
fn probed<A: Allocator>(asked: &Asked<A>, own: &Addr) -> Option<Addr>
    ensures { result ≡ probed asked.now own.now }
{
    asked.probe.then_some(*own)
}

// What it says of each EID-Prefix.
fn replies_by<A: Memory + Copy, B: Memory + Copy>(
    alloc: A,
    router: &Etr<B>,
    eids: &[Prefix],
    probed: Option<Addr>,
) -> Result<Vec<Reply<A>, A>, AllocError>
    ensures each { IfOk result (λ replies. RepliesEach
        (λ eid reply. IsOwnReply router.now.database eid probed reply)
        eids.now replies.items) }
    ensures memory { OnErr result A.may_refuse }
{
    let mut replies = Vec::new(alloc);
    for eid in eids {
        replies.try_push(router.reply_to(alloc, eid, probed)?)?;
    }
    Ok(replies)
}
