//! What a Map-Server does.

ghost use Rattle.std.specs.Prelude.{◌≡◌, Err, IfOk, OnErr};
ghost use Rattle.lisp_mapping.specs.Handling.{Handles, IsHandled, RepliesEach};
ghost use Rattle.lisp_replies.specs.Reply.{IsReply};
ghost use Rattle.lisp_requests.specs.declared.fault.RequestFault.TheVariants.{OutOfMemory};
ghost use Rattle.lisp_mapping.specs.Asked.{encapsulated_asked};
ghost use Rattle.lisp_mapping.specs.declared.replier.Replier.TheVariants.{MapServer};
ghost use Rattle.lisp_mapping.specs.declared.unasked.Unasked.TheVariants.{Request};

use crate::handling::{Handled, handle};
use crate::{Asked, Unasked, server_asked};
use lisp_memory::{FallibleVec, Memory};
use lisp_records::{Family, Prefix};
use lisp_replies::Reply;
use lisp_requests::RequestFault;
use lisp_server::Server;
use std::alloc::AllocError;

/// What a Map-Server sends at a time, in ms, for a datagram that is an Encapsulated Map-Request, by the rows that are held, in memory of
/// `alloc` (RFC 9301 sections 5.8 and 8.3). `resolve` are the prefixes of ITR-RLOCs to which it sends Map-Replies, `own` is its address
/// family; `starting` says whether its life has just begun, so that rows may not have come back yet. The faults come in the order of
/// [`Unasked`](crate::Unasked).
pub fn server_handles<A: Memory + Copy>(
    alloc: A,
    server: &Server<A>,
    resolve: &[Prefix],
    own: Family,
    starting: bool,
    bytes: &[u8],
    now: u64,
) -> Result<Handled<A>, Unasked>
    ensures handles { Handles {A = A}
        (λ _ eid reply. IsReply server.now.rows server.now.sites eid starting now reply)
        bytes.now (encapsulated_asked MapServer resolve.now own bytes.now) result }
    ensures memory { result ≡ Err (Request OutOfMemory) → A.may_refuse }
{
    let asked = server_asked(alloc, resolve, own, bytes)?;
    match handled_at(alloc, server, asked, starting, bytes, now) {
        Ok(handled) => Ok(handled),
        Err(AllocError) => Err(Unasked::Request(RequestFault::OutOfMemory)),
    }
}

// What it does at a time for a Map-Request that came as these bytes.
fn handled_at<A: Memory + Copy>(
    alloc: A,
    server: &Server<A>,
    asked: Asked<A>,
    starting: bool,
    bytes: &[u8],
    now: u64,
) -> Result<Handled<A>, AllocError>
    ensures handled { IfOk result (λ handled. IsHandled {A = A}
        (λ eid reply. IsReply server.now.rows server.now.sites eid starting now reply)
        asked bytes.now handled) }
    ensures memory { OnErr result A.may_refuse }
{
    let replies = replies_at(alloc, server, &asked.eids, starting, now)?;
    handle(alloc, asked, bytes, replies)
}

// What it says of each EID-Prefix at a time.
fn replies_at<A: Memory + Copy>(
    alloc: A,
    server: &Server<A>,
    eids: &[Prefix],
    starting: bool,
    now: u64,
) -> Result<Vec<Reply<A>, A>, AllocError>
    ensures each { IfOk result (λ replies. RepliesEach
        (λ eid reply. IsReply server.now.rows server.now.sites eid starting now reply)
        eids.now replies.items) }
    ensures memory { OnErr result A.may_refuse }
{
    let mut replies = Vec::new(alloc);
    for eid in eids {
        replies.try_push(server.reply_to(eid, starting, now)?)?;
    }
    Ok(replies)
}
