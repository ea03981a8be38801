//! What is asked, and what answers it.

ghost use Rattle.std.specs.Prelude.{◌≡◌, ◌≢◌, Some, Ok, IfOk, IfSome, OnOk, OnErr};
ghost use Rattle.std.specs.Bool.{OnTrue, OnFalse};
ghost use Rattle.lisp_records.specs.Address.{family};
ghost use Rattle.lisp_requests.specs.Encapsulated.{SpellsEncapsulated};
ghost use Rattle.lisp_requests.specs.Request.{SpellsRequest, written_request};
ghost use Rattle.lisp_requests.specs.Reply.{MapReplyValue, SpellsReply, reply_at};
ghost use Rattle.lisp_look.specs.Look.{request_of, encapsulated_of, datagram_of, inner_source, answers, with_nonce};
ghost use Rattle.lisp_requests.specs.declared.fault.RequestFault.TheVariants.{OutOfMemory};

use lisp_memory::{FallibleVec, Memory};
use lisp_records::{Addr, Prefix};
use lisp_requests::{
    EncapsulatedRequest, MapReply, MapRequest, RequestFault, read_reply, write_encapsulated,
    write_request,
};
use std::alloc::{AllocError, Allocator};
use std::marker::Model;

/// A question about an EID-Prefix.
#[derive(Debug, Drop)]
pub struct Look {
    /// The EID-Prefix that is asked for; of an address, that with the full mask length.
    pub eid: Prefix,
    /// The ITR-RLOC to which the Map-Reply goes.
    pub from: Addr,
    /// The UDP port to which it goes.
    pub port: u16,
    /// The nonce, which the Map-Reply gives back.
    pub nonce: u64,
}

impl Model for Look {
    ghost use Rattle.lisp_look.specs.Look.{LookValue};

    ghost Value = { LookValue };

    ghost view = { λ l. record { eid = l.eid; from = l.from; port = l.port; nonce = l.nonce } };
}

/// The Map-Request of a look: one ITR-RLOC, one record, no Source EID, and all flags clear (RFC 9301 section 5.2).
pub fn request_of<A: Memory + Copy>(alloc: A, look: &Look) -> Result<MapRequest<A>, AllocError>
    ensures request { IfOk result (λ m. m ≡ request_of look.now) }
    ensures memory { OnErr result A.may_refuse }
{
    let mut itr_rlocs = Vec::new(alloc);
    itr_rlocs.try_push(look.from)?;
    let mut eids = Vec::new(alloc);
    eids.try_push(look.eid)?;
    Ok(MapRequest {
        authoritative: false,
        probe: false,
        smr: false,
        pitr: false,
        smr_invoked: false,
        local: false,
        no_reply: false,
        nonce: look.nonce,
        source: None,
        itr_rlocs,
        eids,
    })
}

/// The Encapsulated Map-Request of a look, as it is sent (RFC 9301 section 5.8), in memory of `alloc`: its inner destination is the
/// EID-Prefix's first address, its inner UDP source port that at which the Map-Reply is awaited.
pub fn datagram_of<A: Memory + Copy>(alloc: A, look: &Look) -> Result<Vec<u8, A>, AllocError>
    ensures datagram { IfOk result (λ v. v.items ≡ datagram_of look.now) }

    // What stands around the Map-Request is spelled, and so is the Map-Request inside.
    ensures spells { IfOk result (λ v. SpellsEncapsulated v.items (encapsulated_of look.now)) }
    ensures request { OnOk result
        (SpellsRequest (written_request (request_of look.now)) (request_of look.now)) }
    ensures memory { OnErr result A.may_refuse }
{
    let request = request_of(alloc, look)?;
    let message = write_request(alloc, &request)?;
    let destination = look.eid.addr();
    write_encapsulated(
        alloc,
        &EncapsulatedRequest {
            source: inner_source(look.from, destination),
            destination,
            port: look.port,
            message: &message,
        },
    )
}

// The inner source to an EID.
fn inner_source(from: Addr, eid: Addr) -> Addr
    ensures source { result ≡ inner_source from eid }
    ensures family { family result ≡ family eid }
{
    match (from, eid) {
        (Addr::V4(_), Addr::V4(_)) | (Addr::V6(_), Addr::V6(_)) => from,
        (Addr::V4(_), Addr::V6(_)) => Addr::V6([0; 16]),
        (Addr::V6(_), Addr::V4(_)) => Addr::V4([0; 4]),
    }
}

/// The Map-Reply that the bytes are, where it has the nonce of the look, in memory of `alloc`; `None` where they are anything else.
pub fn answers<A: Memory + Copy>(
    alloc: A,
    look: &Look,
    bytes: &[u8],
) -> Result<Option<MapReply<A>>, AllocError>
    ensures answers { IfOk result (λ reply. reply ≡ answers look.now bytes.now) }

    // It is spelled by the bytes, and its nonce is the look's; what is spelled so is taken.
    ensures spelled { IfOk result (λ reply. IfSome reply (λ m. SpellsReply bytes.now m)) }
    ensures nonce { IfOk result (λ reply. IfSome reply (λ m. m.nonce ≡ look.now.nonce)) }
    ensures only { (m : MapReplyValue) → SpellsReply bytes.now m → m.nonce ≡ look.now.nonce
        → IfOk result (λ reply. reply ≡ Some m) }
    ensures memory { OnErr result A.may_refuse }
{
    answer_in(alloc, look.nonce, bytes)
}

// The Map-Reply that the bytes are, where it has the nonce.
fn answer_in<A: Memory + Copy>(
    alloc: A,
    nonce: u64,
    bytes: &[u8],
) -> Result<Option<MapReply<A>>, AllocError>
    ensures answers { IfOk result (λ reply. reply ≡ with_nonce nonce (reply_at bytes.now)) }
    ensures memory { OnErr result A.may_refuse }
{
    match read_reply(alloc, bytes) {
        Ok(reply) => Ok(with_nonce(nonce, reply)),
        Err(fault) => {
            if ran_out(fault) {
                Err(AllocError)
            } else {
                Ok(None)
            }
        }
    }
}

fn with_nonce<A: Allocator>(nonce: u64, reply: MapReply<A>) -> Option<MapReply<A>>
    ensures { result ≡ with_nonce nonce (Ok reply) }
{
    if reply.nonce == nonce {
        Some(reply)
    } else {
        None
    }
}

// Whether memory ran out.
fn ran_out(fault: RequestFault) -> bool
    ensures out { OnTrue result (fault ≡ OutOfMemory) }
    ensures others { OnFalse result (fault ≢ OutOfMemory) }
{
    fault == RequestFault::OutOfMemory
}
