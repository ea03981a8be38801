//! What is sent.

ghost use Rattle.std.specs.Prelude.{◌≡◌, ◌∷◌, ◌<◌, [], length, IfOk, OnErr};
ghost use Rattle.lisp_mapping.specs.Sends.{forwarded, has_gone, negative_record, replied, sends};

use crate::asking::Asked;
use crate::datagram::Datagram;
use lisp_memory::{FallibleCopies, FallibleVec, Memory};
use lisp_records::{Addr, MAX_RECORDS, MapRecord, Records};
use lisp_replies::{Negative, Reply};
use lisp_requests::{MapReply, write_reply};
use std::alloc::{AllocError, Allocator};

/// The UDP port of LISP control messages.
const CONTROL_PORT: u16 = 4342;

/// ACT 1, Natively-Forward: the ITR sends the packets on as if there were no LISP.
const NATIVELY_FORWARD: u8 = 1;

/// What is sent for a Map-Request that came as these bytes, where `replies` are what its EID-Prefixes are replied with, in their order:
/// a Map-Reply for each, with the nonce that was asked with, to the ITR-RLOC and port of the Map-Request; or the datagram as it came, once
/// to each router. It lies in memory of `alloc` (RFC 9301 sections 5.4, 8.2 and 8.3).
pub fn sends<A: Memory + Copy, B: Allocator>(
    alloc: A,
    asked: &Asked<B>,
    bytes: &[u8],
    replies: Vec<Reply<A>, A>,
) -> Result<Vec<Datagram<A>, A>, AllocError>
    ensures sent { IfOk result (λ sent. sent.items ≡ sends asked.now bytes.now [] replies.items) }
    ensures memory { OnErr result A.may_refuse }
{
    let mut sent = Vec::new(alloc);
    let mut gone = Vec::new(alloc);
    for reply in replies {
        match reply {
            Reply::Records(records) => {
                if records.as_slice().len() <= MAX_RECORDS {
                    sent.try_push(replied(alloc, asked, records)?)?;
                }
            }
            Reply::Negative(hole) => {
                let records = negative_records(alloc, asked, &hole)?;
                sent.try_push(replied(alloc, asked, records)?)?;
            }
            Reply::Forward(to) => {
                if !has_gone(&gone, &to) {
                    sent.try_push(forwarded(alloc, to, bytes)?)?;
                    gone.try_push(to)?;
                }
            }
            Reply::Silent => {}
        }
    }
    Ok(sent)
}

// A Map-Reply of these records.
fn replied<A: Memory + Copy, B: Allocator>(
    alloc: A,
    asked: &Asked<B>,
    records: Records<A>,
) -> Result<Datagram<A>, AllocError>
    requires few { length records < 256 }
    ensures reply { IfOk result (λ d. d ≡ replied asked.now records) }
    ensures memory { OnErr result A.may_refuse }
{
    let reply = MapReply {
        probe: asked.probe,
        echo_nonce: false,
        sec: false,
        nonce: asked.nonce,
        records,
    };
    Ok(Datagram {
        to: asked.to,
        port: asked.port,
        bytes: write_reply(alloc, &reply)?,
    })
}

// The one record of a negative Map-Reply.
fn negative_records<A: Memory + Copy, B: Allocator>(
    alloc: A,
    asked: &Asked<B>,
    hole: &Negative,
) -> Result<Records<A>, AllocError>
    ensures one { IfOk result (λ records. records ≡ negative_record asked.now hole.now ∷ []) }
    ensures memory { OnErr result A.may_refuse }
{
    let authoritative = asked.of.is_router();
    let locators = Vec::new(alloc);
    let record = MapRecord::new(
        hole.ttl,
        NATIVELY_FORWARD,
        authoritative,
        0,
        hole.eid,
        locators,
    );
    let mut records = Vec::new(alloc);
    records.try_push(record.unwrap())?;
    Ok(Records::from_vec(records))
}

// Whether the Map-Request went on to a router already.
fn has_gone(gone: &[Addr], to: &Addr) -> bool
    ensures { result ≡ has_gone gone.now to.now }
{
    gone.iter().any(|addr| addr == to)
}

// The datagram as it came, for a router.
fn forwarded<A: Memory>(alloc: A, to: Addr, bytes: &[u8]) -> Result<Datagram<A>, AllocError>
    ensures on { IfOk result (λ d. d ≡ forwarded to bytes.now) }
    ensures memory { OnErr result A.may_refuse }
{
    Ok(Datagram {
        to,
        port: CONTROL_PORT,
        bytes: Vec::try_from_slice(alloc, bytes)?,
    })
}
