//! What is sent for an EID-Prefix that a Map-Request asks for.

ghost use Rattle.std.specs.Prelude.{◌≡◌, ◌<◌, ◌≤◌, ◌∷◌, [], false, length, IfOk, OnErr, OnOk};
ghost use Rattle.lisp_embedded.specs.Replying.{Fits, Says, map_reply_of, negative_of, reply_room, spelled_reply};
ghost use Rattle.lisp_mapping.specs.Handling.{outcome_of};
ghost use Rattle.lisp_replies.specs.Own.{IsOwnReply};
ghost use Rattle.lisp_replies.specs.Reply.{IsReply};
ghost use Rattle.lisp_requests.specs.Reply.{IsMapReply, written_reply};
ghost use Rattle.lisp_mapping.specs.declared.replier.Replier.TheVariants.{MapServer, Router};

use lisp_etr::Etr;
use lisp_mapping::{Outcome, Replier};
use lisp_memory::{FallibleVec, Memory};
use lisp_records::{Addr, MapRecord, Prefix, Records};
use lisp_replies::{Negative, Reply};
use lisp_requests::{MapReply, write_reply};
use lisp_server::Server;
use std::alloc::{AllocError, Allocator, Global};
use std::marker::Model;

/// ACT 1, Natively-Forward: the ITR sends the packets on as if there were no LISP.
const NATIVELY_FORWARD: u8 = 1;

/// What is sent for an EID-Prefix that a Map-Request asks for.
#[derive(Debug, Drop)]
pub struct HostedReply<A: Allocator = Global> {
    /// What is said of the EID-Prefix.
    pub outcome: Outcome,
    /// The Map-Reply, where one is sent, else no bytes.
    pub bytes: Vec<u8, A>,
}

impl<A: Allocator> Model for HostedReply<A> {
    ghost use Rattle.lisp_embedded.specs.Replying.{HostedReplyValue};

    ghost Value = { HostedReplyValue };

    ghost view = { λ r. record { outcome = r.outcome; bytes = r.bytes.items } };
}

/// What a Map-Server sends at a time, in ms, for an EID-Prefix that a Map-Request with this nonce asks for, as `Server::reply_to`: a
/// Map-Reply, or the Map-Request itself, on its way to a router, or nothing while it is `starting` (RFC 9301 sections 5.4 and 8.3).
#[tactic(auto, using(crate::proofs::Replies::server_fits))]
pub fn server_reply_of<A: Memory + Copy>(
    alloc: A,
    server: &Server<A>,
    asked: &Prefix,
    nonce: u64,
    starting: bool,
    now: u64,
) -> Result<HostedReply<A>, AllocError>
    ensures says { IfOk result (Says {A = A}
        (IsReply server.now.rows server.now.sites asked.now starting now) MapServer false nonce) }
    ensures short { IfOk result (λ hosted. length hosted.bytes ≤ reply_room) }
    ensures memory { OnErr result A.may_refuse }
{
    let reply = server.reply_to(asked, starting, now)?;
    spelled(alloc, Replier::MapServer, false, nonce, reply)
}

/// What a router sends for an EID-Prefix that a Map-Request with this nonce asks for, as `Etr::reply_to`: a Map-Reply, of a probe
/// where that is one (P). Each locator of the address that is `probed` has the probe bit (RFC 9301 sections 5.4, 7.1 and 8.2).
#[tactic(auto, using(crate::proofs::Replies::router_fits))]
pub fn router_reply_of<A: Memory + Copy, B: Memory + Copy>(
    alloc: A,
    router: &Etr<B>,
    asked: &Prefix,
    nonce: u64,
    probe: bool,
    probed: Option<Addr>,
) -> Result<HostedReply<A>, AllocError>
    ensures says { IfOk result (Says {A = A}
        (IsOwnReply router.now.database asked.now probed) Router probe nonce) }
    ensures short { IfOk result (λ hosted. length hosted.bytes ≤ reply_room) }
    ensures memory { OnErr result A.may_refuse }
{
    let reply = router.reply_to(alloc, asked, probed)?;
    spelled(alloc, Replier::Router, probe, nonce, reply)
}

// What is said of a reply, and its Map-Reply.
fn spelled<A: Memory + Copy>(
    alloc: A,
    of: Replier,
    probe: bool,
    nonce: u64,
    reply: Reply<A>,
) -> Result<HostedReply<A>, AllocError>
    requires fits { Fits reply }
    ensures outcome { IfOk result (λ hosted. hosted.outcome ≡ outcome_of reply) }
    ensures bytes { IfOk result (λ hosted. hosted.bytes ≡ spelled_reply of probe nonce reply) }
    ensures short { IfOk result (λ hosted. length hosted.bytes ≤ reply_room) }
    ensures memory { OnErr result A.may_refuse }
{
    let outcome = Outcome::of(&reply);
    let bytes = reply_bytes(alloc, of, probe, nonce, reply)?;
    Ok(HostedReply { outcome, bytes })
}

// The bytes of the Map-Reply; none where none is sent.
fn reply_bytes<A: Memory + Copy>(
    alloc: A,
    of: Replier,
    probe: bool,
    nonce: u64,
    reply: Reply<A>,
) -> Result<Vec<u8, A>, AllocError>
    requires fits { Fits reply }
    ensures bytes { IfOk result (λ v. v.items ≡ spelled_reply of probe nonce reply) }
    ensures short { IfOk result (λ v. length v.items ≤ reply_room) }
    ensures memory { OnErr result A.may_refuse }
{
    match reply {
        Reply::Records(records) => map_reply(alloc, probe, nonce, records),
        Reply::Negative(hole) => {
            let records = negative_records(alloc, of, &hole)?;
            map_reply(alloc, probe, nonce, records)
        }
        Reply::Forward(_) | Reply::Silent => Ok(Vec::new(alloc)),
    }
}

// The bytes of a Map-Reply of these records.
fn map_reply<A: Memory + Copy>(
    alloc: A,
    probe: bool,
    nonce: u64,
    records: Records<A>,
) -> Result<Vec<u8, A>, AllocError>
    requires few { length records < 256 }
    ensures bytes { IfOk result (λ v. v.items ≡ written_reply (map_reply_of probe nonce records)) }
    ensures known { OnOk result (IsMapReply (map_reply_of probe nonce records)) }
    ensures memory { OnErr result A.may_refuse }
{
    let reply = MapReply {
        probe,
        echo_nonce: false,
        sec: false,
        nonce,
        records,
    };
    write_reply(alloc, &reply)
}

// The one record of a negative Map-Reply.
fn negative_records<A: Memory + Copy>(
    alloc: A,
    of: Replier,
    hole: &Negative,
) -> Result<Records<A>, AllocError>
    ensures one { IfOk result (λ records. records ≡ negative_of of hole.now ∷ []) }
    ensures memory { OnErr result A.may_refuse }
{
    let authoritative = of.is_router();
    let locators = Vec::new(alloc);
    let record = MapRecord::new(
        hole.ttl,
        NATIVELY_FORWARD,
        authoritative,
        0,
        hole.eid,
        locators,
    );
    let mut records = Vec::new(alloc);
    records.try_push(record.unwrap())?;
    Ok(Records::from_vec(records))
}
