//! Receiving a Map-Notify-Ack, which ends the unsolicited Map-Notify (notice) that it acknowledges.

ghost use Rattle.std.specs.Prelude.{◌≡◌, IfOk, IfErr, OnErr};
ghost use Rattle.lisp_server.specs.Checks.{answers_under};
ghost use Rattle.lisp_server.specs.ReceivedAck.{EndedBy, RefusesArrivedAck, EndsAcknowledged};

use crate::arrival::Arrival;
use crate::standing_notice::StandingNotice;
use crate::standing_notices::StandingNotices;
use crate::took::Took;
use lisp_admission::{Refused, key_at};
use lisp_messages::{MapNotify, authentic_under};
use lisp_policy::Sites;
use std::alloc::Allocator;

/// Receives a Map-Notify-Ack that was read from the bytes of an arrival, and ends the notice that it
/// acknowledges. It refuses in this order: `NotMine` (it is a Map-Notify), `NoNotice`, `BadAuth`.
pub(crate) fn receive_ack<A: Allocator>(
    sites: &Sites<A>,
    notices: &mut StandingNotices<A>,
    arrival: Arrival<'_>,
    ack: &MapNotify<A>,
) -> Result<Took<A>, Refused>
    ensures done { EndsAcknowledged sites.now notices.old notices.new arrival.entry ack.now result }
    ensures refused { IfErr result (RefusesArrivedAck sites.now notices.old arrival.entry ack.now) }
    ensures err { OnErr result (notices.new.notices ≡ notices.old.notices) }
{
    let notice = ended(sites, notices, arrival, ack)?;
    let (router, nonce) = (notice.router, notice.nonce);
    notices.end(&router);
    Ok(Took::NoticeDone { router, nonce })
}

// The notice that a Map-Notify-Ack ends, or the first check that it fails.
fn ended<'n, A: Allocator>(
    sites: &Sites<A>,
    notices: &'n StandingNotices<A>,
    arrival: Arrival<'_>,
    ack: &MapNotify<A>,
) -> Result<&'n StandingNotice<A>, Refused>
    ensures ends { IfOk result (λ n. EndedBy sites.now notices.now arrival.entry ack.now n.now) }
    ensures refused { IfErr result (RefusesArrivedAck sites.now notices.now arrival.entry ack.now) }
{
    if !ack.ack {
        return Err(Refused::NotMine);
    }
    let Some(notice) = notices.awaiting(&arrival.from, ack.key_id, ack.nonce) else {
        return Err(Refused::NoNotice);
    };
    if !answers_under(sites, arrival.bytes, notice) {
        return Err(Refused::BadAuth);
    }
    Ok(notice)
}

// Whether bytes are authentic under the secret of a notice's site and key.
fn answers_under<A: Allocator>(sites: &Sites<A>, bytes: &[u8], notice: &StandingNotice<A>) -> bool
    ensures { result ≡ answers_under sites.now bytes.now notice.now }
{
    match key_at(sites, notice.router.site, notice.key) {
        Some(key) => authentic_under(bytes, key),
        None => false,
    }
}
