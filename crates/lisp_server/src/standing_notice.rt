//! An unsolicited Map-Notify (notice) that stands: it was sent, and no Map-Notify-Ack has ended it yet.

ghost use Rattle.std.specs.Prelude.{◌≡◌, ◌≤◌, ◌<◌, IfOk, IfSome, OnOk, OnErr, slice_get};
ghost use Rattle.lisp_records.specs.Moment.{max_moment};
ghost use Rattle.lisp_admission.specs.NoticeTimer.{gaps};
ghost use Rattle.lisp_server.specs.Notices.{is_due, awaits, resent};

use lisp_memory::Memory;
use lisp_records::{Addr, Bytes, RouterId};
use std::alloc::{AllocError, Allocator};
use std::marker::Model;

/// What a Map-Server keeps of a notice until it is acknowledged.
#[derive(Drop)]
pub(crate) struct StandingNotice<A: Allocator> {
    /// The router that it is for.
    pub(crate) router: RouterId,
    /// Where it goes.
    pub(crate) to: Addr,
    /// The Key ID that it is authenticated under.
    pub(crate) key: u8,
    pub(crate) nonce: u64,
    /// The Map-Notify.
    pub(crate) bytes: Bytes<A>,
    /// How often it was sent again.
    pub(crate) resends: usize,
    /// When it was sent last, in ms.
    pub(crate) last: u64,
}

impl<A: Allocator> Model for StandingNotice<A> {
    ghost use Rattle.std.specs.Prelude.{◌≤◌};
    ghost use Rattle.lisp_records.specs.Moment.{max_moment};
    ghost use Rattle.lisp_server.specs.Notices.{StandingNoticeValue};

    ghost Value = { StandingNoticeValue };

    ghost view = { λ n. record { router = n.router; to = n.to; key = n.key; nonce = n.nonce; bytes = n.bytes; resends = n.resends; last = n.last } };

    ghost invariant = { λ n. n.last ≤ max_moment };
}

impl<A: Allocator> StandingNotice<A> {
    /// Whether it is due again at a time, in ms.
    pub(crate) fn is_due(&self, now: u64) -> bool
        ensures { result ≡ is_due now self.now }
    {
        match gap(self.resends) {
            Some(gap) => self.last + gap <= now,
            None => false,
        }
    }

    /// Sends it again at a time, in ms: its address and a copy of its bytes.
    pub(crate) fn resend<B: Memory>(
        &mut self,
        alloc: B,
        now: u64,
    ) -> Result<(Addr, Vec<u8, B>), AllocError>
        requires moment { now ≤ max_moment }
        requires seldom { self.old.resends < 6 }
        ensures datagram { IfOk result (λ x. (x.0 ≡ self.old.to) × (x.1.items ≡ self.old.bytes)) }
        ensures resent { OnOk result (self.new ≡ resent now self.old) }
        ensures err { OnErr result (self.new ≡ self.old) }
        ensures memory { OnErr result B.may_refuse }
    {
        let bytes = self.bytes.copy(alloc)?;
        self.resends += 1;
        self.last = now;
        Ok((self.to, bytes.into_vec()))
    }

    /// Whether it waits for a Map-Notify-Ack with this key and nonce from this address.
    pub(crate) fn awaits(&self, from: &Addr, key: u8, nonce: u64) -> bool
        ensures { result ≡ awaits from.now key nonce self.now }
    {
        self.to == *from && self.key == key && self.nonce == nonce
    }
}

// How long after a notice was last sent it is due again, in ms, by how often it was sent again.
const fn gap(resends: usize) -> Option<u64>
    ensures gap { result ≡ slice_get gaps resends }
    ensures short { IfSome result (λ gap. gap ≤ 24000) }
{
    match resends {
        0 | 1 | 2 => Some(3_000),
        3 => Some(6_000),
        4 => Some(12_000),
        5 => Some(24_000),
        _ => None,
    }
}
