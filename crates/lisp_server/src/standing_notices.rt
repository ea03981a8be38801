//! The unsolicited Map-Notifies (notices) of a Map-Server that stand, at most one for each router.

ghost use Rattle.std.specs.Prelude.{◌≡◌, ◌≤◌, [], Some, OnOk, OnErr, IfOk, IfErr, MatchResult, length, position};
ghost use Rattle.lisp_records.specs.Moment.{max_moment};
ghost use Rattle.std.specs.List.{find};
ghost use Rattle.std.specs.Option.{option_map};
ghost use Rattle.lisp_records.specs.Router.{router_cmp};
ghost use Rattle.lisp_policy.specs.Order.{KeysRise, IsGap};
ghost use Rattle.lisp_server.specs.Notices.{is_notice_of, is_due, OneForEach, SetsNotice, EndsNotice, awaits, Awaited, IsDueRouter, Resends, HasStandingRoom, RefusesToResend};

use crate::reserved::insert_reserved;
use crate::standing_notice::StandingNotice;
use lisp_admission::NoticeFault;
use lisp_memory::{FallibleVec, Memory};
use lisp_records::{Addr, RouterId};
use std::alloc::{AllocError, Allocator};
use std::marker::Model;

/// The notices that stand, in the order of their routers, and room for more.
#[derive(Drop)]
pub(crate) struct StandingNotices<A: Allocator> {
    items: Vec<StandingNotice<A>, A>,
}

impl<A: Allocator> Model for StandingNotices<A> {
    ghost use Rattle.std.specs.Prelude.{◌-◌, vec_len, vec_capacity};
    ghost use Rattle.lisp_records.specs.Router.{router_cmp};
    ghost use Rattle.lisp_policy.specs.Order.{KeysRise};
    ghost use Rattle.lisp_server.specs.Notices.{StandingNoticesState};

    ghost Value = { StandingNoticesState };

    ghost view = { λ n. record { notices = n.items.items; spare = vec_capacity n.items - vec_len n.items } };

    ghost invariant = { λ n. KeysRise (λ x. x.router) router_cmp n.items.items };
}

impl<A: Allocator> StandingNotices<A> {
    /// No notices. Takes no memory.
    #[tactic(auto, using(crate::proofs::StandingLaws::no_notices))]
    pub(crate) fn new(alloc: A) -> StandingNotices<A>
        ensures { result.notices ≡ [] }
    {
        StandingNotices {
            items: Vec::new(alloc),
        }
    }

    /// How many stand.
    pub(crate) fn count(&self) -> usize
        ensures { result ≡ length self.now.notices }
    {
        self.items.len()
    }

    /// Keeps a notice, in place of an earlier one to its router. Takes no memory.
    pub(crate) fn keep(&mut self, notice: StandingNotice<A>)
        requires { HasStandingRoom self.old notice.router }
        ensures { SetsNotice self.old.notices self.new.notices notice }
    {
        match place(&self.items, &notice.router) {
            Ok(place) => self.items[place] = notice,
            Err(gap) => insert_reserved(&mut self.items, gap, notice),
        }
    }

    /// Ends the notice to a router. Takes no memory.
    pub(crate) fn end(&mut self, router: &RouterId)
        ensures { EndsNotice self.old.notices self.new.notices router.now }
    {
        if let Ok(place) = place(&self.items, router) {
            self.items.remove(place);
        }
    }

    /// A notice that waits for a Map-Notify-Ack with this key and nonce from this address.
    pub(crate) fn awaiting(&self, from: &Addr, key: u8, nonce: u64) -> Option<&StandingNotice<A>>
        ensures { Awaited self.now.notices from.now key nonce (option_map (λ n. n.now) result) }
    {
        first_awaiting(&self.items, from, key, nonce)
    }

    /// The least router to which a notice is due at a time, in ms.
    pub(crate) fn due(&self, now: u64) -> Option<RouterId>
        ensures due { IsDueRouter self.now.notices now result }
        ensures one_each { OneForEach self.now.notices }
    {
        match first_due(&self.items, now) {
            Some(notice) => Some(notice.router),
            None => None,
        }
    }
}

impl<A: Memory> StandingNotices<A> {
    /// Makes room for the notice to a router, where none stands.
    pub(crate) fn prepare(&mut self, router: &RouterId) -> Result<(), AllocError>
        ensures same { self.new.notices ≡ self.old.notices }
        ensures room { OnOk result (HasStandingRoom self.new router.now) }
        ensures memory { OnErr result A.may_refuse }
    {
        match place(&self.items, router) {
            Ok(_) => Ok(()),
            Err(_) => self.items.make_room(1),
        }
    }

    /// Sends the notice to a router again that is due at a time, in ms: its address and a copy of its bytes.
    /// `NotDue`, `OutOfMemory`.
    pub(crate) fn resend(
        &mut self,
        alloc: A,
        router: &RouterId,
        now: u64,
    ) -> Result<(Addr, Vec<u8, A>), NoticeFault>
        requires { now ≤ max_moment }
        ensures { MatchResult result
            (λ x. Resends self.old.notices self.new.notices router.now now x.0 x.1.items)
            (RefusesToResend A.may_refuse self.old self.new router.now now) }
    {
        let Ok(place) = place(&self.items, router) else {
            return Err(NoticeFault::NotDue);
        };
        if !self.items[place].is_due(now) {
            return Err(NoticeFault::NotDue);
        }
        Ok(self.items[place].resend(alloc, now)?)
    }
}

// The place of the notice to a router, or where it goes.
fn place<A: Allocator>(notices: &[StandingNotice<A>], router: &RouterId) -> Result<usize, usize>
    requires { KeysRise (λ x. x.router) router_cmp notices.now }
    ensures found { IfOk result (λ i. position (is_notice_of router.now) notices.now ≡ Some i) }
    ensures gap { IfErr result (λ i. IsGap (λ x. x.router) router_cmp notices.now router.now i) }
{
    notices.binary_search_by_key(router, |notice| notice.router)
}

fn first_awaiting<'n, A: Allocator>(
    notices: &'n [StandingNotice<A>],
    from: &Addr,
    key: u8,
    nonce: u64,
) -> Option<&'n StandingNotice<A>>
    ensures { option_map (λ n. n.now) result ≡ find (awaits from.now key nonce) notices.now }
{
    notices
        .iter()
        .find(|notice| notice.awaits(from, key, nonce))
}

fn first_due<A: Allocator>(notices: &[StandingNotice<A>], now: u64) -> Option<&StandingNotice<A>>
    ensures { option_map (λ n. n.now) result ≡ find (is_due now) notices.now }
{
    notices.iter().find(|notice| notice.is_due(now))
}
