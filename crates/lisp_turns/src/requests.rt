//! The Map-Requests that wait in a turn: what the node says of each, and what goes out.

ghost use Rattle.std.specs.Prelude.{◌≡◌};
ghost use Rattle.lisp_budget.specs.Budget.{takes, after_take};
ghost use Rattle.lisp_turns.specs.Requests.{counted, outcome_calls};
ghost use Rattle.lisp_turns.specs.Stretch.{Asks, AnswersNext, AnswersWaiting, PassesAll, PassesOne, TellsMade};

use crate::node::Node;
use crate::outside::{Lines, Printed, Requests, SocketCall};
use crate::place::Place;
use lisp_budget::Budget;
use lisp_mapping::{Datagram, Handled, Outcome, Unasked};
use lisp_records::{Addr, Prefix};
use std::alloc::Global;
use std::marker::Model;

/// How a node answers Map-Requests.
#[derive(Drop)]
pub struct Resolving {
    /// For how many ms of its life a Map-Server is starting: routers register again within a minute (RFC 9301 section 8.2), and until then
    /// it replies with no prefix that may be wrong.
    pub quiet: u64,
    /// How many bytes a second go out, to each destination and to all.
    pub budget: Budget,
}

impl Model for Resolving {
    ghost use Rattle.lisp_turns.specs.Requests.{ResolvingValue};

    ghost Value = { ResolvingValue };

    ghost view = { λ r. record { quiet = r.quiet; budget = r.budget } };
}

impl Resolving {
    /// A node answers the Map-Requests that wait, one after the other, `places` at most: of each it tells what it says, and sends what the
    /// budget lets go.
    pub(crate) fn answer_waiting<N: Node, O: Requests + Lines>(
        &mut self,
        alloc: Global,
        node: &N,
        place: &Place,
        places: usize,
        buffer: &mut [u8],
        now: u64,
        outside: &mut O,
    )
        ensures { AnswersWaiting place.now.config.now place.now.number places (N.state node.now)
            now self.old self.new (O.seen outside.old) (O.seen outside.new) }
    {
        for _ in 0..places {
            if !self.answer_next(alloc, node, place, buffer, now, outside) {
                return;
            }
        }
    }

    // The next Map-Request that waits. Whether one did.
    fn answer_next<N: Node, O: Requests + Lines>(
        &mut self,
        alloc: Global,
        node: &N,
        place: &Place,
        buffer: &mut [u8],
        now: u64,
        outside: &mut O,
    ) -> bool
        ensures answers { AnswersNext place.now.config.now place.now.number (N.state node.now)
            self.old.quiet now self.old.budget self.new.budget (O.seen outside.old)
            (O.seen outside.new) result }
        ensures quiet { self.new.quiet ≡ self.old.quiet }
    {
        let Some(request) = outside.next_request(buffer) else {
            return false;
        };
        let made = node.handle(alloc, place, self.quiet, &request, buffer, now);
        self.tell_made(&request.from, &made, now, outside);
        true
    }

    // What the node made of a Map-Request that came from an address.
    fn tell_made<O: Requests + Lines>(
        &mut self,
        from: &Addr,
        made: &Option<Result<Handled, Unasked>>,
        now: u64,
        outside: &mut O,
    )
        ensures tells { TellsMade now from.now made.now self.old.budget self.new.budget
            (O.seen outside.old) (O.seen outside.new) }
        ensures quiet { self.new.quiet ≡ self.old.quiet }
    {
        match made {
            Some(Ok(handled)) => {
                let asked = &handled.asked;
                tell_outcomes(asked.to, &asked.eids, &handled.outcomes, outside);
                self.send_each(from, &handled.datagrams, now, outside);
            }
            Some(Err(why)) => outside.print(&Printed::Unasked {
                from: *from,
                why: *why,
            }),
            None => {}
        }
    }

    // The datagrams that the budget lets go are sent, in their order.
    fn send_each<O: Requests + Lines>(
        &mut self,
        from: &Addr,
        datagrams: &[Datagram],
        now: u64,
        outside: &mut O,
    )
        ensures passes { PassesAll now from.now datagrams.now self.old.budget self.new.budget
            (O.seen outside.old) (O.seen outside.new) }
        ensures quiet { self.new.quiet ≡ self.old.quiet }
    {
        for datagram in datagrams {
            self.send(from, datagram, now, outside);
        }
    }

    // A datagram is sent, if the budget lets it go.
    fn send<O: Requests + Lines>(
        &mut self,
        from: &Addr,
        datagram: &Datagram,
        now: u64,
        outside: &mut O,
    )
        ensures passes { PassesOne now from.now datagram.now self.old.budget self.new.budget
            (O.seen outside.old) (O.seen outside.new) }
        ensures quiet { self.new.quiet ≡ self.old.quiet }
    {
        if !take(&mut self.budget, datagram, now) {
            outside.print(&Printed::OverBudget { from: *from });
        } else if !outside.reply(datagram) {
            outside.print(&Printed::Failed(SocketCall::Send));
        }
    }
}

// Whether the budget lets a datagram go.
fn take(budget: &mut Budget, datagram: &Datagram, now: u64) -> bool
    ensures taken { result ≡ takes budget.old (counted datagram.now now) }
    ensures left { budget.new ≡ after_take budget.old (counted datagram.now now) }
{
    budget.take(&datagram.to, datagram.bytes.len(), now)
}

// A line for each EID-Prefix, with the address to which Map-Replies go.
fn tell_outcomes<O: Lines>(to: Addr, eids: &[Prefix], outcomes: &[Outcome], outside: &mut O)
    ensures { Asks (O.seen outside.old) (O.seen outside.new)
        (outcome_calls to eids.now outcomes.now) }
{
    for (eid, outcome) in eids.iter().zip(outcomes) {
        outside.print(&Printed::Asked {
            eid: *eid,
            to,
            outcome: *outcome,
        });
    }
}
