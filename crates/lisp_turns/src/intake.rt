//! What a node takes in in a turn: the datagrams that came, and what a user tells it. Nothing of it is told before what it saved is
//! committed.

ghost use Rattle.std.specs.Prelude.{◌≡◌, ◌≤◌};
ghost use Rattle.lisp_records.specs.Moment.{max_moment};
ghost use Rattle.lisp_turns.specs.Node.{IsPlaced};
ghost use Rattle.lisp_turns.specs.Group.{TakesAll, TellsAll, TellsOutcome, has_acts};
ghost use Rattle.lisp_turns.specs.Obeying.{Obeys, answer_of};
ghost use Rattle.lisp_turns.specs.Outside.{FitsBuffer, reception};

use crate::act::Act;
use crate::group::{Heard, hear_group, tell_others};
use crate::node::Node;
use crate::order::Order;
use crate::outside::{Control, Endpoint, Lines, Printed, Received};
use crate::place::Place;
use crate::telling::tell;
use lisp_model::{Line, WorldFault};
use std::alloc::Global;
use std::marker::Model;

/// What a node made of the datagrams of a turn, and of what a user told it, which isn't told yet.
#[derive(Drop)]
pub(crate) struct Intake {
    /// What it made of the first datagram, if one came.
    first: Option<Heard>,
    /// What it made of those behind it.
    others: Vec<Heard>,
    /// What came of an order, if there was one.
    outcome: Option<Result<Act, WorldFault>>,
}

impl Model for Intake {
    ghost use Rattle.std.specs.Prelude.{◌++◌, reverse};
    ghost use Rattle.std.specs.Option.{option_to_list};
    ghost use Rattle.lisp_turns.specs.Group.{IntakeValue};

    ghost Value = { IntakeValue };

    ghost view = { λ i. record { heard = reverse i.others.items ++ option_to_list i.first; outcome = i.outcome } };
}

impl Intake {
    /// The node hears the first datagram, where one was received in a buffer, and those that wait behind it, so that it heard `places` at
    /// most. Then it does what a user tells it, if one does.
    pub(crate) fn take<N: Node, O: Endpoint + Control>(
        alloc: Global,
        node: &mut N,
        place: &Place,
        places: usize,
        received: Received,
        buffer: &mut [u8],
        now: u64,
        outside: &mut O,
    ) -> Intake
        requires bound { now ≤ max_moment }
        requires within { FitsBuffer received buffer.old }
        requires placed { IsPlaced place.now.config.now place.now.number (N.state node.old) }
        ensures takes { TakesAll Global place.now.config.now place.now.number places
            (N.state node.old) (N.state node.new) now
            (reception received buffer.old) result.heard result.outcome (O.seen outside.old)
            (O.seen outside.new) }
        ensures placed { IsPlaced place.now.config.now place.now.number (N.state node.new) }
    {
        let (first, others) = hear_group(
            alloc, node, place, places, received, buffer, now, outside,
        );
        let order = outside.listen();
        let outcome = obey(node, place, order, now);
        Intake {
            first,
            others,
            outcome,
        }
    }

    /// Whether the node did anything, so that there may be something to commit.
    pub(crate) fn has_acts(&self) -> bool
        ensures { result ≡ has_acts self.now.heard self.now.outcome }
    {
        self.first.is_some() || !self.others.is_empty() || matches!(self.outcome, Some(Ok(_)))
    }

    /// Each act is told, in their order.
    pub(crate) fn tell<O: Endpoint + Lines>(&self, outside: &mut O)
        ensures { TellsAll self.now.heard self.now.outcome (O.seen outside.old)
            (O.seen outside.new) }
    {
        if let Some(first) = &self.first {
            first.tell(outside);
        }
        tell_others(&self.others, outside);
        tell_outcome(&self.outcome, outside);
    }

    /// What the user is told of the order.
    pub(crate) fn answer(&self) -> Option<Result<Line, WorldFault>>
        ensures { result ≡ answer_of self.now.outcome }
    {
        match &self.outcome {
            Some(Ok(act)) => Some(Ok(act.line)),
            Some(Err(fault)) => Some(Err(*fault)),
            None => None,
        }
    }
}

// The node does what a user tells it, if one does.
fn obey<N: Node>(
    node: &mut N,
    place: &Place,
    order: Option<Order>,
    now: u64,
) -> Option<Result<Act, WorldFault>>
    requires bound { now ≤ max_moment }
    requires placed { IsPlaced place.now.config.now place.now.number (N.state node.old) }
    ensures obeys { Obeys Global place.now.config.now place.now.number (N.state node.old)
        (N.state node.new) now order result }
    ensures placed { IsPlaced place.now.config.now place.now.number (N.state node.new) }
{
    match order {
        Some(order) => Some(node.obey(place, order, now)),
        None => None,
    }
}

// What came of an order is told, if it is an act of the node.
fn tell_outcome<O: Endpoint + Lines>(outcome: &Option<Result<Act, WorldFault>>, outside: &mut O)
    ensures { TellsOutcome outcome.now (O.seen outside.old) (O.seen outside.new) }
{
    if let Some(Ok(act)) = outcome {
        tell(&Printed::Event(act.line), &act.message, outside);
    }
}
