//! What a node does for a datagram with a Map-Request.

ghost use Rattle.std.specs.Prelude.{◌≡◌, [], map, IfOk, OnErr};
ghost use Rattle.lisp_mapping.specs.Handling.{outcome_of};
ghost use Rattle.lisp_mapping.specs.Sends.{sends};

use crate::outcome::Outcome;
use crate::{Asked, Datagram, sends};
use lisp_memory::{FallibleVec, Memory};
use lisp_replies::Reply;
use std::alloc::{AllocError, Allocator, Global};
use std::marker::Model;

/// What a node does for a datagram with a Map-Request.
#[derive(Debug, Drop)]
pub struct Handled<A: Allocator = Global> {
    /// What the Map-Request asks for, and where its Map-Replies go.
    pub asked: Asked<A>,
    /// What is said of each EID-Prefix, in their order.
    pub outcomes: Vec<Outcome, A>,
    /// The datagrams that are sent, in this order.
    pub datagrams: Vec<Datagram<A>, A>,
}

impl<A: Allocator> Model for Handled<A> {
    ghost use Rattle.lisp_mapping.specs.Handling.{HandledValue};

    ghost Value = { HandledValue };

    ghost view = { λ h. record { asked = h.asked; outcomes = h.outcomes.items; datagrams = h.datagrams.items } };
}

/// What a node does for a Map-Request that came as these bytes, where `replies` are what it says of each EID-Prefix, in their order.
pub(crate) fn handle<A: Memory + Copy>(
    alloc: A,
    asked: Asked<A>,
    bytes: &[u8],
    replies: Vec<Reply<A>, A>,
) -> Result<Handled<A>, AllocError>
    ensures asked { IfOk result (λ h. h.asked ≡ asked) }
    ensures outcomes { IfOk result (λ h. h.outcomes ≡ map outcome_of replies.items) }
    ensures datagrams { IfOk result (λ h. h.datagrams ≡ sends asked bytes.now [] replies.items) }
    ensures memory { OnErr result A.may_refuse }
{
    let outcomes = outcomes(alloc, &replies)?;
    let datagrams = sends(alloc, &asked, bytes, replies)?;
    Ok(Handled {
        asked,
        outcomes,
        datagrams,
    })
}

// What is said of each reply.
fn outcomes<A: Memory + Copy>(alloc: A, replies: &[Reply<A>]) -> Result<Vec<Outcome, A>, AllocError>
    ensures each { IfOk result (λ outcomes. outcomes.items ≡ map outcome_of replies.now) }
    ensures memory { OnErr result A.may_refuse }
{
    let mut outcomes = Vec::new(alloc);
    for reply in replies {
        outcomes.try_push(Outcome::of(reply))?;
    }
    Ok(outcomes)
}
