//! What is said of an EID-Prefix.

ghost use Rattle.std.specs.Prelude.{◌≡◌};

use lisp_records::{Addr, Prefix};
use lisp_replies::Reply;
use std::alloc::Allocator;

/// What is said of an EID-Prefix that a Map-Request asks for.
#[derive(Clone, Copy, Debug, PartialEq, Eq)]
pub enum Outcome {
    /// A Map-Reply of so many records.
    Replied(usize),
    /// A negative Map-Reply: nobody is in this prefix.
    Negative(Prefix),
    /// The Map-Request goes on to the router with this address.
    Forwarded(Addr),
    /// Nothing, because the Map-Server has just started.
    Silent,
}

impl Outcome {
    ghost use Rattle.lisp_mapping.specs.Handling.{outcome_of};

    /// What is said of this reply.
    pub fn of<A: Allocator>(reply: &Reply<A>) -> Outcome
        ensures { result ≡ outcome_of reply.now }
    {
        match reply {
            Reply::Records(records) => Outcome::Replied(records.as_slice().len()),
            Reply::Negative(hole) => Outcome::Negative(hole.eid),
            Reply::Forward(to) => Outcome::Forwarded(*to),
            Reply::Silent => Outcome::Silent,
        }
    }
}
