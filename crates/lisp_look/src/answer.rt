//! What came of a look.

use lisp_records::Addr;
use lisp_requests::MapReply;
use std::alloc::{Allocator, Global};
use std::marker::Model;

/// A Map-Reply that answers a look.
#[derive(Debug, Drop)]
pub struct Answer<A: Allocator = Global> {
    /// The address that it came from.
    pub from: Addr,
    /// How many ms after the first Map-Request it came.
    pub ms: u64,
    /// The Map-Reply.
    pub reply: MapReply<A>,
}

impl<A: Allocator> Model for Answer<A> {
    ghost use Rattle.lisp_look.specs.Answer.{AnswerValue};

    ghost Value = { AnswerValue };

    ghost view = { λ a. record { from = a.from; ms = a.ms; reply = a.reply } };
}
