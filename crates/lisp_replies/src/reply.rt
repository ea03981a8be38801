//! What is sent.

use lisp_records::{Addr, Prefix, Records};
use std::alloc::{Allocator, Global};

/// What is sent for an EID-Prefix that a Map-Request asks for (RFC 9301 sections 8.3 and 8.4).
#[derive(Debug, Drop)]
pub enum Reply<A: Allocator = Global> {
    /// A Map-Reply of these records, which one message can carry: of the prefix that answers, then of each longer one inside.
    Records(Records<A>),
    /// A negative Map-Reply, Natively-Forward: nobody is in this prefix.
    Negative(Negative),
    /// No Map-Reply: the Map-Request goes on to this address, the source of the Map-Register, and its router replies itself.
    Forward(Addr),
    /// Nothing, because the Map-Server has just started: the ITR asks again.
    Silent,
}

/// What a negative Map-Reply says.
#[derive(Clone, Copy, Debug, PartialEq, Eq)]
pub struct Negative {
    /// The widest prefix around the address in which nobody is there.
    pub eid: Prefix,
    /// How long an ITR may keep it, in minutes: 1 where a site has the prefix, else 15.
    pub ttl: u32,
}
