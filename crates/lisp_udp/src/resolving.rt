//! How a node that runs answers Map-Requests.

ghost use Rattle.std.specs.Prelude.{◌≡◌, IfOk, OnErr};
ghost use Rattle.lisp_udp.specs.Running.{at_first};

use lisp_budget::Budget;
use lisp_memory::Memory;
use lisp_turns::Resolving;
use std::alloc::{AllocError, Global};

/// How many bytes a second go out for Map-Requests to all destinations, at most.
const MOST_TO_ALL: u32 = 262_144;

/// What its user says of how a node answers Map-Requests.
#[derive(Clone, Copy, Debug, PartialEq, Eq)]
pub struct Answering {
    /// For how many ms of each life a Map-Server is starting: it replies with no prefix that may be wrong then.
    pub quiet: u64,
    /// How many bytes a second go out to each destination, at most.
    pub each: u32,
}

/// How a node answers Map-Requests in a life that begins: of its budget nothing is used.
pub(crate) fn resolving(alloc: Global, answering: Answering) -> Result<Resolving, AllocError>
    ensures first { IfOk result (λ r. r ≡ at_first answering) }
    ensures memory { OnErr result ⟦<Global as Memory>⟧.may_refuse }
{
    Ok(Resolving {
        quiet: answering.quiet,
        budget: Budget::new(alloc, answering.each, MOST_TO_ALL)?,
    })
}
