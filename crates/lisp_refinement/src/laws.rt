//! A network that stands for a trace, and takes an event, or in which time passes, stands for the trace followed by that step: each
//! function's contract is a law, and its body is empty.

ghost use Rattle.lisp_refinement.specs.World.{WorldState};
ghost use Rattle.lisp_refinement.specs.Passing.{IdlingPasses, PassingStands, TicksArePasses};
ghost use Rattle.lisp_refinement.specs.Taking.{TakingAgrees};

use std::alloc::Allocator;

/// Whatever the event: time passes, and each Map-Server drops its dead rows; a router is given another database, or
/// sends a Map-Register; a datagram that was sent, or bytes from outside, arrive at a node, or nowhere; a node stops,
/// its store crashes, and it starts again, a router may be down then; a router goes over to another key of its site;
/// a router's store is lost, and it starts under a key that it never used, or is down then; a Map-Server sends a
/// router an unsolicited Map-Notify (notice), or sends one again that is due; or a Map-Server takes other sites (RFC 9301 sections
/// 5.6, 5.7 and 8.2).
pub fn taking_agrees<A: Allocator>()
    ensures { (old new : WorldState) → TakingAgrees A old new }
{}

/// A network that matches a trace, and in which time passes, matches the trace followed by a tick, whichever dead rows its
/// Map-Servers drop.
pub fn passing_stands()
    ensures { PassingStands }
{}

/// Where each Map-Server drops all its dead rows, as a tick makes them do, time passes.
pub fn ticks_are_passes()
    ensures { TicksArePasses }
{}

/// Where no node drops any row, time passes too, up to the greatest moment.
pub fn idling_passes()
    ensures { IdlingPasses }
{}
