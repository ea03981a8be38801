//! What a Map-Server of a network sends for a Map-Request: the function's contract is a law, and its body is empty.

ghost use Rattle.lisp_refinement.specs.World.{WorldState};
ghost use Rattle.lisp_refinement.specs.Replied.{RepliesArePromised};

use std::alloc::Allocator;

/// What a Map-Server of a network that stands for a trace sends for an EID-Prefix is by what it holds, by the trace. An ITR that keeps
/// it says of each address of the first record's prefix what the Map-Server says of it then; and where nobody outside knows a secret, the
/// record that it reads for the address is the one that the router's database had when it sent the last Map-Register for that prefix
/// which this Map-Server accepted since its start, and that isn't expired; only its TTL is the least of the reply, and A and L are
/// cleared, or it tells the ITR to ask again (RFC 9301 sections 5.5, 8.3 and 8.4).
pub fn replies_are_promised<A: Allocator>()
    ensures { (w : WorldState) → RepliesArePromised A w }
{}
