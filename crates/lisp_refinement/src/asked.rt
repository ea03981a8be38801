//! What the nodes of a network that stands for a trace tell, at the network's clock, is what the trace says: each
//! function's contract is this law for one kind of node, and its body is empty.

ghost use Rattle.std.specs.Prelude.{List};
ghost use Rattle.lisp_model.specs.Trace.{Opening, Step};
ghost use Rattle.lisp_refinement.specs.World.{WorldState};
ghost use Rattle.lisp_refinement.specs.Stands.{Stands};
ghost use Rattle.lisp_refinement.specs.Asked.{RoutersTell, ServersTell};

use std::alloc::Allocator;

/// What a Map-Server of a network tells at the network's clock is what the trace says: the rows that it lists are all
/// that it holds, who answers for an address answers by them, its last nonces are those of the Map-Registers that it
/// accepted and of the notices that it sent since its start, and the notice that it names is due, to the least such
/// router (RFC 9301 sections 5.6, 5.7, 8.2 and 8.3).
pub fn servers_tell<A: Allocator>()
    ensures { (w : WorldState) (o : Opening) (T : List Step) → Stands w o T → ServersTell A w o T }
{}

/// What a router that is up tells at the network's clock is what the trace says: which of its Map-Registers of each part
/// to each Map-Server was acknowledged last, to which Map-Server the next one is due and of which part, and what it
/// registers (RFC 9301 sections 5.7 and 8.2).
pub fn routers_tell()
    ensures { (w : WorldState) (o : Opening) (T : List Step) → Stands w o T → RoutersTell w o T }
{}
