//! What turns come to, as laws: each function's contract is a law, and its body is empty.

ghost use Rattle.lisp_turns.specs.Beginning.{BeginningsStand};
ghost use Rattle.lisp_turns.specs.Order.{FaultsAgree};
ghost use Rattle.lisp_turns.specs.Part.{TurnsAreParts};

use std::alloc::Allocator;

/// What a node prints and sends in its turns is a legal trace's part of it: a network that stands for a trace, and has the
/// node, stands for the trace followed by steps of that node, whose lines are the events' lines that were printed, and whose
/// datagrams are those that were sent. Of what a user tells a node they have nothing that wasn't told.
pub fn turns_are_parts<A: Allocator>()
    ensures { TurnsAreParts A }
{}

/// Each node that begins over a store as it may, at any moment, stands in a network, whose store of that node kept at the opening what
/// this store keeps.
pub fn beginnings_stand()
    ensures { BeginningsStand }
{}

/// What keeps a node from being told something, by its own state, is the fault of each network that has it: of a node whose store is
/// honest, a user is told what a schedule would be.
pub fn faults_agree()
    ensures { FaultsAgree }
{}
