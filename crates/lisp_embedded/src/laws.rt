//! What holds of what a program is told: the contract of each function is a law, and its body is empty.

ghost use Rattle.lisp_embedded.specs.Replying.{SendsTheSame};

use std::alloc::Allocator;

/// A program that sends what it is told for an EID-Prefix sends what `sends` of `lisp_mapping` has for it (RFC 9301 sections 5.4, 8.2 and
/// 8.3).
pub fn replies_are_those_of_a_node<A: Allocator>()
    ensures { SendsTheSame A }
{}
