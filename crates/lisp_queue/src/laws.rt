//! What the order of a group comes to, as laws: each function's contract is a law, and its body is empty.

ghost use Rattle.lisp_queue.specs.Fair.{SharesAreFair};

/// A datagram of a source that has half the places of the group, or more, is taken only where none waits whose source has fewer.
pub fn shares_are_fair()
    ensures { SharesAreFair }
{}
