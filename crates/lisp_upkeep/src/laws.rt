//! What holds of the lines of nonces, and of raised nonces: each function's contract is a law, and its body is empty.

ghost use Rattle.lisp_upkeep.specs.Laws.{KeepsAtLeastWhatWasAccepted, RefusesWhatWasAccepted, LowersNothing, LetsRoutersThrough};
ghost use Rattle.lisp_upkeep.specs.Line.{LinesFindNonces, LinesAreOfOneNonce};

/// A text is the line of the nonce that is found by it, and where none is found of no nonce.
pub fn lines_find_nonces()
    ensures { LinesFindNonces }
{}

/// Two nonces don't share a line.
pub fn lines_are_of_one_nonce()
    ensures { LinesAreOfOneNonce }
{}

/// After old nonces were put back and raised, the store keeps at least each nonce that was accepted since the copy was made, if each is
/// within so much of the copy's, and its pair is in the copy.
pub fn keeps_at_least_what_was_accepted()
    ensures { KeepsAtLeastWhatWasAccepted }
{}

/// So a Map-Server that starts over it refuses each of these as a replay (RFC 9301 section 5.6), whatever its site lets nonces jump.
pub fn refuses_what_was_accepted()
    ensures { RefusesWhatWasAccepted }
{}

/// Raising lowers nothing, also where it is cut off.
pub fn lowers_nothing()
    ensures { LowersNothing }
{}

/// A router whose nonce is no less than what the copy has, and is raised by as much, is let through with its next one, by the jump that it
/// would have had without either.
pub fn lets_routers_through()
    ensures { LetsRoutersThrough }
{}
