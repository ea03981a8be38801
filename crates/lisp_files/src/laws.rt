//! What an answer that is closed says, as laws: each function's contract is a law, and its body is empty.

ghost use Rattle.lisp_files.specs.Closing.{ClosedIsWhole, CutIsNotWhole};

/// What a node closes is taken whole: the same text comes out.
#[tactic(auto, using(crate::proofs::Closings::closed_is_whole))]
pub fn closed_is_whole()
    ensures { ClosedIsWhole }
{}

/// An answer of which the end is missing isn't taken as whole, if no line of its text is the closing line.
#[tactic(auto, using(crate::proofs::Closings::cut_is_not_whole))]
pub fn cut_is_not_whole()
    ensures { CutIsNotWhole }
{}
