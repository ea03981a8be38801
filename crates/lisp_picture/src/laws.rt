//! What holds of texts in a picture: the function's contract is a law, and its body is empty.

ghost use Rattle.std.specs.Prelude.{ℕ, List};
ghost use Rattle.lisp_picture.specs.Markup.{escaped, HasNoMarkup};

/// A text as it is written in a document has no `<`, no `>` and no `"`: it can't begin or end an element, nor end an attribute.
#[tactic(auto, using(crate::proofs::NoMarkup::no_markup))]
pub fn no_markup()
    ensures { (words : List ℕ) → HasNoMarkup (escaped words) }
{}
