//! What holds of the answers for addresses themselves: each function's contract is a law, and its body is empty.

ghost use Rattle.std.specs.Prelude.{List};
ghost use Rattle.lisp_records.specs.Row.{RowValue};
ghost use Rattle.lisp_policy.specs.Site.{SiteValue};
ghost use Rattle.lisp_lookup.specs.Covering.{AnswersAlike};
ghost use Rattle.lisp_lookup.specs.OneAnswer.{HaveOneAnswer};
ghost use Rattle.lisp_lookup.specs.Replies.{CachedIsAnswered, HoleIsAnswered};
ghost use Rattle.lisp_lookup.specs.Table.{OneEach};

use std::alloc::Allocator;

/// Rows, one for each router and prefix, have one answer for an address at a moment (RFC 9301 section 8.3): any two show
/// the same, and two replies the same record, wherever it lies.
#[tactic(auto, using(crate::proofs::BestLaws::one_answer))]
pub fn one_answer<A: Allocator, B: Allocator>()
    ensures { (rows : List RowValue) → OneEach rows → HaveOneAnswer A B rows }
{}

/// For the prefix of one address answers who answers for the address (RFC 9301 section 8.3).
#[tactic(auto, using(crate::proofs::BestLaws::answers_alike))]
pub fn one_address()
    ensures { (rows : List RowValue) → AnswersAlike rows }
{}

/// What an ITR that keeps the records of a Map-Reply by proxy says of an address of the first one's prefix is what the Map-Server
/// says of that address at that moment: the record, of those that have it, with the longest prefix is that of the row that answers for
/// the address (RFC 9301 section 5.5).
pub fn cached_is_answered()
    ensures { (rows : List RowValue) → CachedIsAnswered rows }
{}

/// The same of a negative Map-Reply: for no address of its prefix a row answers, and a site has each of them or none (RFC 9301 section
/// 8.4).
pub fn hole_is_answered()
    ensures { (rows : List RowValue) (sites : List SiteValue) → HoleIsAnswered rows sites }
{}
