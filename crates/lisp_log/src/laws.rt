//! What the parts come to, as laws: each function's contract is a law, and its body is empty.

ghost use Rattle.lisp_log.specs.Few.{FewAreTold, KindsAreAll};
ghost use Rattle.lisp_log.specs.Rare.{MovedIsRare};
ghost use Rattle.lisp_log.specs.Sums.{EqualIsSame, SumsTellAll, DroppedSumsAreCounted};
ghost use Rattle.lisp_log.specs.Whole.{WrittenIsWhole};

use lisp_memory::Memory;

/// Of a second's refusals and answers to Map-Requests none is lost: each that isn't told repeats an earlier one of the same that was
/// told, and the times of the entries of each make up how many of it weren't told; so do those with each address that is told apart,
/// of which there are at most 64. The sums tell just so many events as weren't told.
#[tactic(auto, using(crate::proofs::SumLaws::sums_tell_all))]
pub fn sums_tell_all()
    ensures { SumsTellAll }
{}

/// The test by which the sums are said to tell apart what repeats tells whether two are the same.
#[tactic(auto, using(crate::proofs::Repeating::equal_is_same))]
pub fn equal_is_same()
    ensures { EqualIsSame }
{}

/// So the log stays small: of a second's refusals and answers to Map-Requests, of which there are fewer than 2^64, at most 144 are told, and
/// then at most as many sums.
#[tactic(auto, using(crate::proofs::FewLaws::few_are_told))]
pub fn few_are_told()
    ensures { FewAreTold }
{}

/// Each line that may repeat is of one of 60 things, as is presupposed there.
#[tactic(auto, using(crate::proofs::KindLaws::kinds_are_all))]
pub fn kinds_are_all()
    ensures { KindsAreAll }
{}

/// Where a second's sums find no room, or no memory, nothing is lost in them: the first of them wait, whole, and of the others
/// each event is counted as dropped, up to 2^64 of them. Together these are all events that weren't told.
pub fn dropped_sums_are_counted<A: Memory>()
    ensures { DroppedSumsAreCounted A.may_refuse }
{}

/// What a sink took, followed by what waits, is whole lines, over fewer than 2^64 events: each that was put, in its order, or
/// in its place one that says how many events are missing. The events of these lines, these numbers, and what is missing since
/// make up all events that were put.
#[tactic(auto, using(crate::proofs::WholeLaws::written_is_whole))]
pub fn written_is_whole()
    ensures { WrittenIsWhole }
{}

/// As long as moments don't fall, two moves of one router that are told lie at least a minute apart.
#[tactic(auto, using(crate::proofs::RareLaws::moved_is_rare))]
pub fn moved_is_rare<A: Memory>()
    ensures { MovedIsRare A.may_refuse }
{}
