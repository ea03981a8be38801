//! What holds of the format itself: each function's contract is a law, and its body is empty, or the constant that the
//! law is about.

ghost use Rattle.std.specs.Prelude.{◌≡◌, ◌↔◌, ℕ, List, false, Some, Ok};
ghost use Rattle.std.specs.List.{Contains};
ghost use Rattle.std.specs.List.Sorted.{IsPermutation};
ghost use Rattle.lisp_records.specs.Address.{PrefixValue, Covers, Holds, prefix_cmp};
ghost use Rattle.lisp_records.specs.Router.{router_cmp};
ghost use Rattle.lisp_records.specs.Parts.{IsCut, cut, part_at, EachFitsAlone, IsInOnePart};
ghost use Rattle.lisp_records.specs.Database.{repeats, PrefixesDiffer, SameIfRising, FitAlike, database_of, record_for, IsFoundInAPart};
ghost use Rattle.lisp_records.specs.Moment.{max_moment};
ghost use Rattle.lisp_records.specs.Record.{MapRecordValue, IsMapRecord};
ghost use Rattle.lisp_records.specs.Spelling.{Spells};
ghost use Rattle.lisp_records.specs.Format.{SpellsAtMostOne, NoSpellingBeginsAnother, SpellsOnly};
ghost use Rattle.lisp_records.specs.Written.{written};
ghost use Rattle.lisp_records.specs.Reading.{ReadsBack};
ghost use Rattle.lisp_records.specs.declared.address.Addr.{Addr};
ghost use Rattle.lisp_records.specs.declared.router.RouterId.{RouterId};

use crate::prefix::Prefix;
use crate::router::RouterId;
use crate::row::MAX_MOMENT;

/// Bytes spell at most one record.
pub fn one_record()
    ensures { SpellsAtMostOne Spells }
{}

/// No spelling of a record begins another.
pub fn no_proper_prefix()
    ensures { NoSpellingBeginsAnother Spells }
{}

/// What bytes spell fits the format.
pub fn spelt_records_fit()
    ensures { SpellsOnly IsMapRecord Spells }
{}

/// The written spelling of a record is one of its spellings.
#[tactic(auto, using(crate::proofs::RecordLaws::written_spells))]
pub fn written_spells()
    ensures { (m : MapRecordValue) → IsMapRecord m → Spells (written m) m }
{}

/// What is written is read again, whatever follows it.
#[tactic(auto, using(crate::proofs::RecordLaws::reads_back))]
pub fn reads_back()
    ensures { (m : MapRecordValue) (rest : List ℕ) → IsMapRecord m → ReadsBack m rest }
{}

/// Prefixes are ordered by address, IPv4 before IPv6, and then by mask length.
pub fn prefix_order()
    ensures { (a b : PrefixValue) → ⟦<Prefix as Ord>⟧.cmp a b ≡ prefix_cmp a b }
{}

/// Routers are ordered by site, and then by xTR-ID.
pub fn router_order()
    ensures { (a b : RouterId) → ⟦<RouterId as Ord>⟧.cmp a b ≡ router_cmp a b }
{}

/// What a covered block holds, the covering one holds.
#[tactic(auto, using(crate::proofs::AddressLemmas::covers_holds))]
pub fn covers_holds()
    ensures { (b c : PrefixValue) (a : Addr) → Covers b c → Holds c a → Holds b a }
{}

/// No EID-Prefix is repeated exactly where those of each two records differ.
#[tactic(auto, using(crate::proofs::DatabaseLaws::distinct_prefixes))]
pub fn distinct_prefixes()
    ensures { (ms : List MapRecordValue) → (repeats ms ≡ false) ↔ PrefixesDiffer ms }
{}

/// Where one message can carry records, it can carry them in another order.
#[tactic(auto, using(crate::proofs::DatabaseLaws::any_order))]
pub fn any_order()
    ensures { (one other : List MapRecordValue) → IsPermutation one other → FitAlike one other }
{}

/// Records in rising order of their EID-Prefixes stand in one order alone.
#[tactic(auto, using(crate::proofs::RisingLaws::one_rising_order))]
pub fn one_rising_order()
    ensures { (one other : List MapRecordValue) → IsPermutation one other → SameIfRising one other }
{}

/// Records are cut into parts in one way alone.
#[tactic(auto, using(crate::proofs::Cuts::cuts_are_one))]
pub fn cuts_are_one()
    ensures { (ms : List MapRecordValue) (one other : List (List MapRecordValue)) → IsCut ms one
        → IsCut ms other → one ≡ other }
{}

/// Records that each fit a message alone are cut by `cut`.
#[tactic(auto, using(crate::proofs::Cuts::cut_is_a_cut))]
pub fn cut_is_a_cut()
    ensures { (ms : List MapRecordValue) → EachFitsAlone ms → IsCut ms (cut ms) }
{}

/// Each record of a database is in one of its parts, and in no other.
pub fn each_record_is_in_one_part()
    ensures { (ms : List MapRecordValue) (m : MapRecordValue) → database_of ms ≡ Ok ms
        → Contains ms m → IsInOnePart ms m }
{}

/// What one part of a database has for an EID-Prefix, the database has.
pub fn part_look_up()
    ensures { (ms : List MapRecordValue) (part : ℕ) (eid : PrefixValue) (m : MapRecordValue)
        → database_of ms ≡ Ok ms → record_for (part_at ms part) eid ≡ Some m
        → record_for ms eid ≡ Some m }
{}

/// What a database has for an EID-Prefix, one of its parts has.
pub fn look_up_in_a_part()
    ensures { (ms : List MapRecordValue) (eid : PrefixValue) (m : MapRecordValue)
        → database_of ms ≡ Ok ms → record_for ms eid ≡ Some m → IsFoundInAPart ms eid m }
{}

/// `MAX_MOMENT` is 2^62 ms.
pub const fn last_moment() -> u64
    ensures { result ≡ max_moment }
{
    MAX_MOMENT
}
