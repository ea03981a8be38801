//! What holds of the texts themselves: each function's contract is a law, and its body is empty.

ghost use Rattle.lisp_records.specs.Address.{PrefixValue, IsPrefix, IsWhole};
ghost use Rattle.lisp_records.specs.declared.address.Addr.{Addr};
ghost use Rattle.lisp_records.specs.Record.{MapRecordValue, IsMapRecord};
ghost use Rattle.lisp_records.specs.Format.{SpellsAtMostOne};
ghost use Rattle.lisp_texts.specs.Text.{IsAddressText, IsPrefixText, IsRecordText};
ghost use Rattle.lisp_texts.specs.Written.{addr_text, prefix_text, record_text, shown, ReadsBack};

/// A text spells at most one address.
pub fn one_address()
    ensures { SpellsAtMostOne IsAddressText }
{}

/// A text spells at most one prefix.
pub fn one_prefix()
    ensures { SpellsAtMostOne IsPrefixText }
{}

/// A text spells at most one record.
pub fn one_record()
    ensures { SpellsAtMostOne IsRecordText }
{}

/// The written text of an address is one of its texts.
#[tactic(auto, using(crate::proofs::WrittenLaws::written_address))]
pub fn written_address()
    ensures { (a : Addr) → IsWhole a → IsAddressText (addr_text a) a }
{}

/// The written text of a prefix is one of its texts.
#[tactic(auto, using(crate::proofs::WrittenLaws::written_prefix))]
pub fn written_prefix()
    ensures { (b : PrefixValue) → IsPrefix b → IsWhole b.addr → IsPrefixText (prefix_text b) b }
{}

/// The written text of a record is a text of what it shows: all but ACT, A, the Map-Version and
/// the locators' flags.
#[tactic(auto, using(crate::proofs::WrittenLaws::written_record))]
pub fn written_record()
    ensures { (m : MapRecordValue) → IsMapRecord m → IsRecordText (record_text m) (shown m) }
{}

/// What is written of a record is read again.
#[tactic(auto, using(crate::proofs::WrittenLaws::reads_back))]
pub fn reads_back()
    ensures { (m : MapRecordValue) → IsMapRecord m → ReadsBack m }
{}
