//! Where the elements of a list stand, by their numbers, found by halving.

ghost use Rattle.std.specs.Prelude.{◌≡◌, [], IfOk, IfErr, OnOk, OnErr, position, Some};
ghost use Rattle.std.specs.Ordering.{nat_cmp};
ghost use Rattle.lisp_policy.specs.Order.{KeysRise, IsGap};
ghost use Rattle.lisp_policy.specs.Index.{is_for, place_in, Adds};

use lisp_memory::{FallibleVec, Memory};
use std::alloc::{AllocError, Allocator};
use std::marker::Model;

/// A number, and the place of the first element that has it.
#[derive(Clone, Copy)]
pub(crate) struct Entry {
    pub(crate) number: u64,
    pub(crate) place: usize,
}

/// The places of numbers, in the order of the numbers.
#[derive(Drop)]
pub(crate) struct Index<A: Allocator> {
    entries: Vec<Entry, A>,
}

impl<A: Allocator> Model for Index<A> {
    ghost use Rattle.std.specs.Prelude.{List};
    ghost use Rattle.std.specs.Ordering.{nat_cmp};
    ghost use Rattle.lisp_policy.specs.declared.index.Entry.{Entry};
    ghost use Rattle.lisp_policy.specs.Order.{KeysRise};

    ghost Value = { List Entry };

    ghost view = { λ i. i.entries.items };

    ghost invariant = { λ i. KeysRise (λ e. e.number) nat_cmp i.entries.items };
}

impl<A: Allocator> Index<A> {
    /// No numbers. Takes no memory.
    #[tactic(auto, using(crate::proofs::IndexLaws::no_entries))]
    pub(crate) fn new(alloc: A) -> Index<A>
        ensures { result ≡ [] }
    {
        Index {
            entries: Vec::new(alloc),
        }
    }

    /// The place of a number, `None` where it has none.
    #[tactic(auto, using(crate::proofs::IndexLaws::place_nowhere, crate::proofs::IndexLaws::place_found))]
    pub(crate) fn place(&self, number: u64) -> Option<usize>
        ensures { result ≡ place_in self.now number }
    {
        match search(&self.entries, number) {
            Ok(found) => Some(self.entries[found].place),
            Err(_) => None,
        }
    }
}

impl<A: Memory> Index<A> {
    /// Adds the place of a number, unless it has one.
    pub(crate) fn add(&mut self, number: u64, place: usize) -> Result<(), AllocError>
        ensures added { OnOk result (Adds self.old self.new number place) }
        ensures err { OnErr result (self.new ≡ self.old) }
        ensures memory { OnErr result A.may_refuse }
    {
        if let Err(gap) = search(&self.entries, number) {
            self.entries.make_room(1)?;
            let _ = self.entries.insert(gap, Entry { number, place });
        }
        Ok(())
    }
}

// Where a number's entry is, or where it goes.
fn search(entries: &[Entry], number: u64) -> Result<usize, usize>
    requires { KeysRise (λ e. e.number) nat_cmp entries.now }
    ensures found { IfOk result (λ i. position (is_for number) entries.now ≡ Some i) }
    ensures gap { IfErr result (λ i. IsGap (λ e. e.number) nat_cmp entries.now number i) }
{
    entries.binary_search_by_key(&number, |entry| entry.number)
}
