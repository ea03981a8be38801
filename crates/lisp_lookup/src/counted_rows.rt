//! Rows that a search can look at only where each look is counted.

ghost use Rattle.std.specs.Prelude.{◌≡◌, ◌+◌, ◌<◌, length};
ghost use Rattle.lisp_lookup.specs.Index.{IsRowAt, AreNumbersOf};

use crate::steps::Steps;
use lisp_records::Row;
use std::alloc::Allocator;
use std::collections::VecDeque;
use std::marker::{Model, PhantomData};
use std::sync::ledger::Ledger;

/// Rows in an order, for a search. Only `look` shows one of them, and each look is a step: who has nothing but this
/// and its steps can't look at a row untold.
#[derive(Drop)]
pub(crate) struct CountedRows<'r, A: Allocator, L: Ledger> {
    rows: &'r [Row<A>],
    numbers: &'r VecDeque<usize, A>,
    // The ledger whose steps are taken.
    ledger: PhantomData<L>,
}

impl<'r, A: Allocator, L: Ledger> Model for CountedRows<'r, A, L> {
    ghost use Rattle.lisp_lookup.specs.Index.{CountedRowsValue, AreNumbersOf};

    ghost Value = { CountedRowsValue };

    ghost view = { λ r. record { rows = r.rows.now; numbers = r.numbers.now.items } };

    ghost invariant = { λ r. AreNumbersOf r.rows.now r.numbers.now.items };
}

impl<'r, A: Allocator, L: Ledger> CountedRows<'r, A, L> {
    /// The rows of these numbers, in the order of the numbers.
    #[inline(always)]
    pub(crate) fn new(rows: &'r [Row<A>], numbers: &'r VecDeque<usize, A>) -> CountedRows<'r, A, L>
        requires below { AreNumbersOf rows.now numbers.now.items }
        ensures { result ≡ record { rows = rows.now; numbers = numbers.now.items } }
    {
        CountedRows {
            rows,
            numbers,
            ledger: PhantomData,
        }
    }

    /// How many rows there are.
    #[inline(always)]
    pub(crate) fn len(&self) -> usize
        ensures { result ≡ length self.now.numbers }
    {
        self.numbers.len()
    }

    /// The row at a place, which is one step.
    #[inline(always)]
    pub(crate) fn look(&self, place: usize, steps: &mut Steps<L>) -> &'r Row<A>
        requires { place < length self.now.numbers }
        ensures row { IsRowAt self.now place result.now }
        ensures step { steps.new ≡ steps.old + 1 }
    {
        steps.tick();
        let rows = self.rows;
        &rows[self.numbers[place]]
    }
}
