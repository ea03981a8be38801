//! Search by halving.

ghost use Rattle.std.specs.Prelude.{◌≡◌, ◌+◌, ◌-◌, ◌*◌, ◌^◌, ◌<◌, ◌≤◌, length};
ghost use Rattle.lisp_lookup.specs.Index.{AreNumbersOf, Falls, IsBound};

use crate::counted_rows::CountedRows;
use crate::probe::Probe;
use crate::steps::Steps;
use lisp_records::Row;
use std::alloc::Allocator;
use std::collections::VecDeque;
use std::marker::Brand;
use std::sync::ledger::{Blank, Ledger};

/// The first place whose row doesn't stand before what is sought; the length where there is none. The steps are
/// the rows that it looks at.
pub(crate) fn find<A: Allocator, L: Ledger>(
    rows: &CountedRows<'_, A, L>,
    probe: &Probe<'_, A>,
    steps: &mut Steps<L>,
) -> usize
    requires falls { Falls probe.now rows.now.rows rows.now.numbers }
    ensures bound { IsBound probe.now rows.now.rows rows.now.numbers result }
    ensures rises { steps.old ≤ steps.new }
    ensures cost { 2 ^ (steps.new - steps.old) ≤ 2 * length rows.now.numbers + 1 }
{
    let mut low = 0;
    let mut size = rows.len();
    while size > 0 {
        let half = size / 2;
        if probe.is_after(rows.look(low + half, steps)) {
            low += half + 1;
            size -= half + 1;
        } else {
            size = half;
        }
    }
    low
}

/// As `find`, with steps that nobody counts.
pub(crate) fn place<A: Allocator>(
    rows: &[Row<A>],
    numbers: &VecDeque<usize, A>,
    probe: &Probe<'_, A>,
) -> usize
    requires below { AreNumbersOf rows.now numbers.now.items }
    requires falls { Falls probe.now rows.now numbers.now.items }
    ensures bound { IsBound probe.now rows.now numbers.now.items result }
{
    counted::<A, Brand>(rows, numbers, probe, Blank::new(1))
}

fn counted<A: Allocator, L: Ledger>(
    rows: &[Row<A>],
    numbers: &VecDeque<usize, A>,
    probe: &Probe<'_, A>,
    blank: Blank,
) -> usize
    requires name { blank.name ≡ L.name }
    requires parts { blank.parts ≡ L.parts }
    requires some { 0 < blank.parts }
    requires below { AreNumbersOf rows.now numbers.now.items }
    requires falls { Falls probe.now rows.now numbers.now.items }
    ensures bound { IsBound probe.now rows.now numbers.now.items result }
{
    let mut steps = Steps::<L>::new(blank);
    find(&CountedRows::new(rows, numbers), probe, &mut steps)
}
