//! What was sent to each destination.

ghost use Rattle.std.specs.Prelude.{◌≡◌, ◌+◌, ◌^◌, ◌<◌, nat_lt, None, map, filter, count_by, position};
ghost use Rattle.std.specs.Vec.{vec_len, vec_capacity};
ghost use Rattle.lisp_budget.specs.Budget.{is_of, row_of, spent_on, passed, passed_rows, counted_in};

use lisp_records::Prefix;
use std::alloc::Allocator;

/// The bytes that were sent to a destination in the slot before the present one, and in the present one.
#[derive(Clone, Copy)]
pub(crate) struct Row {
    /// The destination.
    pub(crate) to: Prefix,
    /// The bytes of the slot before.
    pub(crate) before: u64,
    /// The bytes of the present slot, so far.
    pub(crate) present: u64,
}

/// The row of a destination.
pub(crate) fn row_of(rows: &[Row], to: &Prefix) -> Option<Row>
    ensures { result ≡ row_of rows.now to.now }
{
    let place = place_of(rows, to)?;
    Some(rows[place])
}

// The place of the row of a destination.
fn place_of(rows: &[Row], to: &Prefix) -> Option<usize>
    ensures { result ≡ position (is_of to.now) rows.now }
{
    rows.iter().position(|row| row.to == *to)
}

/// How many rows have bytes of the present slot.
pub(crate) fn count_present(rows: &[Row]) -> usize
    ensures { result ≡ count_by (λ r. nat_lt 0 r.present) rows.now }
{
    rows.iter().filter(|row| row.present > 0).count()
}

/// The next slot comes: what was present is before, and rows that have nothing then go.
pub(crate) fn pass_rows<A: Allocator>(rows: &mut Vec<Row, A>)
    ensures rows { rows.new.items ≡ passed_rows rows.old.items }
    ensures capacity { vec_capacity rows.new ≡ vec_capacity rows.old }
{
    keep_present(rows);
    pass_each(rows);
}

// Rows that have nothing of the present slot go.
fn keep_present<A: Allocator>(rows: &mut Vec<Row, A>)
    ensures rows { rows.new.items ≡ filter (λ r. nat_lt 0 r.present) rows.old.items }
    ensures capacity { vec_capacity rows.new ≡ vec_capacity rows.old }
{
    rows.retain(|row| row.present > 0);
}

// What was present is before.
fn pass_each(rows: &mut [Row])
    ensures { rows.new ≡ map passed rows.old }
{
    for row in rows.iter_mut() {
        row.pass();
    }
}

/// So many bytes more are sent to a destination in the present slot.
pub(crate) fn count_in<A: Allocator>(rows: &mut Vec<Row, A>, to: Prefix, bytes: u64)
    requires room { row_of rows.old.items to ≡ None → vec_len rows.old < vec_capacity rows.old }
    requires fits { (spent_on rows.old.items to).present + bytes < 2 ^ 64 }
    ensures rows { rows.new.items ≡ counted_in rows.old.items to bytes }
    ensures capacity { vec_capacity rows.new ≡ vec_capacity rows.old }
{
    match place_of(rows, &to) {
        Some(place) => rows[place].present += bytes,
        None => rows.push_reserved(Row {
            to,
            before: 0,
            present: bytes,
        }),
    }
}

impl Row {
    /// Nothing was sent to a destination.
    pub(crate) fn nothing(to: Prefix) -> Row
        ensures { result ≡ record { to = to; before = 0; present = 0 } }
    {
        Row {
            to,
            before: 0,
            present: 0,
        }
    }

    // The next slot comes.
    fn pass(&mut self)
        ensures { self.new ≡ passed self.old }
    {
        self.before = self.present;
        self.present = 0;
    }
}
