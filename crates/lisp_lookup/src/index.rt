//! What changes the rows of a table, with their numbers by prefix and by deadline.

ghost use Rattle.std.specs.Prelude.{◌≡◌, ◌+◌, ◌<◌, ◌≤◌, [], ◌∷◌, ◌++◌, length, None, Some, true, IfSome};
ghost use Rattle.std.specs.List.{All};
ghost use Rattle.lisp_records.specs.Address.{IsPrefix};
ghost use Rattle.lisp_records.specs.Moment.{max_moment};
ghost use Rattle.lisp_records.specs.Row.{is_alive};
ghost use Rattle.lisp_lookup.specs.Table.{is_row_of, Sets};
ghost use Rattle.lisp_lookup.specs.Index.{row_prefix_cmp, order_cmp, own_number, IsAnotherAt, IsDeadAt, IsIndex, IsIndexWithout, IsRemoved};

use crate::edits::{enter, leave, rename};
use crate::find::place;
use crate::order::{Order, deadline};
use crate::probe::Probe;
use crate::table::Table;
use lisp_records::Row;
use std::alloc::Allocator;
use std::collections::VecDeque;

/// Where the next row is looked for first: by prefix behind the one that was set last, and by deadline, behind the front,
/// where that one was. A Map-Register names its prefixes mostly in their order, and its rows were mostly set together.
#[derive(Clone, Copy)]
pub(crate) struct Near {
    prefix: usize,
    deadline: usize,
}

impl Near {
    /// The first places.
    pub(crate) const START: Near = Near {
        prefix: 0,
        deadline: 0,
    };
}

impl<A: Allocator> Table<A> {
    /// Sets a row, for which there is room. Takes no memory.
    #[inline(always)]
    pub(crate) fn put(&mut self, row: Row<A>, near: &mut Near)
        requires { 0 < self.old.spare }
        ensures row { Sets self.old.rows self.new.rows (row ∷ []) }
        ensures room { self.old.spare ≤ self.new.spare + 1 }
    {
        known(&row);
        match self.number_of(&row, &mut near.prefix) {
            Some(number) => {
                near.deadline = leave(
                    &self.items,
                    &mut self.by_deadline,
                    number,
                    Order::ByDeadline,
                    near.deadline,
                );
                self.items[number] = row;
                enter(
                    &self.items,
                    &mut self.by_deadline,
                    number,
                    Order::ByDeadline,
                );
            }
            None => self.add(row),
        }
    }

    /// The number of the row of the same router and prefix; `near` becomes the place behind its own.
    #[inline(always)]
    pub(crate) fn number_of(&self, row: &Row<A>, near: &mut usize) -> Option<usize>
        ensures { result ≡ own_number self.now.rows row.now }
    {
        let rows: &[Row<A>] = &self.items;
        if let Some(number) = number_at(rows, &self.by_prefix, row, *near) {
            *near = near.saturating_add(1);
            return Some(number);
        }
        let place = place(rows, &self.by_prefix, &Probe::Row(Order::ByPrefix, row));
        *near = place.saturating_add(1);
        number_at(rows, &self.by_prefix, row, place)
    }

    // Adds a row for a router and prefix that has none.
    fn add(&mut self, row: Row<A>)
        requires block { IsPrefix row.mapping.eid }
        requires none { own_number self.old.rows row ≡ None }
        requires room { 0 < self.old.spare }
        ensures rows { self.new.rows ≡ self.old.rows ++ row ∷ [] }
        ensures room { self.old.spare ≤ self.new.spare + 1 }
    {
        let number = self.items.len();
        self.items.push_reserved(row);
        enter(&self.items, &mut self.by_prefix, number, Order::ByPrefix);
        enter(
            &self.items,
            &mut self.by_deadline,
            number,
            Order::ByDeadline,
        );
    }

    /// The number of the first row by deadline, where it is dead at a moment, in ms, of at most 2^62.
    pub(crate) fn first_dead(&self, now: u64) -> Option<usize>
        requires { now ≤ max_moment }
        ensures dead { IfSome result (λ number. IsDeadAt self.now.rows now number) }
        ensures alive { result ≡ None → All (λ h. is_alive h now ≡ true) self.now.rows }
    {
        match self.by_deadline.front() {
            Some(number) if deadline(&self.items[*number]) <= now => Some(*number),
            _ => None,
        }
    }

    /// Takes a row out: the last one gets its number. Takes no memory.
    pub(crate) fn remove(&mut self, number: usize)
        requires { number < length self.old.rows }
        ensures { IsRemoved self.old.rows self.new.rows number }
    {
        forget(&self.items, &mut self.by_prefix, number, Order::ByPrefix);
        forget(
            &self.items,
            &mut self.by_deadline,
            number,
            Order::ByDeadline,
        );
        let _ = self.items.swap_remove(number);
    }
}

// Reading a prefix shows that it is a block.
fn known<A: Allocator>(row: &Row<A>)
    ensures { IsPrefix row.now.mapping.eid }
{
    let _first = row.mapping.eid_ref().addr();
}

// The number at a place by prefix, where it is that of the row of the same router and prefix.
#[inline(always)]
fn number_at<A: Allocator>(
    rows: &[Row<A>],
    by_prefix: &VecDeque<usize, A>,
    row: &Row<A>,
    place: usize,
) -> Option<usize>
    requires index { IsIndex row_prefix_cmp rows.now by_prefix.now.items }
    ensures found { IfSome result (λ number. own_number rows.now row.now ≡ Some number) }
    ensures other { result ≡ None → IsAnotherAt rows.now by_prefix.now.items place row.now }
{
    match by_prefix.get(place) {
        Some(number) if is_row_of(row, &rows[*number]) => Some(*number),
        _ => None,
    }
}

/// Whether two rows are of one router and prefix.
#[inline(always)]
pub(crate) fn is_row_of<A: Allocator>(one: &Row<A>, other: &Row<A>) -> bool
    ensures { result ≡ is_row_of one.now.router one.now.mapping.eid other.now }
{
    other.router.is_same(&one.router) && *other.mapping.eid_ref() == *one.mapping.eid_ref()
}

// Takes the number of a row out of an order, and gives it to the last row.
fn forget<A: Allocator>(
    rows: &[Row<A>],
    numbers: &mut VecDeque<usize, A>,
    number: usize,
    order: Order,
)
    requires index { IsIndex (order_cmp order) rows.now numbers.old.items }
    requires within { number < length rows.now }
    ensures index { IsIndexWithout order rows.now numbers.new.items number }
{
    leave(rows, numbers, number, order, 0);
    let last = rows.len() - 1;
    if number != last {
        rename(rows, numbers, last, number, order);
    }
}
