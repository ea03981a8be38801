//! What enters and leaves an order of rows: numbers of rows, and no rows.

ghost use Rattle.std.specs.Prelude.{◌≡◌, ◌+◌, ◌<◌, ◌≤◌, length, slice_index};
ghost use Rattle.std.specs.List.{Contains};
ghost use Rattle.std.specs.VecDeque.{deque_len, deque_capacity};
ghost use Rattle.lisp_lookup.specs.Index.{order_cmp, Rises, IsTakenOut, IsFresh, IsPutIn, IsRenumbered};
ghost use Rattle.lisp_lookup.specs.Room.{deque_room};

use crate::find::place;
use crate::order::Order;
use crate::probe::Probe;
use lisp_records::Row;
use std::alloc::Allocator;
use std::collections::VecDeque;

/// Puts the number of a row into an order that has room for it: mostly at the end, which is looked at first. Takes no
/// memory.
#[inline(always)]
pub(crate) fn enter<A: Allocator>(
    rows: &[Row<A>],
    numbers: &mut VecDeque<usize, A>,
    number: usize,
    order: Order,
)
    requires rises { Rises (order_cmp order) rows.now numbers.old.items }
    requires row { number < length rows.now }
    requires fresh { IsFresh rows.now numbers.old.items number }
    requires room { deque_len numbers.old < deque_capacity numbers.old }
    ensures entered { IsPutIn order rows.now numbers.old.items numbers.new.items number }
    ensures room { deque_room numbers.old ≤ deque_room numbers.new + 1 }
{
    let row = &rows[number];
    match numbers.back() {
        Some(last) if order.cmp(&rows[*last], row).is_ge() => {
            let place = place(rows, numbers, &Probe::Row(order, row));
            let _ = numbers.insert(place, number);
        }
        _ => numbers.push_back_reserved(number),
    }
}

/// Takes the number of a row out of an order, where it is mostly the first one, or has the place `near`. The answer is
/// the place that it had.
#[inline(always)]
pub(crate) fn leave<A: Allocator>(
    rows: &[Row<A>],
    numbers: &mut VecDeque<usize, A>,
    number: usize,
    order: Order,
    near: usize,
) -> usize
    requires rises { Rises (order_cmp order) rows.now numbers.old.items }
    requires row { number < length rows.now }
    requires held { Contains numbers.old.items number }
    ensures left { IsTakenOut order rows.now numbers.old.items numbers.new.items number }
    ensures len { deque_len numbers.new + 1 ≡ deque_len numbers.old }
    ensures capacity { deque_capacity numbers.new ≡ deque_capacity numbers.old }
{
    match numbers.front() {
        Some(first) if *first == number => {
            let _ = numbers.pop_front();
            0
        }
        _ => {
            let place = place_of(rows, numbers, number, order, near);
            let _ = numbers.remove(place);
            place
        }
    }
}

// The place of a number in an order, perhaps `near`.
#[inline(always)]
fn place_of<A: Allocator>(
    rows: &[Row<A>],
    numbers: &VecDeque<usize, A>,
    number: usize,
    order: Order,
    near: usize,
) -> usize
    requires rises { Rises (order_cmp order) rows.now numbers.now.items }
    requires row { number < length rows.now }
    requires held { Contains numbers.now.items number }
    ensures within { result < length numbers.now.items }
    ensures here { slice_index numbers.now.items result ≡ number }
{
    match numbers.get(near) {
        Some(there) if *there == number => near,
        _ => place(rows, numbers, &Probe::Row(order, &rows[number])),
    }
}

/// Puts a number in the place of another.
pub(crate) fn rename<A: Allocator>(
    rows: &[Row<A>],
    numbers: &mut VecDeque<usize, A>,
    from: usize,
    to: usize,
    order: Order,
)
    requires rises { Rises (order_cmp order) rows.now numbers.old.items }
    requires row { from < length rows.now }
    requires held { Contains numbers.old.items from }
    ensures renamed { IsRenumbered numbers.old.items numbers.new.items from to }
    ensures len { deque_len numbers.new ≡ deque_len numbers.old }
    ensures capacity { deque_capacity numbers.new ≡ deque_capacity numbers.old }
{
    let place = place_of(rows, numbers, from, order, 0);
    numbers[place] = to;
}
