//! The longer prefixes inside a prefix that have a live row.

ghost use Rattle.std.specs.Prelude.{◌≡◌, ◌&&◌, IfSome};
ghost use Rattle.std.specs.List.{All};
ghost use Rattle.std.specs.Option.{option_map};
ghost use Rattle.std.specs.Ordering.{is_lt};
ghost use Rattle.lisp_records.specs.Address.{IsPrefix, prefix_cmp};
ghost use Rattle.lisp_lookup.specs.Index.{row_prefix_cmp, IsIndex};
ghost use Rattle.lisp_lookup.specs.Inside.{is_inside, is_live_inside, moved, IsNextInsideOf, IsWalk};

use crate::best::{best_of, first_of};
use lisp_records::{Prefix, Row};
use std::alloc::Allocator;
use std::collections::VecDeque;
use std::marker::Model;

/// A walk over the longer prefixes inside a prefix that have a row that is alive at a moment, in ms ([`Table::inside`]): they are a run of
/// the rows in the order of prefixes.
///
/// [`Table::inside`]: crate::Table::inside
#[derive(Drop)]
pub struct Inside<'t, A: Allocator> {
    rows: &'t [Row<A>],
    by_prefix: &'t VecDeque<usize, A>,
    outer: Prefix,
    moment: u64,
    // The prefix that was shown last, and from where on others may be.
    after: Prefix,
    place: usize,
}

impl<'t, A: Allocator> Model for Inside<'t, A> {
    ghost use Rattle.lisp_lookup.specs.Inside.{InsideValue, IsWalk};

    ghost Value = { InsideValue };

    ghost view = { λ w. record { rows = w.rows.now; outer = w.outer; moment = w.moment; after = w.after } };

    ghost invariant = { λ w. IsWalk
        (record { rows = w.rows.now; outer = w.outer; moment = w.moment; after = w.after })
        w.by_prefix.now.items w.place };
}

impl<'t, A: Allocator> Inside<'t, A> {
    /// A walk that has shown none.
    pub(crate) fn new(
        rows: &'t [Row<A>],
        by_prefix: &'t VecDeque<usize, A>,
        outer: &Prefix,
        now: u64,
    ) -> Inside<'t, A>
        requires eids { All (λ h. IsPrefix h.mapping.eid) rows.now }
        requires index { IsIndex row_prefix_cmp rows.now by_prefix.now.items }
        ensures { result ≡ record { rows = rows.now; outer = outer.now; moment = now; after = outer.now } }
    {
        // Nothing is inside a prefix of one address: no place is sought.
        let longest = outer.addr().family().max_mask_len();
        let place = if outer.mask_len() < longest {
            first_of(rows, by_prefix, outer)
        } else {
            by_prefix.len()
        };
        Inside {
            rows,
            by_prefix,
            outer: *outer,
            moment: now,
            after: *outer,
            place,
        }
    }

    /// Another walk, behind the same prefix as this one.
    pub fn again(&self) -> Inside<'t, A>
        ensures { result ≡ self.now }
    {
        Inside {
            rows: self.rows,
            by_prefix: self.by_prefix,
            outer: self.outer,
            moment: self.moment,
            after: self.after,
            place: self.place,
        }
    }

    /// The best row of the next prefix, in the order of prefixes; `None` behind the last. Takes no memory.
    pub fn next(&mut self) -> Option<&'t Row<A>>
        ensures next { IsNextInsideOf self.old.rows self.old.outer self.old.after self.old.moment
            (option_map (λ row. row.now) result) }
        ensures moved { self.new ≡ moved self.old (option_map (λ row. row.now) result) }
    {
        let (rows, by_prefix) = (self.rows, self.by_prefix);
        let (place, row) = next_from(
            rows,
            by_prefix,
            &self.outer,
            &self.after,
            self.place,
            self.moment,
        )?;
        self.after = row.mapping.eid();
        self.place = place;
        Some(row)
    }
}

// Of the longer prefixes inside `outer` that stand behind `after` in their order and have a row that is alive at a moment, in ms, the first
// one's row that answers, and from where on others may be; `None` where there is none. None is before `from`.
fn next_from<'a, A: Allocator>(
    rows: &'a [Row<A>],
    by_prefix: &VecDeque<usize, A>,
    outer: &Prefix,
    after: &Prefix,
    from: usize,
    now: u64,
) -> Option<(usize, &'a Row<A>)>
    requires walk { IsWalk
        (record { rows = rows.now; outer = outer.now; moment = now; after = after.now })
        by_prefix.now.items from }
    ensures next { IsNextInsideOf rows.now outer.now after.now now
        (option_map (λ found. found.1.now) result) }
    ensures walk { IfSome result (λ found. IsWalk
        (record { rows = rows.now; outer = outer.now; moment = now; after = found.1.now.mapping.eid })
        by_prefix.now.items found.0) }
{
    // A proof learns here that the address is whole.
    let _first = outer.addr();
    for place in from..by_prefix.len() {
        let row = &rows[by_prefix[place]];
        let eid = row.mapping.eid_ref();
        let addr = eid.addr();
        if !outer.contains(&addr) {
            return None;
        }
        if is_next(row, outer, after, now) {
            let Some(best) = best_of(rows, by_prefix, eid, &addr, now) else {
                return None;
            };
            return Some((place + 1, best));
        }
    }
    None
}

// Whether a row is alive, its prefix is a longer one inside `outer`, and stands behind `after`.
fn is_next<A: Allocator>(row: &Row<A>, outer: &Prefix, after: &Prefix, now: u64) -> bool
    ensures { result ≡ is_live_inside outer.now now row.now
        && is_lt (prefix_cmp after.now row.now.mapping.eid) }
{
    let eid = row.mapping.eid_ref();
    row.alive(now) && is_inside(outer, eid) && after.order(eid).is_lt()
}

/// Whether a prefix is longer than `outer`, and lies inside it.
pub fn is_inside(outer: &Prefix, eid: &Prefix) -> bool
    ensures { result ≡ is_inside outer.now eid.now }
{
    outer.covers(eid) && outer.mask_len() < eid.mask_len()
}
