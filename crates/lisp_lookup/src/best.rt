//! Which of the rows answers for an address.

ghost use Rattle.std.specs.Prelude.{◌≡◌, ◌≤◌, false, length};
ghost use Rattle.std.specs.List.{All};
ghost use Rattle.std.specs.Option.{option_map};
ghost use Rattle.lisp_records.specs.Address.{IsPrefix, prefix_eq};
ghost use Rattle.lisp_lookup.specs.Index.{row_prefix_cmp, IsFirstOf, IsIndex};
ghost use Rattle.lisp_lookup.specs.Answer.{may_answer, rank_cmp, greater, IsBestOf, IsBestOfPrefix};
ghost use Rattle.lisp_lookup.specs.Inside.{HasNoRowFrom};
ghost use Rattle.lisp_lookup.specs.Covering.{IsBestForOf};

use crate::find::place;
use crate::probe::Probe;
use lisp_records::{Addr, Prefix, Row};
use std::alloc::Allocator;
use std::cmp::Ordering;
use std::collections::VecDeque;

/// Of the rows that are alive at a moment, in ms, and whose prefix has the address, the one that answers;
/// `None` where none does.
pub(crate) fn best<'a, A: Allocator>(
    rows: &'a [Row<A>],
    by_prefix: &VecDeque<usize, A>,
    addr: &Addr,
    now: u64,
) -> Option<&'a Row<A>>
    requires eids { All (λ h. IsPrefix h.mapping.eid) rows.now }
    requires index { IsIndex row_prefix_cmp rows.now by_prefix.now.items }
    ensures { IsBestOf rows.now addr.now now (option_map (λ row. row.now) result) }
{
    // A proof learns here that the address is whole.
    let _octets = addr.octets();
    let alone = Prefix::new(*addr, addr.family().max_mask_len())?;
    best_for(rows, by_prefix, &alone, now)
}

/// Of the rows that are alive at a moment, in ms, and whose prefix covers the one that is asked for, the one that answers;
/// `None` where none does. The prefixes that cover it are gone through one by one, the longest first. One is sought only where the
/// row that stands before the one that was sought last lies in it: else it has no row.
pub(crate) fn best_for<'a, A: Allocator>(
    rows: &'a [Row<A>],
    by_prefix: &VecDeque<usize, A>,
    asked: &Prefix,
    now: u64,
) -> Option<&'a Row<A>>
    requires eids { All (λ h. IsPrefix h.mapping.eid) rows.now }
    requires index { IsIndex row_prefix_cmp rows.now by_prefix.now.items }
    ensures { IsBestForOf rows.now asked.now now (option_map (λ row. row.now) result) }
{
    let addr = asked.addr();
    let longest = asked.mask_len();
    let mut first = first_of(rows, by_prefix, asked);
    let own = best_from(rows, by_prefix, first, asked, &addr, now);
    if own.is_some() {
        return own;
    }
    for shorter in 1..longest + 1 {
        let prefix = Prefix::new(addr, longest - shorter)?;
        if may_have_row(rows, by_prefix, first, &prefix) {
            first = first_of(rows, by_prefix, &prefix);
            let best = best_from(rows, by_prefix, first, &prefix, &addr, now);
            if best.is_some() {
                return best;
            }
        }
    }
    None
}

// Whether a prefix may have a row, where a place is the first one of a longer prefix inside it: the row before must lie in it.
fn may_have_row<A: Allocator>(
    rows: &[Row<A>],
    by_prefix: &VecDeque<usize, A>,
    place: usize,
    prefix: &Prefix,
) -> bool
    requires eids { All (λ h. IsPrefix h.mapping.eid) rows.now }
    requires index { IsIndex row_prefix_cmp rows.now by_prefix.now.items }
    requires within { place ≤ length by_prefix.now.items }
    ensures { result ≡ false → HasNoRowFrom rows.now by_prefix.now.items place prefix.now }
{
    // A proof learns here that its address is whole, and of the row that its prefix is a block.
    let _first = prefix.addr();
    let Some(before) = place.checked_sub(1) else {
        return false;
    };
    let row = &rows[by_prefix[before]];
    let eid = row.mapping.eid_ref();
    let _first = eid.addr();
    prefix.covers(eid)
}

/// Of the rows of a prefix the one that answers for an address.
pub(crate) fn best_of<'a, A: Allocator>(
    rows: &'a [Row<A>],
    by_prefix: &VecDeque<usize, A>,
    prefix: &Prefix,
    addr: &Addr,
    now: u64,
) -> Option<&'a Row<A>>
    requires index { IsIndex row_prefix_cmp rows.now by_prefix.now.items }
    ensures { IsBestOfPrefix rows.now prefix.now addr.now now (option_map (λ row. row.now) result) }
{
    let first = first_of(rows, by_prefix, prefix);
    best_from(rows, by_prefix, first, prefix, addr, now)
}

/// The first place whose row doesn't stand before a prefix.
pub(crate) fn first_of<A: Allocator>(
    rows: &[Row<A>],
    by_prefix: &VecDeque<usize, A>,
    prefix: &Prefix,
) -> usize
    requires index { IsIndex row_prefix_cmp rows.now by_prefix.now.items }
    ensures { IsFirstOf prefix.now rows.now by_prefix.now.items result }
{
    place(rows, by_prefix, &Probe::Prefix(*prefix))
}

// As `best_of`, where the place of the first row of the prefix is known.
fn best_from<'a, A: Allocator>(
    rows: &'a [Row<A>],
    by_prefix: &VecDeque<usize, A>,
    first: usize,
    prefix: &Prefix,
    addr: &Addr,
    now: u64,
) -> Option<&'a Row<A>>
    requires index { IsIndex row_prefix_cmp rows.now by_prefix.now.items }
    requires first { IsFirstOf prefix.now rows.now by_prefix.now.items first }
    ensures { IsBestOfPrefix rows.now prefix.now addr.now now (option_map (λ row. row.now) result) }
{
    let mut best = None;
    for place in first..by_prefix.len() {
        let row = &rows[by_prefix[place]];
        if !is_of(row, prefix) {
            return best;
        }
        if may_answer(row, addr, now) {
            best = Some(greater(best, row));
        }
    }
    best
}

// Whether a row is one of a prefix.
fn is_of<A: Allocator>(row: &Row<A>, prefix: &Prefix) -> bool
    ensures { result ≡ prefix_eq row.now.mapping.eid prefix.now }
{
    *row.mapping.eid_ref() == *prefix
}

// The greater of two rows, where there is a first one.
fn greater<'a, A: Allocator>(one: Option<&'a Row<A>>, other: &'a Row<A>) -> &'a Row<A>
    ensures { result.now ≡ greater (option_map (λ row. row.now) one.entry) other.now }
{
    match one {
        Some(one) if rank(one, other).is_ge() => one,
        _ => other,
    }
}

// Whether a row is alive and its prefix has the address.
fn may_answer<A: Allocator>(row: &Row<A>, addr: &Addr, now: u64) -> bool
    ensures { result ≡ may_answer addr.now now row.now }
{
    row.alive(now) && row.mapping.eid_ref().contains(addr)
}

// The order of rows: the longer prefix is the greater, then one whose router asks for proxy replies,
// then the one that was accepted later, then the one of the greater router.
fn rank<A: Allocator>(one: &Row<A>, other: &Row<A>) -> Ordering
    ensures { result ≡ rank_cmp one.now other.now }
{
    one.mapping
        .eid_ref()
        .mask_len()
        .cmp(&other.mapping.eid_ref().mask_len())
        .then(one.proxy.cmp(&other.proxy))
        .then(one.accepted.cmp(&other.accepted))
        .then(one.router.cmp(&other.router))
}
