//! The widest prefix around an address in which nobody is there.

ghost use Rattle.std.specs.Prelude.{◌≡◌, ◌≤◌, ◌<◌, ◌&&◌, ◌↔◌, IsTrue, ℕ};
ghost use Rattle.std.specs.List.{All};
ghost use Rattle.lisp_records.specs.Address.{IsPrefix, covers, max_len, prefix_around};
ghost use Rattle.lisp_records.specs.Row.{is_alive};
ghost use Rattle.lisp_lookup.specs.Answer.{NoneAnswers};
ghost use Rattle.lisp_lookup.specs.Hole.{IsEmptyIn, IsHoleOf};
ghost use Rattle.lisp_lookup.specs.Index.{row_prefix_cmp, IsIndex};

use crate::best::best;
use crate::find::place;
use crate::probe::Probe;
use crate::sites::widest_by_sites;
use lisp_policy::Sites;
use lisp_records::{Addr, Prefix, Row};
use std::alloc::Allocator;
use std::collections::VecDeque;

/// Whether no row that is alive at a moment, in ms, has a prefix that lies in this one.
pub(crate) fn is_empty_in<A: Allocator>(
    rows: &[Row<A>],
    by_prefix: &VecDeque<usize, A>,
    eid: &Prefix,
    now: u64,
) -> bool
    requires eids { All (λ h. IsPrefix h.mapping.eid) rows.now }
    requires index { IsIndex row_prefix_cmp rows.now by_prefix.now.items }
    ensures { IsTrue result ↔ IsEmptyIn rows.now eid.now now }
{
    // A proof learns here that the address is whole.
    let _first = eid.addr();
    let first = place(rows, by_prefix, &Probe::Prefix(*eid));
    for place in first..by_prefix.len() {
        let row = &rows[by_prefix[place]];
        let addr = row.mapping.eid_ref().addr();
        if !eid.contains(&addr) {
            return true;
        }
        if is_live_in(row, eid, now) {
            return false;
        }
    }
    true
}

// Whether a row is alive, and its prefix lies in this one.
fn is_live_in<A: Allocator>(row: &Row<A>, eid: &Prefix, now: u64) -> bool
    ensures { result ≡ is_alive row.now now && covers eid.now row.now.mapping.eid }
{
    row.alive(now) && eid.covers(row.mapping.eid_ref())
}

/// The widest prefix around an address in which nobody is there at a moment, in ms: no row that is alive has a prefix in it or over it,
/// and by the sites it is one case: it leaves no prefix of a site that has the address, and where none has, none lies in it. `None` where
/// a row that is alive has the address.
pub(crate) fn hole<A: Allocator, B: Allocator>(
    rows: &[Row<A>],
    by_prefix: &VecDeque<usize, A>,
    sites: &Sites<B>,
    addr: &Addr,
    now: u64,
) -> Option<Prefix>
    requires eids { All (λ h. IsPrefix h.mapping.eid) rows.now }
    requires index { IsIndex row_prefix_cmp rows.now by_prefix.now.items }
    ensures { IsHoleOf rows.now sites.now addr.now now result }
{
    if best(rows, by_prefix, addr, now).is_some() {
        return None;
    }
    let least = widest_by_sites(sites, addr);
    let length = widest_empty(rows, by_prefix, addr, least, now);
    Prefix::new(*addr, length)
}

// How long a prefix around an address is at least, from a length on, in which no row that is alive has a prefix: found by halving.
fn widest_empty<A: Allocator>(
    rows: &[Row<A>],
    by_prefix: &VecDeque<usize, A>,
    addr: &Addr,
    least: u8,
    now: u64,
) -> u8
    requires eids { All (λ h. IsPrefix h.mapping.eid) rows.now }
    requires index { IsIndex row_prefix_cmp rows.now by_prefix.now.items }
    requires none { NoneAnswers rows.now addr.now now }
    requires within { least ≤ max_len addr.now }
    ensures within { result ≤ max_len addr.now }
    ensures least { least ≤ result }
    ensures empty { IsEmptyIn rows.now (prefix_around addr.now result) now }
    ensures widest { (n : ℕ) → least ≤ n → n < result
        → IsEmptyIn rows.now (prefix_around addr.now n) now → ⊥ }
{
    let mut low = least;
    let mut high = addr.family().max_mask_len();
    while low < high {
        let middle = low + (high - low) / 2;
        if is_empty_around(rows, by_prefix, addr, middle, now) {
            high = middle;
        } else {
            low = middle + 1;
        }
    }
    low
}

// Whether no row that is alive has a prefix that lies in the one of a length around an address.
fn is_empty_around<A: Allocator>(
    rows: &[Row<A>],
    by_prefix: &VecDeque<usize, A>,
    addr: &Addr,
    length: u8,
    now: u64,
) -> bool
    requires eids { All (λ h. IsPrefix h.mapping.eid) rows.now }
    requires index { IsIndex row_prefix_cmp rows.now by_prefix.now.items }
    requires within { length ≤ max_len addr.now }
    ensures { IsTrue result ↔ IsEmptyIn rows.now (prefix_around addr.now length) now }
{
    match Prefix::new(*addr, length) {
        Some(eid) => is_empty_in(rows, by_prefix, &eid, now),
        None => true,
    }
}
