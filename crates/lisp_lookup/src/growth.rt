//! Whether rows that are to be set let a site grow beyond a limit.

ghost use Rattle.std.specs.Prelude.{◌≡◌, ◌-◌, ◌^◌, min, false, IsTrue, IfOk, OnOk, OnErr};
ghost use Rattle.std.specs.List.{count_by, list_any};
ghost use Rattle.lisp_lookup.specs.Growth.{live_rows, live_rows_with, RowsFit, RowsExceed, RoutersFit, RoutersExceed};
ghost use Rattle.lisp_lookup.specs.Setting.{is_live_in, is_set_by, stays_live, has_live, is_new, last_rows, kept_rows, set_rows, AreRouters, AddsRouters};

use crate::index::is_row_of;
use crate::table::Table;
use lisp_memory::{FallibleSet, Memory};
use lisp_records::{RouterId, Row};
use std::alloc::{AllocError, Allocator};
use std::collections::BTreeSet;

impl<A: Allocator> Table<A> {
    /// Whether setting the rows gives a site a live row, at a moment in ms, for a router and prefix that have none, and makes its
    /// live rows more than `most`. Takes no memory. Each of the given rows is sought by halving; only where one is new all rows are
    /// looked through.
    pub fn exceeds_rows(&self, given: &[Row<A>], site: u64, most: Option<u32>, now: u64) -> bool
        ensures exceeds { IsTrue result → RowsExceed most site (live_rows self.now.rows now)
            (live_rows_with self.now.rows given.now now) }
        ensures fits { result ≡ false → RowsFit most site (live_rows self.now.rows now)
            (live_rows_with self.now.rows given.now now) }
    {
        let Some(most) = most else {
            return false;
        };
        self.adds_row(given, site, now)
            && count_after(&self.items, given, site, now) > most as usize
    }

    // Whether one of the given rows gives the site a live row for a router and prefix that have none.
    fn adds_row(&self, given: &[Row<A>], site: u64, now: u64) -> bool
        ensures { result ≡ list_any (is_new self.now.rows site now) (last_rows given.now) }
    {
        let mut near = 0;
        let mut rest = given;
        while let Some((row, later)) = rest.split_first() {
            if self.is_new(row, site, now, &mut near) && !is_set_by(later, row) {
                return true;
            }
            rest = later;
        }
        false
    }

    // Whether a row is one of the site, and alive, and no live row has its router and prefix. The row of these is sought from the
    // place `near` on, which becomes the place behind it.
    fn is_new(&self, row: &Row<A>, site: u64, now: u64, near: &mut usize) -> bool
        ensures { result ≡ is_new self.now.rows site now row.now }
    {
        is_live_in(row, site, now) && !self.has_live(row, now, near)
    }

    // Whether a live row has the router and prefix of a row.
    fn has_live(&self, row: &Row<A>, now: u64, near: &mut usize) -> bool
        ensures { result ≡ has_live self.now.rows now row.now }
    {
        match self.number_of(row, near) {
            Some(number) => self.items[number].alive(now),
            None => false,
        }
    }
}

impl<A: Memory + Copy> Table<A> {
    /// Whether setting the rows gives a router of a site its first live row, at a moment in ms, and makes the routers of the site that
    /// have live rows more than `most`. Takes memory for these routers, only where a row is new.
    pub fn exceeds_routers(
        &self,
        given: &[Row<A>],
        site: u64,
        most: Option<u32>,
        now: u64,
    ) -> Result<bool, AllocError>
        ensures exceeds { IfOk result (λ b. IsTrue b → RoutersExceed most site
            (live_rows self.now.rows now) (live_rows_with self.now.rows given.now now)) }
        ensures fits { IfOk result (λ b. b ≡ false → RoutersFit most site
            (live_rows self.now.rows now) (live_rows_with self.now.rows given.now now)) }
        ensures memory { OnErr result A.may_refuse }
    {
        let Some(most) = most else {
            return Ok(false);
        };
        let alloc = *self.items.allocator();
        if !self.adds_row(given, site, now) {
            return Ok(false);
        }
        let after = routers_of(alloc, &self.items, given, site, now)?;
        if after.len() <= most as usize {
            return Ok(false);
        }
        // What the table has is what setting no row leaves.
        let none: [Row<A>; 0] = [];
        let before = routers_of(alloc, &self.items, &none, site, now)?;
        Ok(!after.is_subset(&before))
    }
}

// Whether a row is one of the site, and alive.
fn is_live_in<A: Allocator>(row: &Row<A>, site: u64, now: u64) -> bool
    ensures { result ≡ is_live_in site now row.now }
{
    row.router.site == site && row.alive(now)
}

// Whether one of the given rows is of the router and prefix of a row.
fn is_set_by<A: Allocator>(given: &[Row<A>], row: &Row<A>) -> bool
    ensures { result ≡ is_set_by given.now row.now }
{
    given.iter().any(|other| is_row_of(row, other))
}

// Whether a row is alive, of the site, and not replaced by a given one.
fn stays_live<A: Allocator>(row: &Row<A>, given: &[Row<A>], site: u64, now: u64) -> bool
    ensures { result ≡ stays_live given.now site now row.now }
{
    is_live_in(row, site, now) && !is_set_by(given, row)
}

// How many rows of the site are alive once the given ones are set; 2^64 - 1 where they are more.
fn count_after<A: Allocator>(rows: &[Row<A>], given: &[Row<A>], site: u64, now: u64) -> usize
    ensures { result ≡ min (count_by (is_live_in site now) (set_rows rows.now given.now))
        (2 ^ 64 - 1) }
{
    count_kept(rows, given, site, now).saturating_add(count_last(given, site, now))
}

// How many of the rows are alive, of the site, and not replaced by a given one.
fn count_kept<A: Allocator>(rows: &[Row<A>], given: &[Row<A>], site: u64, now: u64) -> usize
    ensures { result ≡ count_by (stays_live given.now site now) rows.now }
{
    let mut count = 0;
    for row in rows {
        if stays_live(row, given, site, now) {
            count += 1;
        }
    }
    count
}

// How many of the given rows are alive, of the site, and the last of their router and prefix.
fn count_last<A: Allocator>(given: &[Row<A>], site: u64, now: u64) -> usize
    ensures { result ≡ count_by (is_live_in site now) (last_rows given.now) }
{
    let mut count = 0;
    let mut rest = given;
    while let Some((row, later)) = rest.split_first() {
        if stays_live(row, later, site, now) {
            count += 1;
        }
        rest = later;
    }
    count
}

// The routers of the site that have live rows once the given ones are set.
fn routers_of<A: Memory + Copy>(
    alloc: A,
    rows: &[Row<A>],
    given: &[Row<A>],
    site: u64,
    now: u64,
) -> Result<BTreeSet<RouterId, A>, AllocError>
    ensures routers { IfOk result (λ routers.
        AreRouters routers site now (set_rows rows.now given.now)) }
    ensures memory { OnErr result A.may_refuse }
{
    let mut routers = BTreeSet::new(alloc);
    add_kept(&mut routers, rows, given, site, now)?;
    add_last(&mut routers, given, site, now)?;
    Ok(routers)
}

// Adds the routers of the rows that are alive, of the site, and not replaced by a given one.
fn add_kept<A: Memory + Copy>(
    routers: &mut BTreeSet<RouterId, A>,
    rows: &[Row<A>],
    given: &[Row<A>],
    site: u64,
    now: u64,
) -> Result<(), AllocError>
    ensures added { OnOk result
        (AddsRouters routers.old routers.new site now (kept_rows rows.now given.now)) }
    ensures memory { OnErr result A.may_refuse }
{
    for row in rows {
        if stays_live(row, given, site, now) {
            routers.try_insert(row.router)?;
        }
    }
    Ok(())
}

// Adds the routers of the given rows that are alive, of the site, and the last of their router and prefix.
fn add_last<A: Memory + Copy>(
    routers: &mut BTreeSet<RouterId, A>,
    given: &[Row<A>],
    site: u64,
    now: u64,
) -> Result<(), AllocError>
    ensures added { OnOk result
        (AddsRouters routers.old routers.new site now (last_rows given.now)) }
    ensures memory { OnErr result A.may_refuse }
{
    let mut rest = given;
    while let Some((row, later)) = rest.split_first() {
        if stays_live(row, later, site, now) {
            routers.try_insert(row.router)?;
        }
        rest = later;
    }
    Ok(())
}
