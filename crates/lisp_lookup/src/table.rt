//! The rows that a Map-Server holds.

ghost use Rattle.std.specs.Prelude.{◌≡◌, ◌+◌, ◌-◌, ◌*◌, ◌^◌, ◌≤◌, ◌<◌, [], None, true, false, length, nat_le, slice_get, IsOk, IfOk, IfSome, OnOk, OnErr};
ghost use Rattle.std.specs.Option.{MatchOption, option_map};
ghost use Rattle.std.specs.List.{All, filter, position};
ghost use Rattle.lisp_records.specs.Address.{IsPrefix};
ghost use Rattle.lisp_records.specs.Moment.{max_moment};
ghost use Rattle.lisp_records.specs.Row.{is_alive};
ghost use Rattle.lisp_lookup.specs.Table.{OneEach, Sets, Expires, DropsDead, row_key, row_cmp, IsHeld, IsNextLive, count_lesser, live_from};
ghost use Rattle.lisp_lookup.specs.Answer.{Answers};
ghost use Rattle.lisp_lookup.specs.Covering.{IsBestForOf};
ghost use Rattle.lisp_lookup.specs.Hole.{IsHoleOf};
ghost use Rattle.lisp_lookup.specs.Records.{live_of, live_count, live_fit, ListsLive};

use crate::answer::Answer;
use crate::best::{best, best_for};
use crate::counted_rows::CountedRows;
use crate::find::find;
use crate::hole::hole;
use crate::index::Near;
use crate::inside::Inside;
use crate::live::{copy_live, count_live};
use crate::probe::Probe;
use crate::steps::Steps;
use lisp_memory::{FallibleDeque, FallibleVec, Memory};
use lisp_policy::Sites;
use lisp_records::{Addr, MapRecord, Prefix, RouterId, Row};
use std::alloc::{AllocError, Allocator, Global};
use std::cmp::Ordering;
use std::collections::VecDeque;
use std::marker::Model;
use std::sync::ledger::Ledger;

/// Rows, one for each router and prefix, and room for more.
#[derive(Debug, Drop)]
pub struct Table<A: Allocator = Global> {
    pub(crate) items: Vec<Row<A>, A>,
    // The numbers of the rows, by prefix, then router.
    pub(crate) by_prefix: VecDeque<usize, A>,
    // The numbers of the rows, by deadline.
    pub(crate) by_deadline: VecDeque<usize, A>,
}

impl<A: Allocator> Model for Table<A> {
    ghost use Rattle.lisp_lookup.specs.Room.{spare_of};
    ghost use Rattle.lisp_lookup.specs.Table.{TableState};
    ghost use Rattle.lisp_lookup.specs.Index.{Indexed};

    ghost Value = { TableState };

    ghost view = { λ r. record { rows = r.items.items; spare = spare_of r.items r.by_prefix r.by_deadline } };

    ghost invariant = { λ r. Indexed r.items.items r.by_prefix.items r.by_deadline.items };
}

impl<A: Allocator + Copy> Table<A> {
    /// No rows; takes no memory.
    pub fn new(alloc: A) -> Table<A>
        ensures none { result.rows ≡ [] }
        ensures no_room { result.spare ≡ 0 }
    {
        Table {
            items: Vec::new(alloc),
            by_prefix: VecDeque::new(alloc),
            by_deadline: VecDeque::new(alloc),
        }
    }

    /// Whether there is room for these rows. Takes no memory.
    pub fn ready(&self, rows: &[Row<A>]) -> bool
        ensures { result ≡ nat_le (length rows.now) self.now.spare }
    {
        let prefixes = self.by_prefix.capacity() - self.by_prefix.len();
        let deadlines = self.by_deadline.capacity() - self.by_deadline.len();
        rows.len() <= self.items.capacity() - self.items.len()
            && rows.len() <= prefixes
            && rows.len() <= deadlines
    }

    /// The row at a place of the list, dead or alive. Takes no memory.
    pub fn row(&self, place: usize) -> Option<&Row<A>>
        ensures { option_map (λ row. row.now) result ≡ slice_get self.now.rows place }
    {
        self.items.get(place)
    }

    /// The first row from a place on that is alive at a moment, in ms, and its place; `None` where all from there on are dead. From
    /// place 0 on, each time from the one after the last, this gives every live row once. Takes no memory.
    pub fn next_live(&self, place: usize, now: u64) -> Option<(usize, &Row<A>)>
        ensures { MatchOption result (live_from self.now.rows place now ≡ [])
            (λ found. IsNextLive self.now.rows place now found.0 found.1.now) }
    {
        let rest = self.items.get(place..)?;
        let Some(skipped) = first_live(rest, now) else {
            return None;
        };
        Some((place + skipped, &rest[skipped]))
    }

    /// Sets the rows, for which there is room (`prepare`), in their order: of several for one router and
    /// prefix the last stays. Takes no memory.
    pub fn put_all(&mut self, rows: Vec<Row<A>, A>)
        requires { length rows.items ≤ self.old.spare }
        ensures sets { Sets self.old.rows self.new.rows rows.items }
        ensures one_each { OneEach self.new.rows }
    {
        let mut near = Near::START;
        for row in rows {
            self.put(row, &mut near);
        }
        // Reading a field shows the type's invariant to the proof.
        let _items = &self.items;
    }

    /// Takes out the rows that are dead at a moment, in ms, of at most 2^62; takes no memory.
    pub fn drop_dead(&mut self, now: u64)
        requires { now ≤ max_moment }
        ensures expires { Expires self.old.rows self.new.rows now }
        ensures one_each { OneEach self.new.rows }
    {
        // Reading a field shows the type's invariant to the proof.
        let _items = &self.items;
        while let Some(number) = self.first_dead(now) {
            self.remove(number);
        }
    }

    /// Takes out a row that is dead at a moment, in ms, of at most 2^62: of several the one that died first. Answers whose it
    /// was, the router and its EID-Prefix; `None` where no row is dead, and then nothing changes. Takes no memory.
    pub fn drop_first_dead(&mut self, now: u64) -> Option<(RouterId, Prefix)>
        requires { now ≤ max_moment }
        ensures dropped { IfSome result (λ key. DropsDead self.old.rows self.new.rows now key) }
        ensures none { result ≡ None → (self.new ≡ self.old)
            × All (λ h. is_alive h now ≡ true) self.new.rows }
        ensures one_each { OneEach self.new.rows }
    {
        let number = self.first_dead(now)?;
        let key = key_of(&self.items[number]);
        self.remove(number);
        Some(key)
    }

    /// How many rows have a lesser prefix, dead or alive. Takes no memory. The steps are the rows that it looks
    /// at: at most as many as the number of rows has binary digits (0 has none).
    pub fn find<L: Ledger>(&self, prefix: &Prefix, steps: &mut Steps<L>) -> usize
        ensures lesser { result ≡ count_lesser self.now.rows prefix.now }
        ensures grows { steps.old ≤ steps.new }
        ensures cost { 2 ^ (steps.new - steps.old) ≤ 2 * length self.now.rows + 1 }
    {
        let rows = CountedRows::new(&self.items, &self.by_prefix);
        find(&rows, &Probe::Prefix(*prefix), steps)
    }

    /// How many records of a router are alive at a moment, in ms; `None` where they are too many, or too long, for
    /// one message. Takes no memory.
    pub fn count_live(&self, router: &RouterId, now: u64) -> Option<usize>
        ensures fits { IfSome result (λ count. live_fit self.now.rows router.now now ≡ true) }
        ensures count { IfSome result (λ count. count ≡ live_count self.now.rows router.now now) }
        ensures too_large { result ≡ None → live_fit self.now.rows router.now now ≡ false }
        ensures one_each { OneEach self.now.rows }
    {
        count_live(&self.items, router, now)
    }

    /// Who answers for an address at a moment, in ms: of the live rows whose prefix has it the one with the
    /// longest prefix; of several one whose router asked for proxy replies, before one that didn't; then the
    /// one that was accepted last; then that of the greater router, by Site-ID, then xTR-ID. Takes no memory.
    pub fn answer<B: Allocator>(&self, sites: &Sites<B>, addr: &Addr, now: u64) -> Answer<'_, A>
        ensures answers { Answers self.now.rows sites.now addr.now now result }
        ensures one_each { OneEach self.now.rows }
    {
        match best(&self.items, &self.by_prefix, addr, now) {
            Some(row) if row.proxy => Answer::Reply(&row.mapping),
            Some(row) => Answer::Forward(row.from),
            None if sites.configured(addr) => Answer::NotRegistered,
            None => Answer::NoSite,
        }
    }

    /// Who answers for an EID-Prefix at a moment, in ms: of the live rows whose prefix covers it the best, in the order of `answer`;
    /// `None` where none does. Takes no memory (RFC 9301 section 8.3).
    pub fn best_for(&self, asked: &Prefix, now: u64) -> Option<&Row<A>>
        ensures best { IsBestForOf self.now.rows asked.now now
            (option_map (λ row. row.now) result) }

        // What the type promises of its rows.
        ensures one_each { OneEach self.now.rows }
        ensures blocks { All (λ h. IsPrefix h.mapping.eid) self.now.rows }
    {
        best_for(&self.items, &self.by_prefix, asked, now)
    }

    /// A walk over the longer prefixes inside `outer` that have a row that is alive at a moment, in ms: it shows the best row of each once,
    /// in the order of prefixes. Takes no memory (RFC 9301 section 5.5).
    pub fn inside(&self, outer: &Prefix, now: u64) -> Inside<'_, A>
        ensures { result ≡
            record { rows = self.now.rows; outer = outer.now; moment = now; after = outer.now } }
    {
        Inside::new(&self.items, &self.by_prefix, outer, now)
    }

    /// The widest prefix around an address in which nobody is there at a moment, in ms, which a negative Map-Reply for the address has:
    /// no live row has a prefix in it or over it, it leaves no prefix of a site that has the address, and where no site has it, no prefix
    /// of a site lies in it. `None` where a live row has the address. Takes no memory (RFC 9301 section 8.4).
    pub fn hole<B: Allocator>(&self, sites: &Sites<B>, addr: &Addr, now: u64) -> Option<Prefix>
        ensures hole { IsHoleOf self.now.rows sites.now addr.now now result }
    {
        hole(&self.items, &self.by_prefix, sites, addr, now)
    }
}

impl<A: Memory + Copy> Table<A> {
    /// Makes room for these rows, where there is none yet; no row changes, also where memory is refused.
    pub fn prepare(&mut self, rows: &[Row<A>]) -> Result<(), AllocError>
        ensures same { self.new.rows ≡ self.old.rows }
        ensures room { OnOk result (length rows.now ≤ self.new.spare) }
        ensures succeeds { length rows.now ≤ self.old.spare → IsOk result }
        ensures memory { OnErr result A.may_refuse }
    {
        self.items.make_room_for(rows)?;
        self.by_prefix.make_room_for(rows)?;
        self.by_deadline.make_room_for(rows)
    }

    /// Copies of the rows that are alive at a moment, in ms: by router, then by prefix. Takes no memory where
    /// none is.
    pub fn rows(&self, now: u64) -> Result<Vec<Row<A>, A>, AllocError>
        ensures held { IfOk result (λ rows. IsHeld self.now.rows now rows.items) }
        ensures none_alive { filter (λ h. is_alive h now) self.now.rows ≡ [] → IsOk result }
        ensures memory { OnErr result A.may_refuse }
    {
        let mut live = live_rows(*self.items.allocator(), &self.items, now)?;
        live.sort_unstable_by(|one, other| order(one, other));
        Ok(live)
    }

    /// Copies of the records of a router that are alive at a moment, in ms, by prefix. Takes no memory where
    /// none is.
    pub fn live_records(
        &self,
        router: &RouterId,
        now: u64,
    ) -> Result<Vec<MapRecord<A>, A>, AllocError>
        ensures records { IfOk result (λ live. ListsLive self.now.rows router.now now live.items) }
        ensures none_alive { live_of self.now.rows router.now now ≡ [] → IsOk result }
        ensures memory { OnErr result A.may_refuse }
    {
        let mut records = copy_live(*self.items.allocator(), &self.items, router, now)?;
        records.sort_unstable_by(|one, other| one.eid_cmp(other));
        Ok(records)
    }
}

// How many rows are dead before the first that is alive.
fn first_live<A: Allocator>(rows: &[Row<A>], now: u64) -> Option<usize>
    ensures place { result ≡ position (λ h. is_alive h now) rows.now }
    ensures within { IfSome result (λ dead. dead < length rows.now) }
{
    rows.iter().position(|row| row.alive(now))
}

// Copies of the rows that are alive, in memory of `alloc`.
fn live_rows<A: Memory + Copy>(
    alloc: A,
    rows: &[Row<A>],
    now: u64,
) -> Result<Vec<Row<A>, A>, AllocError>
    ensures live { IfOk result (λ live. live.items ≡ filter (λ h. is_alive h now) rows.now) }
    ensures none_alive { filter (λ h. is_alive h now) rows.now ≡ [] → IsOk result }
    ensures memory { OnErr result A.may_refuse }
{
    let mut live = Vec::new(alloc);
    for row in rows {
        if row.alive(now) {
            let copy = row.copy(alloc)?;
            live.try_push(copy)?;
        }
    }
    Ok(live)
}

// Whose a row is: its router, and its EID-Prefix.
fn key_of<A: Allocator>(row: &Row<A>) -> (RouterId, Prefix)
    ensures { result ≡ row_key row.now }
{
    (row.router, *row.mapping.eid_ref())
}

// The order of rows: by router, then by prefix.
fn order<A: Allocator>(one: &Row<A>, other: &Row<A>) -> Ordering
    ensures { result ≡ row_cmp one.now other.now }
{
    one.router
        .cmp(&other.router)
        .then(one.mapping.eid_cmp(&other.mapping))
}
