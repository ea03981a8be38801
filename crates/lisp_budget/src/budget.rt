//! A budget of bytes a second.

ghost use Rattle.std.specs.Prelude.{◌≡◌, ◌+◌, nat_le, true, [], IfOk, OnErr};
ghost use Rattle.lisp_budget.specs.Budget.{message, unused, next, later, at_slot, may_send, counted, takes, after_take, Accounts, KeepsAccount};

use crate::destination::destination;
use crate::rows::{Row, count_in, count_present, pass_rows, row_of};
use lisp_memory::{FallibleVec, Memory};
use lisp_records::{Addr, Prefix};
use std::alloc::{AllocError, Allocator, Global};
use std::marker::Model;

/// How long a slot is, in ms.
const SLOT_MS: u64 = 1000;

/// How many destinations are known at a time, at most.
const MOST_KNOWN: usize = 4096;

/// How many bytes may be sent in any second: to each destination, an IPv4 address or the /64 of an IPv6 address, and to all. At most
/// 4,096 destinations are known at a time, and the memory for them is taken when the budget is made.
#[derive(Drop)]
pub struct Budget<A: Allocator = Global> {
    // The destinations to which bytes were sent in the slot before the present one, or in the present one.
    rows: Vec<Row, A>,
    // The present slot: moments divided by the length of a slot.
    slot: u64,
    // The bytes to all destinations in the slot before.
    before: u64,
    // Those in the present slot, so far.
    present: u64,
    // How many bytes a second may be sent to each destination, and to all.
    each: u32,
    all: u32,
}

impl<A: Allocator> Model for Budget<A> {
    ghost use Rattle.std.specs.Prelude.{◌≤◌, length};
    ghost use Rattle.std.specs.Vec.{vec_capacity};
    ghost use Rattle.lisp_budget.specs.Budget.{BudgetState, most_known, Differ};

    ghost Value = { BudgetState };

    ghost view = { λ b. record { slot = b.slot; rows = b.rows.items; before = b.before; present = b.present; each = b.each; all = b.all } };

    ghost invariant = { λ b. (most_known ≤ vec_capacity b.rows) × (length b.rows.items ≤ most_known) × Differ b.rows.items };
}

impl<A: Memory + Copy> Budget<A> {
    /// A budget of so many bytes a second to each destination, and to all, of which nothing is used. Takes all the memory that it
    /// ever takes.
    pub fn new(alloc: A, each: u32, all: u32) -> Result<Budget<A>, AllocError>
        ensures unused { IfOk result (λ b. b ≡ unused each all) }
        ensures accounts { IfOk result (λ b. Accounts b []) }
        ensures memory { OnErr result A.may_refuse }
    {
        let mut rows = Vec::new(alloc);
        rows.make_room(MOST_KNOWN)?;
        Ok(Budget {
            rows,
            slot: 0,
            before: 0,
            present: 0,
            each,
            all,
        })
    }
}

impl<A: Allocator> Budget<A> {
    /// Whether a message of so many bytes may be sent to an address at a moment, in ms; if so, it counts as sent, and else nothing
    /// changes. It may where what was sent in this slot of a second and in the one before, to its destination and to all, leaves room
    /// for it, and where fewer than 4,096 other destinations are known. A moment of a slot that is over counts as of the present one.
    /// Takes no memory.
    pub fn take(&mut self, to: &Addr, bytes: usize, now: u64) -> bool
        ensures takes { result ≡ takes self.old (message to.now bytes now) }
        ensures state { self.new ≡ after_take self.old (message to.now bytes now) }
        ensures accounts { KeepsAccount self.old self.new result (message to.now bytes now) }
    {
        let to = destination(to);
        let bytes = bytes as u64;
        let slot = now / SLOT_MS;
        if !self.may_send_in(slot, &to, bytes) {
            return false;
        }
        self.pass(slot);
        self.count(to, bytes);
        true
    }

    // Whether so many bytes may be sent in a slot; one that is over counts as the present one.
    fn may_send_in(&self, slot: u64, to: &Prefix, bytes: u64) -> bool
        ensures { result ≡ may_send (at_slot self.now slot) to.now bytes }
    {
        if slot <= self.slot {
            return self.may_send(to, bytes);
        }
        if slot == self.slot + 1 {
            return self.may_send_next(to, bytes);
        }
        bytes <= u64::from(self.each) && bytes <= u64::from(self.all)
    }

    // Whether so many bytes may be sent in the present slot.
    fn may_send(&self, to: &Prefix, bytes: u64) -> bool
        ensures { result ≡ may_send self.now to.now bytes }
    {
        let row = row_of(&self.rows, to);
        let spent = row.unwrap_or(Row::nothing(*to));
        is_within(spent.before, spent.present, bytes, self.each)
            && is_within(self.before, self.present, bytes, self.all)
            && (row.is_some() || self.rows.len() < MOST_KNOWN)
    }

    // Whether so many bytes may be sent in the next slot.
    fn may_send_next(&self, to: &Prefix, bytes: u64) -> bool
        ensures { result ≡ may_send (next self.now) to.now bytes }
    {
        let row = row_of(&self.rows, to);
        let spent = row.unwrap_or(Row::nothing(*to));
        is_within(spent.present, 0, bytes, self.each)
            && is_within(self.present, 0, bytes, self.all)
            && (row.is_some() || count_present(&self.rows) < MOST_KNOWN)
    }

    // A slot comes, unless it is over.
    fn pass(&mut self, slot: u64)
        ensures { self.new ≡ at_slot self.old slot }
    {
        if slot <= self.slot {
            return;
        }
        if slot == self.slot + 1 {
            self.begin_next(slot);
        } else {
            self.begin_later(slot);
        }
    }

    // The next slot comes.
    fn begin_next(&mut self, slot: u64)
        requires { slot ≡ self.old.slot + 1 }
        ensures { self.new ≡ next self.old }
    {
        pass_rows(&mut self.rows);
        self.before = self.present;
        self.present = 0;
        self.slot = slot;
    }

    // A later one comes.
    fn begin_later(&mut self, slot: u64)
        ensures { self.new ≡ later self.old slot }
    {
        self.rows.clear();
        self.before = 0;
        self.present = 0;
        self.slot = slot;
    }

    // So many bytes are sent in the present slot.
    fn count(&mut self, to: Prefix, bytes: u64)
        requires { may_send self.old to bytes ≡ true }
        ensures { self.new ≡ counted self.old to bytes }
    {
        count_in(&mut self.rows, to, bytes);
        self.present += bytes;
    }
}

// Whether so many bytes more, after those of two slots, are within a bound.
fn is_within(before: u64, present: u64, bytes: u64, most: u32) -> bool
    ensures { result ≡ nat_le (before + present + bytes) most }
{
    let sum = before.saturating_add(present);
    sum.saturating_add(bytes) <= u64::from(most)
}
