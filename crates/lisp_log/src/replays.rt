//! Source addresses of which Map-Registers are refused as replays, one after the other.

ghost use Rattle.std.specs.Prelude.{◌≡◌, ◌≤◌, ◌↔◌, IsTrue, [], None, IfOk, IfSome, OnErr};
ghost use Rattle.lisp_records.specs.Moment.{max_moment};
ghost use Rattle.lisp_log.specs.Replays.{HasRun, HasRunAt, one_more, goes_on, without, ongoing, is_long, lasts, IsDue, Begins, Replayed, TellsReplay, NoneDue};

use crate::silences::{AGAIN_MS, PATIENCE_MS};
use lisp_memory::{FallibleVec, Memory};
use lisp_records::Addr;
use std::alloc::{AllocError, Allocator, Global};
use std::marker::Model;

/// The most runs that are noted, of an address each.
const MOST_RUNS: usize = 64;

/// A run of Map-Registers from one address that a Map-Server refuses as replays: what a router sends
/// that has lost its nonces.
#[derive(Clone, Copy)]
pub struct Replay {
    /// The source address.
    pub from: Addr,
    /// When the first of them was refused, in ms.
    pub since: u64,
    /// When the last of them was, in ms.
    pub at: u64,
    /// How many they are, up to 2^64 - 1.
    pub times: u64,
    /// The greatest nonce that was saved when one of them was refused.
    pub saved: u64,
    /// From when on the run may be told again, in ms.
    pub next_line: u64,
}

/// The runs of Map-Registers that a Map-Server refuses as replays, one for each source address, and at
/// most 64, so that forged addresses take no memory. One that is three minutes long is told, and at
/// most once in ten.
#[derive(Drop)]
pub struct Replays<A: Allocator = Global> {
    runs: Vec<Replay, A>,
}

impl<A: Allocator> Model for Replays<A> {
    ghost use Rattle.std.specs.Prelude.{List, ◌≤◌};
    ghost use Rattle.std.specs.Vec.{vec_capacity};
    ghost use Rattle.lisp_log.specs.declared.replays.Replay.{Replay};
    ghost use Rattle.lisp_log.specs.Replays.{most_runs};

    ghost Value = { List Replay };

    ghost view = { λ r. r.runs.items };

    ghost invariant = { λ r. most_runs ≤ vec_capacity r.runs };
}

impl<A: Memory + Copy> Replays<A> {
    /// None yet. Takes all the memory that it ever takes.
    pub fn new(alloc: A) -> Result<Replays<A>, AllocError>
        ensures none { IfOk result (λ r. r ≡ []) }
        ensures memory { OnErr result A.may_refuse }
    {
        let mut runs = Vec::new(alloc);
        runs.make_room(MOST_RUNS)?;
        Ok(Replays { runs })
    }

    /// A Map-Register from an address is refused as a replay at a moment, in ms, since this nonce is
    /// saved.
    pub fn replayed(&mut self, from: Addr, saved: u64, now: u64)
        ensures { Replayed self.old self.new from saved now }
    {
        match place_of(&self.runs, from) {
            Some(place) => self.runs[place] = self.runs[place].with_one_more(saved, now),
            None => self.begin(from, saved, now),
        }
    }

    // A run begins, where there is room.
    fn begin(&mut self, from: Addr, saved: u64, now: u64)
        ensures { Begins self.old self.new from saved now }
    {
        if self.runs.len() < MOST_RUNS {
            self.runs.push_reserved(Replay {
                from,
                since: now,
                at: now,
                times: 1,
                saved,
                next_line: 0,
            });
        }
    }

    /// A Map-Register from an address is accepted: the run of that address ends.
    pub fn accepted(&mut self, from: Addr)
        ensures { self.new ≡ without from self.old }
    {
        self.runs.retain(|run| run.from != from);
    }

    /// Time passes, to a moment in ms: a run ends of which none was refused for three minutes.
    pub fn pass(&mut self, now: u64)
        ensures { self.new ≡ ongoing now self.old }
    {
        self.runs.retain(|run| run.goes_on(now));
    }

    /// A run that is told at a moment, in ms of at most 2^62, as it is by then. It isn't told again
    /// before ten minutes are over. `None` where none is.
    pub fn tells(&mut self, now: u64) -> Option<Replay>
        requires { now ≤ max_moment }
        ensures told { IfSome result (TellsReplay self.old self.new now) }
        ensures none { result ≡ None → NoneDue self.old now × (self.new ≡ self.old) }
    {
        let place = self.runs.iter().position(|run| run.is_due(now))?;
        let run = self.runs[place];
        self.runs[place].next_line = now + AGAIN_MS;
        Some(run)
    }

    /// Those so far.
    pub fn runs(&self) -> &[Replay]
        ensures { result.now ≡ self.now }
    {
        &self.runs
    }
}

// The place of the run of an address.
fn place_of(runs: &[Replay], from: Addr) -> Option<usize>
    ensures found { IfSome result (HasRunAt runs.now from) }
    ensures none { result ≡ None → HasRun runs.now from → ⊥ }
{
    runs.iter().position(|run| run.is_of(from))
}

impl Replay {
    /// Whether it is three minutes long, and goes on at a moment, in ms.
    pub fn lasts(&self, now: u64) -> bool
        ensures { result ≡ lasts now self.now }
    {
        self.is_long() && self.goes_on(now)
    }

    // Whether it is the run of an address.
    fn is_of(&self, from: Addr) -> bool
        ensures { IsTrue result ↔ (self.now.from ≡ from) }
    {
        self.from == from
    }

    // The run, with one more at a moment.
    fn with_one_more(&self, saved: u64, now: u64) -> Replay
        ensures { result ≡ one_more saved now self.now }
    {
        Replay {
            at: now,
            times: self.times.saturating_add(1),
            saved: self.saved.max(saved),
            ..*self
        }
    }

    // Whether it is three minutes long.
    fn is_long(&self) -> bool
        ensures { result ≡ is_long self.now }
    {
        self.at.saturating_sub(self.since) >= PATIENCE_MS
    }

    // Whether the last one was refused less than three minutes before a moment.
    fn goes_on(&self, now: u64) -> bool
        ensures { result ≡ goes_on now self.now }
    {
        now.saturating_sub(self.at) < PATIENCE_MS
    }

    // Whether it is to be told at a moment.
    fn is_due(&self, now: u64) -> bool
        ensures { IsTrue result ↔ IsDue now self.now }
    {
        self.is_long() && self.next_line <= now
    }
}
