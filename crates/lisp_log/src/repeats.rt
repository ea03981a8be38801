//! Lines of one second that repeat.

ghost use Rattle.std.specs.Prelude.{◌≡◌, ◌↔◌, IsTrue, [], None, IfOk, IfSome, OnErr};
ghost use Rattle.lisp_log.specs.Repeats.{IsOf, HasEntry, HasEntryAt, IsSource, Notes, TellsEvent};

use lisp_memory::{FallibleVec, Memory};
use lisp_records::Addr;
use std::alloc::{AllocError, Allocator, Global};
use std::marker::Model;

/// The most addresses that are told apart.
const MOST_ADDRESSES: usize = 64;

/// The most entries: those of addresses, and those of all others, one of each thing that repeats. There is room for these, since there are
/// 66 such things.
const MOST_ENTRIES: usize = 144;

/// What repeats in a second: refusals, or what is said of EID-Prefixes that Map-Requests ask for.
#[derive(Clone, Copy, PartialEq, Eq)]
pub enum Repeated {
    /// Refusals with the number that operators see.
    Refused(u16),
    /// Map-Replies of records.
    Replied,
    /// Negative Map-Replies.
    Negative,
    /// Map-Requests that went on to a router.
    Forwarded,
    /// Map-Requests that weren't answered, because the Map-Server has just started.
    Unanswered,
}

/// The address that lines name: of a refused datagram where it came from, of an answer to a Map-Request where it went, or the Map-Request
/// itself.
#[derive(Clone, Copy, PartialEq, Eq)]
pub enum Source {
    /// An address that is told apart.
    Address(Addr),
    /// Any other.
    Others,
}

/// What repeats with one source.
#[derive(Clone, Copy)]
pub struct Repeat {
    /// What it is.
    pub what: Repeated,
    /// The address that its lines name.
    pub source: Source,
    /// How many weren't told: all but the first.
    pub times: u64,
}

/// What repeats in one second: of each thing with each source the first is told, and the others are counted. At most 64 addresses are
/// told apart, so that forged ones take no memory.
#[derive(Drop)]
pub struct Repeats<A: Allocator = Global> {
    entries: Vec<Repeat, A>,
}

impl<A: Allocator> Model for Repeats<A> {
    ghost use Rattle.std.specs.Prelude.{List, ◌≤◌};
    ghost use Rattle.std.specs.Vec.{vec_capacity};
    ghost use Rattle.lisp_log.specs.declared.repeats.Repeat.{Repeat};
    ghost use Rattle.lisp_log.specs.Repeats.{most_entries};

    ghost Value = { List Repeat };

    ghost view = { λ r. r.entries.items };

    ghost invariant = { λ r. most_entries ≤ vec_capacity r.entries };
}

impl<A: Memory + Copy> Repeats<A> {
    /// None yet. Takes all the memory that it ever takes.
    pub fn new(alloc: A) -> Result<Repeats<A>, AllocError>
        ensures none { IfOk result (λ r. r ≡ []) }
        ensures memory { OnErr result A.may_refuse }
    {
        let mut entries = Vec::new(alloc);
        entries.make_room(MOST_ENTRIES)?;
        Ok(Repeats { entries })
    }

    /// Whether a line of what repeats, which names an address, is told. Else it is counted.
    pub fn tells(&mut self, what: Repeated, from: Addr) -> bool
        ensures { TellsEvent self.old self.new what from result }
    {
        let source = source_of(&self.entries, what, from);
        let Some(place) = place_of(&self.entries, what, source) else {
            self.note(what, source);
            return true;
        };
        let times = self.entries[place].times;
        if times == u64::MAX {
            return true;
        }
        self.entries[place].times = times + 1;
        false
    }

    // Makes the entry of what repeats with a source, where there is room.
    fn note(&mut self, what: Repeated, source: Source)
        ensures { Notes self.old self.new what source }
    {
        if self.entries.len() < MOST_ENTRIES {
            self.entries.push_reserved(Repeat {
                what,
                source,
                times: 0,
            });
        }
    }

    /// Those so far.
    pub fn entries(&self) -> &[Repeat]
        ensures { result.now ≡ self.now }
    {
        &self.entries
    }

    /// Another second begins: none yet.
    pub fn clear(&mut self)
        ensures { self.new ≡ [] }
    {
        self.entries.clear();
    }
}

// The source of what repeats with an address.
fn source_of(entries: &[Repeat], what: Repeated, from: Addr) -> Source
    ensures { IsSource entries.now what from result }
{
    let source = Source::Address(from);
    if entries.len() < MOST_ADDRESSES || place_of(entries, what, source).is_some() {
        source
    } else {
        Source::Others
    }
}

// The place of the entry of what repeats with a source.
fn place_of(entries: &[Repeat], what: Repeated, source: Source) -> Option<usize>
    ensures found { IfSome result (HasEntryAt entries.now what source) }
    ensures none { result ≡ None → HasEntry entries.now what source → ⊥ }
{
    entries.iter().position(|entry| entry.is_of(what, source))
}

impl Repeat {
    // Whether it is the entry of this with a source.
    fn is_of(&self, what: Repeated, source: Source) -> bool
        ensures { IsTrue result ↔ IsOf what source self.now }
    {
        self.what == what && self.source == source
    }
}
