//! A queue of datagrams, from which groups are taken.

ghost use Rattle.std.specs.Prelude.{◌≡◌, ◌<◌, ◌≤◌, ◌↔◌, [], true, length, min, take, count_by, remove, slice_get, position, Some, unwrap_or, nat_lt, IsTrue, IfOk, IfSome, OnErr};
ghost use Rattle.std.specs.Option.{option_map};
ghost use Rattle.lisp_records.specs.Address.{addr_eq};
ghost use Rattle.lisp_queue.specs.Kind.{is_of, is_within};
ghost use Rattle.lisp_queue.specs.Queue.{room, most_of_one, waiting_of, may_take, next_place, taken_after, places_of, Offers, TakesNext, TakesInto, taken_with};

use crate::incoming::Incoming;
use crate::kind::Kind;
use lisp_memory::{FallibleCopies, FallibleVec, Memory};
use lisp_records::{Addr, Bytes};
use std::alloc::{AllocError, Allocator, Global};
use std::marker::Model;

/// How many datagrams wait at most.
const ROOM: usize = 256;

/// How many datagrams of one source address wait at most.
const MOST_OF_ONE: usize = ROOM / 2;

/// A datagram that waits.
#[derive(Drop)]
pub struct Waiting<A: Allocator = Global> {
    /// The address that it comes from.
    pub from: Addr,
    /// The UDP port that it comes from.
    pub port: u16,
    /// Its bytes.
    pub bytes: Bytes<A>,
}

impl<A: Allocator> Model for Waiting<A> {
    ghost use Rattle.lisp_queue.specs.Queue.{WaitingValue};

    ghost Value = { WaitingValue };

    ghost view = { λ w. record { from = w.from; port = w.port; bytes = w.bytes } };
}

/// Datagrams of a kind that were received and wait to be heard or answered, in the order in which they came, and the sources of the
/// datagrams that the present group took. While others wait, the datagrams of one source take at most half the places of a group, rounded up: so a router
/// that floods a Map-Server can't starve the others.
#[derive(Drop)]
pub struct Queue<A: Allocator + Copy = Global> {
    alloc: A,
    kind: Kind,
    waiting: Vec<Waiting<A>, A>,
    // The sources of the group's datagrams so far.
    taken: Vec<Addr, A>,
    // How many datagrams a group takes at most.
    places: usize,
}

impl<A: Allocator + Copy> Model for Queue<A> {
    ghost use Rattle.std.specs.Prelude.{◌≡◌, ◌≤◌, true, length};
    ghost use Rattle.std.specs.List.{All};
    ghost use Rattle.std.specs.Vec.{vec_capacity};
    ghost use Rattle.lisp_queue.specs.Kind.{is_of};
    ghost use Rattle.lisp_queue.specs.Queue.{QueueState, room};

    ghost Value = { QueueState };

    ghost view = { λ q. record { kind = q.kind; waiting = q.waiting.items; taken = q.taken.items; places = q.places } };

    ghost invariant = { λ q. (room ≤ vec_capacity q.waiting) × (q.places ≤ vec_capacity q.taken) × (length q.waiting.items ≤ room) × (length q.taken.items ≤ q.places) × All (λ w. is_of q.kind w.bytes ≡ true) q.waiting.items };
}

impl<A: Memory + Copy> Queue<A> {
    /// An empty queue of a kind, for groups of so many places. Takes all memory but that of the datagrams' bytes.
    pub fn new(alloc: A, kind: Kind, places: u8) -> Result<Queue<A>, AllocError>
        ensures empty { IfOk result
            (λ q. q ≡ record { kind = kind; waiting = []; taken = []; places = places }) }
        ensures memory { OnErr result A.may_refuse }
    {
        let places = usize::from(places);
        let mut waiting = Vec::new(alloc);
        waiting.make_room(ROOM)?;
        let mut taken = Vec::new(alloc);
        taken.make_room(places)?;
        Ok(Queue {
            alloc,
            kind,
            waiting,
            taken,
            places,
        })
    }

    /// A group begins: it took nothing yet.
    pub fn begin(&mut self)
        ensures { self.new ≡ record self.old { taken = [] } }
    {
        self.taken.clear();
    }

    /// Whether none waits.
    pub fn is_empty(&self) -> bool
        ensures { IsTrue result ↔ (self.now.waiting ≡ []) }
    {
        self.waiting.is_empty()
    }

    /// Whether no further datagram finds room.
    pub fn is_full(&self) -> bool
        ensures { IsTrue result ↔ (room ≤ length self.now.waiting) }
    {
        self.waiting.len() >= ROOM
    }

    /// A datagram came from a UDP port of an address: a copy of its bytes waits behind the others. It is dropped where it is of another
    /// kind, where 256 wait already, where 128 of its source do, or where memory is refused, as a socket drops what it has no room for.
    pub fn offer(&mut self, from: Addr, port: u16, bytes: &[u8])
        ensures { Offers A.may_refuse self.old self.new
            (record { from = from; port = port; bytes = bytes.now }) }
    {
        if !self.kind.has(bytes) || !self.has_room(from) {
            return;
        }
        let Ok(bytes) = Vec::try_from_slice(self.alloc, bytes) else {
            return;
        };
        self.waiting.push_reserved(Waiting {
            from,
            port,
            bytes: Bytes::from_vec(bytes),
        });
    }

    // Whether a datagram from an address finds room.
    fn has_room(&self, from: Addr) -> bool
        ensures { IsTrue result ↔ ((length self.now.waiting < room)
            × (waiting_of self.now.waiting from < most_of_one)) }
    {
        !self.is_full() && waiting_of(&self.waiting, from) < MOST_OF_ONE
    }

    /// A datagram of this source takes a place of the group without having waited.
    pub fn count(&mut self, from: Addr)
        ensures { self.new ≡ record self.old { taken = taken_after self.old from } }
    {
        if self.taken.len() < self.places {
            self.taken.push_reserved(from);
        }
    }

    /// The datagram that is heard next, which takes a place of the group: the first one whose source has fewer than half the places; where
    /// there is none, the first of all. `None` where none waits.
    pub fn next(&mut self) -> Option<Waiting<A>>
        ensures next { TakesNext self.old self.new result }
        ensures kind { IfSome result (λ w. is_of self.old.kind w.bytes ≡ true) }
    {
        if self.is_empty() {
            return None;
        }
        let place = self.place_of_next();
        let next = self.take_at(place);
        self.count(next.from);
        Some(next)
    }

    /// The datagram that is heard next, as `next` takes it, at the start of `buffer`: as much of it as that holds. `None` where none waits.
    pub fn next_into(&mut self, buffer: &mut [u8]) -> Option<Incoming>
        ensures next { TakesInto self.old self.new buffer.new result }
        ensures within { IfSome result (λ incoming. incoming.count ≤ length buffer.new) }
        ensures kind { IfSome result (λ incoming.
            is_within self.old.kind (take incoming.count buffer.new) ≡ true) }
        ensures taken { self.new.taken ≡ taken_with self.old result }
        ensures places { self.new.places ≡ self.old.places }
        ensures same_kind { self.new.kind ≡ self.old.kind }
        ensures room { length buffer.new ≡ length buffer.old }
    {
        let waiting = self.next()?;
        let count = copy_into(waiting.bytes.as_slice(), buffer);
        Some(Incoming {
            from: waiting.from,
            port: waiting.port,
            count,
        })
    }

    // The datagram at a place, which no longer waits.
    fn take_at(&mut self, place: usize) -> Waiting<A>
        requires { place < length self.now.waiting }
        ensures taken { slice_get self.old.waiting place ≡ Some result }
        ensures left { self.new ≡ record self.old { waiting = remove self.old.waiting place } }
        ensures kind { is_of self.old.kind result.bytes ≡ true }
    {
        self.waiting.remove(place)
    }

    // The place of the first datagram whose source has fewer than half the places; 0 where there is none.
    fn place_of_next(&self) -> usize
        requires { 0 < length self.now.waiting }
        ensures place { result ≡ next_place self.now }
        ensures within { result < length self.now.waiting }
    {
        let (taken, half) = (&self.taken, self.places.div_ceil(2));
        first_below(&self.waiting, taken, half).unwrap_or(0)
    }
}

// Copies bytes to the start of a buffer, as many as it holds. How many these are.
fn copy_into(bytes: &[u8], buffer: &mut [u8]) -> usize
    ensures count { result ≡ min (length bytes.now) (length buffer.old) }
    ensures copied { take result buffer.new ≡ take result bytes.now }
    ensures room { length buffer.new ≡ length buffer.old }
{
    let count = bytes.len().min(buffer.len());
    buffer[..count].copy_from_slice(&bytes[..count]);
    count
}

// The place of the first datagram whose source has fewer than so many places.
fn first_below<A: Allocator>(waiting: &[Waiting<A>], taken: &[Addr], most: usize) -> Option<usize>
    ensures { result ≡ position (λ w. nat_lt (places_of taken.now w.from) most) waiting.now }
{
    waiting
        .iter()
        .position(|waiting| places_of(taken, waiting.from) < most)
}

// How many places of the group a source has.
fn places_of(taken: &[Addr], from: Addr) -> usize
    ensures { result ≡ places_of taken.now from }
{
    taken.iter().filter(|taken| **taken == from).count()
}

// How many datagrams of a source wait.
fn waiting_of<A: Allocator>(waiting: &[Waiting<A>], from: Addr) -> usize
    ensures { result ≡ waiting_of waiting.now from }
{
    waiting
        .iter()
        .filter(|waiting| waiting.from == from)
        .count()
}
