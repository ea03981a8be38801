//! Lines that wait until they can be written.

ghost use Rattle.std.specs.Prelude.{◌≡◌, ℕ, ◌≤◌, List, [], length, Option, IfOk, OnErr};
ghost use Rattle.lisp_log.specs.Waiting.{nothing_waits, dropped_text, Takes, PutsLine, put_sum, drops, drops_one, Gives, Pours};

use crate::byte_queue::{ByteQueue, ROOM};
use itoa::Buffer;
use lisp_memory::Memory;
use std::alloc::{AllocError, Allocator, Global};
use std::marker::Model;

/// Where bytes go, which takes as many as it can at once and never waits.
pub trait Sink {
    /// All that it took, where that is known.
    ghost taken: { Self → Option (List ℕ) };

    /// Takes a front of the bytes, and says how many they are; 0 where it takes none now, or failed.
    fn take(&mut self, bytes: &[u8]) -> usize
        ensures within { result ≤ length bytes.now }
        ensures taken { Takes (taken self.old) (taken self.new) result bytes.now };
}

/// Whole lines that wait until they can be written, at most 65,536 bytes of them. A line that finds no room there is dropped,
/// and the events that it tells are counted; then all are, until what waits has been written, and a line says how many were.
#[derive(Drop)]
pub struct Waiting<A: Allocator = Global> {
    bytes: ByteQueue<A>,
    dropped: u64,
}

impl<A: Allocator> Model for Waiting<A> {
    ghost use Rattle.lisp_log.specs.Waiting.{WaitingState};

    ghost Value = { WaitingState };

    ghost view = { λ w. record { bytes = w.bytes; dropped = w.dropped } };
}

impl<A: Memory + Copy> Waiting<A> {
    /// None yet. Takes all the memory that it ever takes.
    pub fn new(alloc: A) -> Result<Waiting<A>, AllocError>
        ensures none { IfOk result (λ w. w ≡ nothing_waits) }
        ensures memory { OnErr result A.may_refuse }
    {
        let bytes = ByteQueue::new(alloc)?;
        Ok(Waiting { bytes, dropped: 0 })
    }

    /// A line waits, or is dropped.
    pub fn put(&mut self, line: &[u8])
        ensures { PutsLine self.old self.new line.now }
    {
        self.put_sum(line, 1);
    }

    /// A line that tells so many events waits, or they are dropped.
    pub(crate) fn put_sum(&mut self, line: &[u8], events: u64)
        ensures { self.new ≡ put_sum self.old line.now events }
    {
        if self.dropped == 0 && line.len() <= ROOM - self.bytes.len() {
            self.bytes.append(line);
        } else {
            self.drop_sum(events);
        }
    }

    /// A line is dropped that couldn't be made.
    pub fn drop_one(&mut self)
        ensures { self.new ≡ drops_one self.old }
    {
        self.drop_sum(1);
    }

    /// A line that tells so many events is dropped.
    pub(crate) fn drop_sum(&mut self, events: u64)
        ensures { self.new ≡ drops self.old events }
    {
        self.dropped = self.dropped.saturating_add(events);
    }

    /// The sink takes what it can of what waits; and once it took all of it, of the line that says how many events were
    /// dropped.
    pub fn pour<S: Sink>(&mut self, sink: &mut S)
        ensures { Pours self.old self.new (S.taken sink.old) (S.taken sink.new) }
    {
        self.give(sink);
        if self.bytes.len() == 0 && self.dropped > 0 {
            self.tell_dropped();
            self.give(sink);
        }
    }

    // The sink takes what it can of what waits.
    fn give<S: Sink>(&mut self, sink: &mut S)
        ensures { Gives self.old self.new (S.taken sink.old) (S.taken sink.new) }
    {
        let taken = sink.take(self.bytes.as_slice());
        self.bytes.forget(taken);
    }

    // Where nothing waits, the line that says how many events were dropped does.
    fn tell_dropped(&mut self)
        requires { self.old.bytes ≡ [] }
        ensures { self.new ≡ record { bytes = dropped_text self.old.dropped; dropped = 0 } }
    {
        let mut number = Buffer::new();
        self.bytes.append(b"dropped ");
        self.bytes.append(number.format(self.dropped).as_bytes());
        self.bytes.append(b"\n");
        self.dropped = 0;
    }
}
