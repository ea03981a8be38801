//! A node's lines, as JSON objects.

ghost use Rattle.std.specs.Prelude.{◌≡◌, ◌↔◌, ◌++◌, ◌<◌, ◌≤◌, true, IfOk, IfSome, OnErr, [], None, drop, length};
ghost use Rattle.std.specs.List.{position};
ghost use Rattle.lisp_udp.specs.Objects.{IsFirstLine, IsWrittenFor, TakesFront, WritesObjects, is_line_feed};
ghost use Rattle.lisp_log.specs.Waiting.{Takes};

use crate::stopwatch::ms_since_1970;
use lisp_json::timed_object_of;
use lisp_log::Sink;
use lisp_memory::{FallibleCopies, Memory};
use std::alloc::{AllocError, Allocator};
use std::str;
use std::time::Clock;

/// A sink of whole lines, which writes each as a JSON object to another sink, with the time at which it takes the line. It keeps the object
/// of at most one line, until all of it is written.
#[derive(Drop)]
pub(crate) struct ObjectOutput<'a, R, S, A: Allocator> {
    rt: &'a R,
    alloc: A,
    sink: S,
    // What is still to be written of an object and the line feed behind it.
    rest: Vec<u8, A>,
}

impl<'a, R: Clock, S: Sink, A: Memory + Copy> ObjectOutput<'a, R, S, A> {
    /// One that writes to a sink.
    pub(crate) fn new(rt: &'a R, alloc: A, sink: S) -> ObjectOutput<'a, R, S, A>
        ensures sink { result.sink ≡ sink }
        ensures rest { result.rest.items ≡ [] }
    {
        ObjectOutput {
            rt,
            alloc,
            sink,
            rest: Vec::new(alloc),
        }
    }

    // Nothing is still to be written.
    fn is_idle(&self) -> bool
        ensures { (result ≡ true) ↔ (self.now.rest.items ≡ []) }
    {
        self.rest.is_empty()
    }

    // The sink takes what it can of what is still to be written.
    fn pour(&mut self)
        ensures { TakesFront (S.taken self.old.sink) (S.taken self.new.sink)
            self.old.rest.items self.new.rest.items }
    {
        if self.is_idle() {
            return;
        }
        let taken = self.sink.take(self.rest.as_slice());
        self.forget(taken);
    }

    // So many bytes of the front were written.
    fn forget(&mut self, count: usize)
        requires { count ≤ length self.old.rest.items }
        ensures rest { self.new.rest.items ≡ drop count self.old.rest.items }
        ensures sink { self.new.sink ≡ self.old.sink }
    {
        self.rest.copy_within(count.., 0);
        self.rest.truncate(self.rest.len() - count);
    }

    // Takes the first line of the bytes, and writes what it can of its object; how many bytes it took. It takes none while another object
    // is still to be written, or where memory is refused.
    fn take_line(&mut self, bytes: &[u8]) -> usize
        ensures within { result ≤ length bytes.now }
        ensures objects { WritesObjects (S.taken self.old.sink) (S.taken self.new.sink)
            self.old.rest.items self.new.rest.items bytes.now (drop result bytes.now) }
    {
        if !self.is_idle() {
            return 0;
        }
        let Some(line) = first_line(bytes) else {
            return 0;
        };
        let Ok(object) = self.object(line) else {
            return 0;
        };
        self.rest = object;
        self.pour();
        line.len() + 1
    }

    // The object of a line at this moment, and a line feed.
    fn object(&self, line: &str) -> Result<Vec<u8, A>, AllocError>
        ensures object { IfOk result (λ text. IsWrittenFor line.now text.items) }
        ensures memory { OnErr result A.may_refuse }
    {
        let mut object = timed_object_of(self.alloc, ms_since_1970(self.rt), line)?;
        object.try_extend_from_slice(b"\n")?;
        Ok(object)
    }
}

impl<R: Clock, S: Sink, A: Memory + Copy> Sink for ObjectOutput<'_, R, S, A> {
    ghost taken = { λ _. None };

    fn take(&mut self, bytes: &[u8]) -> usize
        ensures within { result ≤ length bytes.now }
        ensures taken { Takes (⟦<Self as Sink>⟧.taken self.old) (⟦<Self as Sink>⟧.taken self.new) result bytes.now }
        ensures objects { WritesObjects (S.taken self.old.sink) (S.taken self.new.sink)
            self.old.rest.items self.new.rest.items bytes.now (drop result bytes.now) }
    {
        self.pour();
        let mut taken = 0;
        while taken < bytes.len() {
            let (_, behind) = bytes.split_at(taken);
            let count = self.take_line(behind);
            taken += count;
            if count == 0 {
                break;
            }
        }
        taken
    }
}

// The first line of the bytes, without its line feed; `None` where there is none, or it is no text.
fn first_line(bytes: &[u8]) -> Option<&str>
    ensures line { IfSome result (λ line. IsFirstLine line.now bytes.now) }
    ensures within { IfSome result (λ line. length line.now < length bytes.now) }
{
    let end = first_line_feed(bytes)?;
    match str::from_utf8(&bytes[..end]) {
        Ok(line) => Some(line),
        Err(_) => None,
    }
}

fn first_line_feed(bytes: &[u8]) -> Option<usize>
    ensures place { result ≡ position is_line_feed bytes.now }
    ensures within { IfSome result (λ place. place < length bytes.now) }
{
    bytes.iter().position(|byte| *byte == b'\n')
}
