//! The calls of `VecDeque` that ask for memory.

ghost use Rattle.std.specs.Prelude.{◌≡◌, IsOk, OnOk, OnErr};
ghost use Rattle.std.specs.VecDeque.{deque_len};
ghost use Rattle.lisp_memory.specs.Room.{DequeHasRoom};

use crate::memory::{Memory, asked};
use std::alloc::AllocError;
use std::collections::VecDeque;

/// `reserve` of a `VecDeque`.
pub trait FallibleDeque {
    fn make_room_for<U>(&mut self, items: &[U]) -> Result<(), AllocError>;
}

impl<T, A: Memory> FallibleDeque for VecDeque<T, A> {
    /// As `VecDeque::reserve`, of one element for each of these items.
    fn make_room_for<U>(&mut self, items: &[U]) -> Result<(), AllocError>
        ensures items { self.new.items ≡ self.old.items }
        ensures len { deque_len self.new ≡ deque_len self.old }
        ensures ok { OnOk result (DequeHasRoom self.new items.now) }
        ensures succeeds { DequeHasRoom self.old items.now → IsOk result }
        ensures refused { OnErr result A.may_refuse }
    {
        asked::<A, _, _>(self.reserve(items.len()))
    }
}
