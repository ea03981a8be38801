//! Bytes that wait, in the order in which they came.

ghost use Rattle.std.specs.Prelude.{◌≡◌, ◌+◌, ◌≤◌, [], ◌++◌, drop, length, IfOk, OnErr};
ghost use Rattle.lisp_log.specs.Waiting.{room};

use lisp_memory::{FallibleVec, Memory};
use std::alloc::{AllocError, Allocator};
use std::marker::Model;

/// How many bytes may wait.
pub(crate) const ROOM: usize = 65_536;

/// At most 65,536 bytes that wait, first in, first out, in a buffer of twice that size. What was taken stays in the buffer before
/// them until it is 65,536 bytes or nothing waits: so for each byte that is taken at most one is moved.
#[derive(Drop)]
pub(crate) struct ByteQueue<A: Allocator> {
    bytes: Vec<u8, A>,
    spent: usize,
}

impl<A: Allocator> Model for ByteQueue<A> {
    ghost use Rattle.std.specs.Prelude.{ℕ, ◌+◌, ◌≤◌, List, drop, length};
    ghost use Rattle.std.specs.Vec.{vec_capacity};
    ghost use Rattle.lisp_log.specs.Waiting.{room};

    ghost Value = { List ℕ };

    ghost view = { λ q. drop q.spent q.bytes.items };

    ghost invariant = { λ q. (q.spent ≤ length q.bytes.items) × (q.spent ≤ room)
        × (length (drop q.spent q.bytes.items) ≤ room) × (room + room ≤ vec_capacity q.bytes) };
}

impl<A: Memory + Copy> ByteQueue<A> {
    /// None yet. Takes all the memory that it ever takes.
    pub(crate) fn new(alloc: A) -> Result<ByteQueue<A>, AllocError>
        ensures empty { IfOk result (λ q. q ≡ []) }
        ensures memory { OnErr result A.may_refuse }
    {
        let mut bytes = Vec::new(alloc);
        bytes.make_room(2 * ROOM)?;
        Ok(ByteQueue { bytes, spent: 0 })
    }

    /// How many bytes wait.
    pub(crate) fn len(&self) -> usize
        ensures count { result ≡ length self.now }
        ensures within { result ≤ room }
    {
        self.bytes.len() - self.spent
    }

    /// The bytes that wait.
    pub(crate) fn as_slice(&self) -> &[u8]
        ensures { result.now ≡ self.now }
    {
        &self.bytes[self.spent..]
    }

    /// These bytes wait after the others. There must be room for them.
    pub(crate) fn append(&mut self, bytes: &[u8])
        requires { length self.old + length bytes.now ≤ room }
        ensures { self.new ≡ self.old ++ bytes.now }
    {
        // There is room, so no memory is asked for.
        let _appended = self.bytes.extend_from_slice(bytes);
    }

    /// So many bytes of the front wait no more.
    pub(crate) fn forget(&mut self, count: usize)
        requires { count ≤ length self.old }
        ensures { self.new ≡ drop count self.old }
    {
        if count == self.len() {
            self.bytes.clear();
            self.spent = 0;
        } else {
            self.spend(count);
        }
    }

    // The same, where some bytes are left. What was taken leaves the buffer once it is as long as what may wait.
    fn spend(&mut self, count: usize)
        requires { count ≤ length self.old }
        ensures { self.new ≡ drop count self.old }
    {
        let spent = self.spent + count;
        if spent < ROOM {
            self.spent = spent;
        } else {
            self.bytes.copy_within(spent.., 0);
            self.bytes.truncate(self.bytes.len() - spent);
            self.spent = 0;
        }
    }
}
