//! A list of bytes that a value keeps.

ghost use Rattle.std.specs.Prelude.{◌≡◌, IfOk, OnErr};

use lisp_memory::{FallibleCopies, Memory};
use std::alloc::{AllocError, Allocator, Global};
use std::marker::Model;

/// Bytes in their order, seen as a list.
#[derive(Debug, Drop)]
pub struct Bytes<A: Allocator = Global> {
    items: Vec<u8, A>,
}

impl<A: Allocator> Model for Bytes<A> {
    ghost use Rattle.std.specs.Prelude.{List, ℕ};

    ghost Value = { List ℕ };

    ghost view = { λ b. b.items.items };
}

impl<A: Allocator> Bytes<A> {
    /// The bytes of a `Vec`; takes no memory.
    pub fn from_vec(items: Vec<u8, A>) -> Bytes<A>
        ensures { result ≡ items.items }
    {
        Bytes { items }
    }

    /// The bytes in their order.
    pub fn as_slice(&self) -> &[u8]
        ensures { result.now ≡ self.now }
    {
        &self.items
    }

    /// Equal bytes, in memory of `alloc`.
    pub fn copy<B: Memory>(&self, alloc: B) -> Result<Bytes<B>, AllocError>
        ensures equal { IfOk result (λ b. b ≡ self.now) }
        ensures memory { OnErr result B.may_refuse }
    {
        let items = Vec::try_from_slice(alloc, self.as_slice())?;
        Ok(Bytes { items })
    }

    /// The bytes as a `Vec`; takes no memory.
    pub fn into_vec(self) -> Vec<u8, A>
        ensures { result.items ≡ self }
    {
        self.items
    }
}
