//! Which Map-Servers a router registers with.

ghost use Rattle.std.specs.Prelude.{◌≡◌};

use std::alloc::{Allocator, Global};
use std::marker::Model;

/// Places in the list of Map-Servers, in a router's order, seen as a list.
#[derive(Debug, Drop)]
pub struct Places<A: Allocator = Global> {
    items: Vec<usize, A>,
}

impl<A: Allocator> Model for Places<A> {
    ghost use Rattle.std.specs.Prelude.{List, ℕ};

    ghost Value = { List ℕ };

    ghost view = { λ p. p.items.items };
}

impl<A: Allocator> Places<A> {
    /// The places of a `Vec`; takes no memory.
    pub fn from_vec(items: Vec<usize, A>) -> Places<A>
        ensures { result ≡ items.items }
    {
        Places { items }
    }

    /// The places in their order.
    pub fn as_slice(&self) -> &[usize]
        ensures { result.now ≡ self.now }
    {
        &self.items
    }
}
