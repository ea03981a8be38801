//! The Map-Servers of a router.

ghost use Rattle.std.specs.Prelude.{◌≡◌};

use lisp_records::Addr;
use std::alloc::{Allocator, Global};
use std::marker::Model;

/// The addresses of Map-Servers in their order, seen as a list.
#[derive(Debug, Drop)]
pub struct Servers<A: Allocator = Global> {
    items: Vec<Addr, A>,
}

impl<A: Allocator> Model for Servers<A> {
    ghost use Rattle.std.specs.Prelude.{List};
    ghost use Rattle.lisp_records.specs.declared.address.Addr.{Addr};

    ghost Value = { List Addr };

    ghost view = { λ s. s.items.items };
}

impl<A: Allocator> Servers<A> {
    /// The addresses of a `Vec`; takes no memory.
    pub fn from_vec(items: Vec<Addr, A>) -> Servers<A>
        ensures { result ≡ items.items }
    {
        Servers { items }
    }

    /// The addresses in their order.
    pub fn as_slice(&self) -> &[Addr]
        ensures { result.now ≡ self.now }
    {
        &self.items
    }
}
