//! What nodes send each other.

ghost use Rattle.std.specs.Prelude.{◌≡◌, ◌<◌, ◌++◌, ◌∷◌, []};
ghost use Rattle.std.specs.Vec.{vec_len, vec_capacity};

use lisp_memory::Memory;
use lisp_records::{Addr, Bytes};
use std::alloc::{Allocator, Global};
use std::marker::Model;

/// A datagram that a node sent.
#[derive(Debug, Drop)]
pub struct Datagram<A: Allocator = Global> {
    /// The address of the node that sent it.
    pub from: Addr,
    /// The address that it was sent to.
    pub to: Addr,
    /// The message.
    pub bytes: Bytes<A>,
}

impl<A: Allocator> Model for Datagram<A> {
    ghost use Rattle.lisp_refinement.specs.World.{DatagramValue};

    ghost Value = { DatagramValue };

    ghost view = { λ d. record { from = d.from; to = d.to; bytes = d.bytes } };
}

/// A datagram goes to the end of those that were sent, which have room for it; the others are left unchanged. Takes no
/// memory.
pub(crate) fn post<A: Memory>(bag: &mut Vec<Datagram<A>, A>, datagram: Datagram<A>)
    requires { vec_len bag.old < vec_capacity bag.old }
    ensures { bag.new.items ≡ bag.old.items ++ datagram ∷ [] }
{
    bag.push_reserved(datagram);
}
