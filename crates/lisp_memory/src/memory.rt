//! Which memory may be refused, and the evidence that it was.

ghost use Rattle.std.specs.Prelude.{◌≡◌, OnErr};
ghost use Rattle.lisp_memory.specs.Refusal.{MachineMayRefuse};

use std::alloc::{Allocator, Global};

/// The right to say that memory was refused. Only this crate makes one, so that only its calls, which ask
/// for memory, can say it.
#[derive(Drop)]
pub struct Seal {
    _private: (),
}

/// Memory of which contracts can say that it may be refused. The fact is of the kind of memory, not of one
/// call: over memory that is never refused, no call answers out of memory.
pub trait Memory: Allocator {
    ghost may_refuse: { Type 0 };

    /// Memory of this kind was refused.
    fn refused(seal: Seal)
        ensures refused { may_refuse };
}

impl Memory for Global {
    ghost may_refuse = { MachineMayRefuse };

    fn refused(_seal: Seal) {}
}

impl<A: Memory> Memory for &A {
    ghost may_refuse = { A.may_refuse };

    fn refused(seal: Seal) {
        A::refused(seal);
    }
}

// What std answered to a call that asked for memory of `A`: the one place where the evidence is made.
pub(crate) fn asked<A: Memory, T, E>(answer: Result<T, E>) -> Result<T, E>
    ensures same { result ≡ answer }
    ensures refused { OnErr result A.may_refuse }
{
    match answer {
        Ok(value) => Ok(value),
        Err(error) => {
            A::refused(Seal { _private: () });
            Err(error)
        }
    }
}
