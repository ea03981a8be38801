//! The call of `Box` that asks for memory.

ghost use Rattle.std.specs.Prelude.{◌≡◌, IfOk, IfErr, OnErr};

use crate::memory::{Memory, asked};
use std::alloc::AllocFailed;

/// `new` of a `Box`.
pub trait FallibleBox<T, A>: Sized {
    fn try_new(alloc: A, value: T) -> Result<Self, AllocFailed<T>>;
}

impl<T, A: Memory> FallibleBox<T, A> for Box<T, A> {
    /// As `Box::new`.
    fn try_new(alloc: A, value: T) -> Result<Box<T, A>, AllocFailed<T>>
        ensures ok { IfOk result (λ whole. whole.value ≡ value) }
        ensures value_returned { IfErr result (λ failed. failed.value ≡ value) }
        ensures refused { OnErr result A.may_refuse }
    {
        asked::<A, _, _>(Box::new(alloc, value))
    }
}
