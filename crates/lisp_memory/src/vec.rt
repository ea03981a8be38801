//! The calls of `Vec` that ask for memory.

ghost use Rattle.std.specs.Prelude.{◌≡◌, ◌<◌, ◌≤◌, ◌+◌, ◌∷◌, [], IfOk, IsOk, OnOk, OnErr, length, replicate};
ghost use Rattle.std.specs.Vec.{vec_len, vec_capacity};
ghost use Rattle.lisp_memory.specs.Room.{most_room, VecHasRoom};
ghost use Rattle.lisp_memory.specs.Appending.{VecAppends};

use crate::memory::{Memory, asked};
use std::alloc::{AllocError, AllocFailed};

/// `push` and `reserve` of a `Vec`.
pub trait FallibleVec<T>: Sized {
    fn try_push(&mut self, value: T) -> Result<(), AllocFailed<T>>;

    fn make_room(&mut self, additional: usize) -> Result<(), AllocError>
        requires { additional ≤ most_room };

    fn make_room_for<U>(&mut self, items: &[U]) -> Result<(), AllocError>;
}

impl<T, A: Memory> FallibleVec<T> for Vec<T, A> {
    /// As `Vec::push`.
    fn try_push(&mut self, value: T) -> Result<(), AllocFailed<T>>
        ensures items { VecAppends result self.old self.new (value ∷ []) }
        ensures succeeds { vec_len self.old < vec_capacity self.old → IsOk result }
        ensures refused { OnErr result A.may_refuse }
    {
        asked::<A, _, _>(self.push(value))
    }

    /// As `Vec::reserve`, of at most 2^32 elements: room beyond any use is refused by every memory.
    fn make_room(&mut self, additional: usize) -> Result<(), AllocError>
        requires { additional ≤ most_room }
        ensures items { self.new.items ≡ self.old.items }
        ensures len { vec_len self.new ≡ vec_len self.old }
        ensures ok { OnOk result (vec_len self.new + additional ≤ vec_capacity self.new) }
        ensures succeeds { vec_len self.old + additional ≤ vec_capacity self.old → IsOk result }
        ensures refused { OnErr result A.may_refuse }
    {
        asked::<A, _, _>(self.reserve(additional))
    }

    /// As `Vec::reserve`, of one element for each of these items.
    fn make_room_for<U>(&mut self, items: &[U]) -> Result<(), AllocError>
        ensures items { self.new.items ≡ self.old.items }
        ensures len { vec_len self.new ≡ vec_len self.old }
        ensures ok { OnOk result (VecHasRoom self.new items.now) }
        ensures succeeds { VecHasRoom self.old items.now → IsOk result }
        ensures refused { OnErr result A.may_refuse }
    {
        asked::<A, _, _>(self.reserve(items.len()))
    }
}

/// `extend_from_slice`, `from_slice` and `vec!` of a `Vec`, for elements that are copied.
pub trait FallibleCopies<T: Copy, A>: Sized {
    fn try_extend_from_slice(&mut self, other: &[T]) -> Result<(), AllocError>;

    fn try_from_slice(alloc: A, items: &[T]) -> Result<Self, AllocError>;

    fn try_for_each<U>(alloc: A, element: T, items: &[U]) -> Result<Self, AllocError>;
}

impl<T: Copy, A: Memory> FallibleCopies<T, A> for Vec<T, A> {
    /// As `Vec::extend_from_slice`.
    fn try_extend_from_slice(&mut self, other: &[T]) -> Result<(), AllocError>
        ensures items { VecAppends result self.old self.new other.now }
        ensures succeeds { VecHasRoom self.old other.now → IsOk result }
        ensures refused { OnErr result A.may_refuse }
    {
        asked::<A, _, _>(self.extend_from_slice(other))
    }

    /// As `Vec::from_slice`; takes no memory where there is nothing to copy.
    fn try_from_slice(alloc: A, items: &[T]) -> Result<Vec<T, A>, AllocError>
        ensures items { IfOk result (λ v. v.items ≡ items.now) }
        ensures succeeds { items.now ≡ [] → IsOk result }
        ensures refused { OnErr result A.may_refuse }
    {
        let mut copies = asked::<A, _, _>(Vec::with_capacity(alloc, items.len()))?;
        copies.try_extend_from_slice(items)?;
        Ok(copies)
    }

    /// As `vec![in alloc; element; items.len()]`; takes no memory where there are no items.
    fn try_for_each<U>(alloc: A, element: T, items: &[U]) -> Result<Vec<T, A>, AllocError>
        ensures items { IfOk result (λ v. v.items ≡ replicate (length items.now) element) }
        ensures succeeds { items.now ≡ [] → IsOk result }
        ensures refused { OnErr result A.may_refuse }
    {
        let mut copies = Vec::new(alloc);
        asked::<A, _, _>(copies.resize(items.len(), element))?;
        Ok(copies)
    }
}
