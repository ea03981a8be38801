//! A box in its two parts, so that a program in C can keep the pointer.

ghost use Rattle.std.specs.Prelude.{◌≡◌};
ghost use Rattle.std.specs.Box.Ownership.{box_owns};

use std::alloc::Allocator;
use std::marker::Model;

/// A box's pointer and its allocator, which own the value and its block.
pub struct BoxParts<T, A: Allocator> {
    pub at: *mut T,
    pub alloc: A,
    pub ghost value: { T },
}

impl<T, A: Allocator> Model for BoxParts<T, A> {
    ghost also_owns = { λ parts. box_owns (A.dealloc_token parts.alloc) T.row parts.at parts.value };
}

impl<T: Drop, A: Allocator> BoxParts<T, A> {
    /// Takes the box apart.
    pub fn of(whole: Box<T, A>) -> BoxParts<T, A>
        ensures { result.value ≡ whole.value }
    {
        let (at, alloc) = Box::into_raw_with_allocator(whole);
        BoxParts { at, alloc }
    }

    /// Makes the box again.
    pub fn into_box(self) -> Box<T, A>
        ensures { result.value ≡ self.value }
    {
        let BoxParts { at, alloc } = self;
        unsafe { Box::from_raw(alloc, at) }
    }
}
