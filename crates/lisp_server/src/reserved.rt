//! Vectors that have room.

ghost use Rattle.std.specs.Prelude.{◌≡◌, ◌≤◌, ◌<◌, vec_len, vec_capacity};
ghost use Rattle.std.specs.List.{insert};

use std::alloc::Allocator;

/// As `Vec::insert`, where there is room for one more. Takes no memory.
pub(crate) fn insert_reserved<T: Drop, A: Allocator>(items: &mut Vec<T, A>, place: usize, item: T)
    requires within { place ≤ vec_len items.old }
    requires room { vec_len items.old < vec_capacity items.old }
    ensures { items.new.items ≡ insert items.old.items place item }
{
    let _ = items.insert(place, item);
}
