//! Any of the three messages.

use crate::notify::MapNotify;
use crate::register::MapRegister;
use std::alloc::{Allocator, Global};

/// A message that was read.
#[derive(Debug, Drop)]
pub enum Message<A: Allocator = Global> {
    /// Type 3.
    Register(MapRegister<A>),
    /// Type 4 or 5.
    Notify(MapNotify<A>),
}
