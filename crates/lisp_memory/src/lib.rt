//! Memory that may be refused: std's calls that ask for it, each of which says that it fails only where its
//! memory may refuse.
//!
//! # Decisions
//!
//! - Only this crate can make a kind of memory's `may_refuse`. So a contract that names it says that out of memory comes only
//!   where memory was refused.
//! - std's calls are methods of extension traits, named `try_..` as in other crates of fallible collections. Room is made by
//!   `make_room`: std's `Vec` has a `try_reserve` of its own, which says nothing of memory.
//! - No call asks for room without bound: `make_room` takes at most 2^32 elements, and the others as many as there are items.
//!   Else a body could give up at will, since every memory refuses nearly 2^64 bytes.
#![tactic(auto)]

mod boxed;
mod deque;
mod map;
mod memory;
mod set;
mod string;
mod vec;

pub use boxed::FallibleBox;
pub use deque::FallibleDeque;
pub use map::FallibleMap;
pub use memory::{Memory, Seal};
pub use set::FallibleSet;
pub use string::FallibleString;
pub use vec::{FallibleCopies, FallibleVec};
