//! For tests: a store of which a call fails, one that keeps no promise about nonces, and a folder in memory.

mod failing;
mod liar;
mod memory_folder;

pub use failing::Failing;
pub use liar::Liar;
pub use memory_folder::MemoryFolder;
