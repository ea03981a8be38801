//! The nonces that routers and Map-Servers keep: for which pair, what every store of them promises, and a store in memory,
//! for worlds and tests.
//!
//! # Decisions
//!
//! - What every store promises stands here with the store in memory, below all cores. `lisp_store`, which passes it on, adds
//!   the store in files, which only the programs on files need.
//! - An obedient store does what it is armed with, so that a schedule can say which loads and saves fail. Of any other store,
//!   as that in files, nothing of this is said.
//! - What a lost store holds is open, but for at least one value of each pair; the store in memory holds nothing then. So no
//!   promise depends on what is on a new disk.
#![tactic(auto)]

mod fate;
mod fault;
pub mod laws;
mod memory;
mod nonce;
mod pair;
mod store;

pub use fate::Fate;
pub use fault::StoreFault;
pub use memory::MemoryStore;
pub use nonce::{FIRST_NOTICE_NONCE, LAST_ROUTER_NONCE, MAX_NONCE_BLOCK};
pub use pair::{Pair, PairKind};
pub use store::{NonceStore, WorldStore};
