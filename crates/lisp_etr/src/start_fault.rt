//! Why a router doesn't start.

ghost use Rattle.std.specs.Prelude.{◌≡◌};
ghost use Rattle.lisp_etr.specs.Faults.{start_fault_number};

use crate::config::EtrConfig;
use lisp_nonces::StoreFault;
use lisp_records::Database;
use std::alloc::{Allocator, Global};
use thiserror::Error;

/// What keeps a router from starting; `OutOfMemory` comes first.
#[derive(Clone, Copy, Debug, PartialEq, Eq, Error)]
pub enum StartFault {
    /// The store can't report the last nonce.
    #[error("the last nonce can't be loaded: {0}")]
    Store(StoreFault),
    /// No memory; the store wasn't asked.
    #[error("out of memory")]
    OutOfMemory,
}

impl StartFault {
    /// The number that operators see: `Store` 35, `OutOfMemory` 36.
    pub const fn number(&self) -> u16
        ensures { result ≡ start_fault_number self.now }
    {
        match self {
            StartFault::Store(_) => 35,
            StartFault::OutOfMemory => 36,
        }
    }
}

/// A router that didn't start: why, and what it was given.
#[derive(Drop)]
pub struct StartRefused<A: Allocator = Global> {
    /// Why it didn't start.
    pub fault: StartFault,
    /// The configuration that was given.
    pub config: EtrConfig<A>,
    /// The database that was given.
    pub database: Database<A>,
}
