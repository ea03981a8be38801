//! Why a store gave no answer.

ghost use Rattle.std.specs.Prelude.{◌≡◌};
ghost use Rattle.lisp_nonces.specs.Fault.{fault_number};
ghost use Rattle.lisp_nonces.specs.declared.fault.StoreFault.TheVariants.{OutOfMemory};

use std::alloc::{AllocError, AllocFailed};
use thiserror::Error;

/// What kept a store from loading or saving.
#[derive(Clone, Copy, Debug, PartialEq, Eq, Error)]
pub enum StoreFault {
    /// The device failed: after a save it is open whether the value was kept.
    #[error("the device failed")]
    Device,
    /// What was kept can't be read: no store's save answers it.
    #[error("what was kept is damaged")]
    Damaged,
    /// No memory; nothing was changed.
    #[error("out of memory")]
    OutOfMemory,
}

impl StoreFault {
    /// The number that operators see: `Device` 30, `Damaged` 31, `OutOfMemory` 32.
    pub const fn number(&self) -> u16
        ensures { result ≡ fault_number self.now }
    {
        match self {
            StoreFault::Device => 30,
            StoreFault::Damaged => 31,
            StoreFault::OutOfMemory => 32,
        }
    }
}

impl From<AllocError> for StoreFault {
    ghost from_gives = { λ _ fault. fault ≡ OutOfMemory };

    fn from(_error: AllocError) -> StoreFault {
        StoreFault::OutOfMemory
    }
}

impl<T: Drop> From<AllocFailed<T>> for StoreFault {
    ghost from_gives = { λ _ fault. fault ≡ OutOfMemory };

    fn from(_failed: AllocFailed<T>) -> StoreFault {
        StoreFault::OutOfMemory
    }
}
