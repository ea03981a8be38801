//! Why bytes are no record.

ghost use Rattle.std.specs.Prelude.{◌≡◌};
ghost use Rattle.lisp_records.specs.Fault.{fault_number};
ghost use Rattle.lisp_records.specs.declared.fault.RecordFault.TheVariants.{OutOfMemory};

use std::alloc::{AllocError, AllocFailed};
use thiserror::Error;

/// What is wrong with the bytes of a record: the first fault from left to right.
#[derive(Clone, Copy, Debug, PartialEq, Eq, Error)]
pub enum RecordFault {
    /// The bytes end before the record does.
    #[error("the record is cut short")]
    Short,
    /// An address family that is neither IPv4 (1) nor IPv6 (2).
    #[error("an address family is neither IPv4 nor IPv6")]
    Afi,
    /// An EID mask longer than its address.
    #[error("the EID mask is longer than its address")]
    Mask,
    /// No memory for the locators; nothing is known of the bytes after them.
    #[error("out of memory")]
    OutOfMemory,
}

impl RecordFault {
    /// The number that operators see: `Short` 1, `Afi` 2, `Mask` 3, `OutOfMemory` 9.
    pub const fn number(&self) -> u16
        ensures { result ≡ fault_number self.now }
    {
        match self {
            RecordFault::Short => 1,
            RecordFault::Afi => 2,
            RecordFault::Mask => 3,
            RecordFault::OutOfMemory => 9,
        }
    }
}

impl From<AllocError> for RecordFault {
    ghost from_gives = { λ _ fault. fault ≡ OutOfMemory };

    fn from(_error: AllocError) -> RecordFault {
        RecordFault::OutOfMemory
    }
}

impl<T: Drop> From<AllocFailed<T>> for RecordFault {
    ghost from_gives = { λ _ fault. fault ≡ OutOfMemory };

    fn from(_failed: AllocFailed<T>) -> RecordFault {
        RecordFault::OutOfMemory
    }
}
