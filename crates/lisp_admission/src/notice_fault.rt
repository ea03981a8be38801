//! Why a Map-Server doesn't send an unsolicited Map-Notify (notice).

ghost use Rattle.std.specs.Prelude.{◌≡◌};
ghost use Rattle.lisp_admission.specs.NoticeFault.{notice_fault_number};
ghost use Rattle.lisp_admission.specs.declared.notice_fault.NoticeFault.TheVariants.{OutOfMemory};

use lisp_nonces::StoreFault;
use std::alloc::{AllocError, AllocFailed};
use thiserror::Error;

/// The first thing that keeps a Map-Server from sending a notice, in this order; where one is sent again,
/// `NotDue`, then `OutOfMemory`.
#[derive(Clone, Copy, Debug, PartialEq, Eq, Error)]
pub enum NoticeFault {
    /// No record of the router is alive.
    #[error("the router has no registered record")]
    NotRegistered,
    /// The router's records are too many, or too long, for one message.
    #[error("the router's records are too many, or too long, for one message")]
    TooLarge,
    /// The last nonce of the notices can't be loaded from the store.
    #[error("the last nonce of the notices can't be loaded: {0}")]
    StoreLoad(StoreFault),
    /// The last nonce of the notices is 2^64 - 1: the Map-Server can send no more of them.
    #[error("the nonces of the notices are spent")]
    NonceSpent,
    /// Out of memory to build the Map-Notify, to keep it or to copy it.
    #[error("out of memory")]
    OutOfMemory,
    /// The nonce can't be saved: at `Device` it is open whether it was.
    #[error("the nonce can't be saved: {0}")]
    StoreSave(StoreFault),
    /// No notice to the router is due.
    #[error("no notice is due")]
    NotDue,
}

impl NoticeFault {
    /// The number that operators see: `NotRegistered` 62, `TooLarge` 63, `NonceSpent` 64, `StoreSave` 65,
    /// `OutOfMemory` 66, `NotDue` 67, `StoreLoad` 68.
    pub const fn number(&self) -> u16
        ensures { result ≡ notice_fault_number self.now }
    {
        match self {
            NoticeFault::NotRegistered => 62,
            NoticeFault::TooLarge => 63,
            NoticeFault::NonceSpent => 64,
            NoticeFault::StoreSave(_) => 65,
            NoticeFault::OutOfMemory => 66,
            NoticeFault::NotDue => 67,
            NoticeFault::StoreLoad(_) => 68,
        }
    }
}

impl From<AllocError> for NoticeFault {
    ghost from_gives = { λ _ fault. fault ≡ OutOfMemory };

    fn from(_error: AllocError) -> NoticeFault {
        NoticeFault::OutOfMemory
    }
}

impl<T: Drop> From<AllocFailed<T>> for NoticeFault {
    ghost from_gives = { λ _ fault. fault ≡ OutOfMemory };

    fn from(_failed: AllocFailed<T>) -> NoticeFault {
        NoticeFault::OutOfMemory
    }
}
