//! Why a router doesn't send.

ghost use Rattle.std.specs.Prelude.{◌≡◌};
ghost use Rattle.lisp_etr.specs.Faults.{send_fault_number};
ghost use Rattle.lisp_etr.specs.declared.send_fault.SendFault.TheVariants.{OutOfMemory};

use lisp_nonces::StoreFault;
use std::alloc::AllocError;
use thiserror::Error;

/// The first thing that keeps a router from sending a Map-Register, in this order.
#[derive(Clone, Copy, Debug, PartialEq, Eq, Error)]
pub enum SendFault {
    /// No Map-Server has that number.
    #[error("there is no such Map-Server")]
    NoServer,
    /// The database has no part of that number.
    #[error("the database has no such part")]
    NoPart,
    /// The last nonce is 2^63 - 1 or more: the router needs a new key.
    #[error("the nonces are spent")]
    NonceSpent,
    /// No memory to build the Map-Register.
    #[error("out of memory")]
    OutOfMemory,
    /// The nonce wasn't saved: at `Device` it is open whether it is kept.
    #[error("the nonce can't be saved: {0}")]
    Store(StoreFault),
}

impl SendFault {
    /// The number that operators see: `NoServer` 40, `NonceSpent` 41, `Store` 42, `OutOfMemory` 48, `NoPart` 49.
    pub const fn number(&self) -> u16
        ensures { result ≡ send_fault_number self.now }
    {
        match self {
            SendFault::NoServer => 40,
            SendFault::NonceSpent => 41,
            SendFault::Store(_) => 42,
            SendFault::OutOfMemory => 48,
            SendFault::NoPart => 49,
        }
    }
}

impl From<AllocError> for SendFault {
    ghost from_gives = { λ _ fault. fault ≡ OutOfMemory };

    fn from(_error: AllocError) -> SendFault {
        SendFault::OutOfMemory
    }
}
