//! What keeps a look from a positive Map-Reply.

ghost use Rattle.std.specs.Prelude.{◌≡◌};
ghost use Rattle.lisp_look.specs.Fault.{look_fault_number, look_fault_status};
ghost use Rattle.lisp_look.specs.declared.fault.LookFault.TheVariants.{OutOfMemory};

use std::alloc::AllocError;
use thiserror::Error;

/// What keeps a look from a positive Map-Reply.
#[derive(Clone, Copy, Debug, PartialEq, Eq, Error)]
pub enum LookFault {
    /// The answer can't be written.
    #[error("standard output can't be written: check where the output goes")]
    Write,
    /// A receive failed.
    #[error("the socket can't receive: check the network interface of the ITR-RLOC")]
    Receive,
    /// A send failed.
    #[error("the socket can't send: check the route to the Map-Server")]
    Send,
    /// No socket can be bound at the ITR-RLOC, or the clock can't be read.
    #[error("no socket can be bound at the ITR-RLOC: --from takes an address of this machine")]
    Bind,
    /// Out of memory.
    #[error("out of memory: free some and try again")]
    OutOfMemory,
    /// No address of this machine is known from which the Map-Server is reached.
    #[error("it isn't known to which address of this machine a Map-Reply may go: name it by --from")]
    NoItrRloc,
    /// No Map-Reply with the nonce came.
    #[error("no Map-Reply came: check that a Map-Server runs there which replies to this ITR-RLOC")]
    Silent,
    /// The longest record that covers the EID-Prefix has no locators, or none covers it.
    #[error("the Map-Reply is negative: nothing is registered there")]
    Negative,
    /// The system has no random bytes for a nonce.
    #[error("the system has no random bytes for a nonce: try again")]
    NoNonce,
}

impl LookFault {
    /// The number that operators see: `Write` 88, `Receive` 90, `Send` 91, `Bind` 92, `OutOfMemory` 97, and from `NoItrRloc` 131
    /// to `NoNonce` 134 in the order in which they stand here.
    pub const fn number(&self) -> u16
        ensures { result ≡ look_fault_number self.now }
    {
        match self {
            LookFault::Write => 88,
            LookFault::Receive => 90,
            LookFault::Send => 91,
            LookFault::Bind => 92,
            LookFault::OutOfMemory => 97,
            LookFault::NoItrRloc => 131,
            LookFault::Silent => 132,
            LookFault::Negative => 133,
            LookFault::NoNonce => 134,
        }
    }

    /// The exit status: `NoItrRloc` 2, `Negative` 4, the others 1.
    pub const fn status(&self) -> u8
        ensures { result ≡ look_fault_status self.now }
    {
        match self {
            LookFault::NoItrRloc => 2,
            LookFault::Negative => 4,
            _ => 1,
        }
    }
}

impl From<AllocError> for LookFault {
    ghost from_gives = { λ _ fault. fault ≡ OutOfMemory };

    fn from(_error: AllocError) -> LookFault {
        LookFault::OutOfMemory
    }
}
