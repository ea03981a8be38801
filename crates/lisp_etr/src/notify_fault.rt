//! Why a router refuses a message.

ghost use Rattle.std.specs.Prelude.{◌≡◌};
ghost use Rattle.lisp_etr.specs.Faults.{notify_fault_number, fault_of_read};
ghost use Rattle.lisp_etr.specs.declared.notify_fault.NotifyFault.TheVariants.{OutOfMemory};

use lisp_messages::ReadFault;
use std::alloc::AllocError;
use thiserror::Error;

/// The first check that a message fails at a router, in this order (RFC 9301 section 5.7); `OutOfMemory`
/// may come in place of any from the records on.
#[derive(Clone, Copy, Debug, PartialEq, Eq, Error)]
pub enum NotifyFault {
    /// The bytes spell no message.
    #[error("the message can't be read: {0}")]
    Read(ReadFault),
    /// No Map-Notify, or not from the address of a Map-Server of this router.
    #[error("it is no Map-Notify from a Map-Server of this router")]
    NotMine,
    /// A Key ID that isn't the router's.
    #[error("the key is not the router's")]
    WrongKey,
    /// Authentication Data that isn't the tag under the router's secret.
    #[error("the Authentication Data is wrong")]
    BadAuth,
    /// A nonce below 2^63 that isn't that of the last Map-Register of any part to that Map-Server.
    #[error("the last Map-Register had nonce {latest}")]
    Stale {
        /// The greatest nonce of those Map-Registers; 0 where none was sent since the start.
        latest: u64,
    },
    /// No memory to read the message or to build the answer.
    #[error("out of memory")]
    OutOfMemory,
}

impl NotifyFault {
    /// The number that operators see: `Read` 43, `NotMine` 44, `WrongKey` 45, `BadAuth` 46, `Stale` 47,
    /// `OutOfMemory` 48.
    pub const fn number(&self) -> u16
        ensures { result ≡ notify_fault_number self.now }
    {
        match self {
            NotifyFault::Read(_) => 43,
            NotifyFault::NotMine => 44,
            NotifyFault::WrongKey => 45,
            NotifyFault::BadAuth => 46,
            NotifyFault::Stale { .. } => 47,
            NotifyFault::OutOfMemory => 48,
        }
    }

    /// The refusal of bytes that can't be read.
    pub(crate) const fn of_read(fault: ReadFault) -> NotifyFault
        ensures { result ≡ fault_of_read fault }
    {
        match fault {
            ReadFault::OutOfMemory => NotifyFault::OutOfMemory,
            _ => NotifyFault::Read(fault),
        }
    }
}

impl From<AllocError> for NotifyFault {
    ghost from_gives = { λ _ fault. fault ≡ OutOfMemory };

    fn from(_error: AllocError) -> NotifyFault {
        NotifyFault::OutOfMemory
    }
}
