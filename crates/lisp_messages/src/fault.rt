//! Why bytes are no message.

ghost use Rattle.std.specs.Prelude.{◌≡◌};
ghost use Rattle.lisp_messages.specs.Fault.{fault_number, fault_at};
ghost use Rattle.lisp_messages.specs.declared.fault.ReadFault.TheVariants.{OutOfMemory};

use lisp_records::RecordFault;
use std::alloc::{AllocError, AllocFailed};
use thiserror::Error;

/// What is wrong with the bytes of a message: the first fault from left to right.
#[derive(Clone, Copy, Debug, PartialEq, Eq, Error)]
pub enum ReadFault {
    /// The bytes end before the message does.
    #[error("the message is cut short")]
    Short,
    /// No memory for the records; nothing is known of the bytes after them.
    #[error("out of memory")]
    OutOfMemory,
    /// A message type other than 3, 4 and 5.
    #[error("the message is no Map-Register, Map-Notify or Map-Notify-Ack")]
    Kind,
    /// An Algorithm ID other than 2, HMAC-SHA-256-128-None.
    #[error("the Algorithm ID is not HMAC-SHA-256-128-None")]
    Algorithm,
    /// An Authentication Data Length other than 16.
    #[error("the Authentication Data has not 16 bytes")]
    AuthLength,
    /// A Map-Register with bit I clear: it has no xTR-ID and Site-ID.
    #[error("the Map-Register has no xTR-ID and Site-ID")]
    NoIds,
    /// Bytes after the end of the message.
    #[error("bytes stand behind the message")]
    Trailing,
    /// The first record that can't be read, by its place from 0 on, and what is wrong with it;
    /// never `RecordFault::OutOfMemory`.
    #[error("record {0}: {1}")]
    Record(u8, RecordFault),
}

impl ReadFault {
    /// The number that operators see: `Short` 1, `OutOfMemory` 9, `Kind` 10, `Algorithm` 11,
    /// `AuthLength` 12, `NoIds` 13, `Trailing` 14, `Record` 15.
    pub const fn number(&self) -> u16
        ensures { result ≡ fault_number self.now }
    {
        match self {
            ReadFault::Short => 1,
            ReadFault::OutOfMemory => 9,
            ReadFault::Kind => 10,
            ReadFault::Algorithm => 11,
            ReadFault::AuthLength => 12,
            ReadFault::NoIds => 13,
            ReadFault::Trailing => 14,
            ReadFault::Record(..) => 15,
        }
    }

    /// The fault of a message whose record at this place has a fault.
    pub(crate) const fn of_record(place: u8, fault: RecordFault) -> ReadFault
        ensures { result ≡ fault_at place fault }
    {
        match fault {
            RecordFault::OutOfMemory => ReadFault::OutOfMemory,
            _ => ReadFault::Record(place, fault),
        }
    }
}

impl From<AllocError> for ReadFault {
    ghost from_gives = { λ _ fault. fault ≡ OutOfMemory };

    fn from(_error: AllocError) -> ReadFault {
        ReadFault::OutOfMemory
    }
}

impl<T: Drop> From<AllocFailed<T>> for ReadFault {
    ghost from_gives = { λ _ fault. fault ≡ OutOfMemory };

    fn from(_failed: AllocFailed<T>) -> ReadFault {
        ReadFault::OutOfMemory
    }
}
