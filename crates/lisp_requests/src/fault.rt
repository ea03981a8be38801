//! Why bytes are no Map-Request, Map-Reply or encapsulated Map-Request.

ghost use Rattle.std.specs.Prelude.{◌≡◌};
ghost use Rattle.lisp_requests.specs.Fault.{fault_number, fault_of};
ghost use Rattle.lisp_requests.specs.declared.fault.RequestFault.TheVariants.{OutOfMemory};

use lisp_records::RecordFault;
use std::alloc::{AllocError, AllocFailed};
use thiserror::Error;

/// What is wrong with the bytes: the first fault from left to right.
#[derive(Clone, Copy, Debug, PartialEq, Eq, Error)]
pub enum RequestFault {
    /// No memory for the addresses or records; nothing is known of the bytes after them.
    #[error("out of memory")]
    OutOfMemory,
    /// The bytes end before the message does.
    #[error("the message is cut short")]
    Short,
    /// Another message type than the one that is read.
    #[error("the message is of another type")]
    Kind,
    /// An encapsulated message with an authentication header (S): LISP-SEC is not served.
    #[error("an authentication header stands before the IP header")]
    Security,
    /// An IP version other than 4 and 6.
    #[error("the inner IP header is of another version than 4 and 6")]
    IpVersion,
    /// An IHL below 5: the IPv4 header has fewer than 20 bytes.
    #[error("the inner IPv4 header is too short")]
    IpHeaderLength,
    /// A total length or payload length which the header doesn't fit, or which is more than what is there.
    #[error("the inner IP length is wrong")]
    IpLength,
    /// A fragment: MF, or an offset other than 0.
    #[error("the inner IP datagram is a fragment")]
    Fragment,
    /// A protocol, or next header, other than UDP (17).
    #[error("the inner IP datagram carries no UDP")]
    Protocol,
    /// The IPv4 header doesn't sum to all ones.
    #[error("the inner IPv4 header has a wrong checksum")]
    IpChecksum,
    /// A UDP destination port other than 4342.
    #[error("the inner UDP destination port is not 4342")]
    Port,
    /// A UDP length below 8, or more than what is there.
    #[error("the inner UDP length is wrong")]
    UdpLength,
    /// The UDP datagram doesn't sum to all ones with its pseudo-header; 0 over IPv6.
    #[error("the inner UDP datagram has a wrong checksum")]
    UdpChecksum,
    /// A Map-Request without a record.
    #[error("the Map-Request has no record")]
    NoRecord,
    /// An address family that is neither IPv4 (1) nor IPv6 (2), nor 0 for the Source EID.
    #[error("an address family is neither IPv4 nor IPv6")]
    Afi,
    /// An EID mask longer than its address.
    #[error("an EID mask is longer than its address")]
    Mask,
    /// Bytes after the records of a Map-Reply.
    #[error("bytes stand after the message")]
    Trailing,
}

impl RequestFault {
    /// The number that operators see: `OutOfMemory` 9, and the others from `Short` 110 to `Trailing` 125 in the order in
    /// which they stand here.
    pub const fn number(&self) -> u16
        ensures { result ≡ fault_number self.now }
    {
        match self {
            RequestFault::OutOfMemory => 9,
            RequestFault::Short => 110,
            RequestFault::Kind => 111,
            RequestFault::Security => 112,
            RequestFault::IpVersion => 113,
            RequestFault::IpHeaderLength => 114,
            RequestFault::IpLength => 115,
            RequestFault::Fragment => 116,
            RequestFault::Protocol => 117,
            RequestFault::IpChecksum => 118,
            RequestFault::Port => 119,
            RequestFault::UdpLength => 120,
            RequestFault::UdpChecksum => 121,
            RequestFault::NoRecord => 122,
            RequestFault::Afi => 123,
            RequestFault::Mask => 124,
            RequestFault::Trailing => 125,
        }
    }
}

impl From<RecordFault> for RequestFault {
    ghost from_gives = { λ fault given. given ≡ fault_of fault };

    fn from(fault: RecordFault) -> RequestFault {
        match fault {
            RecordFault::Short => RequestFault::Short,
            RecordFault::Afi => RequestFault::Afi,
            RecordFault::Mask => RequestFault::Mask,
            RecordFault::OutOfMemory => RequestFault::OutOfMemory,
        }
    }
}

impl From<AllocError> for RequestFault {
    ghost from_gives = { λ _ fault. fault ≡ OutOfMemory };

    fn from(_error: AllocError) -> RequestFault {
        RequestFault::OutOfMemory
    }
}

impl<T: Drop> From<AllocFailed<T>> for RequestFault {
    ghost from_gives = { λ _ fault. fault ≡ OutOfMemory };

    fn from(_failed: AllocFailed<T>) -> RequestFault {
        RequestFault::OutOfMemory
    }
}
