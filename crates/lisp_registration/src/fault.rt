//! Why a call is not done: a message is not written, a handle is not asked, a configuration starts no node.

ghost use Rattle.std.specs.Prelude.{◌≡◌};
ghost use Rattle.lisp_registration.specs.Fault.{handle_fault_number, node_fault_number, write_fault_number};
ghost use Rattle.lisp_registration.specs.declared.fault.NodeFault.TheVariants as nodes;
ghost use Rattle.lisp_registration.specs.declared.fault.WriteFault.TheVariants as writes;

use lisp_sites::ConfigFault;
use std::alloc::{AllocError, AllocFailed};

/// Why a message is not written.
#[derive(Clone, Copy)]
pub enum WriteFault {
    /// The buffer has no room for it.
    Room,
    /// A field has no place in a message: a type other than 3, 4 and 5, an address family other than 1 and 2 (and 0 of a
    /// Source EID), a mask longer than its address, ACT above 7, a Map-Version number above 4095, two families around an
    /// encapsulated message, or such a message of more than 65,507 bytes.
    Field,
    /// More than 255 records, or not as many locators as the records count; of a Map-Request no ITR-RLOC or more than 32,
    /// and no EID-Prefix or more than 255.
    Counts,
    /// Out of memory.
    OutOfMemory,
}

impl WriteFault {
    /// The number that callers see: `Room` 102, `Field` 103, `Counts` 104, `OutOfMemory` 105.
    pub(crate) const fn number(self) -> u16
        ensures { result ≡ write_fault_number self }
    {
        match self {
            WriteFault::Room => 102,
            WriteFault::Field => 103,
            WriteFault::Counts => 104,
            WriteFault::OutOfMemory => 105,
        }
    }
}

impl From<AllocError> for WriteFault {
    ghost from_gives = { λ _ fault. fault ≡ writes.OutOfMemory };

    fn from(_error: AllocError) -> WriteFault {
        WriteFault::OutOfMemory
    }
}

impl<T: Drop> From<AllocFailed<T>> for WriteFault {
    ghost from_gives = { λ _ fault. fault ≡ writes.OutOfMemory };

    fn from(_failed: AllocFailed<T>) -> WriteFault {
        WriteFault::OutOfMemory
    }
}

/// Why a call on a handle is not done, before the core behind it is asked.
#[derive(Clone, Copy)]
pub enum HandleFault {
    /// The time is above 2^62 ms.
    Clock,
    /// The handle holds nothing.
    Null,
    /// What is to be written has no room.
    Room,
    /// The family of an address is neither IPv4 nor IPv6.
    Field,
}

impl HandleFault {
    /// The number that callers see: `Clock` 73, `Null` 100, `Room` 102, `Field` 103.
    pub(crate) const fn number(self) -> u16
        ensures { result ≡ handle_fault_number self }
    {
        match self {
            HandleFault::Clock => 73,
            HandleFault::Null => 100,
            HandleFault::Room => 102,
            HandleFault::Field => 103,
        }
    }
}

/// Why a configuration starts no node.
#[derive(Clone, Copy)]
pub enum NodeFault {
    /// The text is not UTF-8.
    NotUtf8,
    /// It is no configuration.
    Configuration(ConfigFault),
    /// No router of the configuration has the name.
    NoRouter,
    /// Out of memory.
    OutOfMemory,
}

impl NodeFault {
    /// The number that callers see: `NotUtf8` 95, `Configuration` 20 to 24, `NoRouter` 106, `OutOfMemory` 105.
    pub(crate) const fn number(self) -> u16
        ensures { result ≡ node_fault_number self }
    {
        match self {
            NodeFault::NotUtf8 => 95,
            NodeFault::Configuration(fault) => fault.number(),
            NodeFault::NoRouter => 106,
            NodeFault::OutOfMemory => 105,
        }
    }
}

impl From<AllocError> for NodeFault {
    ghost from_gives = { λ _ fault. fault ≡ nodes.OutOfMemory };

    fn from(_error: AllocError) -> NodeFault {
        NodeFault::OutOfMemory
    }
}

impl<T: Drop> From<AllocFailed<T>> for NodeFault {
    ghost from_gives = { λ _ fault. fault ≡ nodes.OutOfMemory };

    fn from(_failed: AllocFailed<T>) -> NodeFault {
        NodeFault::OutOfMemory
    }
}
