//! Why a network doesn't take an event, or isn't made.

ghost use Rattle.std.specs.Prelude.{◌≡◌};
ghost use Rattle.lisp_model.specs.Faults.{world_fault_number};
ghost use Rattle.lisp_model.specs.declared.world_fault.WorldFault.TheVariants.{OutOfMemory};

use lisp_etr::StartFault;
use std::alloc::{AllocError, AllocFailed};
use thiserror::Error;

/// The first thing that keeps a network from taking an event, in this order up to `Clock`, then
/// `OutOfMemory`; and from being made: `Repeated`, `OutOfMemory`, `Start`.
#[derive(Clone, Copy, Debug, PartialEq, Eq, Error)]
pub enum WorldFault {
    /// No node has the number.
    #[error("there is no such node")]
    NoNode,
    /// A router where a Map-Server is meant, or the other way round; or a database for a Map-Server.
    #[error("the node is of the wrong kind")]
    WrongKind,
    /// The router's site has no such key.
    #[error("the router's site has no such key")]
    UnknownKey,
    /// The router used the key before: it may not go over to it after its store was lost.
    #[error("the router used the key before")]
    KeyUsed,
    /// No datagram has the number.
    #[error("there is no such datagram")]
    NoDatagram,
    /// The moment would be above 2^62 ms.
    #[error("the clock can't go so far")]
    Clock,
    /// Two nodes have one address, or two routers one identity.
    #[error("an address or an identity is given twice")]
    Repeated,
    /// No memory for what the network keeps.
    #[error("out of memory")]
    OutOfMemory,
    /// A router didn't start.
    #[error("node {node} doesn't start: {fault}")]
    Start {
        /// The router.
        node: usize,
        /// Why.
        fault: StartFault,
    },
}

impl WorldFault {
    /// The number that operators see: `NoNode` 70, `WrongKind` 71, `NoDatagram` 72, `Clock` 73,
    /// `Repeated` 74, `OutOfMemory` 75, `Start` 76, `KeyUsed` 77, `UnknownKey` 78.
    pub const fn number(&self) -> u16
        ensures { result ≡ world_fault_number self.now }
    {
        match self {
            WorldFault::NoNode => 70,
            WorldFault::WrongKind => 71,
            WorldFault::NoDatagram => 72,
            WorldFault::Clock => 73,
            WorldFault::Repeated => 74,
            WorldFault::OutOfMemory => 75,
            WorldFault::Start { .. } => 76,
            WorldFault::KeyUsed => 77,
            WorldFault::UnknownKey => 78,
        }
    }
}

impl From<AllocError> for WorldFault {
    ghost from_gives = { λ _ fault. fault ≡ OutOfMemory };

    fn from(_error: AllocError) -> WorldFault {
        WorldFault::OutOfMemory
    }
}

impl<T: Drop> From<AllocFailed<T>> for WorldFault {
    ghost from_gives = { λ _ fault. fault ≡ OutOfMemory };

    fn from(_failed: AllocFailed<T>) -> WorldFault {
        WorldFault::OutOfMemory
    }
}
