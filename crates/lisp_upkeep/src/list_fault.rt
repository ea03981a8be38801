//! Why a text is no list.

ghost use Rattle.std.specs.Prelude.{◌≡◌};

use std::alloc::{AllocError, AllocFailed};
use thiserror::Error;

/// Why a text is no list.
#[derive(Clone, Copy, Debug, PartialEq, Eq, Error)]
pub enum ListFault {
    /// The first line that is neither the line of a nonce that is kept, nor blank, nor a comment, from 1 on.
    #[error("line {0} is no line of a nonce")]
    Line(usize),
    /// Out of memory.
    #[error("out of memory: free some and try again")]
    OutOfMemory,
}

impl From<AllocError> for ListFault {
    ghost use Rattle.lisp_upkeep.specs.declared.list_fault.ListFault.TheVariants.{OutOfMemory};

    ghost from_gives = { λ _ fault. fault ≡ OutOfMemory };

    fn from(_error: AllocError) -> ListFault {
        ListFault::OutOfMemory
    }
}

impl<T: Drop> From<AllocFailed<T>> for ListFault {
    ghost use Rattle.lisp_upkeep.specs.declared.list_fault.ListFault.TheVariants.{OutOfMemory};

    ghost from_gives = { λ _ fault. fault ≡ OutOfMemory };

    fn from(_failed: AllocFailed<T>) -> ListFault {
        ListFault::OutOfMemory
    }
}
