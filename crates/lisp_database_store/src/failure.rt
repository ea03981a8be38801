//! Why a call of a database failed.

ghost use Rattle.std.specs.Prelude.{◌≡◌};
ghost use Rattle.std.specs.IoError.{error_kind};
ghost use Rattle.lisp_nonces.specs.declared.fault.StoreFault.{StoreFault};
ghost use Rattle.lisp_database_store.specs.Fault.{file_fault};

use lisp_nonces::StoreFault;
use std::alloc::{AllocError, AllocFailed};
use std::io::{self, ErrorKind};

/// Why a call of a database failed.
#[derive(Clone, Copy, Debug, PartialEq, Eq)]
pub struct Failure {
    /// What it is to a store of nonces.
    pub fault: StoreFault,
    /// The kind of the system's errors that tells most of it.
    pub kind: ErrorKind,
}

impl Failure {
    /// A device that failed, with an error of this kind.
    pub(crate) fn of_device(kind: ErrorKind) -> Failure
        ensures { result.fault ≡ StoreFault.Device }
    {
        Failure {
            fault: StoreFault::Device,
            kind,
        }
    }
}

impl From<AllocError> for Failure {
    ghost from_gives = { λ _ failure. failure.fault ≡ StoreFault.OutOfMemory };

    fn from(_error: AllocError) -> Failure {
        OUT_OF_MEMORY
    }
}

impl<T: Drop> From<AllocFailed<T>> for Failure {
    ghost from_gives = { λ _ failure. failure.fault ≡ StoreFault.OutOfMemory };

    fn from(_failed: AllocFailed<T>) -> Failure {
        OUT_OF_MEMORY
    }
}

impl From<io::Error> for Failure {
    ghost from_gives = { λ error failure. failure.fault ≡ file_fault (error_kind error) };

    /// That of a file: `Damaged` where it holds no nonce.
    fn from(error: io::Error) -> Failure {
        match error.kind() {
            ErrorKind::OutOfMemory => OUT_OF_MEMORY,
            ErrorKind::InvalidData => DAMAGED,
            kind => Failure::of_device(kind),
        }
    }
}

/// A file that holds no nonce.
pub(crate) const DAMAGED: Failure = Failure {
    fault: StoreFault::Damaged,
    kind: ErrorKind::InvalidData,
};

/// A database of nonces without its log.
pub(crate) const LOG_GONE: Failure = Failure {
    fault: StoreFault::Damaged,
    kind: ErrorKind::NotFound,
};

/// No memory.
const OUT_OF_MEMORY: Failure = Failure {
    fault: StoreFault::OutOfMemory,
    kind: ErrorKind::OutOfMemory,
};
