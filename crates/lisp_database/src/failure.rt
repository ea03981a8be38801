//! What an error of SQLite's is to a node's database.

ghost use Rattle.std.specs.Prelude.{◌≡◌};
ghost use Rattle.lisp_database.specs.Fault.{code_fault, load_fault};

use lisp_database_store::Failure;
use lisp_nonces::StoreFault;
use sqlite::{Error, ErrorCode};
use std::io::ErrorKind;

/// That of an open or a load: `Damaged` where the file holds no database, or not the table of nonces.
pub(crate) fn failure_of(error: Error) -> Failure
    ensures { result.fault ≡ load_fault error }
{
    match error {
        Error::SqliteFailure(code) => Failure {
            fault: code_fault(code),
            kind: code_kind(code),
        },
        _ => Failure {
            fault: StoreFault::Damaged,
            kind: ErrorKind::Other,
        },
    }
}

// What a store is told of a failure.
fn code_fault(code: ErrorCode) -> StoreFault
    ensures { result ≡ code_fault code }
{
    match code {
        ErrorCode::OutOfMemory => StoreFault::OutOfMemory,
        ErrorCode::SystemIoFailure
        | ErrorCode::DiskFull
        | ErrorCode::Closed
        | ErrorCode::CannotOpen
        | ErrorCode::DatabaseBusy => StoreFault::Device,
        _ => StoreFault::Damaged,
    }
}

// The kind of the system's errors that tells most of a failure.
fn code_kind(code: ErrorCode) -> ErrorKind {
    match code {
        ErrorCode::OutOfMemory => ErrorKind::OutOfMemory,
        ErrorCode::DiskFull => ErrorKind::StorageFull,
        ErrorCode::DatabaseBusy => ErrorKind::ResourceBusy,
        ErrorCode::DatabaseCorrupt | ErrorCode::NotADatabase => ErrorKind::InvalidData,
        _ => ErrorKind::Other,
    }
}
