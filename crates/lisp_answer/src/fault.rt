//! Why `answer` gave no answer: each fault with its number.

ghost use Rattle.std.specs.Prelude.{◌≡◌};
ghost use Rattle.lisp_answer.specs.Fault.{fault_number};
ghost use Rattle.lisp_answer.specs.declared.fault.AnswerFault.TheVariants.{OutOfMemory};

use std::alloc::{AllocError, AllocFailed};
use thiserror::Error;

/// What kept `answer` from answering. Nothing was written, unless it is `Write`.
#[derive(Clone, Copy, Debug, PartialEq, Eq, Error)]
pub enum AnswerFault {
    /// The input could not be read, or took too many reads.
    #[error("standard input can't be read")]
    Read,
    /// The answer could not be written; a part of it may have been.
    #[error("standard output can't be written")]
    Write,
    /// The line has more than 1,048,576 bytes.
    #[error("the line on standard input has more than 1,048,576 bytes")]
    TooLong,
    /// Out of memory for the site, the line or the text of the answer.
    #[error("out of memory: free some and try again")]
    OutOfMemory,
}

impl AnswerFault {
    /// The number that operators see: `Read` 87, `Write` 88, `TooLong` 89, `OutOfMemory` 97.
    pub const fn number(&self) -> u16
        ensures { result ≡ fault_number self.now }
    {
        match self {
            AnswerFault::Read => 87,
            AnswerFault::Write => 88,
            AnswerFault::TooLong => 89,
            AnswerFault::OutOfMemory => 97,
        }
    }

    /// The exit status: 1, as streams or memory failed.
    pub const fn status(&self) -> u8
        ensures { result ≡ 1 }
    {
        1
    }
}

impl From<AllocError> for AnswerFault {
    ghost from_gives = { λ _ fault. fault ≡ OutOfMemory };

    fn from(_error: AllocError) -> AnswerFault {
        AnswerFault::OutOfMemory
    }
}

impl<T: Drop> From<AllocFailed<T>> for AnswerFault {
    ghost from_gives = { λ _ fault. fault ≡ OutOfMemory };

    fn from(_failed: AllocFailed<T>) -> AnswerFault {
        AnswerFault::OutOfMemory
    }
}
