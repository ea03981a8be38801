//! Why a number isn't explained.

ghost use Rattle.std.specs.Prelude.{◌≡◌};
ghost use Rattle.lisp_refusals.specs.Fault.{explain_fault_number, explain_fault_status};

use thiserror::Error;

/// What keeps a number from being explained.
#[derive(Clone, Copy, Debug, PartialEq, Eq, Error)]
pub enum ExplainFault {
    /// No refusal or fault has the number; nothing was written.
    #[error("no refusal or fault has this number")]
    Unknown,
    /// The text could not be written; a part of it may have been.
    #[error("standard output can't be written")]
    Write,
}

impl ExplainFault {
    /// The number that operators see: `Unknown` 98, `Write` 88.
    pub const fn number(&self) -> u16
        ensures { result ≡ explain_fault_number self.now }
    {
        match self {
            ExplainFault::Unknown => 98,
            ExplainFault::Write => 88,
        }
    }

    /// The exit status: `Unknown` 2, `Write` 1.
    pub const fn status(&self) -> u8
        ensures { result ≡ explain_fault_status self.now }
    {
        match self {
            ExplainFault::Unknown => 2,
            ExplainFault::Write => 1,
        }
    }
}
