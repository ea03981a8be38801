//! Why a program on sockets and files ends before its end.

ghost use Rattle.std.specs.Prelude.{◌≡◌};
ghost use Rattle.lisp_etr.specs.Faults.{start_fault_number};
ghost use Rattle.lisp_model.specs.Faults.{world_fault_number};
ghost use Rattle.lisp_script.specs.RunFault.{is_failure, run_status, run_line, numbered, from_play, from_input};

use crate::input_fault::InputFault;
use crate::play_fault::PlayFault;
use lisp_etr::StartFault;
use lisp_model::WorldFault;
use std::alloc::{AllocError, AllocFailed};
use thiserror::Error;

/// The numbers of what failed and isn't wrong: memory (24, 36, 75, 86, 97), a router's start (35, 76), reading and writing
/// (87, 88, 89), a socket (92), a file or folder (93).
const FAILURES: [u16; 12] = [24, 35, 36, 75, 76, 86, 87, 88, 89, 92, 93, 97];

/// Why a program ended.
#[derive(Clone, Copy, Debug, PartialEq, Eq, Error)]
#[error("fault {number}")]
pub struct RunFault {
    /// The number that operators see.
    pub number: u16,
    /// The line of the script that is at fault, from 1 on; 0 where no line is.
    pub line: usize,
}

impl RunFault {
    /// No socket can be bound at the node's address, or no clock can be read.
    pub const BIND: RunFault = RunFault {
        number: 92,
        line: 0,
    };

    /// A file or folder can't be opened or made, or another process has the node's folder.
    pub const FILE: RunFault = RunFault {
        number: 93,
        line: 0,
    };

    /// A line can't be written.
    pub const WRITE: RunFault = RunFault {
        number: 88,
        line: 0,
    };

    /// Out of memory in a call that has no number of its own for it.
    pub const MEMORY: RunFault = RunFault {
        number: 97,
        line: 0,
    };

    /// The exit status: 1 where files, sockets, reading, writing or memory fail, 2 for what is wrong in the words, the
    /// configuration or the script.
    pub fn status(&self) -> u8
        ensures { result ≡ run_status self.now.number }
    {
        if is_failure(self.number) { 1 } else { 2 }
    }

    /// The line of the script that is at fault, from 1 on; `None` where no line is.
    pub const fn line(&self) -> Option<usize>
        ensures { result ≡ run_line self.now.line }
    {
        match self.line {
            0 => None,
            line => Some(line),
        }
    }
}

// Whether the number is that of something that failed.
fn is_failure(number: u16) -> bool
    ensures { result ≡ is_failure number }
{
    FAILURES.iter().any(|failure| *failure == number)
}

const _: () = prove!(RunFault::BIND.number == 92 && RunFault::BIND.line == 0);

const _: () = prove!(RunFault::FILE.number == 93 && RunFault::FILE.line == 0);

const _: () = prove!(RunFault::WRITE.number == 88 && RunFault::WRITE.line == 0);

const _: () = prove!(RunFault::MEMORY.number == 97 && RunFault::MEMORY.line == 0);

impl From<PlayFault> for RunFault {
    ghost from_gives = { λ fault run. run ≡ from_play fault };

    fn from(fault: PlayFault) -> RunFault {
        RunFault {
            number: fault.number(),
            line: fault.line().unwrap_or(0),
        }
    }
}

impl From<InputFault> for RunFault {
    ghost from_gives = { λ fault run. run ≡ from_input fault };

    fn from(fault: InputFault) -> RunFault {
        match fault {
            InputFault::File => RunFault::FILE,
            InputFault::Config(fault) => RunFault::from(PlayFault::Config(fault.fault)),
            InputFault::Input(fault) => RunFault::from(fault),
        }
    }
}

impl From<WorldFault> for RunFault {
    ghost from_gives = { λ fault run. run ≡ numbered (world_fault_number fault) };

    fn from(fault: WorldFault) -> RunFault {
        RunFault {
            number: fault.number(),
            line: 0,
        }
    }
}

impl From<StartFault> for RunFault {
    ghost from_gives = { λ fault run. run ≡ numbered (start_fault_number fault) };

    fn from(fault: StartFault) -> RunFault {
        RunFault {
            number: fault.number(),
            line: 0,
        }
    }
}

impl From<AllocError> for RunFault {
    ghost from_gives = { λ _ run. run ≡ numbered 97 };

    fn from(_error: AllocError) -> RunFault {
        RunFault::MEMORY
    }
}

impl<T: Drop> From<AllocFailed<T>> for RunFault {
    ghost from_gives = { λ _ run. run ≡ numbered 97 };

    fn from(_failed: AllocFailed<T>) -> RunFault {
        RunFault::MEMORY
    }
}
