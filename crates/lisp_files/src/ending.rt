//! Why a program on sockets and files ended, with the file that failed.

ghost use Rattle.std.specs.Prelude.{◌≡◌, None};
ghost use Rattle.lisp_script.specs.RunFault.{numbered, from_play, from_input};

use crate::problem::{FileTrouble, Problem};
use lisp_memory::{FallibleString, Memory};
use lisp_script::{InputFault, PlayFault, RunFault};
use std::alloc::{AllocError, AllocFailed, Global};

/// Why a program on sockets and files ended.
#[derive(Drop)]
pub struct Ending {
    /// Its fault.
    pub fault: RunFault,
    /// Which file or folder failed, what was tried with it, and the system's error, in words; `None`
    /// where the fault is no file's, or memory ran out for the words.
    pub details: Option<String>,
}

impl Ending {
    /// A file or a folder that can't be used: fault 93.
    pub fn of_file(alloc: Global, path: &str, problem: Problem) -> Ending
        ensures fault { result.fault ≡ numbered 93 }
        ensures memory { result.details ≡ None → ⟦<Global as Memory>⟧.may_refuse }
    {
        Ending::with_words(alloc, RunFault::FILE, path, problem)
    }

    /// A fault with what is wrong with a file, a folder or a stream.
    pub fn with_words(alloc: Global, fault: RunFault, path: &str, problem: Problem) -> Ending
        ensures fault { result.fault ≡ fault }
        ensures memory { result.details ≡ None → ⟦<Global as Memory>⟧.may_refuse }
    {
        Ending {
            fault,
            details: FileTrouble { path, problem }.words(alloc),
        }
    }
}

impl From<RunFault> for Ending {
    ghost from_gives = { λ fault ending. ending.fault ≡ fault };

    fn from(fault: RunFault) -> Ending {
        Ending {
            fault,
            details: None,
        }
    }
}

impl From<PlayFault> for Ending {
    ghost from_gives = { λ fault ending. ending.fault ≡ from_play fault };

    fn from(fault: PlayFault) -> Ending {
        Ending::from(RunFault::from(fault))
    }
}

impl From<InputFault> for Ending {
    ghost from_gives = { λ fault ending. ending.fault ≡ from_input fault };

    fn from(fault: InputFault) -> Ending {
        Ending::from(RunFault::from(fault))
    }
}

impl From<AllocError> for Ending {
    ghost from_gives = { λ _ ending. ending.fault ≡ numbered 97 };

    fn from(_error: AllocError) -> Ending {
        Ending::from(RunFault::MEMORY)
    }
}

impl<T: Drop> From<AllocFailed<T>> for Ending {
    ghost from_gives = { λ _ ending. ending.fault ≡ numbered 97 };

    fn from(_failed: AllocFailed<T>) -> Ending {
        Ending::from(RunFault::MEMORY)
    }
}

impl From<Ending> for RunFault {
    ghost from_gives = { λ ending fault. fault ≡ ending.fault };

    fn from(ending: Ending) -> RunFault {
        ending.fault
    }
}
