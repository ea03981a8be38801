//! What ends the program, with what is known of it.

ghost use Rattle.std.specs.Prelude.{◌≡◌, None};

use crate::fault::{ProgramFault, ReadingFault};
use lisp_files::{Ending, FileTrouble, Problem, STANDARD_OUTPUT};
use lisp_memory::Memory;
use lisp_script::{InputFault, PlayFault};
use std::alloc::Global;
use std::io;

/// The number of what can't be read.
const READ: u16 = 87;

/// The number of what can't be written.
const WRITE: u16 = 88;

/// What ends the program.
#[derive(Drop)]
pub struct Failure {
    /// The fault.
    pub fault: ProgramFault,
    /// What is wrong and where, in words; `None` where the fault's own words say it.
    pub details: Option<String>,
}

impl Failure {
    /// A fault with what is wrong with a file or a stream, in words.
    pub fn of_file(alloc: Global, fault: ProgramFault, path: &str, problem: Problem) -> Failure
        ensures fault { result.fault ≡ fault }
        ensures memory { result.details ≡ None → ⟦<Global as Memory>⟧.may_refuse }
    {
        Failure {
            fault,
            details: FileTrouble { path, problem }.words(alloc),
        }
    }

    /// A fault of what has an input: which one that is, where it can't be read. `error` is that of its
    /// last read.
    pub fn of_input(
        alloc: Global,
        fault: ProgramFault,
        path: &str,
        error: Option<io::Error>,
    ) -> Failure
        ensures fault { result.fault ≡ fault }
    {
        match error {
            Some(error) if fault.number() == READ => {
                Failure::of_file(alloc, fault, path, Problem::Read(error))
            }
            _ => Failure::from(fault),
        }
    }

    /// It, with the error of the last write to standard output where that can't be written.
    pub fn with_output(self, alloc: Global, error: Option<io::Error>) -> Failure
        ensures fault { result.fault ≡ self.fault }
    {
        match error {
            Some(error) if self.fault.number() == WRITE => {
                Failure::of_file(alloc, self.fault, STANDARD_OUTPUT, Problem::Write(error))
            }
            _ => self,
        }
    }
}

impl From<Ending> for Failure {
    ghost use Rattle.lispd_cli.specs.Fault.{IsOfEnding};

    ghost from_gives = { λ ending failure. IsOfEnding ending failure };

    fn from(ending: Ending) -> Failure {
        Failure {
            fault: ProgramFault::Run(ending.fault),
            details: ending.details,
        }
    }
}

impl From<ProgramFault> for Failure {
    ghost from_gives = { λ fault failure. failure.fault ≡ fault };

    fn from(fault: ProgramFault) -> Failure {
        Failure {
            fault,
            details: None,
        }
    }
}

impl From<PlayFault> for Failure {
    ghost use Rattle.lispd_cli.specs.declared.fault.ProgramFault.TheVariants.{Play};

    ghost from_gives = { λ fault failure. failure.fault ≡ Play fault };

    fn from(fault: PlayFault) -> Failure {
        Failure::from(ProgramFault::Play(fault))
    }
}

impl From<ReadingFault> for Failure {
    ghost use Rattle.lispd_cli.specs.declared.fault.ProgramFault.TheVariants.{Reading};

    ghost from_gives = { λ why failure. failure.fault ≡ Reading why };

    fn from(why: ReadingFault) -> Failure {
        Failure::from(ProgramFault::Reading(why))
    }
}

impl From<InputFault> for Failure {
    ghost use Rattle.lispd_cli.specs.Fault.{of_input};

    ghost from_gives = { λ fault failure. failure.fault ≡ of_input fault };

    fn from(fault: InputFault) -> Failure {
        Failure::from(ProgramFault::from(fault))
    }
}
