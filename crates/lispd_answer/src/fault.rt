//! What ends the program: each fault with the number and the exit status that `lispd` has for it.

ghost use Rattle.std.specs.Prelude.{◌≡◌};
ghost use Rattle.lispd_answer.specs.Fault.{small_fault_number, small_fault_status, small_fault_line};

use lisp_answer::AnswerFault;
use lisp_script::PlayFault;

/// What ends the program.
#[derive(Clone, Copy, Debug, PartialEq, Eq)]
pub enum SmallFault {
    /// The words are none that the program takes, or one of them is not UTF-8.
    Words,
    /// Out of memory before a subcommand runs.
    Memory,
    /// The file can't be opened.
    File,
    /// The line was not answered.
    Answer(AnswerFault),
    /// The schedule was not played to its end.
    Play(PlayFault),
}

impl SmallFault {
    /// The number that operators see: `Words` 98, `Memory` 97, `File` 93, or that of the fault inside.
    pub const fn number(&self) -> u16
        ensures { result ≡ small_fault_number self.now }
    {
        match self {
            SmallFault::Words => 98,
            SmallFault::Memory => 97,
            SmallFault::File => 93,
            SmallFault::Answer(fault) => fault.number(),
            SmallFault::Play(fault) => fault.number(),
        }
    }

    /// The exit status: `Words` 2, `Memory` and `File` 1, or that of the fault inside.
    pub const fn status(&self) -> u8
        ensures { result ≡ small_fault_status self.now }
    {
        match self {
            SmallFault::Words => 2,
            SmallFault::Memory | SmallFault::File => 1,
            SmallFault::Answer(fault) => fault.status(),
            SmallFault::Play(fault) => fault.status(),
        }
    }

    /// The line of the script that is faulty, from 1 on; `None` where the fault is elsewhere.
    pub const fn line(&self) -> Option<usize>
        ensures { result ≡ small_fault_line self.now }
    {
        match self {
            SmallFault::Play(fault) => fault.line(),
            _ => None,
        }
    }
}

impl From<AnswerFault> for SmallFault {
    ghost use Rattle.lispd_answer.specs.declared.fault.SmallFault.TheVariants.{Answer};

    ghost from_gives = { λ why fault. fault ≡ Answer why };

    fn from(why: AnswerFault) -> SmallFault {
        SmallFault::Answer(why)
    }
}

impl From<PlayFault> for SmallFault {
    ghost use Rattle.lispd_answer.specs.declared.fault.SmallFault.TheVariants.{Play};

    ghost from_gives = { λ why fault. fault ≡ Play why };

    fn from(why: PlayFault) -> SmallFault {
        SmallFault::Play(why)
    }
}
