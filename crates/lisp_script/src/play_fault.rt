//! Why a play ends before its end.

ghost use Rattle.std.specs.Prelude.{◌≡◌};
ghost use Rattle.lisp_script.specs.PlayFault.{play_fault_number, play_fault_status, play_fault_line};
ghost use Rattle.lisp_script.specs.declared.play_fault.PlayFault.TheVariants.{Config, Script, World, OutOfMemory};

use crate::fault::{ScriptFault, ScriptWhat};
use lisp_model::WorldFault;
use lisp_sites::ConfigFault;
use std::alloc::{AllocError, AllocFailed};
use thiserror::Error;

/// What keeps a play from its end, in this order, `Write` and `OutOfMemory` aside: at `Read`, `TooLong`, `NotUtf8`,
/// `NoScript`, `Config`, `Script` and `World` nothing was written.
#[derive(Clone, Copy, Debug, PartialEq, Eq, Error)]
pub enum PlayFault {
    /// The input could not be read, or took more than 2,097,152 reads.
    #[error("the input can't be read")]
    Read,
    /// The output could not be written; a part of it may have been.
    #[error("the output can't be written")]
    Write,
    /// The input has more than 1,048,576 bytes.
    #[error("the input has more than 1,048,576 bytes")]
    TooLong,
    /// The input is not UTF-8.
    #[error("the input is not UTF-8")]
    NotUtf8,
    /// No line of the input is `---`.
    #[error("no line --- parts the configuration from the script")]
    NoScript,
    /// The text before that line is no configuration.
    #[error(transparent)]
    Config(ConfigFault),
    /// The text behind that line is no script.
    #[error(transparent)]
    Script(ScriptFault),
    /// No network can be made of the configuration.
    #[error(transparent)]
    World(WorldFault),
    /// Out of memory.
    #[error("out of memory: free some and try again")]
    OutOfMemory,
}

impl PlayFault {
    /// The number that operators see: `Read` 87, `Write` 88, `TooLong` 89, `NotUtf8` 95, `NoScript` 96, `OutOfMemory` 97;
    /// of `Config`, `Script` and `World` that of the fault inside.
    pub const fn number(&self) -> u16
        ensures { result ≡ play_fault_number self.now }
    {
        match self {
            PlayFault::Read => 87,
            PlayFault::Write => 88,
            PlayFault::TooLong => 89,
            PlayFault::NotUtf8 => 95,
            PlayFault::NoScript => 96,
            PlayFault::Config(fault) => fault.number(),
            PlayFault::Script(fault) => fault.number(),
            PlayFault::World(fault) => fault.number(),
            PlayFault::OutOfMemory => 97,
        }
    }

    /// The exit status: 1 where reading, writing or memory fails, 2 for what is wrong in the input.
    pub const fn status(&self) -> u8
        ensures { result ≡ play_fault_status self.now }
    {
        match self {
            PlayFault::Read
            | PlayFault::Write
            | PlayFault::TooLong
            | PlayFault::OutOfMemory
            | PlayFault::Config(ConfigFault::OutOfMemory)
            | PlayFault::Script(
                ScriptFault {
                    what: ScriptWhat::Memory,
                    ..
                },
            )
            | PlayFault::World(WorldFault::OutOfMemory | WorldFault::Start { .. }) => 1,
            _ => 2,
        }
    }

    /// The line of the script that is faulty, from 1 on; `None` where the fault is elsewhere.
    pub const fn line(&self) -> Option<usize>
        ensures { result ≡ play_fault_line self.now }
    {
        match self {
            PlayFault::Script(fault) => Some(fault.line),
            _ => None,
        }
    }
}

impl From<AllocError> for PlayFault {
    ghost from_gives = { λ _ fault. fault ≡ OutOfMemory };

    fn from(_error: AllocError) -> PlayFault {
        PlayFault::OutOfMemory
    }
}

impl<T: Drop> From<AllocFailed<T>> for PlayFault {
    ghost from_gives = { λ _ fault. fault ≡ OutOfMemory };

    fn from(_failed: AllocFailed<T>) -> PlayFault {
        PlayFault::OutOfMemory
    }
}

impl From<ConfigFault> for PlayFault {
    ghost from_gives = { λ why fault. fault ≡ Config why };

    fn from(why: ConfigFault) -> PlayFault {
        PlayFault::Config(why)
    }
}

impl From<ScriptFault> for PlayFault {
    ghost from_gives = { λ why fault. fault ≡ Script why };

    fn from(why: ScriptFault) -> PlayFault {
        PlayFault::Script(why)
    }
}

impl From<WorldFault> for PlayFault {
    ghost from_gives = { λ why fault. fault ≡ World why };

    fn from(why: WorldFault) -> PlayFault {
        PlayFault::World(why)
    }
}
