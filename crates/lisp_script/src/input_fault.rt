//! Why a file can't be taken as an input.

ghost use Rattle.std.specs.Prelude.{◌≡◌};
ghost use Rattle.lisp_script.specs.declared.input_fault.InputFault.TheVariants.{Config, Input};
ghost use Rattle.lisp_script.specs.declared.play_fault.PlayFault.{PlayFault};

use crate::play_fault::PlayFault;
use lisp_sites::PlacedFault;
use std::alloc::{AllocError, AllocFailed};

/// Why a file can't be taken as a configuration or a script, or what is understood of it can't be printed.
#[derive(Clone, Copy, Debug, PartialEq, Eq)]
pub enum InputFault {
    /// The file can't be opened.
    File,
    /// It is no configuration, from this place on.
    Config(PlacedFault),
    /// It can't be read, or it isn't a script; or printing or memory failed.
    Input(PlayFault),
}

impl From<PlayFault> for InputFault {
    ghost from_gives = { λ why fault. fault ≡ Input why };

    fn from(fault: PlayFault) -> InputFault {
        InputFault::Input(fault)
    }
}

impl From<PlacedFault> for InputFault {
    ghost from_gives = { λ why fault. fault ≡ Config why };

    fn from(fault: PlacedFault) -> InputFault {
        InputFault::Config(fault)
    }
}

impl From<AllocError> for InputFault {
    ghost from_gives = { λ _ fault. fault ≡ Input PlayFault.OutOfMemory };

    fn from(_error: AllocError) -> InputFault {
        InputFault::Input(PlayFault::OutOfMemory)
    }
}

impl<T: Drop> From<AllocFailed<T>> for InputFault {
    ghost from_gives = { λ _ fault. fault ≡ Input PlayFault.OutOfMemory };

    fn from(_failed: AllocFailed<T>) -> InputFault {
        InputFault::Input(PlayFault::OutOfMemory)
    }
}
