//! Why a text is no configuration.

ghost use Rattle.std.specs.Prelude.{◌≡◌};
ghost use Rattle.lisp_sites.specs.Field.{fault_number};
ghost use Rattle.lisp_sites.specs.declared.fault.ConfigFault.TheVariants.{OutOfMemory};

use crate::field::Field;
use std::alloc::{AllocError, AllocFailed};
use thiserror::Error;

/// The first fault of a configuration: sites come first, then servers, then routers; within an entry
/// its fields in the order of [`Field`].
#[derive(Clone, Copy, Debug, PartialEq, Eq, Error)]
pub enum ConfigFault {
    /// The text is not valid TOML.
    #[error("the text is not valid TOML")]
    Toml,
    /// A field without a default is absent.
    #[error("{0} is missing")]
    Missing(Field),
    /// A value is of another type or form, out of its range, or names what isn't there.
    #[error("{0} has a bad value")]
    BadValue(Field),
    /// Two entries are alike where no two may be.
    #[error("{0} is repeated")]
    Repeated(Field),
    /// No memory for the configuration.
    #[error("out of memory")]
    OutOfMemory,
}

impl ConfigFault {
    /// The number that operators see: `Toml` 20, `Missing` 21, `BadValue` 22, `Repeated` 23,
    /// `OutOfMemory` 24.
    pub const fn number(&self) -> u16
        ensures { result ≡ fault_number self.now }
    {
        match self {
            ConfigFault::Toml => 20,
            ConfigFault::Missing(_) => 21,
            ConfigFault::BadValue(_) => 22,
            ConfigFault::Repeated(_) => 23,
            ConfigFault::OutOfMemory => 24,
        }
    }
}

impl From<AllocError> for ConfigFault {
    ghost from_gives = { λ _ fault. fault ≡ OutOfMemory };

    fn from(_error: AllocError) -> ConfigFault {
        ConfigFault::OutOfMemory
    }
}

impl<T: Drop> From<AllocFailed<T>> for ConfigFault {
    ghost from_gives = { λ _ fault. fault ≡ OutOfMemory };

    fn from(_failed: AllocFailed<T>) -> ConfigFault {
        ConfigFault::OutOfMemory
    }
}
