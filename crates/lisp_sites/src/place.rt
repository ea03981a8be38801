//! Where in a configuration file a fault is.

ghost use Rattle.std.specs.Prelude.{◌≡◌};
ghost use Rattle.lisp_sites.specs.Table.{within};

use crate::fault::ConfigFault;
use crate::field::Field;
use std::alloc::{AllocError, AllocFailed};
use std::fmt::{Display, Error, Formatter, Write};

/// An entry of an array of the file: the array, and which of its entries, counted from 1.
#[derive(Clone, Copy, Debug, PartialEq, Eq)]
pub struct Entry {
    pub array: Field,
    pub number: usize,
}

impl Display for Entry {
    fn fmt<W: Write>(&self, f: &mut Formatter<W>) -> Result<(), Error> {
        write!(f, "{} {}", self.array.key(), self.number)
    }
}

/// The entry that a fault is in, and the entry within it: as site 2, and its key 1. Neither where it is in no entry.
#[derive(Clone, Copy, Debug, PartialEq, Eq)]
pub struct Place {
    pub entry: Option<Entry>,
    pub part: Option<Entry>,
}

impl Place {
    /// In no entry.
    const NOWHERE: Place = Place {
        entry: None,
        part: None,
    };
}

impl Display for Place {
    /// Each entry with a colon behind it, as in `site 2, key 1: `; nothing for no entry.
    fn fmt<W: Write>(&self, f: &mut Formatter<W>) -> Result<(), Error> {
        let Some(entry) = self.entry else {
            return Ok(());
        };
        match self.part {
            Some(part) => write!(f, "{entry}, {part}: "),
            None => write!(f, "{entry}: "),
        }
    }
}

/// The first fault of a configuration file, and where it is.
#[derive(Clone, Copy, Debug, PartialEq, Eq)]
pub struct PlacedFault {
    pub fault: ConfigFault,
    pub place: Place,
}

impl PlacedFault {
    /// The fault, told to be in this entry of `array`: the entry that it was told to be in is the part of it.
    pub(crate) fn within(self, array: Field, number: usize) -> PlacedFault
        ensures { result ≡ within array number self }
    {
        PlacedFault {
            fault: self.fault,
            place: Place {
                entry: Some(Entry { array, number }),
                part: self.place.entry,
            },
        }
    }
}

/// A fault that is in no entry yet.
impl From<ConfigFault> for PlacedFault {
    ghost use Rattle.lisp_sites.specs.Table.{nowhere};

    ghost from_gives = { λ fault placed. placed ≡ record { fault = fault; place = nowhere } };

    fn from(fault: ConfigFault) -> PlacedFault {
        PlacedFault {
            fault,
            place: Place::NOWHERE,
        }
    }
}

impl From<AllocError> for PlacedFault {
    ghost use Rattle.lisp_sites.specs.declared.fault.ConfigFault.TheVariants.{OutOfMemory};

    ghost from_gives = { λ _ placed. placed.fault ≡ OutOfMemory };

    fn from(_error: AllocError) -> PlacedFault {
        PlacedFault::from(ConfigFault::OutOfMemory)
    }
}

impl<T: Drop> From<AllocFailed<T>> for PlacedFault {
    ghost use Rattle.lisp_sites.specs.declared.fault.ConfigFault.TheVariants.{OutOfMemory};

    ghost from_gives = { λ _ placed. placed.fault ≡ OutOfMemory };

    fn from(_failed: AllocFailed<T>) -> PlacedFault {
        PlacedFault::from(ConfigFault::OutOfMemory)
    }
}
