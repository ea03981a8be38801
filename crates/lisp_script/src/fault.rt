//! Why a text is no script.

ghost use Rattle.std.specs.Prelude.{◌≡◌};
ghost use Rattle.lisp_script.specs.Fault.{what_number};
ghost use Rattle.lisp_script.specs.declared.fault.ScriptWhat.TheVariants.{Memory};

use std::alloc::{AllocError, AllocFailed};
use thiserror::Error;

/// What is wrong in the first faulty line of a script: its first word is looked at first, then the number of its words,
/// then its words from left to right.
#[derive(Clone, Copy, Debug, PartialEq, Eq, Error)]
pub enum ScriptWhat {
    /// No command begins with the line's first word; or a fate that the command doesn't take, or no `---` before sites.
    #[error("unknown word: a command or a fate (doubt, loadfails) is meant")]
    Word,
    /// The command takes more words, or fewer.
    #[error("wrong number of words for this command")]
    Count,
    /// No node has the name, or it is of the wrong kind; or records for a Map-Server.
    #[error("no node of the right kind has this name")]
    Name,
    /// A word that is no decimal number of 1 to 20 digits, of at most 2^64 - 1; or of at most 255, for a Key ID.
    #[error("a decimal number is meant, of at most 255 for a Key ID")]
    Number,
    /// Words that are no records of a database, no EID-Prefix, no address, or no sites.
    #[error("records of different prefixes, the word empty, a prefix, an address, or sites are meant")]
    Record,
    /// A word that is neither hexadecimal nor `-`.
    #[error("hexadecimal digits, or - for no bytes, are meant")]
    Hex,
    /// Out of memory.
    #[error("out of memory: free some and try again")]
    Memory,
}

impl ScriptWhat {
    /// The number that operators see: `Word` 80, `Count` 81, `Name` 82, `Number` 83, `Record` 84, `Hex` 85, `Memory` 86.
    pub const fn number(&self) -> u16
        ensures { result ≡ what_number self.now }
    {
        match self {
            ScriptWhat::Word => 80,
            ScriptWhat::Count => 81,
            ScriptWhat::Name => 82,
            ScriptWhat::Number => 83,
            ScriptWhat::Record => 84,
            ScriptWhat::Hex => 85,
            ScriptWhat::Memory => 86,
        }
    }
}

impl From<AllocError> for ScriptWhat {
    ghost from_gives = { λ _ what. what ≡ Memory };

    fn from(_error: AllocError) -> ScriptWhat {
        ScriptWhat::Memory
    }
}

impl<T: Drop> From<AllocFailed<T>> for ScriptWhat {
    ghost from_gives = { λ _ what. what ≡ Memory };

    fn from(_failed: AllocFailed<T>) -> ScriptWhat {
        ScriptWhat::Memory
    }
}

/// The first faulty line of a script: its number, from 1 on, and what is wrong in it.
#[derive(Clone, Copy, Debug, PartialEq, Eq, Error)]
#[error("line {line}: {what}")]
pub struct ScriptFault {
    /// The number of the line.
    pub line: usize,
    /// What is wrong.
    pub what: ScriptWhat,
}

impl ScriptFault {
    /// The number that operators see.
    pub const fn number(&self) -> u16
        ensures { result ≡ what_number self.now.what }
    {
        self.what.number()
    }
}
