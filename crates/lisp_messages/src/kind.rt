//! The types of messages.

ghost use Rattle.std.specs.Prelude.{◌≡◌};
ghost use Rattle.lisp_records.specs.Result.{Reads};
ghost use Rattle.lisp_messages.specs.Reading.{kind_of};
ghost use Rattle.lisp_messages.specs.Written.{kind_number};

use crate::fault::ReadFault;

/// A message type that is served (RFC 9301 section 5.1).
#[derive(Clone, Copy, Debug, PartialEq, Eq)]
pub enum Kind {
    /// Type 3.
    Register,
    /// Type 4.
    Notify,
    /// Type 5.
    NotifyAck,
}

impl Kind {
    /// The kind of a type number; `ReadFault::Kind` at any number but 3, 4 and 5.
    pub fn from_number(number: u8) -> Result<Kind, ReadFault>
        ensures { Reads (λ k. k) result (kind_of number) }
    {
        match number {
            3 => Ok(Kind::Register),
            4 => Ok(Kind::Notify),
            5 => Ok(Kind::NotifyAck),
            _ => Err(ReadFault::Kind),
        }
    }

    /// The type number: 3, 4 or 5.
    pub const fn number(self) -> u8
        ensures { result ≡ kind_number self }
    {
        match self {
            Kind::Register => 3,
            Kind::Notify => 4,
            Kind::NotifyAck => 5,
        }
    }
}
