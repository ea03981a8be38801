//! The calls of `String` that ask for memory.

ghost use Rattle.std.specs.Prelude.{◌≡◌, [], IfOk, IsOk, OnOk, OnErr};
ghost use Rattle.std.specs.String.{string_bytes};
ghost use Rattle.std.specs.Char.{encode_utf8};
ghost use Rattle.lisp_memory.specs.Room.{StringHasRoom};
ghost use Rattle.lisp_memory.specs.Appending.{StringAppends, StringGrowsByOutput, StringIsOutput};

use crate::memory::{Memory, asked};
use std::alloc::AllocError;
use std::fmt::Display;

/// `push`, `write!`, `from_str` and `format!` of a `String`.
pub trait FallibleString<A>: Sized {
    fn try_push(&mut self, character: char) -> Result<(), AllocError>;

    fn try_write<D: Display + Drop>(&mut self, value: D) -> Result<(), AllocError>;

    fn try_from_str(alloc: A, text: &str) -> Result<Self, AllocError>;

    fn try_format<D: Display + Drop>(alloc: A, value: D) -> Result<Self, AllocError>;
}

impl<A: Memory> FallibleString<A> for String<A> {
    /// As `String::push`.
    fn try_push(&mut self, character: char) -> Result<(), AllocError>
        ensures bytes { StringAppends result self.old self.new (encode_utf8 character) }
        ensures succeeds { StringHasRoom self.old (encode_utf8 character) → IsOk result }
        ensures refused { OnErr result A.may_refuse }
    {
        asked::<A, _, _>(self.push(character))
    }

    /// As `write!(text, "{value}")`; nothing is said of when it succeeds, since std says nothing of it.
    fn try_write<D: Display + Drop>(&mut self, value: D) -> Result<(), AllocError>
        ensures bytes { OnOk result (StringGrowsByOutput self.old self.new (D.output value)) }
        ensures refused { OnErr result A.may_refuse }
    {
        asked::<A, _, _>(self.write(value))
    }

    /// As `String::from_str`; takes no memory for an empty text.
    fn try_from_str(alloc: A, text: &str) -> Result<String<A>, AllocError>
        ensures ok { IfOk result (λ string. string_bytes string ≡ text.now) }
        ensures succeeds { text.now ≡ [] → IsOk result }
        ensures refused { OnErr result A.may_refuse }
    {
        let mut string = String::new(alloc);
        asked::<A, _, _>(string.push_str(text))?;
        Ok(string)
    }

    /// As `format!(in alloc; "{value}")`.
    fn try_format<D: Display + Drop>(alloc: A, value: D) -> Result<String<A>, AllocError>
        ensures ok { IfOk result (λ string. StringIsOutput string (D.output value)) }
        ensures refused { OnErr result A.may_refuse }
    {
        let mut string = String::new(alloc);
        string.try_write(value)?;
        Ok(string)
    }
}
