//! Appending to a text, a character at a time: where memory runs out, a front of what was to be appended is left.

ghost use Rattle.std.specs.Prelude.{◌≡◌, ◌<◌, ◌+◌, ◌++◌, ◌∷◌, [], OnErr};
ghost use Rattle.std.specs.Fmt.{decimal};
ghost use Rattle.std.specs.String.{string_bytes};
ghost use Rattle.lisp_lines.specs.Front.{Adds, AddsFront};

use lisp_memory::{FallibleString, Memory};
use std::alloc::AllocError;

/// Appends words.
pub(crate) fn put_words<A: Memory>(text: &mut String<A>, words: &str) -> Result<(), AllocError>
    ensures text { Adds result text.old text.new words.now }
    ensures front { AddsFront result text.old text.new words.now }
    ensures memory { OnErr result A.may_refuse }
{
    for character in words.chars() {
        text.try_push(character)?;
    }
    Ok(())
}

/// Appends a number, behind what it is.
#[tactic(auto, using(crate::proofs::Appends::steps))]
pub(crate) fn put_number<A: Memory>(
    text: &mut String<A>,
    what: &str,
    number: u64,
) -> Result<(), AllocError>
    ensures text { Adds result text.old text.new (what.now ++ decimal number) }
    ensures front { AddsFront result text.old text.new (what.now ++ decimal number) }
    ensures memory { OnErr result A.may_refuse }
{
    put_words(text, what)?;
    put_decimal(text, number)
}

// Appends a number in decimal digits.
fn put_decimal<A: Memory>(text: &mut String<A>, number: u64) -> Result<(), AllocError>
    ensures text { Adds result text.old text.new (decimal number) }
    ensures front { AddsFront result text.old text.new (decimal number) }
    ensures memory { OnErr result A.may_refuse }
{
    if number < 10 {
        return put_digit(text, number as u8);
    }
    put_decimal(text, number / 10)?;
    put_digit(text, (number % 10) as u8)
}

// Appends one digit.
fn put_digit<A: Memory>(text: &mut String<A>, digit: u8) -> Result<(), AllocError>
    requires { digit < 10 }
    ensures text { Adds result text.old text.new ((48 + digit) ∷ []) }
    ensures same { OnErr result (string_bytes text.new ≡ string_bytes text.old) }
    ensures memory { OnErr result A.may_refuse }
{
    text.try_push(char::from(b'0' + digit))
}
