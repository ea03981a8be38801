//! Strings, as RFC 8259 section 7 says.

ghost use Rattle.std.specs.Prelude.{◌≡◌, ◌++◌, ◌<◌, OnOk, OnErr};
ghost use Rattle.std.specs.Char.{digit_char};
ghost use Rattle.json.specs.Print.{quoted, escape, escape_byte, escape_letter};

use lisp_memory::{FallibleCopies, Memory};
use std::alloc::AllocError;

/// Appends a text as a string. Out of memory, it may leave a part of it.
pub(crate) fn put_quoted<A: Memory>(out: &mut Vec<u8, A>, text: &str) -> Result<(), AllocError>
    ensures text { OnOk result (out.new.items ≡ out.old.items ++ quoted text.now) }
    ensures memory { OnErr result A.may_refuse }
{
    out.try_extend_from_slice(b"\"")?;
    put_escaped(out, text.as_bytes())?;
    out.try_extend_from_slice(b"\"")
}

// Appends what stands in a string for these bytes.
fn put_escaped<A: Memory>(out: &mut Vec<u8, A>, bytes: &[u8]) -> Result<(), AllocError>
    ensures text { OnOk result (out.new.items ≡ out.old.items ++ escape bytes.now) }
    ensures memory { OnErr result A.may_refuse }
{
    for byte in bytes {
        put_byte(out, *byte)?;
    }
    Ok(())
}

// Appends what stands in a string for a byte.
#[tactic(auto, unfolding(json::specs::Print::escape_byte))]
fn put_byte<A: Memory>(out: &mut Vec<u8, A>, byte: u8) -> Result<(), AllocError>
    ensures text { OnOk result (out.new.items ≡ out.old.items ++ escape_byte byte) }
    ensures memory { OnErr result A.may_refuse }
{
    let letter = escape_letter(byte);
    if letter > 0 {
        return out.try_extend_from_slice(&[b'\\', letter]);
    }
    if byte < 0x20 {
        return out.try_extend_from_slice(&[
            b'\\',
            b'u',
            b'0',
            b'0',
            digit(byte / 16),
            digit(byte % 16),
        ]);
    }
    out.try_extend_from_slice(&[byte])
}

// The letter of a byte's short escape; 0 where it has none.
fn escape_letter(byte: u8) -> u8
    ensures { result ≡ escape_letter byte }
{
    match byte {
        b'"' | b'\\' => byte,
        8 => b'b',
        9 => b't',
        10 => b'n',
        12 => b'f',
        13 => b'r',
        _ => 0,
    }
}

// A hexadecimal digit in lower case.
fn digit(value: u8) -> u8
    requires { value < 16 }
    ensures { result ≡ digit_char value }
{
    if value < 10 {
        b'0' + value
    } else {
        b'a' + (value - 10)
    }
}
