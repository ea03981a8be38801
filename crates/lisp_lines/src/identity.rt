//! Who a router is, in a word.

ghost use Rattle.std.specs.Prelude.{◌≡◌, ◌*◌, length, OnErr};
ghost use Rattle.std.specs.Str.{IsUtf8};
ghost use Rattle.hex.specs.Hex.{encode_lower};
ghost use Rattle.lisp_lines.specs.Front.{Adds};
ghost use Rattle.lisp_lines.specs.Name.{identity_word};

use lisp_memory::{FallibleString, Memory};
use lisp_records::RouterId;
use std::alloc::AllocError;

/// Appends who a router is: `SITE/XTR`, where Site-ID and xTR-ID are 16 and 32 lower case hexadecimal digits. Out of memory, it may
/// leave a part of it.
#[tactic(auto, using(crate::proofs::Appends::steps))]
pub(crate) fn put_identity<A: Memory>(text: &mut String<A>, me: &RouterId) -> Result<(), AllocError>
    ensures text { Adds result text.old text.new (identity_word me.now) }
    ensures memory { OnErr result A.may_refuse }
{
    put_digits(text, &me.site.to_be_bytes(), &mut [0; 16])?;
    text.try_write("/")?;
    put_digits(text, &me.xtr, &mut [0; 32])
}

// Appends bytes as lower case hexadecimal digits, for which there is just this room.
fn put_digits<A: Memory>(
    text: &mut String<A>,
    bytes: &[u8],
    digits: &mut [u8],
) -> Result<(), AllocError>
    requires { length digits.old ≡ 2 * length bytes.now }
    ensures text { Adds result text.old text.new (encode_lower bytes.now) }
    ensures memory { OnErr result A.may_refuse }
{
    write_digits(digits, bytes);
    text.try_write(str::from_utf8(digits).unwrap())
}

// Writes the hexadecimal digits of bytes over a text that has room for just them.
fn write_digits(digits: &mut [u8], bytes: &[u8])
    requires { length digits.old ≡ 2 * length bytes.now }
    ensures text { IsUtf8 digits.new }
    ensures digits { digits.new ≡ encode_lower bytes.now }
{
    hex::encode_to_slice(bytes, digits).unwrap();
}
