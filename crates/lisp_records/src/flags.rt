//! Flags: each is one bit of a byte.

ghost use Rattle.std.specs.Prelude.{◌≡◌, ◌<◌};
ghost use Rattle.lisp_records.specs.Reading.{is_set};

/// Whether a bit is set in a byte of flags. The bit is a power of two, as 0x10.
pub fn is_set(flags: u8, bit: u8) -> bool
    requires { 0 < bit }
    ensures { result ≡ is_set flags bit }
{
    flags / bit % 2 == 1
}
