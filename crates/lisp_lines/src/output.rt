//! Writing bytes.

ghost use Rattle.lisp_lines.specs.Output.{Writes, WritesFront};

use std::io::{ErrorKind, Write};

/// The writer failed, or took nothing more.
#[derive(Clone, Copy, Debug, PartialEq, Eq)]
pub struct Unwritten;

/// Writes bytes, in as many writes as it takes. At `Unwritten` a front of them went out, but not the whole.
pub fn write_bytes<W: Write>(bytes: &[u8], writer: &mut W) -> Result<(), Unwritten>
    ensures ok { Writes result W.contents writer.old writer.new bytes.now }
    ensures front { WritesFront result W.contents writer.old writer.new bytes.now }
{
    let mut rest = bytes;
    for _ in 0..u64::MAX {
        if rest.is_empty() {
            break;
        }
        match writer.write(rest) {
            Ok(0) => break,
            Ok(count) => rest = rest.split_at(count).1,
            Err(error) if error.kind() == ErrorKind::Interrupted => {}
            Err(_) => break,
        }
    }
    if rest.is_empty() {
        Ok(())
    } else {
        Err(Unwritten)
    }
}
