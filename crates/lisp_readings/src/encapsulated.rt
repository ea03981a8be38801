//! The line of an encapsulated message.

ghost use Rattle.std.specs.Prelude.{◌≡◌};
ghost use Rattle.lisp_records.specs.Address.{family};

use crate::fields::{print_bytes, print_fault, print_unwritten};
use lisp_requests::{EncapsulatedRequest, read_encapsulated, write_encapsulated};
use std::alloc::Global;
use std::io::{self, Write};

/// The most bytes of a message that is written: those of an IPv4 datagram, without its headers.
const MOST: usize = 65_507;

/// Prints the addresses, the port, the message, and the bytes as which it is written; nothing of it where it is too long for
/// IPv4.
pub(crate) fn print<W: Write>(alloc: Global, bytes: &[u8], writer: &mut W) -> io::Result<()> {
    match read_encapsulated(bytes) {
        Ok(request) => print_encapsulated(alloc, &request, writer),
        Err(fault) => print_fault(fault, writer),
    }
}

fn print_encapsulated<W: Write>(
    alloc: Global,
    request: &EncapsulatedRequest<'_>,
    writer: &mut W,
) -> io::Result<()>
    requires { family request.now.source ≡ family request.now.destination }
{
    if request.message.len() > MOST {
        return print_unwritten(writer);
    }
    let Ok(written) = write_encapsulated(alloc, request) else {
        return print_unwritten(writer);
    };
    writer.write_all(b"source ")?;
    print_bytes(request.source.octets(), writer)?;
    writer.write_all(b" destination ")?;
    print_bytes(request.destination.octets(), writer)?;
    write!(writer, " port {} message ", request.port)?;
    print_bytes(request.message, writer)?;
    writer.write_all(b" written ")?;
    print_bytes(&written, writer)
}
