//! The fields that the lines share.

use lisp_records::{Addr, Prefix};
use lisp_requests::RequestFault;
use std::io::{self, Write};

/// Prints the fault of bytes that are no message.
pub(crate) fn print_fault<W: Write>(fault: RequestFault, writer: &mut W) -> io::Result<()> {
    write!(writer, "fault {}", fault.number())
}

/// Prints that there was no memory for the bytes as which a message is written.
pub(crate) fn print_unwritten<W: Write>(writer: &mut W) -> io::Result<()> {
    writer.write_all(b"unwritten")
}

/// Prints flags, a digit each.
pub(crate) fn print_flags<W: Write>(flags: &[bool], writer: &mut W) -> io::Result<()> {
    for flag in flags {
        writer.write_all(if *flag { b"1" } else { b"0" })?;
    }
    Ok(())
}

/// Prints bytes, two digits each.
pub(crate) fn print_bytes<W: Write>(bytes: &[u8], writer: &mut W) -> io::Result<()> {
    for byte in bytes {
        write!(writer, "{byte:02x}")?;
    }
    Ok(())
}

/// Prints an EID-Prefix: its address, and the length of its mask.
pub(crate) fn print_eid<W: Write>(eid: &Prefix, writer: &mut W) -> io::Result<()> {
    print_bytes(eid.addr().octets(), writer)?;
    write!(writer, "/{}", eid.mask_len())
}

/// Prints a Source EID; `-` where there is none.
pub(crate) fn print_source<W: Write>(source: Option<Addr>, writer: &mut W) -> io::Result<()> {
    match source {
        Some(addr) => print_bytes(addr.octets(), writer),
        None => writer.write_all(b"-"),
    }
}
