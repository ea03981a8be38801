//! The line of a capture.

use crate::fields::print_bytes;
use lisp_captures::{Capture, CaptureFault, Datagram, Packet, Unread};
use std::alloc::Global;
use std::io::{self, Error, ErrorKind, Write};

/// Prints each packet with `;` after it: its number, when it was captured (`-` for no time), and its datagram or why it has none;
/// `unknown` or `short` for a file that is no capture.
pub(crate) fn print<W: Write>(alloc: Global, bytes: &[u8], writer: &mut W) -> io::Result<()> {
    let mut capture = match Capture::open(alloc, bytes) {
        Ok(capture) => capture,
        Err(CaptureFault::Unknown) => return writer.write_all(b"unknown"),
        Err(CaptureFault::Short) => return writer.write_all(b"short"),
    };
    // A packet takes a byte at least.
    for _ in 0..bytes.len() {
        match capture.next() {
            Ok(Some(packet)) => print_packet(&packet, writer)?,
            Ok(None) => break,
            Err(_) => return Err(Error::from(ErrorKind::OutOfMemory)),
        }
    }
    Ok(())
}

fn print_packet<W: Write>(packet: &Packet<'_>, writer: &mut W) -> io::Result<()> {
    write!(writer, "{} ", packet.number)?;
    match packet.at {
        Some(at) => write!(writer, "{at} ")?,
        None => writer.write_all(b"- ")?,
    }
    match &packet.content {
        Ok(datagram) => print_datagram(datagram, writer)?,
        Err(why) => writer.write_all(word(*why).as_bytes())?,
    }
    writer.write_all(b";")
}

fn print_datagram<W: Write>(datagram: &Datagram<'_>, writer: &mut W) -> io::Result<()> {
    print_bytes(datagram.source.octets(), writer)?;
    write!(writer, " {} ", datagram.source_port)?;
    print_bytes(datagram.destination.octets(), writer)?;
    write!(writer, " {} ", datagram.destination_port)?;
    print_bytes(datagram.payload, writer)
}

fn word(why: Unread) -> &'static str {
    match why {
        Unread::Cut => "cut",
        Unread::Damaged => "damaged",
        Unread::Fragment => "fragment",
        Unread::Other => "other",
        Unread::Truncated => "truncated",
        Unread::Lost => "lost",
    }
}
