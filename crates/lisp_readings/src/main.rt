//! Prints what Map-Requests, Map-Replies, encapsulated messages and captures say, so that a test can compare it with another reader's
//! words. A line of standard input is `request`, `layout`, `reply` or `encapsulated`, and a message in hexadecimal digits, or `capture`
//! and the bytes of one. What is printed for a message, on a line, is its fields and the bytes as which they are written; `fault` and
//! its number; or `unwritten`, where there is no memory for these bytes; for a capture it is its packets.
//! `tests/requests.py` and `tests/packets.py` have the form of each line.
#![tactic(auto)]

mod capture;
mod encapsulated;
mod fields;
mod layout;
mod reply;
mod request;

use hex::FromHexError;
use std::alloc::Global;
use std::io::{self, BufRead, BufReader, BufWriter, Error, ErrorKind, Write};

fn main(rt: HostRuntime) -> io::Result<()> {
    let reader = BufReader::new(rt.alloc(), rt.reader())?;
    let mut writer = BufWriter::new(rt.alloc(), io::writer(&rt))?;
    print_lines(rt.alloc(), reader, &mut writer)?;
    writer.flush()
}

fn print_lines<R: BufRead + Drop, W: Write>(
    alloc: Global,
    reader: R,
    writer: &mut W,
) -> io::Result<()> {
    for line in reader.lines(alloc) {
        print_line(alloc, line?.as_str(), writer)?;
    }
    Ok(())
}

fn print_line<W: Write>(alloc: Global, line: &str, writer: &mut W) -> io::Result<()> {
    let Some((kind, digits)) = line.split_once(' ') else {
        return Err(Error::from(ErrorKind::InvalidInput));
    };
    let bytes = decode(alloc, digits)?;
    match kind {
        "request" => request::print(alloc, &bytes, writer)?,
        "layout" => layout::print(&bytes, writer)?,
        "reply" => reply::print(alloc, &bytes, writer)?,
        "capture" => capture::print(alloc, &bytes, writer)?,
        "encapsulated" => encapsulated::print(alloc, &bytes, writer)?,
        _ => return Err(Error::from(ErrorKind::InvalidInput)),
    }
    writer.write_all(b"\n")
}

fn decode(alloc: Global, digits: &str) -> io::Result<Vec<u8>> {
    match hex::decode(alloc, digits) {
        Ok(bytes) => Ok(bytes),
        Err(FromHexError::OutOfMemory) => Err(Error::from(ErrorKind::OutOfMemory)),
        Err(_) => Err(Error::from(ErrorKind::InvalidInput)),
    }
}
