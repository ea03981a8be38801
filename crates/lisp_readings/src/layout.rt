//! The line of the layout of a Map-Request.

use crate::fields::{print_bytes, print_eid, print_fault, print_flags, print_source};
use lisp_requests::{RequestLayout, eid_record_at, itr_rloc_at, request_layout};
use std::io::{self, Write};

/// Prints the flags, the nonce, the Source EID, each ITR-RLOC and each EID-Prefix with the byte at which it begins, and the
/// byte after the last.
pub(crate) fn print<W: Write>(bytes: &[u8], writer: &mut W) -> io::Result<()> {
    match request_layout(bytes) {
        Ok(layout) => print_layout(bytes, &layout, writer),
        Err(fault) => print_fault(fault, writer),
    }
}

fn print_layout<W: Write>(bytes: &[u8], layout: &RequestLayout, writer: &mut W) -> io::Result<()> {
    print_head(layout, writer)?;
    let mut at = layout.rlocs_at;
    for _ in 0..layout.rloc_count {
        at = print_rloc(bytes, at, writer)?;
    }
    let mut at = layout.eids_at;
    for _ in 0..layout.eid_count {
        at = print_record(bytes, at, writer)?;
    }
    write!(writer, " end {}", layout.end)
}

fn print_head<W: Write>(layout: &RequestLayout, writer: &mut W) -> io::Result<()> {
    let flags = [
        layout.authoritative,
        layout.probe,
        layout.smr,
        layout.pitr,
        layout.smr_invoked,
        layout.local,
        layout.no_reply,
    ];
    print_flags(&flags, writer)?;
    write!(writer, " nonce {:016x} source ", layout.nonce)?;
    print_source(layout.source, writer)
}

// Prints the ITR-RLOC that begins at a byte; where the next begins.
fn print_rloc<W: Write>(bytes: &[u8], at: usize, writer: &mut W) -> io::Result<usize> {
    let Ok((addr, next)) = itr_rloc_at(bytes, at) else {
        return Ok(at);
    };
    write!(writer, " rloc {at} ")?;
    print_bytes(addr.octets(), writer)?;
    Ok(next)
}

// Prints the EID-Prefix of the record that begins at a byte; where the next begins.
fn print_record<W: Write>(bytes: &[u8], at: usize, writer: &mut W) -> io::Result<usize> {
    let Ok((eid, next)) = eid_record_at(bytes, at) else {
        return Ok(at);
    };
    write!(writer, " eid {at} ")?;
    print_eid(&eid, writer)?;
    Ok(next)
}
