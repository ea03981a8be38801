//! The line of a Map-Request.

use crate::fields::{
    print_bytes, print_eid, print_fault, print_flags, print_source, print_unwritten,
};
use lisp_requests::{MapRequest, read_request, write_request};
use std::alloc::Global;
use std::io::{self, Write};

/// Prints the flags, the nonce, the Source EID, each ITR-RLOC, each EID-Prefix, and the bytes as which it is written.
pub(crate) fn print<W: Write>(alloc: Global, bytes: &[u8], writer: &mut W) -> io::Result<()> {
    match read_request(alloc, bytes) {
        Ok(request) => print_request(alloc, &request, writer),
        Err(fault) => print_fault(fault, writer),
    }
}

fn print_request<W: Write>(alloc: Global, request: &MapRequest, writer: &mut W) -> io::Result<()> {
    let Ok(written) = write_request(alloc, request) else {
        return print_unwritten(writer);
    };
    print_head(request, writer)?;
    for addr in &request.itr_rlocs {
        writer.write_all(b" rloc ")?;
        print_bytes(addr.octets(), writer)?;
    }
    for eid in &request.eids {
        writer.write_all(b" eid ")?;
        print_eid(eid, writer)?;
    }
    writer.write_all(b" written ")?;
    print_bytes(&written, writer)
}

fn print_head<W: Write>(request: &MapRequest, writer: &mut W) -> io::Result<()> {
    let flags = [
        request.authoritative,
        request.probe,
        request.smr,
        request.pitr,
        request.smr_invoked,
        request.local,
        request.no_reply,
    ];
    print_flags(&flags, writer)?;
    write!(writer, " nonce {:016x} source ", request.nonce)?;
    print_source(request.source, writer)
}
