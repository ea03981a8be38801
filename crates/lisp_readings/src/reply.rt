//! The line of a Map-Reply.

use crate::fields::{print_bytes, print_eid, print_fault, print_flags, print_unwritten};
use lisp_records::{Locator, MapRecord};
use lisp_requests::{MapReply, read_reply, write_reply};
use std::alloc::Global;
use std::io::{self, Write};

/// Prints the flags, the nonce, each record with its locators, and the bytes as which it is written.
pub(crate) fn print<W: Write>(alloc: Global, bytes: &[u8], writer: &mut W) -> io::Result<()> {
    match read_reply(alloc, bytes) {
        Ok(reply) => print_reply(alloc, &reply, writer),
        Err(fault) => print_fault(fault, writer),
    }
}

fn print_reply<W: Write>(alloc: Global, reply: &MapReply, writer: &mut W) -> io::Result<()> {
    let Ok(written) = write_reply(alloc, reply) else {
        return print_unwritten(writer);
    };
    print_flags(&[reply.probe, reply.echo_nonce, reply.sec], writer)?;
    write!(writer, " nonce {:016x}", reply.nonce)?;
    for record in reply.records.as_slice() {
        print_record(record, writer)?;
    }
    writer.write_all(b" written ")?;
    print_bytes(&written, writer)
}

fn print_record<W: Write>(record: &MapRecord, writer: &mut W) -> io::Result<()> {
    let (ttl, act, version) = (record.ttl(), record.act(), record.version());
    let authoritative = u8::from(record.authoritative());
    write!(writer, " record {ttl} {act} {authoritative} {version} ")?;
    print_eid(record.eid_ref(), writer)?;
    for locator in record.locators() {
        print_locator(locator, writer)?;
    }
    Ok(())
}

fn print_locator<W: Write>(locator: &Locator, writer: &mut W) -> io::Result<()> {
    let (priority, weight) = (locator.priority, locator.weight);
    let (m_priority, m_weight) = (locator.m_priority, locator.m_weight);
    write!(
        writer,
        " locator {priority} {weight} {m_priority} {m_weight} "
    )?;
    print_flags(&[locator.local, locator.probe, locator.reachable], writer)?;
    writer.write_all(b" ")?;
    print_bytes(locator.addr.octets(), writer)
}
