//! A record, against bytes that were worked by hand from RFC 9301 section 5.4.

use crate::support::assert_at;
use crate::worked::{RECORD, SAID, Said, says};
use lisp_records::{Addr, Locator, MapRecord, read_record, write_record};
use std::alloc::Global;
use std::process::Abort;

/// A record with an IPv6 EID-Prefix, in which no two fields are alike.
const MANY_FIELDS: [u8; 64] = [
    1, 2, 3, 4, // TTL
    2, 32, // two locators, a mask of 32 bits
    0xa0, 0, // ACT 5, not authoritative
    0x0a, 0xbc, // Map-Version
    0, 2, 0x20, 0x01, 0x0d, 0xb8, 0, 0, 0, 0, 0, 0, 0, 0, 0, 0, 0, 0, // IPv6, 2001:db8::
    5, 6, 7, 8, // priority, weight, multicast priority and weight
    0, 0x02, // probed
    0, 2, 0xfe, 0x80, 0, 0, 0, 0, 0, 0, 0, 0, 0, 0, 0, 0, 0, 1, // IPv6, fe80::1
    9, 10, 11, 12, // priority, weight, multicast priority and weight
    0, 0x01, // reachable
    0, 1, 192, 0, 2, 2, // IPv4, 192.0.2.2
];

/// What it says.
const MANY_SAID: Said<'static> = Said {
    ttl: 0x0102_0304,
    act: 5,
    authoritative: false,
    version: 0xabc,
    eid: (
        Addr::V6([0x20, 0x01, 0x0d, 0xb8, 0, 0, 0, 0, 0, 0, 0, 0, 0, 0, 0, 0]),
        32,
    ),
    locators: &[
        Locator {
            priority: 5,
            weight: 6,
            m_priority: 7,
            m_weight: 8,
            local: false,
            probe: true,
            reachable: false,
            addr: Addr::V6([0xfe, 0x80, 0, 0, 0, 0, 0, 0, 0, 0, 0, 0, 0, 0, 0, 1]),
        },
        Locator {
            priority: 9,
            weight: 10,
            m_priority: 11,
            m_weight: 12,
            local: false,
            probe: false,
            reachable: true,
            addr: Addr::V4([192, 0, 2, 2]),
        },
    ],
};

#[test]
fn each_field_is_read_and_written_in_its_place(rt: HostRuntime) {
    assert_at(&rt, 0, passes(&rt, rt.alloc(), &RECORD, &SAID));
    assert_at(&rt, 1, passes(&rt, rt.alloc(), &MANY_FIELDS, &MANY_SAID));
}

/// Whether these bytes are read as a record that says this, and it is written as the same bytes.
fn passes(rt: &impl Abort, alloc: Global, bytes: &[u8], said: &Said) -> bool {
    let (record, next) = read_record(alloc, bytes, 0).expect(rt, "the record");
    next == bytes.len() && says(&record, said) && is_written_as(rt, alloc, &record, bytes)
}

fn is_written_as(rt: &impl Abort, alloc: Global, record: &MapRecord, bytes: &[u8]) -> bool {
    let mut out = Vec::new(alloc);
    write_record(record, &mut out).expect(rt, "the room");
    out.as_slice() == bytes
}
