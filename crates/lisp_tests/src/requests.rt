//! Messages that were worked by hand from RFC 9301 sections 5.2, 5.4 and 5.8, both ways; the checksums are from Python.

use crate::support::assert_at;
use lisp_records::{Addr, MapRecord};
use lisp_requests::{
    EncapsulatedRequest, MapReply, MapRequest, RequestFault, read_encapsulated, read_reply,
    read_request, write_encapsulated, write_reply, write_request,
};

/// The nonce of each sample.
const NONCE: u64 = 0x1122334455667788;

/// Who asks.
const ITR: Addr = Addr::V4([127, 0, 0, 9]);

/// The address that is asked for.
const EID: Addr = Addr::V4([10, 1, 2, 3]);

const REQUEST: [u8; 28] = [
    0x10, 0, 0, 1, // type 1; one ITR-RLOC; one record
    0x11, 0x22, 0x33, 0x44, 0x55, 0x66, 0x77, 0x88, // nonce
    0, 0, // no Source EID
    0, 1, 127, 0, 0, 9, // ITR-RLOC
    0, 32, 0, 1, 10, 1, 2, 3, // the record
];

/// What stands before it where it is encapsulated; the UDP checksum is 0.
const AROUND: [u8; 32] = [
    0x80, 0, 0, 0, // type 8
    0x45, 0, 0, 56, 0, 0, 0, 0, 64, 17, 0xef, 0xa8, 127, 0, 0, 9, 10, 1, 2, 3, // IPv4
    0x9c, 0x40, 0x10, 0xf6, 0, 36, 0, 0, // UDP, from port 40000
];

/// What stands before it over IPv6, from 2001:db8::1 to 2001:db8::2.
const AROUND_IPV6: [u8; 52] = [
    0x80, 0, 0, 0, // type 8
    0x60, 0, 0, 0, 0, 36, 17, 64, // IPv6
    0x20, 0x01, 0x0d, 0xb8, 0, 0, 0, 0, 0, 0, 0, 0, 0, 0, 0, 1, // source
    0x20, 0x01, 0x0d, 0xb8, 0, 0, 0, 0, 0, 0, 0, 0, 0, 0, 0, 2, // destination
    0x9c, 0x40, 0x10, 0xf6, 0, 36, 0x4a, 0x75, // UDP, from port 40000
];

const NEGATIVE: [u8; 28] = [
    0x20, 0, 0, 1, // type 2; one record
    0x11, 0x22, 0x33, 0x44, 0x55, 0x66, 0x77, 0x88, // nonce
    0, 0, 0, 15, 0, 8, 0x20, 0, 0, 0, 0, 1, 11, 0, 0, 0, // Natively-Forward for 15 minutes
];

const PROXY: [u8; 40] = [
    0x20, 0, 0, 1, // type 2; one record
    0x11, 0x22, 0x33, 0x44, 0x55, 0x66, 0x77, 0x88, // nonce
    0, 0, 0x05, 0xa0, 1, 16, 0, 0, 0, 0, 0, 1, 10, 1, 0, 0, // the record
    1, 100, 255, 0, 0, 1, 0, 1, 192, 0, 2, 1, // its locator
];

/// The encapsulated sample with a byte changed, and the number of its fault.
const FAULTS: [(usize, u8, u16); 12] = [
    (0, 0x10, 111),
    (0, 0x88, 112),
    (4, 0x55, 113),
    (4, 0x44, 114),
    (7, 0xff, 115),
    (10, 0x20, 116),
    (13, 6, 117),
    (15, 0xa7, 118),
    (26, 0, 119),
    (29, 7, 120),
    (31, 1, 121),
    (5, 1, 118),
];

fn encapsulated() -> [u8; 60] {
    let mut bytes = [0; 60];
    let (around, message) = bytes.split_at_mut(32);
    around.copy_from_slice(&AROUND);
    message.copy_from_slice(&REQUEST);
    bytes
}

fn is_sample(request: &MapRequest) -> bool {
    let flags = [
        request.authoritative,
        request.probe,
        request.smr,
        request.pitr,
        request.smr_invoked,
        request.local,
        request.no_reply,
    ];
    flags == [false; 7]
        && request.nonce == NONCE
        && request.source.is_none()
        && request.itr_rlocs.as_slice() == [ITR].as_slice()
        && asks(request)
}

fn asks(request: &MapRequest) -> bool {
    match request.eids.as_slice() {
        [eid] => eid.addr() == EID && eid.mask_len() == 32,
        _ => false,
    }
}

fn says(reply: &MapReply, ttl: u32, act: u8, mask_len: u8, locators: usize) -> bool {
    let flags = [reply.probe, reply.echo_nonce, reply.sec];
    flags == [false; 3]
        && reply.nonce == NONCE
        && match reply.records.as_slice() {
            [record] => is_record(record, ttl, act, mask_len, locators),
            _ => false,
        }
}

fn is_record(record: &MapRecord, ttl: u32, act: u8, mask_len: u8, locators: usize) -> bool {
    record.ttl() == ttl
        && record.act() == act
        && !record.authoritative()
        && record.eid().mask_len() == mask_len
        && record.locators().len() == locators
}

#[test]
fn the_map_request_is_read_and_written(rt: HostRuntime) {
    let request = read_request(rt.alloc(), &REQUEST).expect(&rt, "the Map-Request");
    assert_at(&rt, 0, is_sample(&request));
    let bytes = write_request(rt.alloc(), &request).expect(&rt, "its bytes");
    assert_at(&rt, 1, bytes.as_slice() == REQUEST.as_slice());
}

#[test]
fn the_encapsulated_map_request_is_read_and_written(rt: HostRuntime) {
    let bytes = encapsulated();
    let request = read_encapsulated(&bytes).expect(&rt, "the encapsulated Map-Request");
    assert_at(
        &rt,
        0,
        request.source == ITR && request.destination == EID && request.port == 40000,
    );
    assert_at(&rt, 1, request.message == REQUEST.as_slice());
    let sample = EncapsulatedRequest {
        source: ITR,
        destination: EID,
        port: 40000,
        message: &REQUEST,
    };
    let written = write_encapsulated(rt.alloc(), &sample).expect(&rt, "its bytes");
    let mut summed = bytes;
    summed[30] = 0x1a;
    summed[31] = 0xdd;
    assert_at(&rt, 2, written.as_slice() == summed.as_slice());
    assert_at(&rt, 3, read_encapsulated(&written) == Ok(sample));
}

#[test]
fn the_same_over_ipv6_is_read_and_written(rt: HostRuntime) {
    let mut bytes = [0; 80];
    let (around, message) = bytes.split_at_mut(52);
    around.copy_from_slice(&AROUND_IPV6);
    message.copy_from_slice(&REQUEST);
    let request = read_encapsulated(&bytes).expect(&rt, "the encapsulated Map-Request");
    assert_at(
        &rt,
        0,
        request.port == 40000 && request.message == REQUEST.as_slice(),
    );
    let written = write_encapsulated(rt.alloc(), &request).expect(&rt, "its bytes");
    assert_at(&rt, 1, written.as_slice() == bytes.as_slice());
    let mut bare = bytes;
    bare[50] = 0;
    bare[51] = 0;
    assert_at(
        &rt,
        2,
        read_encapsulated(&bare) == Err(RequestFault::UdpChecksum),
    );
}

#[test]
fn each_fault_has_its_number(rt: HostRuntime) {
    for (at, value, number) in FAULTS {
        assert_at(&rt, at, fault_with(at, value) == Some(number));
    }
}

/// The number of the fault of the encapsulated Map-Request with another byte at a place.
fn fault_with(at: usize, value: u8) -> Option<u16> {
    let mut bytes = encapsulated();
    *bytes.get_mut(at)? = value;
    Some(read_encapsulated(&bytes).err()?.number())
}

#[test]
fn the_map_replies_are_read_and_written(rt: HostRuntime) {
    let negative = read_reply(rt.alloc(), &NEGATIVE).expect(&rt, "the negative Map-Reply");
    assert_at(&rt, 0, says(&negative, 15, 1, 8, 0));
    let bytes = write_reply(rt.alloc(), &negative).expect(&rt, "its bytes");
    assert_at(&rt, 1, bytes.as_slice() == NEGATIVE.as_slice());
    let proxy = read_reply(rt.alloc(), &PROXY).expect(&rt, "the Map-Reply by proxy");
    assert_at(&rt, 2, says(&proxy, 1440, 0, 16, 1));
    let bytes = write_reply(rt.alloc(), &proxy).expect(&rt, "its bytes");
    assert_at(&rt, 3, bytes.as_slice() == PROXY.as_slice());
}
