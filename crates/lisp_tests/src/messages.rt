//! A Map-Register, against bytes that were worked by hand from RFC 9301 section 5.6; the tag is from Python's `hmac`.

use crate::worked::{SAID, says};
use lisp_hmac::Key;
use lisp_messages::{MapRegister, Message, read_message, write_register_under};
use lisp_records::MapRecord;
use std::alloc::Global;
use std::process::Abort;

/// What the message is authentic under.
const SECRET: &[u8] = b"secret";

/// The worked Map-Register.
pub const MAP_REGISTER: [u8; 84] = [
    0x3a, 0, 0x01, // type 3, P and I; reserved; M
    1, // one record
    0, 0, 0, 0, 0, 0, 0, 1, // nonce
    1, 2, 0, 16, // Key ID, HMAC-SHA-256-128-None, 16 bytes of Authentication Data
    0xcf, 0x84, 0x57, 0xee, 0x97, 0xfb, 0x53, 0x1b, // the tag
    0x55, 0x49, 0x86, 0x25, 0x74, 0xf7, 0x76, 0xad, // its second half
    0, 0, 0x05, 0xa0, 1, 16, 0x10, 0, 0, 0, 0, 1, 10, 1, 0, 0, // the worked record
    1, 100, 255, 0, 0, 0x05, 0, 1, 192, 0, 2, 1, // its locator
    0, 0, 0, 0, 0, 0, 0, 0, 0, 0, 0, 0, 0, 0, 0, 10, // xTR-ID
    0, 0, 0, 0, 0, 0, 0, 1, // Site-ID
];

/// Its xTR-ID.
const XTR: [u8; 16] = [0, 0, 0, 0, 0, 0, 0, 0, 0, 0, 0, 0, 0, 0, 0, 10];

#[test]
fn the_worked_map_register_is_read_and_written(rt: HostRuntime) {
    let message = read_message(rt.alloc(), &MAP_REGISTER).expect(&rt, "the message");
    assert!(rt; passes(&rt, rt.alloc(), &message));
}

/// Whether the message is the worked one, and is written as its bytes.
fn passes(rt: &impl Abort, alloc: Global, message: &Message) -> bool {
    match message {
        Message::Register(register) => { is_worked(register) && is_written(rt, alloc, register) }
        Message::Notify(_) => false,
    }
}

// P, I and M alone are set.
fn is_worked(register: &MapRegister) -> bool {
    let flags = [
        register.proxy,
        register.sec,
        register.eid_notify,
        register.use_ttl,
        register.merge,
        register.want_notify,
    ];
    flags == [true, false, false, false, false, true]
        && (register.nonce, register.key_id, register.site) == (1, 1, 1)
        && register.xtr == XTR
        && is_worked_alone(register.records.as_slice())
}

fn is_worked_alone(records: &[MapRecord]) -> bool {
    match records {
        [record] => says(record, &SAID),
        _ => false,
    }
}

fn is_written(rt: &impl Abort, alloc: Global, register: &MapRegister) -> bool {
    let bytes = write_register_under(alloc, register, &Key::new(SECRET)).expect(rt, "the bytes");
    bytes.as_slice() == MAP_REGISTER.as_slice()
}
