//! `play` over readers and writers that fail.

use crate::streams::{Narrow, Stumbling};
use crate::support::assert_at;
use lisp_player::{PlayFault, play};
use std::alloc::Global;
use std::io::{Read, Write};

/// A Map-Server and a router: a Map-Register, its arrival, and what the Map-Server holds then.
pub const SCHEDULE: &str = "\
[[site]]
id = '0000000000000001'
[[site.key]]
id = 1
secret = '736563726574'
[[site.key]]
id = 2
secret = '6e6577'
[[site.prefix]]
eid = '10.1.0.0/16'
[[server]]
name = 's1'
address = '127.0.0.11'
[[router]]
name = 'r1'
address = '127.0.0.21'
site = '0000000000000001'
xtr = '0000000000000000000000000000000a'
key = 1
servers = ['s1']
records = ['10.1.0.0/16=1440+192.0.2.1']
---
send r1 s1
deliver 0
hold s1
";

/// What a play of it prints.
const PRINTED: &str = "\
sent r1 s1 key 1 nonce 1 datagram 0
accepted s1 r1 key 1 nonce 1 datagram 1
hold s1 1
row r1 10.1.0.0/16=1440+192.0.2.1/1/100/255/0 key 1 nonce 1 age 0
";

#[test]
fn a_play_whose_reads_fail_writes_nothing_and_one_whose_writes_fail_ends_there(rt: HostRuntime) {
    for before in 0..=SCHEDULE.len() {
        let is_so = ends_so(rt.alloc(), before, usize::MAX, PlayFault::Read, 0);
        assert_at(&rt, before, is_so);
    }
    for room in 0..PRINTED.len() {
        let is_so = ends_so(rt.alloc(), usize::MAX, room, PlayFault::Write, room);
        assert_at(&rt, room, is_so);
    }
}

/// Whether a play over a reader that fails behind so many bytes, and a writer with so much room, ends with this fault
/// when so many bytes were written.
fn ends_so(alloc: Global, before: usize, room: usize, fault: PlayFault, written: usize) -> bool {
    let mut reader = Stumbling {
        bytes: SCHEDULE.as_bytes(),
        before,
    };
    let taken = Vec::new(alloc);
    let mut writer = Narrow { taken, room };
    let ended = played(alloc, &mut reader, &mut writer);
    let front = PRINTED.get(..written).unwrap_or(PRINTED);
    ended == Err(fault) && writer.taken.as_slice() == front.as_bytes()
}

// A function of its own, since what `play` promises would be proved of this reader and this writer too.
fn played<R: Read, W: Write>(
    alloc: Global,
    reader: &mut R,
    writer: &mut W,
) -> Result<(), PlayFault> {
    play(alloc, alloc, reader, writer)
}
