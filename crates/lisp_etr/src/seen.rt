//! What a router learns from a Map-Notify.

use lisp_records::{Bytes, Records};
use std::alloc::{Allocator, Global};

/// A Map-Notify that a router takes (RFC 9301 section 5.7).
#[derive(Debug, Drop)]
pub enum Seen<A: Allocator = Global> {
    /// A Map-Server acknowledges the router's last Map-Register of a part of its database to it.
    Counted {
        /// The number of the Map-Server.
        server: usize,
        /// The part, which the present database may no longer have.
        part: usize,
        /// The nonce of that Map-Register.
        nonce: u64,
    },
    /// A Map-Server reports unasked what it holds.
    Notice {
        /// The number of the Map-Server.
        server: usize,
        /// The Map-Server's own nonce, from 2^63 up.
        nonce: u64,
        /// What it holds.
        records: Records<A>,
        /// The Map-Notify-Ack for its source.
        answer: Bytes<A>,
    },
}
