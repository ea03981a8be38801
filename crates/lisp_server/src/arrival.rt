//! A datagram that arrived.

use lisp_records::Addr;

/// Bytes that came from an address at a time, in ms.
#[derive(Clone, Copy)]
pub(crate) struct Arrival<'a> {
    pub(crate) from: Addr,
    pub(crate) bytes: &'a [u8],
    pub(crate) now: u64,
}
