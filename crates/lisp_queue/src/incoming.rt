//! A datagram in a buffer.

use lisp_records::Addr;

/// A datagram that came, whose bytes are the first ones of a buffer.
#[derive(Clone, Copy, Debug, PartialEq, Eq)]
pub struct Incoming {
    /// The address that it comes from.
    pub from: Addr,
    /// The UDP port that it comes from.
    pub port: u16,
    /// How many bytes it has.
    pub count: usize,
}
