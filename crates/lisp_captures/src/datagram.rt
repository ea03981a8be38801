//! UDP datagrams, and why a packet has none.

ghost use Rattle.std.specs.Prelude.{◌≡◌};
ghost use Rattle.lisp_records.specs.Result.{Reads};
ghost use Rattle.lisp_captures.specs.Value.{datagram_value};
ghost use Rattle.lisp_captures.specs.Internet.{udp_at};

use crate::numbers::number_at;
use lisp_records::Addr;

// The bytes of a UDP header.
const UDP_LEN: usize = 8;

// Where its fields stand.
const SOURCE_PORT_AT: usize = 0;

const DESTINATION_PORT_AT: usize = 2;

const LENGTH_AT: usize = 4;

/// A UDP datagram (RFC 768) over IPv4 or IPv6.
#[derive(Clone, Copy, Debug, PartialEq, Eq)]
pub struct Datagram<'a> {
    pub source: Addr,
    pub destination: Addr,
    pub source_port: u16,
    pub destination_port: u16,
    /// What it carries, where it lies among the bytes.
    pub payload: &'a [u8],
}

/// Why no datagram is read of a packet.
#[derive(Clone, Copy, Debug, PartialEq, Eq)]
pub enum Unread {
    /// The datagram doesn't end within what was captured, and less was captured than was sent.
    Cut,
    /// A header or a block says what can't be: a length that is too small, or more than what is there; an interface that the
    /// section doesn't have.
    Damaged,
    /// An IP fragment.
    Fragment,
    /// No UDP over IP, or a link type that isn't read.
    Other,
    /// The file ends before the record or block does. Nothing follows.
    Truncated,
    /// The lengths of a block don't agree, or a section header has no byte order. What follows can't be found.
    Lost,
}

/// The UDP datagram that an IP datagram carries.
#[tactic(auto, unfolding(crate::specs::Internet::udp_at))]
pub(crate) fn read_udp(
    source: Addr,
    destination: Addr,
    payload: &[u8],
) -> Result<Datagram<'_>, Unread>
    ensures { Reads datagram_value result (udp_at source destination payload.now) }
{
    if payload.len() < UDP_LEN {
        return Err(Unread::Damaged);
    }
    let len = number_at(payload, LENGTH_AT) as usize;
    if len < UDP_LEN || len > payload.len() {
        return Err(Unread::Damaged);
    }
    let (datagram, _) = payload.split_at(len);
    let (_, message) = datagram.split_at(UDP_LEN);
    Ok(Datagram {
        source,
        destination,
        source_port: number_at(payload, SOURCE_PORT_AT),
        destination_port: number_at(payload, DESTINATION_PORT_AT),
        payload: message,
    })
}
