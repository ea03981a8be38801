//! IP datagrams that carry UDP.

ghost use Rattle.std.specs.Prelude.{◌≡◌, ◌≤◌, length, OnOk};
ghost use Rattle.lisp_records.specs.Result.{Reads};
ghost use Rattle.lisp_captures.specs.Value.{datagram_value};
ghost use Rattle.lisp_captures.specs.Internet.{carried_at, extension_at, ip_at, ipv4_at, ipv6_at, is_extension, may_carry, transport_in};

use crate::datagram::{Datagram, Unread, read_udp};
use crate::numbers::{ipv4_addr, ipv6_addr, number_at};

// The protocol, or next header, of UDP.
const UDP: u8 = 17;

// The next header of a fragment.
const FRAGMENT: u8 = 44;

// Those of the extension headers that are passed over (RFC 8200 section 4): Hop-by-Hop Options, Routing, Destination Options.
const HOP_BY_HOP: u8 = 0;

const ROUTING: u8 = 43;

const DESTINATION_OPTIONS: u8 = 60;

// How many of them are passed over at most.
const MOST_EXTENSIONS: u8 = 8;

// The bytes of an IPv4 header without options, of an IPv6 header, and of the least extension header.
const IPV4_LEN: usize = 20;

const IPV6_LEN: usize = 40;

const EXTENSION_LEN: usize = 8;

// Where the fields of an IPv4 header stand.
const VERSION_AT: usize = 0;

const TOTAL_LEN_AT: usize = 2;

const FRAGMENT_AT: usize = 6;

const PROTOCOL_AT: usize = 9;

const IPV4_SOURCE_AT: usize = 12;

const IPV4_DESTINATION_AT: usize = 16;

// Those of an IPv6 header.
const PAYLOAD_LEN_AT: usize = 4;

const NEXT_HEADER_AT: usize = 6;

const IPV6_SOURCE_AT: usize = 8;

const IPV6_DESTINATION_AT: usize = 24;

// What MF and the fragment offset of an IPv4 header leave: the flags above them.
const ABOVE_FRAGMENT: u16 = 0x4000;

/// The UDP datagram of an IP datagram, by its version.
#[tactic(auto, unfolding(crate::specs::Internet::ip_at))]
pub(crate) fn read_ip(bytes: &[u8]) -> Result<Datagram<'_>, Unread>
    ensures { Reads datagram_value result (ip_at bytes.now) }
{
    if bytes.is_empty() {
        return Err(Unread::Cut);
    }
    match bytes[VERSION_AT] / 16 {
        4 => read_ipv4(bytes),
        6 => read_ipv6(bytes),
        _ => Err(Unread::Other),
    }
}

/// The UDP datagram of an IPv4 datagram (RFC 791 section 3.1).
#[tactic(auto, unfolding(crate::specs::Internet::ipv4_at))]
pub(crate) fn read_ipv4(bytes: &[u8]) -> Result<Datagram<'_>, Unread>
    ensures { Reads datagram_value result (ipv4_at bytes.now) }
{
    if bytes.len() < IPV4_LEN {
        return Err(Unread::Cut);
    }
    let header_len = bytes[VERSION_AT] as usize % 16 * 4;
    let total_len = number_at(bytes, TOTAL_LEN_AT) as usize;
    if bytes[VERSION_AT] / 16 != 4 || header_len < IPV4_LEN {
        return Err(Unread::Damaged);
    }
    if bytes[PROTOCOL_AT] != UDP {
        return Err(Unread::Other);
    }
    if number_at(bytes, FRAGMENT_AT) % ABOVE_FRAGMENT != 0 {
        return Err(Unread::Fragment);
    }
    if total_len < header_len {
        return Err(Unread::Damaged);
    }
    if total_len > bytes.len() {
        return Err(Unread::Cut);
    }
    let (datagram, _) = bytes.split_at(total_len);
    let (_, payload) = datagram.split_at(header_len);
    let source = ipv4_addr(bytes, IPV4_SOURCE_AT);
    read_udp(source, ipv4_addr(bytes, IPV4_DESTINATION_AT), payload)
}

/// The UDP datagram of an IPv6 datagram (RFC 8200 section 3).
#[tactic(auto, unfolding(crate::specs::Internet::ipv6_at))]
pub(crate) fn read_ipv6(bytes: &[u8]) -> Result<Datagram<'_>, Unread>
    ensures { Reads datagram_value result (ipv6_at bytes.now) }
{
    if bytes.len() < IPV6_LEN {
        return Err(Unread::Cut);
    }
    let (_, rest) = bytes.split_at(IPV6_LEN);
    let len = number_at(bytes, PAYLOAD_LEN_AT) as usize;
    if bytes[VERSION_AT] / 16 != 6 {
        return Err(Unread::Damaged);
    }
    if !may_carry(bytes[NEXT_HEADER_AT]) {
        return Err(Unread::Other);
    }
    if len > rest.len() {
        return Err(Unread::Cut);
    }
    let (payload, _) = rest.split_at(len);
    let payload = read_transport(bytes[NEXT_HEADER_AT], payload)?;
    let source = ipv6_addr(bytes, IPV6_SOURCE_AT);
    read_udp(source, ipv6_addr(bytes, IPV6_DESTINATION_AT), payload)
}

// Whether UDP may follow a header with this next header: UDP, a fragment, or an extension header.
fn may_carry(next: u8) -> bool
    ensures { result ≡ may_carry next }
{
    next == UDP || next == FRAGMENT || is_extension(next)
}

// Whether it is an extension header that is passed over.
fn is_extension(next: u8) -> bool
    ensures { result ≡ is_extension next }
{
    next == HOP_BY_HOP || next == ROUTING || next == DESTINATION_OPTIONS
}

// What stands after the extension headers, where it is UDP.
fn read_transport(first: u8, payload: &[u8]) -> Result<&[u8], Unread>
    ensures { Reads (λ rest. rest.now) result (transport_in 8 first payload.now) }
{
    let mut next = first;
    let mut rest = payload;
    for _ in 0..MOST_EXTENSIONS {
        if !is_extension(next) {
            return carried(next, rest);
        }
        let after = after_extension(rest)?;
        next = rest[0];
        rest = after;
    }
    carried(next, rest)
}

// The bytes after the extension header that they begin with.
#[tactic(auto, unfolding(crate::specs::Internet::extension_at))]
fn after_extension(bytes: &[u8]) -> Result<&[u8], Unread>
    ensures read { Reads (λ rest. rest.now) result (extension_at bytes.now) }
    ensures long { OnOk result (8 ≤ length bytes.now) }
{
    if bytes.len() < EXTENSION_LEN {
        return Err(Unread::Damaged);
    }
    let len = (bytes[1] as usize + 1) * EXTENSION_LEN;
    if len > bytes.len() {
        return Err(Unread::Damaged);
    }
    let (_, rest) = bytes.split_at(len);
    Ok(rest)
}

// The bytes, where they are UDP.
fn carried(next: u8, bytes: &[u8]) -> Result<&[u8], Unread>
    ensures { Reads (λ rest. rest.now) result (carried_at next bytes.now) }
{
    match next {
        UDP => Ok(bytes),
        FRAGMENT => Err(Unread::Fragment),
        _ => Err(Unread::Other),
    }
}
