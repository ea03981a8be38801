//! The inner IP header of an encapsulated message.

ghost use Rattle.std.specs.Prelude.{◌≡◌, ◌+◌, ◌<◌, ◌≤◌, ◌++◌, length, take, drop, OnOk, OnErr};
ghost use Rattle.lisp_records.specs.declared.address.Addr.TheVariants.{V4, V6};
ghost use Rattle.lisp_records.specs.Address.{IsWhole};
ghost use Rattle.lisp_records.specs.Result.{Reads};
ghost use Rattle.lisp_requests.specs.Encapsulated.{datagram_of, header_len, ip_head, ip_header_len, written_ip, ipv4_at, ipv4_head, ipv4_sum, ipv6_at, ipv6_head, datagram_at};

use crate::checksum::{ALL_ONES, UDP, sum_from};
use crate::fault::RequestFault;
use crate::head::number_at;
use lisp_memory::{FallibleCopies, Memory};
use lisp_records::Addr;
use std::alloc::AllocError;

// The bytes of an IPv4 header without options, and of them those before the addresses.
const IPV4_LEN: usize = 20;

const IPV4_HEAD_LEN: usize = 12;

// The bytes of an IPv6 header, and of them those before the addresses.
const IPV6_LEN: usize = 40;

const IPV6_HEAD_LEN: usize = 8;

// Where the fields of an IPv4 header stand.
const VERSION_AT: usize = 0;

const TOTAL_LEN_AT: usize = 2;

const FRAGMENT_AT: usize = 6;

const PROTOCOL_AT: usize = 9;

const IPV4_SOURCE_AT: usize = 12;

const IPV4_DESTINATION_AT: usize = 16;

// Those of an IPv6 header.
const PAYLOAD_LEN_AT: usize = 4;

const NEXT_HEADER_AT: usize = 6;

const IPV6_SOURCE_AT: usize = 8;

const IPV6_DESTINATION_AT: usize = 24;

// What MF and the fragment offset of an IPv4 header leave: the flags above them.
const FRAGMENT: u16 = 0x4000;

// The TTL, or hop limit, of a datagram that is written.
const HOPS: u8 = 64;

/// An IP datagram that carries UDP, by its version: the source and destination address, and what stands after its header.
#[tactic(auto, unfolding(crate::specs::Encapsulated::datagram_at))]
pub(crate) fn read_datagram(bytes: &[u8]) -> Result<(Addr, Addr, &[u8]), RequestFault>
    ensures { Reads (λ x. datagram_of x.0 x.1 x.2.now) result (datagram_at bytes.now) }
{
    if bytes.is_empty() {
        return Err(RequestFault::Short);
    }
    match bytes[VERSION_AT] / 16 {
        4 => read_ipv4(bytes),
        6 => read_ipv6(bytes),
        _ => Err(RequestFault::IpVersion),
    }
}

#[tactic(auto, unfolding(crate::specs::Encapsulated::ipv4_at))]
fn read_ipv4(bytes: &[u8]) -> Result<(Addr, Addr, &[u8]), RequestFault>
    ensures { Reads (λ x. datagram_of x.0 x.1 x.2.now) result (ipv4_at bytes.now) }
{
    if bytes.len() < IPV4_LEN {
        return Err(RequestFault::Short);
    }
    let header_len = ipv4_header_len(bytes);
    let total_len = number_at(bytes, TOTAL_LEN_AT) as usize;
    if header_len < IPV4_LEN {
        return Err(RequestFault::IpHeaderLength);
    }
    if total_len < header_len || total_len > bytes.len() {
        return Err(RequestFault::IpLength);
    }
    if number_at(bytes, FRAGMENT_AT) % FRAGMENT != 0 {
        return Err(RequestFault::Fragment);
    }
    if bytes[PROTOCOL_AT] != UDP {
        return Err(RequestFault::Protocol);
    }
    let (header, _) = bytes.split_at(header_len);
    if sum_from(0, header) != ALL_ONES {
        return Err(RequestFault::IpChecksum);
    }
    let (datagram, _) = bytes.split_at(total_len);
    let (_, payload) = datagram.split_at(header_len);
    let source = ipv4_addr(bytes, IPV4_SOURCE_AT);
    let destination = ipv4_addr(bytes, IPV4_DESTINATION_AT);
    Ok((source, destination, payload))
}

#[tactic(auto, unfolding(crate::specs::Encapsulated::ipv6_at))]
fn read_ipv6(bytes: &[u8]) -> Result<(Addr, Addr, &[u8]), RequestFault>
    ensures { Reads (λ x. datagram_of x.0 x.1 x.2.now) result (ipv6_at bytes.now) }
{
    if bytes.len() < IPV6_LEN {
        return Err(RequestFault::Short);
    }
    let (_, rest) = bytes.split_at(IPV6_LEN);
    let payload_len = number_at(bytes, PAYLOAD_LEN_AT) as usize;
    if payload_len > rest.len() {
        return Err(RequestFault::IpLength);
    }
    if bytes[NEXT_HEADER_AT] != UDP {
        return Err(RequestFault::Protocol);
    }
    let (payload, _) = rest.split_at(payload_len);
    let source = ipv6_addr(bytes, IPV6_SOURCE_AT);
    let destination = ipv6_addr(bytes, IPV6_DESTINATION_AT);
    Ok((source, destination, payload))
}

/// The bytes of the IP header that begins there, by the family of its source address.
pub(crate) fn ip_header_len(bytes: &[u8], source: Addr) -> usize
    requires { 1 ≤ length bytes.now }
    ensures { result ≡ ip_header_len bytes.now source }
{
    match source {
        Addr::V4(_) => ipv4_header_len(bytes),
        Addr::V6(_) => IPV6_LEN,
    }
}

// The IHL counts words of 4 bytes.
fn ipv4_header_len(bytes: &[u8]) -> usize
    requires { 1 ≤ length bytes.now }
    ensures { result ≡ header_len bytes.now }
{
    bytes[VERSION_AT] as usize % 16 * 4
}

// The IPv4 address that begins at a byte.
fn ipv4_addr(bytes: &[u8], at: usize) -> Addr
    requires { at + 4 ≤ length bytes.now }
    ensures { result ≡ V4 (take 4 (drop at bytes.now)) }
{
    let (_, rest) = bytes.split_at(at);
    let (octets, _) = rest.split_first_chunk::<4>().unwrap();
    Addr::V4(*octets)
}

// The IPv6 address that begins at a byte.
fn ipv6_addr(bytes: &[u8], at: usize) -> Addr
    requires { at + 16 ≤ length bytes.now }
    ensures { result ≡ V6 (take 16 (drop at bytes.now)) }
{
    let (_, rest) = bytes.split_at(at);
    let (octets, _) = rest.split_first_chunk::<16>().unwrap();
    Addr::V6(*octets)
}

/// Appends the IP header of a datagram of so many bytes of payload: IPv4 or IPv6 by its source address.
pub(crate) fn put_ip_head<A: Memory>(
    out: &mut Vec<u8, A>,
    source: Addr,
    destination: Addr,
    len: u16,
) -> Result<(), AllocError>
    requires { len ≤ 65515 }
    ensures header { OnOk result
        (out.new.items ≡ out.old.items ++ written_ip source destination len) }
    ensures whole { OnOk result (IsWhole source × IsWhole destination) }
    ensures memory { OnErr result A.may_refuse }
{
    put_head(out, source, destination, len)?;
    out.try_extend_from_slice(source.octets())?;
    out.try_extend_from_slice(destination.octets())
}

// Appends what stands before the addresses.
fn put_head<A: Memory>(
    out: &mut Vec<u8, A>,
    source: Addr,
    destination: Addr,
    len: u16,
) -> Result<(), AllocError>
    requires { len ≤ 65515 }
    ensures head { OnOk result (out.new.items ≡ out.old.items ++ ip_head source destination len) }
    ensures memory { OnErr result A.may_refuse }
{
    match source {
        Addr::V4(_) => {
            let checksum = ALL_ONES - ipv4_sum(source, destination, len);
            out.try_extend_from_slice(&ipv4_head(len, checksum))
        }
        Addr::V6(_) => out.try_extend_from_slice(&ipv6_head(len)),
    }
}

// The sum of an IPv4 header, its checksum 0.
fn ipv4_sum(source: Addr, destination: Addr, len: u16) -> u16
    requires { len ≤ 65515 }
    ensures { result ≡ ipv4_sum source destination len }
{
    let sum = sum_from(0, &ipv4_head(len, 0));
    sum_from(sum_from(sum, source.octets()), destination.octets())
}

// Version 4, IHL 5, total length, no fragment, TTL, protocol and checksum.
fn ipv4_head(len: u16, checksum: u16) -> [u8; IPV4_HEAD_LEN]
    requires { len ≤ 65515 }
    ensures { result ≡ ipv4_head len checksum }
{
    let [l0, l1] = (IPV4_LEN as u16 + len).to_be_bytes();
    let [c0, c1] = checksum.to_be_bytes();
    [0x45, 0, l0, l1, 0, 0, 0, 0, HOPS, UDP, c0, c1]
}

// Version 6, payload length, next header and hop limit.
fn ipv6_head(len: u16) -> [u8; IPV6_HEAD_LEN]
    ensures { result ≡ ipv6_head len }
{
    let [l0, l1] = len.to_be_bytes();
    [0x60, 0, 0, 0, l0, l1, UDP, HOPS]
}
