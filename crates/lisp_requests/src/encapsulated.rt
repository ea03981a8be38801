//! What stands around an encapsulated Map-Request.

ghost use Rattle.std.specs.Prelude.{◌≡◌, Ok, ◌+◌, ◌^◌, ◌<◌, ◌≤◌, ◌++◌, [], length, IfOk, OnOk, OnErr};
ghost use Rattle.lisp_records.specs.Address.{family};
ghost use Rattle.lisp_records.specs.Result.{Reads};
ghost use Rattle.lisp_records.specs.Spelling.{IsBytes};
ghost use Rattle.lisp_requests.specs.Meaning.{encapsulated_value};
ghost use Rattle.lisp_requests.specs.Encapsulated.{datagram_of, written_udp, EncapsulatedValue, IsEncapsulated, SpellsEncapsulated, StandsAt, FitsDatagram, ip_head, addresses, lisp_at, udp_at, encapsulated_at, is_summed, message_place, udp_header, summed_header, bare_sum, written_encapsulated};

use crate::checksum::{ALL_ONES, pseudo_sum, sum_from, udp_checksum, udp_sum};
use crate::fault::RequestFault;
use crate::head::{KIND_AT, number_at};
use crate::inner::{ip_header_len, put_ip_head, read_datagram};
use lisp_memory::{FallibleCopies, Memory};
use lisp_records::{Addr, is_set};
use std::alloc::AllocError;

/// The UDP port of LISP control messages.
const CONTROL_PORT: u16 = 4342;

/// The message type.
pub(crate) const ENCAPSULATED: u8 = 8;

// The flag S in the first byte: an authentication header follows.
const SECURITY: u8 = 0x08;

// The bytes of the LISP header.
const LISP_LEN: usize = 4;

// The bytes of a UDP header.
const UDP_LEN: usize = 8;

// Where its fields stand.
const SOURCE_PORT_AT: usize = 0;

const DESTINATION_PORT_AT: usize = 2;

const LENGTH_AT: usize = 4;

const CHECKSUM_AT: usize = 6;

/// What stands around an encapsulated Map-Request (RFC 9301 section 5.8), type 8:
///
/// ```text
/// byte 0       type 8 in the high 4 bits, S 0x08 (refused), D 0x04, the rest reserved
/// byte 1 to 3  reserved
/// byte 4 on    an IPv4 or IPv6 header, without options when it is written
/// then         a UDP header: source port, destination port 4342, length, checksum (2 bytes each), and the control message
/// ```
#[derive(Clone, Copy, Debug, PartialEq, Eq)]
pub struct EncapsulatedRequest<'a> {
    /// The inner source address.
    pub source: Addr,
    /// The inner destination address: an EID that is asked for.
    pub destination: Addr,
    /// The inner UDP source port, to which the Map-Reply goes.
    pub port: u16,
    /// The control message, where it lies among the bytes.
    pub message: &'a [u8],
}

/// What stands around the message that is encapsulated in the bytes, and that message; takes no memory. D, reserved bits,
/// and what follows the inner datagrams are ignored. The faults come in this order: `Short` (no 4 bytes), `Kind`,
/// `Security`, `Short` (no IP header), `IpVersion`; for IPv4 `Short` (no 20 bytes), `IpHeaderLength`, `IpLength`,
/// `Fragment`, `Protocol`, `IpChecksum`; for IPv6 `Short` (no 40 bytes), `IpLength`, `Protocol`; then `Short` (no UDP
/// header), `Port`, `UdpLength`, `UdpChecksum`.
pub fn read_encapsulated(bytes: &[u8]) -> Result<EncapsulatedRequest<'_>, RequestFault>
    // What is read is spelled by the bytes.
    ensures found { IfOk result (λ e. SpellsEncapsulated bytes.now (encapsulated_value e)) }

    // What is spelled so is read.
    ensures only { (m : EncapsulatedValue) → SpellsEncapsulated bytes.now m
        → Reads encapsulated_value result (Ok m) }

    // Which answer it is.
    ensures exact { Reads encapsulated_value result (encapsulated_at bytes.now) }

    // Both addresses are of one family.
    ensures family { IfOk result (λ e. family e.source ≡ family e.destination) }
{
    read_whole(bytes)
}

#[tactic(auto, unfolding(crate::specs::Encapsulated::encapsulated_at))]
fn read_whole(bytes: &[u8]) -> Result<EncapsulatedRequest<'_>, RequestFault>
    ensures { Reads encapsulated_value result (encapsulated_at bytes.now) }
{
    let rest = read_lisp(bytes)?;
    let (source, destination, payload) = read_datagram(rest)?;
    read_udp(source, destination, payload)
}

// The bytes after the LISP header.
#[tactic(auto, unfolding(crate::specs::Encapsulated::lisp_at))]
fn read_lisp(bytes: &[u8]) -> Result<&[u8], RequestFault>
    ensures { Reads (λ rest. rest.now) result (lisp_at bytes.now) }
{
    if bytes.len() < LISP_LEN {
        return Err(RequestFault::Short);
    }
    if bytes[KIND_AT] / 16 != ENCAPSULATED {
        return Err(RequestFault::Kind);
    }
    if is_set(bytes[KIND_AT], SECURITY) {
        return Err(RequestFault::Security);
    }
    let (_, rest) = bytes.split_at(LISP_LEN);
    Ok(rest)
}

// What a UDP datagram carries.
#[tactic(auto, unfolding(crate::specs::Encapsulated::udp_at))]
fn read_udp(
    source: Addr,
    destination: Addr,
    payload: &[u8],
) -> Result<EncapsulatedRequest<'_>, RequestFault>
    ensures { Reads encapsulated_value result
        (udp_at (datagram_of source destination payload.now)) }
{
    if payload.len() < UDP_LEN {
        return Err(RequestFault::Short);
    }
    if number_at(payload, DESTINATION_PORT_AT) != CONTROL_PORT {
        return Err(RequestFault::Port);
    }
    let len = number_at(payload, LENGTH_AT) as usize;
    if len < UDP_LEN || len > payload.len() {
        return Err(RequestFault::UdpLength);
    }
    let (datagram, _) = payload.split_at(len);
    if !is_summed(source, destination, datagram) {
        return Err(RequestFault::UdpChecksum);
    }
    let (_, message) = datagram.split_at(UDP_LEN);
    Ok(EncapsulatedRequest {
        source,
        destination,
        port: number_at(payload, SOURCE_PORT_AT),
        message,
    })
}

// Whether a UDP datagram carries its checksum, or over IPv4 none.
fn is_summed(source: Addr, destination: Addr, datagram: &[u8]) -> bool
    requires long { 8 ≤ length datagram.now }
    requires short { length datagram.now < 65536 }
    ensures { result ≡ is_summed source destination datagram.now }
{
    let none = number_at(datagram, CHECKSUM_AT) == 0;
    let right = udp_sum(source, destination, datagram) == ALL_ONES;
    match source {
        Addr::V4(_) => none || right,
        Addr::V6(_) => !none && right,
    }
}

/// Where the control message begins among the bytes that it was read from: after the LISP header, the IP header and the UDP
/// header.
pub fn message_place(bytes: &[u8], request: &EncapsulatedRequest<'_>) -> usize
    requires { SpellsEncapsulated bytes.now (encapsulated_value request.now) }
    ensures place { result ≡ message_place bytes.now request.now.source }
    ensures stands { StandsAt bytes.now result request.now.message.now }
{
    let (_, datagram) = bytes.split_at(LISP_LEN);
    LISP_LEN + ip_header_len(datagram, request.source) + UDP_LEN
}

/// The written spelling of an encapsulated message: IPv4 or IPv6 by its source address, both checksums, and all reserved
/// bits 0. It lies in memory of `alloc`; out of memory is the only refusal.
pub fn write_encapsulated<A: Memory>(
    alloc: A,
    request: &EncapsulatedRequest<'_>,
) -> Result<Vec<u8, A>, AllocError>
    requires { FitsDatagram (encapsulated_value request.now) }
    ensures written { IfOk result
        (λ v. v.items ≡ written_encapsulated (encapsulated_value request.now)) }
    ensures spells { IfOk result
        (λ v. SpellsEncapsulated v.items (encapsulated_value request.now)) }
    ensures known { OnOk result (IsEncapsulated (encapsulated_value request.now)) }
    ensures memory { OnErr result A.may_refuse }
{
    let mut out = Vec::new(alloc);
    let len = (UDP_LEN + request.message.len()) as u16;
    out.try_extend_from_slice(&[ENCAPSULATED * 16, 0, 0, 0])?;
    put_ip_head(&mut out, request.source, request.destination, len)?;
    put_udp(&mut out, request, len)?;
    Ok(out)
}

// Appends the UDP header and the message.
fn put_udp<A: Memory>(
    out: &mut Vec<u8, A>,
    request: &EncapsulatedRequest<'_>,
    len: u16,
) -> Result<(), AllocError>
    requires { len ≡ 8 + length request.now.message.now }
    ensures datagram { OnOk result
        (out.new.items ≡ out.old.items ++ written_udp (encapsulated_value request.now)) }
    ensures port { request.now.port < 2 ^ 16 }
    ensures bytes { IsBytes request.now.message.now }
    ensures memory { OnErr result A.may_refuse }
{
    let message = as_bytes(request.message);
    let checksum = udp_checksum(sum_without(request, len));
    let header = udp_header(request.port, len, checksum);
    out.try_extend_from_slice(&header)?;
    out.try_extend_from_slice(message)
}

// The bytes as they are. A proof learns that each is below 256 only of a slice that is passed in.
fn as_bytes(bytes: &[u8]) -> &[u8]
    ensures same { result.now ≡ bytes.now }
    ensures bytes { IsBytes bytes.now }
{
    bytes
}

// The sum of the UDP datagram, its checksum 0.
fn sum_without(request: &EncapsulatedRequest<'_>, len: u16) -> u16
    requires { len ≡ 8 + length request.now.message.now }
    ensures { result ≡ bare_sum (encapsulated_value request.now) }
{
    let sum = pseudo_sum(request.source, request.destination, len);
    let sum = sum_from(sum, &udp_header(request.port, len, 0));
    sum_from(sum, request.message)
}

// The 8 bytes of a UDP header.
fn udp_header(port: u16, len: u16, checksum: u16) -> [u8; UDP_LEN]
    ensures header { result ≡ udp_header port len checksum }
    ensures port { port < 2 ^ 16 }
{
    let [p0, p1] = port.to_be_bytes();
    let [d0, d1] = CONTROL_PORT.to_be_bytes();
    let [l0, l1] = len.to_be_bytes();
    let [c0, c1] = checksum.to_be_bytes();
    [p0, p1, d0, d1, l0, l1, c0, c1]
}
