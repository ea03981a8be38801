//! How a capture begins.

ghost use Rattle.std.specs.Prelude.{◌≡◌, ◌≤◌, length};
ghost use Rattle.lisp_records.specs.Result.{Reads};
ghost use Rattle.lisp_captures.specs.Header.{began, header_at, pcap_at, resolution_at};

use crate::fault::CaptureFault;
use crate::interface::{Interface, MICROSECONDS};
use crate::numbers::{ByteOrder, u32_at};

// The magic numbers of pcap, with microseconds and with nanoseconds, in the byte order of the file; and how pcapng begins.
const MICRO_MAGIC: u32 = 0xa1b2_c3d4;

const NANO_MAGIC: u32 = 0xa1b2_3c4d;

const SECTION: u32 = 0x0a0d_0d0a;

// The resolution of the second.
const NANOSECONDS: u8 = 9;

// The bytes of a magic number, and of the header of a pcap file.
const MAGIC_LEN: usize = 4;

const HEADER_LEN: usize = 24;

// Where the fields of that header stand. The link type is the low 16 bits of its last field.
const SNAP_LEN_AT: usize = 16;

const LINK_AT: usize = 20;

const LINKS: u32 = 0x1_0000;

/// The format of a capture.
#[derive(Clone, Copy, Debug, PartialEq, Eq)]
pub enum Format {
    /// pcap: records of one interface.
    Pcap(Interface),
    /// pcapng: blocks in sections.
    Pcapng,
}

/// How a capture begins: its format, its byte order, and what stands after the header of pcap. The byte order of pcapng is
/// that of each section.
#[tactic(auto, unfolding(crate::specs::Header::header_at))]
pub(crate) fn read_header(bytes: &[u8]) -> Result<(Format, ByteOrder, &[u8]), CaptureFault>
    ensures { Reads (λ x. began x.0 x.1 x.2.now) result (header_at bytes.now) }
{
    if bytes.len() < MAGIC_LEN {
        return Err(CaptureFault::Unknown);
    }
    if u32_at(ByteOrder::Big, bytes, 0) == SECTION {
        return Ok((Format::Pcapng, ByteOrder::Big, bytes));
    }
    if let Some(resolution) = resolution(ByteOrder::Big, bytes) {
        return read_pcap(ByteOrder::Big, resolution, bytes);
    }
    match resolution(ByteOrder::Little, bytes) {
        Some(resolution) => read_pcap(ByteOrder::Little, resolution, bytes),
        None => Err(CaptureFault::Unknown),
    }
}

// The resolution that the magic number of pcap says, in a byte order.
fn resolution(order: ByteOrder, bytes: &[u8]) -> Option<u8>
    requires { 4 ≤ length bytes.now }
    ensures { result ≡ resolution_at order bytes.now }
{
    match u32_at(order, bytes, 0) {
        MICRO_MAGIC => Some(MICROSECONDS),
        NANO_MAGIC => Some(NANOSECONDS),
        _ => None,
    }
}

// How a pcap file of a resolution begins.
#[tactic(auto, unfolding(crate::specs::Header::pcap_at))]
fn read_pcap(
    order: ByteOrder,
    resolution: u8,
    bytes: &[u8],
) -> Result<(Format, ByteOrder, &[u8]), CaptureFault>
    ensures { Reads (λ x. began x.0 x.1 x.2.now) result (pcap_at order resolution bytes.now) }
{
    if bytes.len() < HEADER_LEN {
        return Err(CaptureFault::Short);
    }
    let (_, rest) = bytes.split_at(HEADER_LEN);
    let interface = Interface {
        link: (u32_at(order, bytes, LINK_AT) % LINKS) as u16,
        snap_len: u32_at(order, bytes, SNAP_LEN_AT),
        resolution,
    };
    Ok((Format::Pcap(interface), order, rest))
}
