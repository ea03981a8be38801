//! What was captured of a frame, and the datagram in it, by its link type (the LINKTYPE registry of draft-ietf-opsawg-pcaplinktype).

ghost use Rattle.std.specs.Prelude.{◌≡◌, ◌+◌, ◌≤◌};
ghost use Rattle.lisp_records.specs.Result.{Reads};
ghost use Rattle.lisp_captures.specs.Value.{datagram_value, frame_value, content_value};
ghost use Rattle.lisp_captures.specs.Frame.{content_of, link_at, network_at, typed_at, untagged_at};

use crate::datagram::{Datagram, Unread};
use crate::internet::{read_ip, read_ipv4, read_ipv6};
use crate::numbers::number_at;

// Link types.
const ETHERNET: u16 = 1;

const LINUX_COOKED: u16 = 113;

const LINUX_COOKED_2: u16 = 276;

const IPV4: u16 = 228;

const IPV6: u16 = 229;

// Raw IP: its own number, and those that files have which were written by the numbers of an operating system.
const RAW: u16 = 101;

const RAW_12: u16 = 12;

const RAW_14: u16 = 14;

// EtherTypes.
const IPV4_TYPE: u16 = 0x0800;

const IPV6_TYPE: u16 = 0x86dd;

const VLAN_TYPE: u16 = 0x8100;

const SERVICE_VLAN_TYPE: u16 = 0x88a8;

// The bytes of a VLAN tag after its type, and where the next type stands in them.
const TAG_LEN: usize = 4;

const TAGGED_TYPE_AT: usize = 2;

/// What was captured of a frame.
#[derive(Clone, Copy, Debug)]
pub struct Frame<'a> {
    /// Its link type.
    pub link: u16,
    /// When, in microseconds since 1970.
    pub at: Option<u64>,
    /// Whether less was captured than sent.
    pub is_cut: bool,
    pub bytes: &'a [u8],
}

impl<'a> Frame<'a> {
    /// The UDP datagram that the frame carries.
    pub(crate) fn content(&self) -> Result<Datagram<'a>, Unread>
        ensures { content_value result ≡ content_of (frame_value self.now) }
    {
        match read_link(self.link, self.bytes) {
            Ok(datagram) => Ok(datagram),
            Err(Unread::Cut) if !self.is_cut => Err(Unread::Damaged),
            Err(why) => Err(why),
        }
    }
}

// The UDP datagram of a frame of a link type; `Cut` where the bytes end before it does.
fn read_link(link: u16, bytes: &[u8]) -> Result<Datagram<'_>, Unread>
    ensures { Reads datagram_value result (link_at link bytes.now) }
{
    match link {
        ETHERNET => read_typed(14, 12, bytes),
        LINUX_COOKED => read_typed(16, 14, bytes),
        LINUX_COOKED_2 => read_typed(20, 0, bytes),
        RAW | RAW_12 | RAW_14 => read_ip(bytes),
        IPV4 => read_ipv4(bytes),
        IPV6 => read_ipv6(bytes),
        _ => Err(Unread::Other),
    }
}

// That of a frame with a header of so many bytes, in which the EtherType stands at a place.
#[tactic(auto, unfolding(crate::specs::Frame::typed_at))]
fn read_typed(len: usize, type_at: usize, bytes: &[u8]) -> Result<Datagram<'_>, Unread>
    requires { type_at + 2 ≤ len }
    ensures { Reads datagram_value result (typed_at len type_at bytes.now) }
{
    if bytes.len() < len {
        return Err(Unread::Cut);
    }
    let (_, rest) = bytes.split_at(len);
    let (ether_type, rest) = untagged(number_at(bytes, type_at), rest)?;
    let (ether_type, rest) = untagged(ether_type, rest)?;
    read_network(ether_type, rest)
}

// What stands after a VLAN tag (IEEE 802.1Q), where there is one: the EtherType, and the bytes after it.
#[tactic(auto, unfolding(crate::specs::Frame::untagged_at))]
fn untagged(ether_type: u16, bytes: &[u8]) -> Result<(u16, &[u8]), Unread>
    ensures { Reads (λ x. (x.0, x.1.now)) result (untagged_at ether_type bytes.now) }
{
    if ether_type != VLAN_TYPE && ether_type != SERVICE_VLAN_TYPE {
        return Ok((ether_type, bytes));
    }
    if bytes.len() < TAG_LEN {
        return Err(Unread::Cut);
    }
    let (_, rest) = bytes.split_at(TAG_LEN);
    Ok((number_at(bytes, TAGGED_TYPE_AT), rest))
}

// The UDP datagram of what an EtherType names.
fn read_network(ether_type: u16, bytes: &[u8]) -> Result<Datagram<'_>, Unread>
    ensures { Reads datagram_value result (network_at ether_type bytes.now) }
{
    match ether_type {
        IPV4_TYPE => read_ipv4(bytes),
        IPV6_TYPE => read_ipv6(bytes),
        _ => Err(Unread::Other),
    }
}
