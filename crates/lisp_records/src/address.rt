//! Addresses of the two families that EIDs and locators may have.

ghost use Rattle.std.specs.Prelude.{◌≡◌, ◌-◌, ◌*◌, ◌/◌, ◌^◌, ◌<◌};
ghost use Rattle.std.specs.Int.{w32, w128, from_be_bytes};
ghost use Rattle.std.specs.List.{AllByRecursion};
ghost use Rattle.lisp_records.specs.Address.{afi, width, family, octets, IsWhole, cleared, addr_eq, addr_cmp};
ghost use Rattle.lisp_records.specs.Result.{Reads};
ghost use Rattle.lisp_records.specs.Reading.{address_at, named_at};

use crate::fault::RecordFault;
use std::cmp::Ordering;

/// An address family, as an AFI field names it (RFC 9301 section 5.4).
#[derive(Clone, Copy, Debug, PartialEq, Eq)]
pub enum Family {
    Ipv4,
    Ipv6,
}

impl Family {
    /// The number in an AFI field: 1 for IPv4, 2 for IPv6.
    pub const fn afi(self) -> u16
        ensures { result ≡ afi self }
    {
        match self {
            Family::Ipv4 => 1,
            Family::Ipv6 => 2,
        }
    }

    /// The bytes of an address: 4 or 16.
    pub const fn width(self) -> u8
        ensures { result ≡ width self }
    {
        match self {
            Family::Ipv4 => 4,
            Family::Ipv6 => 16,
        }
    }

    /// The longest mask: 32 or 128.
    pub const fn max_mask_len(self) -> u8
        ensures { result ≡ 8 * width self }
    {
        match self {
            Family::Ipv4 => 32,
            Family::Ipv6 => 128,
        }
    }
}

/// An address, its bytes in network order. IPv4 is ordered before IPv6, then bytes decide.
#[derive(Clone, Copy, Debug, PartialEq, Eq, PartialOrd, Ord, Hash)]
pub enum Addr {
    V4([u8; 4]),
    V6([u8; 16]),
}

impl Addr {
    /// The family that the address is of.
    pub const fn family(&self) -> Family
        ensures { result ≡ family self.now }
    {
        match self {
            Addr::V4(_) => Family::Ipv4,
            Addr::V6(_) => Family::Ipv6,
        }
    }

    /// The bytes of the address: 4 or 16, in network order.
    pub fn octets(&self) -> &[u8]
        ensures octets { result.now ≡ octets self.now }
        ensures whole { IsWhole self.now }
    {
        match self {
            Addr::V4(bytes) => as_bytes(bytes),
            Addr::V6(bytes) => as_bytes(bytes),
        }
    }

    /// The address with all but its first `mask_len` bits cleared.
    pub(crate) fn cleared(self, mask_len: u8) -> Addr
        ensures cleared { result ≡ cleared self mask_len }
        ensures whole { IsWhole result }
    {
        // A proof learns here that each byte is below 256.
        let _ = self.octets();
        match self {
            Addr::V4(bytes) => Addr::V4(first_bits_v4(bytes, mask_len).to_be_bytes()),
            Addr::V6(bytes) => Addr::V6(first_bits_v6(bytes, mask_len).to_be_bytes()),
        }
    }

    /// Whether the address is in the block of a first address and a mask length.
    pub(crate) fn is_in(&self, first: &Addr, mask_len: u8) -> bool
        ensures { result ≡ addr_eq (cleared self.now mask_len) first.now }
    {
        // As in `cleared`.
        let _ = self.octets();
        let _ = first.octets();
        match (self, first) {
            (Addr::V4(bytes), Addr::V4(first)) => {
                first_bits_v4(*bytes, mask_len) == u32::from_be_bytes(*first)
            }
            (Addr::V6(bytes), Addr::V6(first)) => {
                first_bits_v6(*bytes, mask_len) == u128::from_be_bytes(*first)
            }
            _ => false,
        }
    }

    /// As `cmp`, by the numbers that the bytes spell.
    pub(crate) fn order(&self, other: &Addr) -> Ordering
        requires whole { IsWhole self.now × IsWhole other.now }
        ensures { result ≡ addr_cmp self.now other.now }
    {
        match (self, other) {
            (Addr::V4(one), Addr::V4(other)) => {
                u32::from_be_bytes(*one).cmp(&u32::from_be_bytes(*other))
            }
            (Addr::V6(one), Addr::V6(other)) => {
                u128::from_be_bytes(*one).cmp(&u128::from_be_bytes(*other))
            }
            (Addr::V4(_), Addr::V6(_)) => Ordering::Less,
            (Addr::V6(_), Addr::V4(_)) => Ordering::Greater,
        }
    }
}

/// The bytes as they are. A proof learns that each is below 256 only of a slice that is passed in.
#[tactic(auto, using(crate::proofs::Fields::each_byte))]
pub(crate) fn as_bytes(bytes: &[u8]) -> &[u8]
    ensures same { result.now ≡ bytes.now }
    ensures bytes { AllByRecursion (λ n. n < 256) bytes.now }
{
    bytes
}

/// The address at the front of the bytes, of the family that an AFI field names, and the bytes after
/// it. The faults come in the order `Afi`, `Mask` (a mask of so many bits, 0 where there is none, is
/// longer than the address), `Short`.
pub(crate) fn read_address(
    afi: u16,
    mask_len: u8,
    bytes: &[u8],
) -> Result<(Addr, &[u8]), RecordFault>
    ensures { Reads (λ x. (x.0, x.1.now)) result (named_at afi mask_len bytes.now) }
{
    let family = match afi {
        1 => Family::Ipv4,
        2 => Family::Ipv6,
        _ => return Err(RecordFault::Afi),
    };
    if mask_len > family.max_mask_len() {
        return Err(RecordFault::Mask);
    }
    read_octets(family, bytes)
}

// The address of a family at the front of the bytes, and the bytes after it; `Short` where they are
// too few.
#[tactic(auto, unfolding(crate::specs::Reading::address_at))]
fn read_octets(expected: Family, bytes: &[u8]) -> Result<(Addr, &[u8]), RecordFault>
    ensures { Reads (λ x. (x.0, x.1.now)) result (address_at expected bytes.now) }
{
    match expected {
        Family::Ipv4 => {
            let Some((octets, rest)) = bytes.split_first_chunk::<4>() else {
                return Err(RecordFault::Short);
            };
            Ok((Addr::V4(*octets), rest))
        }
        Family::Ipv6 => {
            let Some((octets, rest)) = bytes.split_first_chunk::<16>() else {
                return Err(RecordFault::Short);
            };
            Ok((Addr::V6(*octets), rest))
        }
    }
}

// The number that the bytes spell, with all but its first `mask_len` bits cleared.
fn first_bits_v4(bytes: [u8; 4], mask_len: u8) -> u32
    ensures { result ≡ from_be_bytes w32 bytes / 2 ^ (32 - mask_len) * 2 ^ (32 - mask_len) }
{
    let past = u32::from(32_u8.saturating_sub(mask_len));
    match u32::from_be_bytes(bytes).checked_shr(past) {
        Some(kept) => kept << past,
        None => 0,
    }
}

// As `first_bits_v4`.
fn first_bits_v6(bytes: [u8; 16], mask_len: u8) -> u128
    ensures { result ≡ from_be_bytes w128 bytes / 2 ^ (128 - mask_len) * 2 ^ (128 - mask_len) }
{
    let past = u32::from(128_u8.saturating_sub(mask_len));
    match u128::from_be_bytes(bytes).checked_shr(past) {
        Some(kept) => kept << past,
        None => 0,
    }
}
