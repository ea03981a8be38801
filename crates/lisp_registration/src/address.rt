//! Addresses and EID-Prefixes, as C has them.

ghost use Rattle.std.specs.Prelude.{◌≡◌, ◌++◌, replicate};
ghost use Rattle.lisp_registration.specs.Meaning.{address_in, prefix_in};
ghost use Rattle.lisp_registration.specs.Plain.{no_address, plain_address, plain_prefix};

use crate::items::Says;
use lisp_records::{Addr, Family, Prefix};

/// An address, in plain numbers (RFC 9301 section 5.4).
#[repr(C)]
#[derive(Clone, Copy)]
pub struct PlainAddress {
    /// The family, as an AFI field names it: 1 is IPv4, 2 is IPv6.
    pub family: u16,
    /// The bytes, in network order; the first four of an IPv4 address.
    pub octets: [u8; 16],
}

impl PlainAddress {
    /// An address in plain numbers; after the four bytes of an IPv4 address stand zeros.
    pub(crate) fn of(addr: Addr) -> PlainAddress
        ensures { result ≡ plain_address addr }
    {
        let family = addr.family().afi();
        let octets = match addr {
            Addr::V4(octets) => sixteen(octets),
            Addr::V6(octets) => octets,
        };
        PlainAddress { family, octets }
    }

    /// No address: all is 0.
    pub(crate) const fn none() -> PlainAddress
        ensures { result ≡ no_address }
    {
        PlainAddress {
            family: 0,
            octets: [0; 16],
        }
    }
}

impl Says for PlainAddress {
    type Said = Addr;

    ghost said = { address_in };

    /// The address; `None` where the family is neither IPv4 nor IPv6.
    fn said(&self) -> Option<Addr>
        ensures { result ≡ address_in self.now }
    {
        if self.family == Family::Ipv4.afi() {
            let [a, b, c, d, ..] = self.octets;
            return Some(Addr::V4([a, b, c, d]));
        }
        if self.family == Family::Ipv6.afi() {
            return Some(Addr::V6(self.octets));
        }
        None
    }
}

// Four bytes, and zeros.
fn sixteen(octets: [u8; 4]) -> [u8; 16]
    ensures { result ≡ octets ++ replicate 12 0 }
{
    let [a, b, c, d] = octets;
    [a, b, c, d, 0, 0, 0, 0, 0, 0, 0, 0, 0, 0, 0, 0]
}

/// An EID-Prefix, in plain numbers (RFC 9301 section 5.2).
#[repr(C)]
#[derive(Clone, Copy)]
pub struct PlainPrefix {
    /// How many bits its addresses share.
    pub mask_len: u8,
    /// Its first address. Of one that is written, bits past the mask are cleared.
    pub address: PlainAddress,
}

impl PlainPrefix {
    /// An EID-Prefix in plain numbers.
    pub(crate) fn of(prefix: &Prefix) -> PlainPrefix
        ensures { result ≡ plain_prefix prefix.now }
    {
        PlainPrefix {
            mask_len: prefix.mask_len(),
            address: PlainAddress::of(prefix.addr()),
        }
    }
}

impl Says for PlainPrefix {
    type Said = Prefix;

    ghost said = { prefix_in };

    /// The EID-Prefix; `None` where the family is neither IPv4 nor IPv6, and where the mask is longer than the address.
    fn said(&self) -> Option<Prefix>
        ensures { result ≡ prefix_in self.now }
    {
        Prefix::new(self.address.said()?, self.mask_len)
    }
}
