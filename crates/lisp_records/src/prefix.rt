//! EID-Prefixes: blocks of addresses.

ghost use Rattle.std.specs.Prelude.{◌≡◌, ◌≤◌, ◌↔◌, IsTrue, IsSome, IfSome};
ghost use Rattle.lisp_records.specs.Address.{IsWhole, IsPrefix, Covers, covers, Holds, holds, max_len, prefix_around, prefix_cmp};

use crate::address::Addr;
use std::cmp::Ordering;
use std::marker::Model;

/// A block of addresses: those that begin with the first `mask_len` bits of `addr`. Prefixes are
/// ordered by address (IPv4 before IPv6, then by its bytes), then by mask length.
#[derive(Clone, Copy, Debug, PartialEq, Eq, PartialOrd, Ord, Hash)]
pub struct Prefix {
    addr: Addr,
    mask_len: u8,
}

impl Model for Prefix {
    ghost use Rattle.std.specs.Prelude.{◌≡◌};
    ghost use Rattle.lisp_records.specs.Address.{PrefixValue, IsPrefix, IsWhole};

    ghost Value = { PrefixValue };

    ghost view = { λ p. record { addr = p.addr; mask_len = p.mask_len } };

    ghost invariant = { λ p. IsWhole p.addr × IsPrefix (record { addr = p.addr; mask_len = p.mask_len }) };

    ghost inverse = { λ b. record { addr = b.addr; mask_len = b.mask_len } };
}

impl Prefix {
    /// The block of the addresses that share the first `mask_len` bits of `addr`; its later bits
    /// are cleared. `None` where the mask is longer than the address: 32 bits, or 128.
    pub fn new(addr: Addr, mask_len: u8) -> Option<Prefix>
        ensures valid { IsSome result ↔ (mask_len ≤ max_len addr) }
        ensures value { IfSome result (λ p. p ≡ prefix_around addr mask_len) }
    {
        if mask_len > addr.family().max_mask_len() {
            return None;
        }
        Some(Prefix::masked(addr, mask_len))
    }

    /// As `new`, for a mask that is known to fit.
    pub(crate) fn masked(addr: Addr, mask_len: u8) -> Prefix
        requires { mask_len ≤ max_len addr }
        ensures { result ≡ prefix_around addr mask_len }
    {
        Prefix {
            addr: addr.cleared(mask_len),
            mask_len,
        }
    }

    /// The first address of the block.
    pub fn addr(&self) -> Addr
        ensures addr { result ≡ self.now.addr }
        ensures whole { IsWhole self.now.addr }
        ensures block { IsPrefix self.now }
    {
        self.addr
    }

    /// As `addr`, where it lies.
    pub(crate) fn first(&self) -> &Addr
        ensures { result.now ≡ self.now.addr }
    {
        &self.addr
    }

    /// As `cmp`, but the bytes of the addresses are compared as numbers: faster, for a search among many.
    pub fn order(&self, other: &Prefix) -> Ordering
        ensures { result ≡ prefix_cmp self.now other.now }
    {
        match self.addr.order(&other.addr) {
            Ordering::Equal => self.mask_len.cmp(&other.mask_len),
            order => order,
        }
    }

    /// How many leading bits the addresses of the block share.
    pub fn mask_len(&self) -> u8
        ensures { result ≡ self.now.mask_len }
    {
        self.mask_len
    }

    /// Whether `other` is this block or lies inside it.
    pub fn covers(&self, other: &Prefix) -> bool
        ensures covers { IsTrue result ↔ Covers self.now other.now }
        ensures test { result ≡ covers self.now other.now }
    {
        self.mask_len <= other.mask_len && other.addr.is_in(&self.addr, self.mask_len)
    }

    /// Whether an address is one of the block.
    pub fn contains(&self, addr: &Addr) -> bool
        ensures holds { IsTrue result ↔ Holds self.now addr.now }
        ensures test { result ≡ holds self.now addr.now }
    {
        addr.is_in(&self.addr, self.mask_len)
    }
}
