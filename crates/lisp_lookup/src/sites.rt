//! How wide a prefix around an address may be so that by the sites it is one case.

ghost use Rattle.std.specs.Prelude.{◌≡◌, ◌≤◌, max, true, false};
ghost use Rattle.std.specs.List.{All};
ghost use Rattle.lisp_records.specs.Address.{covers, holds, max_len, prefix_around};
ghost use Rattle.lisp_lookup.specs.Hole.{IsWidest, KeepsBeside, KeepsSites};

use lisp_policy::{Site, Sites};
use lisp_records::{Addr, Prefix};
use std::alloc::Allocator;

/// How long a prefix around an address is at least that leaves no prefix of a site that has the address, and in which none lies where
/// none has.
pub(crate) fn widest_by_sites<A: Allocator>(sites: &Sites<A>, addr: &Addr) -> u8
    ensures within { result ≤ max_len addr.now }
    ensures widest { IsWidest (KeepsSites sites.now addr.now) addr.now result }
{
    let configured = sites.configured(addr);
    let mut widest = 0;
    for site in sites.as_slice() {
        widest = greater(widest, widest_in_site(site, addr, configured));
    }
    widest
}

// The same by the prefixes of one site.
fn widest_in_site<A: Allocator>(site: &Site<A>, addr: &Addr, configured: bool) -> u8
    requires { All (λ p. holds p.eid addr.now ≡ true → configured ≡ true) site.now.prefixes }
    ensures within { result ≤ max_len addr.now }
    ensures widest { IsWidest (λ eid.
        All (λ p. KeepsBeside p.eid addr.now configured eid) site.now.prefixes)
        addr.now result }
{
    let mut widest = 0;
    for entry in site.prefixes() {
        widest = greater(widest, widest_beside(&entry.eid, addr, configured));
    }
    widest
}

// The same by one prefix of a site.
fn widest_beside(of_site: &Prefix, addr: &Addr, configured: bool) -> u8
    requires { holds of_site.now addr.now ≡ true → configured ≡ true }
    ensures within { result ≤ max_len addr.now }
    ensures widest { IsWidest (KeepsBeside of_site.now addr.now configured) addr.now result }
{
    // A proof learns here that the prefix is a block.
    let _first = of_site.addr();
    if of_site.contains(addr) {
        of_site.mask_len()
    } else if configured {
        0
    } else {
        widest_without(of_site, addr)
    }
}

// How long a prefix around an address is at least in which another one doesn't lie, which doesn't have the address.
fn widest_without(other: &Prefix, addr: &Addr) -> u8
    requires { holds other.now addr.now ≡ false }
    ensures within { result ≤ max_len addr.now }
    ensures widest { IsWidest (λ eid. covers eid other.now ≡ false) addr.now result }
{
    // A proof learns here that the prefix is a block.
    let _first = other.addr();
    let longest = addr.family().max_mask_len();
    let mut length = 0;
    while length < longest && covers(addr, length, other) {
        length += 1;
    }
    length
}

// Whether another prefix lies in the one of a length around an address.
fn covers(addr: &Addr, length: u8, other: &Prefix) -> bool
    requires { length ≤ max_len addr.now }
    ensures { result ≡ covers (prefix_around addr.now length) other.now }
{
    match Prefix::new(*addr, length) {
        Some(eid) => eid.covers(other),
        None => false,
    }
}

fn greater(one: u8, other: u8) -> u8
    ensures { result ≡ max one other }
{
    one.max(other)
}
