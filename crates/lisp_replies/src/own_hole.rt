//! The widest prefix around an address in which no record of a router's database lies.

ghost use Rattle.std.specs.Prelude.{◌≡◌, ◌≤◌, false};
ghost use Rattle.lisp_records.specs.Address.{covers, max_len, prefix_around};
ghost use Rattle.lisp_lookup.specs.Covering.{alone};
ghost use Rattle.lisp_replies.specs.Own.{IsOwnHole, NoneIsFor};
ghost use Rattle.lisp_replies.specs.OwnSteps.{IsLeastWithout};

use lisp_records::{Addr, MapRecord, Prefix};
use std::alloc::Allocator;

/// The widest prefix around an address that no record has, in which no record's prefix lies, nor over it.
pub(crate) fn own_hole<A: Allocator>(records: &[MapRecord<A>], addr: &Addr) -> Prefix
    requires { NoneIsFor records.now (alone addr.now) }
    ensures { IsOwnHole records.now addr.now result }
{
    let mut least = 0;
    for record in records {
        least = least_without(record.eid_ref(), addr, least);
    }
    Prefix::new(*addr, least).unwrap()
}

// How long a prefix around an address is at least, from a length on, in which another prefix doesn't lie, which doesn't have the address.
fn least_without(other: &Prefix, addr: &Addr, from: u8) -> u8
    requires within { from ≤ max_len addr.now }
    requires apart { covers other.now (alone addr.now) ≡ false }
    ensures within { result ≤ max_len addr.now }
    ensures least { IsLeastWithout other.now addr.now from result }
{
    // A proof learns here that the prefix is a block.
    let _first = other.addr();
    let longest = addr.family().max_mask_len();
    let mut length = from;
    while length < longest && lies_in(other, addr, length) {
        length += 1;
    }
    length
}

// Whether a prefix lies in that of a length around an address.
fn lies_in(other: &Prefix, addr: &Addr, length: u8) -> bool
    requires { length ≤ max_len addr.now }
    ensures { result ≡ covers (prefix_around addr.now length) other.now }
{
    Prefix::new(*addr, length).unwrap().covers(other)
}
