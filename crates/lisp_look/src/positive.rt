//! Whether a Map-Reply maps what was asked for.

ghost use Rattle.std.specs.Prelude.{◌≡◌};
ghost use Rattle.std.specs.List.{list_any};
ghost use Rattle.lisp_records.specs.Address.{covers, max_len, prefix_around};
ghost use Rattle.lisp_look.specs.Look.{has_locators, is_longest, is_mapped, is_positive, told_of};

use lisp_records::{Locator, MapRecord, Prefix};
use lisp_requests::MapReply;
use std::alloc::Allocator;

/// Whether the longest record of a Map-Reply that covers an EID-Prefix has a locator; where no record covers all of it, its first address
/// is looked for in its place. Else it is a negative Map-Reply (RFC 9301 section 5.4).
pub fn is_positive<A: Allocator>(eid: &Prefix, reply: &MapReply<A>) -> bool
    ensures { result ≡ is_positive eid.now reply.now }
{
    let records = reply.records.as_slice();
    is_mapped(&told_of(eid, records), records)
}

// What the records tell of.
fn told_of<A: Allocator>(eid: &Prefix, records: &[MapRecord<A>]) -> Prefix
    ensures { result ≡ told_of eid.now records.now }
{
    if is_covered(eid, records) {
        *eid
    } else {
        first_of(eid)
    }
}

// Whether a record covers it.
fn is_covered<A: Allocator>(eid: &Prefix, records: &[MapRecord<A>]) -> bool
    ensures { result ≡ list_any (λ m. covers m.eid eid.now) records.now }
{
    records.iter().any(|entry| entry.eid_ref().covers(eid))
}

// The first address of an EID-Prefix, with the full mask length.
fn first_of(eid: &Prefix) -> Prefix
    ensures { result ≡ prefix_around eid.now.addr (max_len eid.now.addr) }
{
    let addr = eid.addr();
    Prefix::new(addr, addr.family().max_mask_len()).unwrap()
}

// Whether the longest record that covers it has a locator.
fn is_mapped<A: Allocator>(eid: &Prefix, records: &[MapRecord<A>]) -> bool
    ensures { result ≡ is_mapped eid.now records.now }
{
    records.iter().any(|entry| entry.eid_ref().covers(eid)
        && has_locators(entry.locators())
        && is_longest(eid, records, entry))
}

fn has_locators(locators: &[Locator]) -> bool
    ensures { result ≡ has_locators locators.now }
{
    match locators {
        [] => false,
        [_, ..] => true,
    }
}

// Whether no record that covers it is longer.
fn is_longest<A: Allocator>(eid: &Prefix, records: &[MapRecord<A>], entry: &MapRecord<A>) -> bool
    ensures { result ≡ is_longest eid.now records.now entry.now }
{
    let mask_len = entry.eid_ref().mask_len();
    records.iter().all(|other| !other.eid_ref().covers(eid)
        || other.eid_ref().mask_len() <= mask_len)
}
