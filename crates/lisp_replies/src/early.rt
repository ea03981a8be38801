//! Which rows aren't replied with in the first moments of a life.

ghost use Rattle.std.specs.Prelude.{◌≡◌, ◌&&◌, nat_lt};
ghost use Rattle.std.specs.List.{list_any};
ghost use Rattle.lisp_records.specs.Address.{covers, prefix_eq};
ghost use Rattle.lisp_replies.specs.Reply.{is_starting, is_held_back, is_of_site, is_longer_of_site};

use lisp_policy::{Site, Sites};
use lisp_records::{Prefix, Row};
use std::alloc::Allocator;

/// How long, in ms, a life is starting, unless another time is asked for: as long as routers may take to register again.
pub const QUIET: u64 = 60_000;

/// Whether a life that began at a moment, in ms, is still starting at another, where that lasts for so many ms.
pub fn is_starting(began: u64, quiet: u64, now: u64) -> bool
    ensures { result ≡ is_starting began quiet now }
{
    now.saturating_sub(began) < quiet
}

/// Whether a row isn't replied with, because the Map-Server is starting: rows of longer prefixes may come back, unless its prefix is the
/// longest of a site that covers the one that is asked for.
pub(crate) fn is_held_back<A: Allocator, B: Allocator>(
    starting: bool,
    sites: &Sites<B>,
    asked: &Prefix,
    best: &Row<A>,
) -> bool
    ensures { result ≡ is_held_back starting sites.now asked.now best.now }
{
    let eid = best.mapping.eid_ref();
    starting && !(is_of_site(sites, eid) && !is_longer_of_site(sites, asked, eid))
}

// Whether the prefix is one of a site.
fn is_of_site<A: Allocator>(sites: &Sites<A>, eid: &Prefix) -> bool
    ensures { result ≡ is_of_site sites.now eid.now }
{
    sites.as_slice().iter().any(|site| has_prefix(site, eid))
}

fn has_prefix<A: Allocator>(site: &Site<A>, eid: &Prefix) -> bool
    ensures { result ≡ list_any (λ p. prefix_eq p.eid eid.now) site.now.prefixes }
{
    site.prefixes().iter().any(|of_site| of_site.eid == *eid)
}

// Whether a longer one of a site covers the one that is asked for.
fn is_longer_of_site<A: Allocator>(sites: &Sites<A>, asked: &Prefix, eid: &Prefix) -> bool
    ensures { result ≡ is_longer_of_site sites.now asked.now eid.now }
{
    sites
        .as_slice()
        .iter()
        .any(|site| has_longer(site, asked, eid))
}

fn has_longer<A: Allocator>(site: &Site<A>, asked: &Prefix, eid: &Prefix) -> bool
    ensures { result ≡ list_any (λ p. covers p.eid asked.now
        && nat_lt eid.now.mask_len p.eid.mask_len) site.now.prefixes }
{
    site.prefixes()
        .iter()
        .any(|of_site| is_longer(&of_site.eid, asked, eid))
}

// Whether a prefix covers the one that is asked for, and is longer than another.
fn is_longer(one: &Prefix, asked: &Prefix, other: &Prefix) -> bool
    ensures { result ≡ (covers one.now asked.now && nat_lt other.now.mask_len one.now.mask_len) }
{
    one.covers(asked) && other.mask_len() < one.mask_len()
}
