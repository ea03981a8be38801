//! Warnings of the prefixes of sites.

ghost use Rattle.std.specs.Prelude.{◌≡◌, OnErr, position};
ghost use Rattle.std.specs.List.{list_any};
ghost use Rattle.lisp_check.specs.Warning.{Adds, each, has_around, has_prefix, inside_of, is_around, of_prefix};

use crate::adding::warn_of;
use crate::warning::{PrefixPlace, Warning};
use lisp_memory::{FallibleVec, Memory};
use lisp_records::Prefix;
use lisp_sites::{Site, SitePrefix};
use std::alloc::{AllocError, Allocator};

/// Adds the warnings of the prefixes of a site, which is one of these.
pub(crate) fn warn_of_prefixes<M: Memory, A: Allocator>(
    warnings: &mut Vec<Warning, M>,
    sites: &[Site<A>],
    site: usize,
    id: u64,
    prefixes: &[SitePrefix],
) -> Result<(), AllocError>
    ensures added { Adds result warnings.old warnings.new
        (each (of_prefix sites.now site id) prefixes.now) }
    ensures memory { OnErr result M.may_refuse }
{
    for place in 0..prefixes.len() {
        warn_of_prefix(warnings, sites, site, id, place, &prefixes[place])?;
    }
    Ok(())
}

// Adds that an earlier site has this prefix of a site, and that another one has a prefix around it.
#[tactic(auto, using(crate::proofs::Each::steps))]
fn warn_of_prefix<M: Memory, A: Allocator>(
    warnings: &mut Vec<Warning, M>,
    sites: &[Site<A>],
    site: usize,
    id: u64,
    prefix: usize,
    entry: &SitePrefix,
) -> Result<(), AllocError>
    ensures added { Adds result warnings.old warnings.new
        (of_prefix sites.now site id prefix entry.now) }
    ensures memory { OnErr result M.may_refuse }
{
    let at = PrefixPlace { site, prefix };
    let first = first_with(sites, &entry.eid).unwrap_or(site);
    warn_of(
        warnings,
        &[(first != site, Warning::SamePrefix { first, at })],
    )?;
    warn_inside(warnings, at, first_around(sites, id, &entry.eid))
}

// Adds that a prefix lies inside one of another site, where there is one.
fn warn_inside<M: Memory>(
    warnings: &mut Vec<Warning, M>,
    at: PrefixPlace,
    around: Option<usize>,
) -> Result<(), AllocError>
    ensures added { Adds result warnings.old warnings.new (inside_of at around) }
    ensures memory { OnErr result M.may_refuse }
{
    if let Some(around) = around {
        warnings.try_push(Warning::Inside { around, at })?;
    }
    Ok(())
}

// The first site that has the prefix.
fn first_with<A: Allocator>(sites: &[Site<A>], eid: &Prefix) -> Option<usize>
    ensures { result ≡ position (has_prefix eid.now) sites.now }
{
    sites.iter().position(|site| has_prefix(site, eid))
}

fn has_prefix<A: Allocator>(site: &Site<A>, eid: &Prefix) -> bool
    ensures { result ≡ has_prefix eid.now site.now }
{
    site.prefixes().iter().any(|prefix| prefix.eid == *eid)
}

// The first site but that of a Site-ID that has a prefix around this one.
fn first_around<A: Allocator>(sites: &[Site<A>], id: u64, eid: &Prefix) -> Option<usize>
    ensures { result ≡ position (has_around id eid.now) sites.now }
{
    sites.iter().position(|site| has_around(site, id, eid))
}

fn has_around<A: Allocator>(site: &Site<A>, id: u64, eid: &Prefix) -> bool
    ensures { result ≡ has_around id eid.now site.now }
{
    site.id() != id && has_prefix_around(site, eid)
}

fn has_prefix_around<A: Allocator>(site: &Site<A>, eid: &Prefix) -> bool
    ensures { result ≡ list_any (is_around eid.now) site.now.prefixes }
{
    site.prefixes().iter().any(|prefix| is_around(prefix, eid))
}

fn is_around(prefix: &SitePrefix, eid: &Prefix) -> bool
    ensures { result ≡ is_around eid.now prefix.now }
{
    prefix.more_specifics && prefix.eid.covers(eid) && prefix.eid != *eid
}
