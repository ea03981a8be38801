//! Warnings of sites.

ghost use Rattle.std.specs.Prelude.{◌≡◌, OnErr};
ghost use Rattle.std.specs.List.{list_any};
ghost use Rattle.lisp_policy.specs.Limits.{is_at_most};
ghost use Rattle.lisp_check.specs.Warning.{Adds, each, has_more_routers, is_unbounded, may_get_many, of_site, routers_of};

use crate::adding::warn_of;
use crate::prefixes::warn_of_prefixes;
use crate::warning::Warning;
use lisp_memory::Memory;
use lisp_sites::{RouterEntry, Site, SitePrefix};
use std::alloc::{AllocError, Allocator};

/// Adds the warnings of all sites of a configuration, which has these routers.
pub(crate) fn warn_of_sites<M: Memory, A: Allocator>(
    warnings: &mut Vec<Warning, M>,
    sites: &[Site<A>],
    routers: &[RouterEntry<A>],
) -> Result<(), AllocError>
    ensures added { Adds result warnings.old warnings.new
        (each (of_site sites.now routers.now) sites.now) }
    ensures memory { OnErr result M.may_refuse }
{
    for place in 0..sites.len() {
        warn_of_site(warnings, sites, routers, place, &sites[place])?;
    }
    Ok(())
}

// Adds the warnings of a site: of its keys, its prefixes, and how many rows and routers it may have.
#[tactic(auto, using(crate::proofs::Each::steps))]
fn warn_of_site<M: Memory, A: Allocator>(
    warnings: &mut Vec<Warning, M>,
    sites: &[Site<A>],
    routers: &[RouterEntry<A>],
    site: usize,
    entry: &Site<A>,
) -> Result<(), AllocError>
    ensures added { Adds result warnings.old warnings.new
        (of_site sites.now routers.now site entry.now) }
    ensures memory { OnErr result M.may_refuse }
{
    let those = [
        (entry.keys().is_empty(), Warning::NoKeys { site }),
        (entry.prefixes().is_empty(), Warning::NoPrefixes { site }),
    ];
    warn_of(warnings, &those)?;
    warn_of_prefixes(warnings, sites, site, entry.id(), entry.prefixes())?;
    let has_more = has_more_routers(routers, entry);
    let those = [
        (is_unbounded(entry), Warning::NoMostRows { site }),
        (has_more, Warning::ManyRouters { site }),
    ];
    warn_of(warnings, &those)
}

// Whether a site may get many rows, and nothing bounds them.
fn is_unbounded<A: Allocator>(site: &Site<A>) -> bool
    ensures { result ≡ is_unbounded site.now }
{
    may_get_many(site) && site.limits().most_rows.is_none()
}

// Whether it has a prefix with more-specifics, or several keys.
fn may_get_many<A: Allocator>(site: &Site<A>) -> bool
    ensures { result ≡ may_get_many site.now }
{
    has_more_specifics(site.prefixes()) || site.keys().len() > 1
}

fn has_more_specifics(prefixes: &[SitePrefix]) -> bool
    ensures { result ≡ list_any (λ p. p.more_specifics) prefixes.now }
{
    prefixes.iter().any(|prefix| prefix.more_specifics)
}

// Whether a site has more routers than may have rows.
fn has_more_routers<A: Allocator>(routers: &[RouterEntry<A>], site: &Site<A>) -> bool
    ensures { result ≡ has_more_routers routers.now site.now }
{
    !is_at_most(site.limits().most_routers, routers_of(routers, site.id()))
}

// How many routers of a site there are.
fn routers_of<A: Allocator>(routers: &[RouterEntry<A>], site: u64) -> usize
    ensures { result ≡ routers_of routers.now site }
{
    routers.iter().filter(|own| own.me.site == site).count()
}

/// Whether a number isn't above a limit, where there is one.
pub(crate) fn is_at_most(most: Option<u32>, count: usize) -> bool
    ensures { result ≡ is_at_most most count }
{
    match most {
        Some(most) => count <= most as usize,
        None => true,
    }
}
