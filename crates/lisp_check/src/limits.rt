//! Warnings of what the limits of a router's site don't let through.

ghost use Rattle.std.specs.Prelude.{◌≡◌, OnErr};
ghost use Rattle.std.specs.Option.{option_map};
ghost use Rattle.lisp_check.specs.Warning.{Adds, has_many_rows, is_not_listed, is_of_other_source, is_out_of_bounds, limits_of, of_limits, row_count};

use crate::adding::warn_of;
use crate::sites::is_at_most;
use crate::warning::Warning;
use lisp_memory::Memory;
use lisp_policy::{Limits, Sites};
use lisp_sites::RouterEntry;
use std::alloc::{AllocError, Allocator};

/// Adds what of a router the limits of its site don't let through: its xTR-ID, its address, and all of its rows.
#[tactic(auto, using(crate::proofs::Each::steps))]
pub(crate) fn warn_of_limits<M: Memory, A: Allocator>(
    warnings: &mut Vec<Warning, M>,
    sites: &Sites<A>,
    router: usize,
    entry: &RouterEntry<A>,
) -> Result<(), AllocError>
    ensures added { Adds result warnings.old warnings.new (of_limits sites.now router entry.now) }
    ensures memory { OnErr result M.may_refuse }
{
    let other_source = is_of_other_source(sites, entry);
    let those = [
        (is_not_listed(sites, entry), Warning::NotListed { router }),
        (other_source, Warning::OtherSource { router }),
        (has_many_rows(sites, entry), Warning::ManyRows { router }),
    ];
    warn_of(warnings, &those)
}

fn is_not_listed<A: Allocator>(sites: &Sites<A>, router: &RouterEntry<A>) -> bool
    ensures { result ≡ is_not_listed sites.now router.now }
{
    match limits_of(sites, router) {
        Some(limits) => !limits.lets_router(&router.me.xtr),
        None => false,
    }
}

fn is_of_other_source<A: Allocator>(sites: &Sites<A>, router: &RouterEntry<A>) -> bool
    ensures { result ≡ is_of_other_source sites.now router.now }
{
    match limits_of(sites, router) {
        Some(limits) => !limits.lets_source(&router.address),
        None => false,
    }
}

fn has_many_rows<A: Allocator>(sites: &Sites<A>, router: &RouterEntry<A>) -> bool
    ensures { result ≡ has_many_rows sites.now router.now }
{
    match limits_of(sites, router) {
        Some(limits) => !is_at_most(limits.most_rows, row_count(router)),
        None => false,
    }
}

// How many rows a router registers: one for each record that withdraws nothing.
fn row_count<A: Allocator>(router: &RouterEntry<A>) -> usize
    ensures { result ≡ row_count router.now.database }
{
    let records = router.database.records();
    records.iter().filter(|record| record.ttl() != 0).count()
}

/// Whether the limits of the router's site don't let a record with this TTL through.
pub(crate) fn is_out_of_bounds<A: Allocator>(
    sites: &Sites<A>,
    router: &RouterEntry<A>,
    ttl: u32,
) -> bool
    ensures { result ≡ is_out_of_bounds sites.now router.now ttl }
{
    match limits_of(sites, router) {
        Some(limits) => !limits.lets_ttl(router.use_ttl, ttl),
        None => false,
    }
}

// The limits of a router's site.
fn limits_of<'s, A: Allocator>(
    sites: &'s Sites<A>,
    router: &RouterEntry<A>,
) -> Option<&'s Limits<A>>
    ensures { option_map (λ l. l.now) result ≡ limits_of sites.now router.now }
{
    Some(sites.site(router.me.site)?.limits())
}
