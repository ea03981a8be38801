//! Warnings of routers.

ghost use Rattle.std.specs.Prelude.{◌≡◌, OnErr, position};
ghost use Rattle.lisp_check.specs.Warning.{Adds, each, is_of_other_family, is_twin, may_register, of_record, of_router, of_server, same_key};

use crate::adding::warn_of;
use crate::limits::{is_out_of_bounds, warn_of_limits};
use crate::nodes::is_like;
use crate::warning::Warning;
use lisp_memory::Memory;
use lisp_policy::Sites;
use lisp_records::{MapRecord, Prefix};
use lisp_sites::{Config, RouterEntry, ServerEntry};
use std::alloc::{AllocError, Allocator};

/// Adds the warnings of these routers of a configuration.
pub(crate) fn warn_of_routers<M: Memory, A: Allocator>(
    warnings: &mut Vec<Warning, M>,
    config: &Config<A>,
    routers: &[RouterEntry<A>],
) -> Result<(), AllocError>
    ensures added { Adds result warnings.old warnings.new (each (of_router config.now) routers.now) }
    ensures memory { OnErr result M.may_refuse }
{
    for place in 0..routers.len() {
        warn_of_router(warnings, config, place, &routers[place])?;
    }
    Ok(())
}

// Adds the warnings of a router: of its identity, its records, its Map-Servers, its key, and its site's limits.
#[tactic(auto, using(crate::proofs::Each::steps))]
fn warn_of_router<M: Memory, A: Allocator>(
    warnings: &mut Vec<Warning, M>,
    config: &Config<A>,
    router: usize,
    entry: &RouterEntry<A>,
) -> Result<(), AllocError>
    ensures added { Adds result warnings.old warnings.new (of_router config.now router entry.now) }
    ensures memory { OnErr result M.may_refuse }
{
    let routers = config.routers();
    let first = first_identical(routers, entry).unwrap_or(router);
    warn_of(
        warnings,
        &[(first != router, Warning::SameIdentity { first, router })],
    )?;
    let sites = config.sites();
    warn_of_records(warnings, sites, router, entry, entry.database.records())?;
    let servers = entry.servers.as_slice();
    warn_of_servers(warnings, config.servers(), router, entry, servers)?;
    let first = first_with_key(routers, entry).unwrap_or(router);
    let those = [
        (first != router, Warning::SameKey { first, router }),
        (servers.is_empty(), Warning::NoServers { router }),
    ];
    warn_of(warnings, &those)?;
    warn_of_limits(warnings, sites, router, entry)
}

// The first router with the identity of this one.
fn first_identical<A: Allocator>(
    routers: &[RouterEntry<A>],
    router: &RouterEntry<A>,
) -> Option<usize>
    ensures { result ≡ position (is_twin router.now) routers.now }
{
    routers.iter().position(|other| is_twin(router, other))
}

fn is_twin<A: Allocator>(router: &RouterEntry<A>, other: &RouterEntry<A>) -> bool
    ensures { result ≡ is_twin router.now other.now }
{
    other.me == router.me
}

// The first router of the site of this one that uses its key.
fn first_with_key<A: Allocator>(
    routers: &[RouterEntry<A>],
    router: &RouterEntry<A>,
) -> Option<usize>
    ensures { result ≡ position (same_key router.now) routers.now }
{
    routers.iter().position(|other| has_same_key(router, other))
}

fn has_same_key<A: Allocator>(router: &RouterEntry<A>, other: &RouterEntry<A>) -> bool
    ensures { result ≡ same_key router.now other.now }
{
    other.me.site == router.me.site && other.key_id == router.key_id
}

// Adds the warnings of these records of a router.
fn warn_of_records<M: Memory, A: Allocator>(
    warnings: &mut Vec<Warning, M>,
    sites: &Sites<A>,
    router: usize,
    entry: &RouterEntry<A>,
    records: &[MapRecord<A>],
) -> Result<(), AllocError>
    ensures added { Adds result warnings.old warnings.new
        (each (of_record sites.now router entry.now) records.now) }
    ensures memory { OnErr result M.may_refuse }
{
    for place in 0..records.len() {
        warn_of_record(warnings, sites, router, entry, place, &records[place])?;
    }
    Ok(())
}

// Adds that its site doesn't allow a record, and that the site's limits don't.
#[tactic(auto, using(crate::proofs::Each::steps))]
fn warn_of_record<M: Memory, A: Allocator>(
    warnings: &mut Vec<Warning, M>,
    sites: &Sites<A>,
    router: usize,
    entry: &RouterEntry<A>,
    place: usize,
    record: &MapRecord<A>,
) -> Result<(), AllocError>
    ensures added { Adds result warnings.old warnings.new
        (of_record sites.now router entry.now place «record».now) }
    ensures memory { OnErr result M.may_refuse }
{
    let not_allowed = !may_register(sites, entry.me.site, record.eid_ref());
    let out_of_bounds = is_out_of_bounds(sites, entry, record.ttl());
    let record = place;
    let those = [
        (not_allowed, Warning::NotAllowed { router, record }),
        (out_of_bounds, Warning::OutOfBounds { router, record }),
    ];
    warn_of(warnings, &those)
}

// Whether the site of a Site-ID allows the prefix.
fn may_register<A: Allocator>(sites: &Sites<A>, id: u64, eid: &Prefix) -> bool
    ensures { result ≡ may_register sites.now id eid.now }
{
    match sites.site(id) {
        Some(site) => site.allows(eid),
        None => false,
    }
}

// Adds the warnings of the Map-Servers at these places, with which a router registers.
fn warn_of_servers<M: Memory, A: Allocator>(
    warnings: &mut Vec<Warning, M>,
    servers: &[ServerEntry<A>],
    router: usize,
    entry: &RouterEntry<A>,
    places: &[usize],
) -> Result<(), AllocError>
    ensures added { Adds result warnings.old warnings.new
        (each (of_server servers.now router entry.now) places.now) }
    ensures memory { OnErr result M.may_refuse }
{
    for place in places {
        let server = *place;
        let is_other = is_of_other_family(servers, entry, server);
        warn_of(
            warnings,
            &[(is_other, Warning::OtherFamily { router, server })],
        )?;
    }
    Ok(())
}

// Whether the router and the Map-Server at this place are of different address families.
fn is_of_other_family<A: Allocator>(
    servers: &[ServerEntry<A>],
    router: &RouterEntry<A>,
    place: usize,
) -> bool
    ensures { result ≡ is_of_other_family servers.now router.now place }
{
    match servers.get(place) {
        Some(server) => !is_like(&server.address, &router.address),
        None => false,
    }
}
