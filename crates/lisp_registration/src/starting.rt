//! Starting what a program in C holds.

ghost use Rattle.std.specs.Prelude.{◌≡◌, ◌<◌, IfSome, IsErrOf, length};
ghost use Rattle.std.specs.List.{position};
ghost use Rattle.std.specs.Str.{bytes_eq};
ghost use Rattle.lisp_memory.specs.Refusal.{MachineMayRefuse};
ghost use Rattle.lisp_policy.specs.Configuration.{RouterEntryValue};
ghost use Rattle.lisp_server.specs.Server.{empty_server};
ghost use Rattle.lisp_registration.specs.Starting.{Comes, RunsOutReading, text_config, text_router, text_server, text_settings, text_sites};
ghost use Rattle.lisp_registration.specs.declared.fault.NodeFault.TheVariants.{OutOfMemory};

use crate::fault::NodeFault;
use core::mem::replace_with;
use lisp_embedded::{HostedRouter, HostedServer, start_kept};
use lisp_etr::EtrConfig;
use lisp_memory::FallibleBox;
use lisp_policy::Sites;
use lisp_records::Database;
use lisp_server::Server;
use lisp_sites::{Config, RouterEntry};
use lisp_world::router_settings;
use std::alloc::{Allocator, Global};

/// A Map-Server of the sites of a configuration.
pub(crate) fn started_server(
    alloc: Global,
    configuration: &[u8],
) -> Result<Box<HostedServer, Global>, NodeFault>
    ensures started { Comes (λ hosted. hosted.value) result (text_server configuration.now) }
    ensures memory { IsErrOf result OutOfMemory → MachineMayRefuse }
    ensures reading { RunsOutReading configuration.now result }
{
    let sites = sites_of(alloc, configuration)?;
    let server = Server::start(alloc, sites);
    Ok(Box::try_new(alloc, HostedServer { server })?)
}

/// The sites of a configuration.
pub(crate) fn sites_of(alloc: Global, configuration: &[u8]) -> Result<Sites<Global>, NodeFault>
    ensures sites { Comes (λ sites. sites) result (text_sites configuration.now) }
    ensures memory { IsErrOf result OutOfMemory → MachineMayRefuse }
    ensures reading { RunsOutReading configuration.now result }
{
    let config = read(alloc, configuration)?;
    Ok(config.sites().copy(alloc)?)
}

/// The router of a name in a configuration, which starts at a time, in ms, from the nonce that the program loaded.
pub(crate) fn started_router(
    alloc: Global,
    configuration: &[u8],
    name: &[u8],
    kept: Option<u64>,
    now: u64,
) -> Result<Box<HostedRouter, Global>, NodeFault>
    ensures started { Comes (λ hosted. hosted.value) result
        (text_router configuration.now name.now kept now) }
    ensures memory { IsErrOf result OutOfMemory → MachineMayRefuse }
    ensures reading { RunsOutReading configuration.now result }
{
    let (settings, database) = settings_of(alloc, configuration, name)?;
    let router = start_kept(alloc, settings, database, kept, now)?;
    Ok(Box::try_new(alloc, HostedRouter { router })?)
}

/// What the router of a name in a configuration is configured with, and what it registers.
pub(crate) fn settings_of(
    alloc: Global,
    configuration: &[u8],
    name: &[u8],
) -> Result<(EtrConfig<Global>, Database<Global>), NodeFault>
    ensures settings { Comes (λ x. (x.0, x.1)) result (text_settings configuration.now name.now) }
    ensures memory { IsErrOf result OutOfMemory → MachineMayRefuse }
    ensures reading { RunsOutReading configuration.now result }
{
    let config = read(alloc, configuration)?;
    let Some(place) = place_of(config.routers(), name) else {
        return Err(NodeFault::NoRouter);
    };
    let settings = router_settings(alloc, &config, place)?;
    let entry = &config.routers()[place];
    let database = entry.database.copy(alloc)?;
    Ok((settings, database))
}

/// The Map-Server starts again with its sites alone.
pub(crate) fn restart(alloc: Global, hosted: &mut HostedServer)
    ensures { hosted.new ≡ record { server = empty_server hosted.old.server.sites } }
{
    replace_with(&mut hosted.server, alloc, started_again);
}

// A Map-Server that stopped and starts with its sites alone.
fn started_again<A: Allocator + Copy>(server: Server<A>, alloc: A) -> (Server<A>, ())
    ensures { result.0 ≡ empty_server server.sites }
{
    (Server::start(alloc, server.stop()), ())
}

// The configuration of a text, TOML in UTF-8.
fn read(alloc: Global, configuration: &[u8]) -> Result<Config<Global>, NodeFault>
    ensures config { Comes (λ c. c) result (text_config configuration.now) }
    ensures memory { IsErrOf result OutOfMemory → MachineMayRefuse }
    ensures reading { RunsOutReading configuration.now result }
{
    let Ok(text) = std::str::from_utf8(configuration) else {
        return Err(NodeFault::NotUtf8);
    };
    match Config::from_toml(alloc, alloc, text) {
        Ok(config) => Ok(config),
        Err(fault) => Err(NodeFault::Configuration(fault)),
    }
}

// The place of the first router with a name.
fn place_of<A: Allocator>(routers: &[RouterEntry<A>], name: &[u8]) -> Option<usize>
    ensures place { result ≡ position (λ r. bytes_eq r.name name.now) routers.now }
    ensures within { IfSome result (λ place. place < length routers.now) }
{
    routers
        .iter()
        .position(|router| router.name.as_str().as_bytes() == name)
}
