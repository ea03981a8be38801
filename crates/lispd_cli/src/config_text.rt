//! What was understood of a configuration: a line for each site and each node.

use lisp_memory::FallibleString;
use lisp_policy::{Site, SitePrefix};
use lisp_records::{Addr, Database, Prefix};
use lisp_sites::{Config, Name, RouterEntry, ServerEntry};
use lisp_texts::{addr_to_text, prefix_to_text, record_to_text};
use std::alloc::{AllocError, Global};
use std::fmt::Display;

/// The lines of a configuration: its sites, its Map-Servers, then its routers.
pub(crate) fn config_text(alloc: Global, config: &Config) -> Result<String, AllocError> {
    let mut text = String::new(alloc);
    for site in config.sites().as_slice() {
        put_site(&mut text, alloc, site)?;
    }
    for server in config.servers() {
        put_server(&mut text, alloc, server)?;
    }
    for router in config.routers() {
        put_router(&mut text, alloc, config, router)?;
    }
    Ok(text)
}

fn put_site(line: &mut String, alloc: Global, site: &Site) -> Result<(), AllocError> {
    let id = site.id();
    line.try_write(format_args!("site {id:016x}"))?;
    for key in site.keys() {
        put(line, "key", key.id())?;
    }
    put_prefixes(line, alloc, site.prefixes())?;
    line.try_push('\n')
}

fn put_prefixes(
    line: &mut String,
    alloc: Global,
    prefixes: &[SitePrefix],
) -> Result<(), AllocError> {
    for prefix in prefixes {
        put(line, "prefix", prefix_to_text(alloc, &prefix.eid)?)?;
        if prefix.more_specifics {
            line.try_write(" more-specifics")?;
        }
    }
    Ok(())
}

fn put_server(line: &mut String, alloc: Global, server: &ServerEntry) -> Result<(), AllocError> {
    put_node(line, alloc, "server", &server.name, &server.address)?;
    put_resolve(line, alloc, &server.resolve)?;
    line.try_push('\n')
}

fn put_router(
    line: &mut String,
    alloc: Global,
    config: &Config,
    router: &RouterEntry,
) -> Result<(), AllocError> {
    put_node(line, alloc, "router", &router.name, &router.address)?;
    put_identity(line, router)?;
    put_servers(line, config, router.servers.as_slice())?;
    put_flags(line, router)?;
    put_database(line, alloc, &router.database)?;
    put_resolve(line, alloc, &router.resolve)?;
    line.try_push('\n')
}

// A node's name and address, after what it is.
fn put_node(
    line: &mut String,
    alloc: Global,
    what: &str,
    name: &Name,
    address: &Addr,
) -> Result<(), AllocError> {
    let name = name.as_str();
    let address = addr_to_text(alloc, address)?;
    line.try_write(format_args!("{what} {name} {address}"))
}

// A router's site, xTR-ID and Key ID.
fn put_identity(line: &mut String, router: &RouterEntry) -> Result<(), AllocError> {
    let site = router.me.site;
    let xtr = u128::from_be_bytes(router.me.xtr);
    let key = router.key_id;
    line.try_write(format_args!(" site {site:016x} xtr {xtr:032x} key {key}"))
}

fn put_servers(line: &mut String, config: &Config, places: &[usize]) -> Result<(), AllocError> {
    for place in places {
        if let Some(server) = config.servers().get(*place) {
            put(line, "server", server.name.as_str())?;
        }
    }
    Ok(())
}

fn put_flags(line: &mut String, router: &RouterEntry) -> Result<(), AllocError> {
    if router.proxy {
        line.try_write(" proxy")?;
    }
    if router.use_ttl {
        line.try_write(" use-ttl")?;
    }
    if router.nonce_block > 1 {
        put(line, "nonce-block", router.nonce_block)?;
    }
    Ok(())
}

// A router's records, after how many parts they are where they are more than one.
fn put_database(line: &mut String, alloc: Global, database: &Database) -> Result<(), AllocError> {
    let parts = database.parts();
    if parts > 1 {
        put(line, "parts", parts)?;
    }
    for record in database.records() {
        put(line, "record", record_to_text(alloc, record)?)?;
    }
    Ok(())
}

// The prefixes of the ITR-RLOCs that a node replies to.
fn put_resolve(line: &mut String, alloc: Global, resolve: &[Prefix]) -> Result<(), AllocError> {
    for prefix in resolve {
        put(line, "resolve", prefix_to_text(alloc, prefix)?)?;
    }
    Ok(())
}

// A value, after what it is.
fn put<D: Display + Drop>(line: &mut String, what: &str, value: D) -> Result<(), AllocError> {
    line.try_write(format_args!(" {what} {value}"))
}
