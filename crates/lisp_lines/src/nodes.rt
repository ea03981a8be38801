//! The nodes of a configuration, a line for each: what no node takes anew while it runs.

ghost use Rattle.std.specs.Prelude.{◌≡◌, ◌++◌, OnErr};
ghost use Rattle.std.specs.Int.{w128, from_be_bytes};
ghost use Rattle.std.specs.List.{flat_map};
ghost use Rattle.lisp_lines.specs.Front.{Adds, GivesText};
ghost use Rattle.lisp_lines.specs.Nodes.{resolve_words, server_words, router_line, router_words, nodes_text};

use lisp_memory::{FallibleString, Memory};
use lisp_records::{Prefix, RouterId};
use lisp_sites::{Config, RouterEntry, ServerEntry};
use lisp_texts::{addr_to_text, prefix_to_text};
use std::alloc::{AllocError, Allocator};

/// The nodes of a configuration, a line for each, in its order: Map-Servers with name, address and the prefixes that they reply to; then
/// routers with name, address, Site-ID and xTR-ID, both in decimal. Two configurations whose lines are equal differ in sites, or in how their
/// routers register, alone.
pub fn nodes_text<A: Memory + Copy, E: Allocator>(
    alloc: A,
    config: &Config<E>,
) -> Result<String<A>, AllocError>
    ensures text { GivesText result (nodes_text config.now) }
    ensures memory { OnErr result A.may_refuse }
{
    let mut text = String::new(alloc);
    put_servers(alloc, &mut text, config.servers())?;
    put_routers(alloc, &mut text, config.routers())?;
    Ok(text)
}

// Appends the line of each Map-Server. Out of memory, it may leave a part of them.
fn put_servers<A: Memory + Copy, E: Allocator>(
    alloc: A,
    text: &mut String<A>,
    servers: &[ServerEntry<E>],
) -> Result<(), AllocError>
    ensures text { Adds result text.old text.new (flat_map server_words servers.now) }
    ensures memory { OnErr result A.may_refuse }
{
    for server in servers {
        put_server(alloc, text, server)?;
    }
    Ok(())
}

// Appends the line of each router. Out of memory, it may leave a part of them.
fn put_routers<A: Memory + Copy, E: Allocator>(
    alloc: A,
    text: &mut String<A>,
    routers: &[RouterEntry<E>],
) -> Result<(), AllocError>
    ensures text { Adds result text.old text.new (flat_map router_words routers.now) }
    ensures memory { OnErr result A.may_refuse }
{
    for router in routers {
        put_router(alloc, text, router)?;
    }
    Ok(())
}

// Appends the line of a Map-Server. Out of memory, it may leave a part of it.
fn put_server<A: Memory + Copy, E: Allocator>(
    alloc: A,
    text: &mut String<A>,
    server: &ServerEntry<E>,
) -> Result<(), AllocError>
    ensures text { Adds result text.old text.new (server_words server.now) }
    ensures memory { OnErr result A.may_refuse }
{
    let name = server.name.as_str();
    let address = addr_to_text(alloc, &server.address)?;
    text.try_write(format_args!("server {name} {address}"))?;
    put_resolve(alloc, text, &server.resolve)?;
    text.try_push('\n')
}

// Appends each prefix that a Map-Server replies to. Out of memory, it may leave a part of them.
fn put_resolve<A: Memory + Copy>(
    alloc: A,
    text: &mut String<A>,
    resolve: &[Prefix],
) -> Result<(), AllocError>
    ensures text { Adds result text.old text.new (flat_map resolve_words resolve.now) }
    ensures memory { OnErr result A.may_refuse }
{
    for prefix in resolve {
        put_prefix(alloc, text, prefix)?;
    }
    Ok(())
}

// Appends a prefix that a Map-Server replies to. Out of memory, it may leave a part of it.
fn put_prefix<A: Memory + Copy>(
    alloc: A,
    text: &mut String<A>,
    prefix: &Prefix,
) -> Result<(), AllocError>
    ensures text { Adds result text.old text.new (resolve_words prefix.now) }
    ensures memory { OnErr result A.may_refuse }
{
    let prefix = prefix_to_text(alloc, prefix)?;
    text.try_write(format_args!(" resolve {prefix}"))
}

// Appends the line of a router. Out of memory, it may leave a part of it.
fn put_router<A: Memory + Copy, E: Allocator>(
    alloc: A,
    text: &mut String<A>,
    router: &RouterEntry<E>,
) -> Result<(), AllocError>
    ensures text { Adds result text.old text.new (router_words router.now) }
    ensures memory { OnErr result A.may_refuse }
{
    let name = router.name.as_str();
    let address = addr_to_text(alloc, &router.address)?;
    put_router_line(
        text,
        name,
        address.as_str(),
        router.me.site,
        xtr_number(&router.me),
    )
}

// The xTR-ID of a router as a number.
fn xtr_number(me: &RouterId) -> u128
    ensures { result ≡ from_be_bytes w128 me.now.xtr }
{
    u128::from_be_bytes(me.xtr)
}

// Appends the line of a router with this name, address and identity. Out of memory, it may leave a part of it.
fn put_router_line<A: Memory>(
    text: &mut String<A>,
    name: &str,
    address: &str,
    site: u64,
    xtr: u128,
) -> Result<(), AllocError>
    ensures text { Adds result text.old text.new (router_line name.now address.now site xtr) }
    ensures memory { OnErr result A.may_refuse }
{
    text.try_write(format_args!("router {name} {address} site {site} xtr {xtr}\n"))
}
