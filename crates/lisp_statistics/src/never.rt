//! The configured routers that register with a Map-Server, and that it never heard.

ghost use Rattle.std.specs.Prelude.{◌≡◌, OnErr};
ghost use Rattle.std.specs.List.{flat_map};
ghost use Rattle.std.specs.Map.{keys_of};
ghost use Rattle.lisp_lines.specs.Front.{Adds};
ghost use Rattle.lisp_statistics.specs.Never.{is_among, is_never, never_count, never_text, never_words, registers_with};

use crate::hearing::Hearing;
use lisp_memory::{FallibleString, Memory};
use lisp_records::RouterId;
use lisp_sites::{Config, RouterEntry};
use std::alloc::{AllocError, Allocator};
use std::collections::BTreeMap;

/// How many of the configured routers register with the Map-Server with a number, and aren't among those that it heard.
pub(crate) fn count_never<B: Memory + Copy, E: Allocator>(
    config: &Config<E>,
    number: usize,
    heard: &BTreeMap<RouterId, Hearing, B>,
) -> usize
    ensures { result ≡ never_count config.now number (keys_of heard.now.entries) }
{
    config
        .routers()
        .iter()
        .filter(|router| is_never(router, number, heard))
        .count()
}

/// Appends the line of each of them, in the order of the configuration. Out of memory, it may leave a part of them.
pub(crate) fn put_never<A: Memory, B: Memory + Copy, E: Allocator>(
    text: &mut String<A>,
    config: &Config<E>,
    number: usize,
    heard: &BTreeMap<RouterId, Hearing, B>,
) -> Result<(), AllocError>
    ensures text { Adds result text.old text.new
        (never_text config.now number (keys_of heard.now.entries)) }
    ensures memory { OnErr result A.may_refuse }
{
    put_each_never(text, config.routers(), number, heard)
}

// Appends the line of each of these routers that is one of them. Out of memory, it may leave a part of them.
fn put_each_never<A: Memory, B: Memory + Copy, E: Allocator>(
    text: &mut String<A>,
    routers: &[RouterEntry<E>],
    number: usize,
    heard: &BTreeMap<RouterId, Hearing, B>,
) -> Result<(), AllocError>
    ensures text { Adds result text.old text.new
        (flat_map (never_words number (keys_of heard.now.entries)) routers.now) }
    ensures memory { OnErr result A.may_refuse }
{
    for router in routers {
        put_if_never(text, router, number, heard)?;
    }
    Ok(())
}

// Appends the line of a router that is one of them; of another one nothing. Out of memory, it may leave a part of it.
fn put_if_never<A: Memory, B: Memory + Copy, E: Allocator>(
    text: &mut String<A>,
    router: &RouterEntry<E>,
    number: usize,
    heard: &BTreeMap<RouterId, Hearing, B>,
) -> Result<(), AllocError>
    ensures text { Adds result text.old text.new
        (never_words number (keys_of heard.now.entries) router.now) }
    ensures memory { OnErr result A.may_refuse }
{
    if is_never(router, number, heard) {
        let name = router.name.as_str();
        text.try_write(format_args!("router {name} never\n"))
    } else {
        Ok(())
    }
}

// Whether a router registers with the Map-Server with a number, and isn't among those that it heard.
fn is_never<B: Memory + Copy, E: Allocator>(
    router: &RouterEntry<E>,
    number: usize,
    heard: &BTreeMap<RouterId, Hearing, B>,
) -> bool
    ensures { result ≡ is_never number (keys_of heard.now.entries) router.now }
{
    registers_with(router, number) && !is_among(heard, &router.me)
}

/// Whether a router registers with the Map-Server with a number, by the configuration.
pub(crate) fn registers_with<E: Allocator>(router: &RouterEntry<E>, number: usize) -> bool
    ensures { result ≡ registers_with number router.now }
{
    router.servers.as_slice().contains(&number)
}

// Whether a router is among those that were heard.
#[tactic(auto, using(crate::proofs::Counting::among))]
fn is_among<B: Memory + Copy>(heard: &BTreeMap<RouterId, Hearing, B>, me: &RouterId) -> bool
    ensures { result ≡ is_among (keys_of heard.now.entries) me.now }
{
    heard.contains_key(me)
}
