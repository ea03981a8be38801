//! The text of the routers that a Map-Server heard, never heard, or refuses as replaying.

ghost use Rattle.std.specs.Prelude.{◌≡◌, ◌+◌, List, OnOk, OnErr};
ghost use Rattle.std.specs.List.{flat_map};
ghost use Rattle.std.specs.Map.{keys_of};
ghost use Rattle.lisp_lines.specs.Front.{Adds, GivesText};
ghost use Rattle.lisp_lines.specs.Walk.{up_to_most};
ghost use Rattle.lisp_records.specs.Router.{router_cmp};
ghost use Rattle.lisp_records.specs.Row.{RowValue};
ghost use Rattle.lisp_statistics.specs.Routers.{CountsRows, rows_in, AddsRow, routers_text, routers_counted_text, routers_head, routers_lines, unheard_text, counted_text, hearing_words};

use crate::gathering::Gathering;
use crate::hearing::Hearing;
use crate::never::{count_never, put_never};
use crate::replays::put_replays;
use crate::statistics::Statistics;
use lisp_lines::{Wording, node_name, put_router_word};
use lisp_log::Replay;
use lisp_memory::{FallibleMap, FallibleString, Memory};
use lisp_records::RouterId;
use lisp_sites::Config;
use lisp_texts::addr_to_text;
use std::alloc::{AllocError, Allocator};
use std::collections::BTreeMap;

/// The routers that the Map-Server with a number heard since its start, whose rows were counted; the
/// configured routers that register with it and weren't heard; and the runs of Map-Registers that it
/// refuses as replays, at a moment, in ms: a line that says how many lines follow, up to 2^64 - 1; then one
/// for each router that was heard, by Site-ID, then xTR-ID: where its last accepted Map-Register came from,
/// under which key and nonce, how many ms ago, and how many of the rows are its; then `router NAME never`
/// for each that wasn't, in the order of the configuration; then one for each run: the one by which the
/// Map-Server tells it.
pub fn routers_text<A: Memory + Copy, B: Memory + Copy, C: Memory + Copy, E: Allocator>(
    alloc: A,
    config: &Config<E>,
    number: usize,
    statistics: &Statistics<B>,
    runs: &[Replay],
    rows: &Gathering<C>,
    now: u64,
) -> Result<String<A>, AllocError>
    ensures text { GivesText result (routers_counted_text config.now number now rows.now.routers
        statistics.now.heard.entries runs.now) }
    ensures rows { (counted : List RowValue) → CountsRows rows.now.routers counted →
        GivesText result (routers_text config.now number now counted
        statistics.now.heard.entries runs.now) }
    ensures memory { OnErr result A.may_refuse }
{
    let heard = &statistics.heard;
    let name = node_name(config, number);
    let mut text = routers_head(alloc, name, count_lines(config, number, heard, runs))?;
    put_routers(alloc, &mut text, config, &rows.routers, heard, now)?;
    put_unheard(alloc, &mut text, config, number, heard, runs, now)?;
    Ok(text)
}

// How many lines follow the first, up to 2^64 - 1.
fn count_lines<B: Memory + Copy, E: Allocator>(
    config: &Config<E>,
    number: usize,
    heard: &BTreeMap<RouterId, Hearing, B>,
    runs: &[Replay],
) -> u64
    ensures { result ≡ routers_lines config.now number heard.now.entries runs.now }
{
    let never = count_never(config, number, heard);
    add_lines(heard.len() as u64, never, runs.len())
}

/// How many lines so many of routers that were heard, of routers that weren't and of runs are together, up to 2^64 - 1.
pub(crate) fn add_lines(heard: u64, never: usize, runs: usize) -> u64
    ensures { result ≡ up_to_most (heard + never + runs) }
{
    heard
        .saturating_add(never as u64)
        .saturating_add(runs as u64)
}

/// Appends the lines of the routers that weren't heard, and of the runs of replays, at a moment, in ms. Out of memory, it may leave a part
/// of them.
#[tactic(auto, using(crate::proofs::Counting::steps))]
pub(crate) fn put_unheard<A: Memory + Copy, B: Memory + Copy, E: Allocator>(
    alloc: A,
    text: &mut String<A>,
    config: &Config<E>,
    number: usize,
    heard: &BTreeMap<RouterId, Hearing, B>,
    runs: &[Replay],
    now: u64,
) -> Result<(), AllocError>
    ensures text { Adds result text.old text.new
        (unheard_text config.now number now (keys_of heard.now.entries) runs.now) }
    ensures memory { OnErr result A.may_refuse }
{
    put_never(text, config, number, heard)?;
    put_replays(alloc, text, node_name(config, number), runs, now)
}

// Appends the line of each router, with its rows by these counts. Out of memory, it may leave a part of them.
fn put_routers<A: Memory + Copy, B: Memory + Copy, C: Memory + Copy, E: Allocator>(
    alloc: A,
    text: &mut String<A>,
    config: &Config<E>,
    counts: &BTreeMap<RouterId, u64, C>,
    heard: &BTreeMap<RouterId, Hearing, B>,
    now: u64,
) -> Result<(), AllocError>
    ensures text { Adds result text.old text.new
        (flat_map (counted_text config.now now counts.now) heard.now.entries) }
    ensures memory { OnErr result A.may_refuse }
{
    for (router, hearing) in heard {
        put_counted(alloc, text, config, counts, router, hearing, now)?;
    }
    Ok(())
}

/// Appends the line of a router at a moment, in ms, with its rows by these counts. Out of memory, it may leave a part of it.
#[tactic(auto, using(crate::proofs::Counting::steps))]
pub(crate) fn put_counted<A: Memory + Copy, C: Memory + Copy, E: Allocator>(
    alloc: A,
    text: &mut String<A>,
    config: &Config<E>,
    counts: &BTreeMap<RouterId, u64, C>,
    router: &RouterId,
    hearing: &Hearing,
    now: u64,
) -> Result<(), AllocError>
    ensures text { Adds result text.old text.new
        (counted_text config.now now counts.now (router.now, hearing.now)) }
    ensures memory { OnErr result A.may_refuse }
{
    let from = addr_to_text(alloc, &hearing.from)?;
    text.try_write("router ")?;
    put_router_word(text, config, Wording::Node, router)?;
    text.try_write(format_args!(" from {from}"))?;
    put_hearing(text, hearing, now)?;
    let rows = rows_in(counts, router);
    text.try_write(format_args!(" rows {rows}\n"))
}

// The line before the others of a Map-Server: how many they are.
fn routers_head<A: Memory>(alloc: A, server: &str, following: u64) -> Result<String<A>, AllocError>
    ensures text { GivesText result (routers_head server.now following) }
    ensures memory { OnErr result A.may_refuse }
{
    String::try_format(alloc, format_args!("routers {server} {following}\n"))
}

// Appends under which key and nonce a router was heard, and how long before a moment. Out of memory, it may leave a part of it.
fn put_hearing<A: Memory>(
    text: &mut String<A>,
    hearing: &Hearing,
    now: u64,
) -> Result<(), AllocError>
    ensures text { Adds result text.old text.new (hearing_words now hearing.now) }
    ensures memory { OnErr result A.may_refuse }
{
    let (key, nonce) = (hearing.key, hearing.nonce);
    let age = now.saturating_sub(hearing.at);
    text.try_write(format_args!(" key {key} nonce {nonce} age {age}"))
}

/// One more row of a router.
pub(crate) fn add_row<A: Memory + Copy>(
    counts: &mut BTreeMap<RouterId, u64, A>,
    router: &RouterId,
) -> Result<(), AllocError>
    ensures adds { OnOk result (AddsRow counts.old counts.new router.now) }
    ensures memory { OnErr result A.may_refuse }
{
    let rows = rows_in(counts, router);
    counts.try_insert(*router, rows.saturating_add(1))?;
    Ok(())
}

// How many rows a router has by these counts.
fn rows_in<A: Memory + Copy>(counts: &BTreeMap<RouterId, u64, A>, router: &RouterId) -> u64
    ensures { result ≡ rows_in counts.now router.now }
{
    match counts.get(router) {
        Some(rows) => *rows,
        None => 0,
    }
}
