//! The routers that a Map-Server heard, where they come by parts.

ghost use Rattle.std.specs.Prelude.{◌≡◌, List, IfOk, OnErr};
ghost use Rattle.std.specs.Map.{keys_of};
ghost use Rattle.std.specs.Map.Iter.{deref_pair};
ghost use Rattle.std.specs.Option.{option_map};
ghost use Rattle.std.specs.String.{string_bytes};
ghost use Rattle.lisp_lines.specs.Front.{Adds, GivesText};
ghost use Rattle.lisp_lines.specs.Name.{node_name};
ghost use Rattle.lisp_records.specs.Row.{RowValue};
ghost use Rattle.lisp_statistics.specs.RouterList.{ListsOne, ListsRouters, PutsRouter, PutsRouters, is_long_list, list_end, list_start, listed_text, routers_by_parts};
ghost use Rattle.lisp_statistics.specs.Routers.{CountsRows, heard_text};

use crate::gathering::Gathering;
use crate::hearing::Hearing;
use crate::never::count_never;
use crate::routers::{add_lines, put_counted, put_unheard};
use crate::statistics::Statistics;
use lisp_lines::node_name;
use lisp_log::Replay;
use lisp_memory::{FallibleString, Memory};
use lisp_records::RouterId;
use lisp_sites::Config;
use std::alloc::{AllocError, Allocator, Global};
use std::collections::BTreeMap;
use std::ops::Bound;

/// The most routers of a part: it takes less than 1 ms.
const MOST_ROUTERS: usize = 256;

/// How far the routers are listed that a Map-Server heard, by Site-ID, then xTR-ID. Each of them is listed once; one that is heard
/// meanwhile for the first time is left out where its place was passed.
#[derive(Drop)]
pub struct RouterList<A: Allocator = Global> {
    // How many rows each has.
    pub(crate) rows: Gathering<A>,
    // Where the routers begin that are left: after the last one listed.
    pub(crate) left: Bound<RouterId>,
    // How many were listed, up to 2^64 - 1.
    pub(crate) lines: u64,
}

/// A part of the lines.
#[derive(Drop)]
pub struct RoutersPart<A: Allocator = Global> {
    /// The lines.
    pub text: String<A>,
    /// It is the last part.
    pub is_last: bool,
}

impl<A: Memory + Copy> RouterList<A> {
    /// No router is listed; all rows are counted. Takes no memory.
    pub fn start(rows: Gathering<A>) -> RouterList<A>
        ensures { result ≡ list_start rows }
    {
        RouterList {
            rows,
            left: Bound::Unbounded,
            lines: 0,
        }
    }

    // The next router that was heard; `None` where none is left.
    fn next<'s, B: Memory + Copy>(
        &mut self,
        heard: &'s BTreeMap<RouterId, Hearing, B>,
    ) -> Option<(&'s RouterId, &'s Hearing)>
        ensures { ListsOne heard.now.entries self.old self.new (option_map deref_pair result) }
    {
        let (router, hearing) = heard.range((self.left, Bound::Unbounded)).next()?;
        self.left = Bound::Excluded(*router);
        self.lines = self.lines.saturating_add(1);
        Some((router, hearing))
    }
}

/// Whether the routers that a Map-Server heard, and the runs of Map-Registers that it refuses as replays, have more lines than a part.
pub fn is_long_list<B: Memory + Copy>(statistics: &Statistics<B>, runs: &[Replay]) -> bool
    ensures { result ≡ is_long_list statistics.now.heard.entries runs.now }
{
    statistics.heard.len() + runs.len() > MOST_ROUTERS
}

/// The line before lines of which nobody knows yet how many come.
pub fn routers_by_parts<A: Memory, E: Allocator>(
    alloc: A,
    config: &Config<E>,
    number: usize,
) -> Result<String<A>, AllocError>
    ensures text { GivesText result (routers_by_parts (node_name config.now number)) }
    ensures memory { OnErr result A.may_refuse }
{
    let server = node_name(config, number);
    String::try_format(alloc, format_args!("routers {server} by parts\n"))
}

/// The lines of the next routers that the Map-Server with a number heard, at most 256, as `routers_text` has them at the moment of which
/// its rows were counted. After the last router the lines of the configured routers that register with it and weren't heard, those of the
/// runs of Map-Registers that it refuses as replays, and one that says how many lines came.
pub fn next_routers<A: Memory + Copy, B: Memory + Copy, C: Memory + Copy, E: Allocator>(
    alloc: A,
    config: &Config<E>,
    number: usize,
    statistics: &Statistics<B>,
    runs: &[Replay],
    list: &mut RouterList<C>,
) -> Result<RoutersPart<A>, AllocError>
    ensures lines { IfOk result (λ part. ListsRouters config.now number
        (listed_text config.now list.old.rows) statistics.now.heard.entries runs.now
        list.old list.new (string_bytes part.text) part.is_last) }
    ensures rows { (counted : List RowValue) → CountsRows list.old.rows.routers counted →
        IfOk result (λ part. ListsRouters config.now number
        (heard_text config.now list.old.rows.walk.moment counted)
        statistics.now.heard.entries runs.now
        list.old list.new (string_bytes part.text) part.is_last) }
    ensures memory { OnErr result A.may_refuse }
{
    let mut text = String::new(alloc);
    let heard = &statistics.heard;
    let is_last = put_next_routers(alloc, &mut text, config, heard, list)?;
    if is_last {
        put_end(alloc, &mut text, config, number, heard, runs, list)?;
    }
    Ok(RoutersPart { text, is_last })
}

// Appends the lines of the next routers; whether they were the last.
fn put_next_routers<A: Memory + Copy, B: Memory + Copy, C: Memory + Copy, E: Allocator>(
    alloc: A,
    text: &mut String<A>,
    config: &Config<E>,
    heard: &BTreeMap<RouterId, Hearing, B>,
    list: &mut RouterList<C>,
) -> Result<bool, AllocError>
    ensures lines { IfOk result (λ is_end. PutsRouters (listed_text config.now list.old.rows)
        heard.now.entries list.old list.new (string_bytes text.old) (string_bytes text.new)
        is_end) }
    ensures memory { OnErr result A.may_refuse }
{
    // Reading it shows the proof that it has 64 bits.
    let _lines = list.lines;
    for _count in 0..MOST_ROUTERS {
        if !put_next(alloc, text, config, heard, list)? {
            return Ok(true);
        }
    }
    Ok(false)
}

// Appends the line of the next router; whether there was one.
fn put_next<A: Memory + Copy, B: Memory + Copy, C: Memory + Copy, E: Allocator>(
    alloc: A,
    text: &mut String<A>,
    config: &Config<E>,
    heard: &BTreeMap<RouterId, Hearing, B>,
    list: &mut RouterList<C>,
) -> Result<bool, AllocError>
    ensures line { IfOk result (λ is_router. PutsRouter (listed_text config.now list.old.rows)
        heard.now.entries list.old list.new (string_bytes text.old) (string_bytes text.new)
        is_router) }
    ensures memory { OnErr result A.may_refuse }
{
    let now = list.rows.walk.moment();
    match list.next(heard) {
        Some((router, hearing)) => {
            let counts = &list.rows.routers;
            put_counted(alloc, text, config, counts, router, hearing, now)?;
            Ok(true)
        }
        None => Ok(false),
    }
}

// Appends the lines of the routers that weren't heard, and of the runs of replays, and one that says how many lines came. Out of memory, it
// may leave a part of them.
#[tactic(auto, using(crate::proofs::Counting::steps))]
fn put_end<A: Memory + Copy, B: Memory + Copy, C: Memory + Copy, E: Allocator>(
    alloc: A,
    text: &mut String<A>,
    config: &Config<E>,
    number: usize,
    heard: &BTreeMap<RouterId, Hearing, B>,
    runs: &[Replay],
    list: &RouterList<C>,
) -> Result<(), AllocError>
    ensures text { Adds result text.old text.new
        (list_end config.now number (keys_of heard.now.entries) list.now runs.now) }
    ensures memory { OnErr result A.may_refuse }
{
    let now = list.rows.walk.moment();
    put_unheard(alloc, text, config, number, heard, runs, now)?;
    let name = node_name(config, number);
    let never = count_never(config, number, heard);
    let lines = add_lines(list.lines, never, runs.len());
    text.try_write(format_args!("listed {name} {lines}\n"))
}
