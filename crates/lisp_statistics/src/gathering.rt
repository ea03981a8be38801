//! What is counted of the rows that a Map-Server holds, which is made by parts.

ghost use Rattle.std.specs.Prelude.{◌≡◌, [], IfOk, OnOk, OnErr, List};
ghost use Rattle.lisp_lines.specs.Walk.{walk_start};
ghost use Rattle.lisp_records.specs.Row.{RowValue};
ghost use Rattle.lisp_statistics.specs.Gathering.{AddsSite, Counted, CountsNext, Gathers, IsPartOf, StaysExact};

use crate::routers::add_row;
use lisp_lines::Walk;
use lisp_memory::{FallibleSet, Memory};
use lisp_records::RouterId;
use lisp_server::Server;
use std::alloc::{AllocError, Allocator, Global};
use std::collections::{BTreeMap, BTreeSet};

/// The most rows of a part: it takes less than 1 ms.
const MOST_COUNTED: usize = 512;

/// How many rows a Map-Server holds that are alive at a moment, how many of each router, and of how many sites, as far as they were
/// counted.
#[derive(Drop)]
pub struct Gathering<A: Allocator = Global> {
    // Which of them were counted.
    pub(crate) walk: Walk,
    // How many of each router.
    pub(crate) routers: BTreeMap<RouterId, u64, A>,
    // Their sites.
    pub(crate) known_sites: BTreeSet<u64, A>,
    // How many these are.
    pub(crate) sites: u64,
}

impl<A: Memory + Copy> Gathering<A> {
    /// Of the rows that are alive at a moment, in ms, none was counted. Takes no memory.
    pub fn start(alloc: A, now: u64) -> Gathering<A>
        ensures walk { result.walk ≡ walk_start now }
        ensures none { Counted result [] }
        ensures part { (rows : List RowValue) → IsPartOf rows result }
    {
        Gathering {
            walk: Walk::start(now),
            routers: BTreeMap::new(alloc),
            known_sites: BTreeSet::new(alloc),
            sites: 0,
        }
    }

    /// How many rows were counted, up to 2^64 - 1.
    pub fn rows(&self) -> u64
        ensures { result ≡ self.now.walk.rows }
    {
        self.walk.rows()
    }

    /// Of how many sites they are, up to 2^64 - 1.
    pub fn sites(&self) -> u64
        ensures { result ≡ self.now.sites }
    {
        self.sites
    }

    /// Counts the next 512 rows of the Map-Server that are alive at the moment, or those that are left; whether these were fewer, and so
    /// the last. Where its rows stay as they are until then, the counts are those of all that are alive. Out of memory, the counts are of
    /// no use any more.
    pub fn gather<B: Memory + Copy>(&mut self, core: &Server<B>) -> Result<bool, AllocError>
        ensures counts { IfOk result (λ is_end.
            Gathers core.now.rows self.old self.new is_end) }
        ensures exact { IfOk result (λ is_end.
            StaysExact core.now.rows self.old self.new is_end) }
        ensures memory { OnErr result A.may_refuse }
    {
        self.count_rows(core)
    }

    // Counts the next rows; whether they were the last.
    fn count_rows<B: Memory + Copy>(&mut self, core: &Server<B>) -> Result<bool, AllocError>
        ensures counts { IfOk result (λ is_end.
            Gathers core.now.rows self.old self.new is_end) }
        ensures memory { OnErr result A.may_refuse }
    {
        // Reading it shows the proof that it has 64 bits.
        let _rows = self.walk.rows();
        for _count in 0..MOST_COUNTED {
            if !self.count_next(core)? {
                return Ok(true);
            }
        }
        Ok(false)
    }

    // Counts the next row; whether there was one.
    fn count_next<B: Memory + Copy>(&mut self, core: &Server<B>) -> Result<bool, AllocError>
        ensures counts { IfOk result (λ is_row.
            CountsNext core.now.rows self.old self.new is_row) }
        ensures memory { OnErr result A.may_refuse }
    {
        let Some(row) = self.walk.next(core) else {
            return Ok(false);
        };
        add_row(&mut self.routers, &row.router)?;
        add_site(&mut self.known_sites, &mut self.sites, row.router.site)?;
        Ok(true)
    }
}

// One more row of a site, beside the sites that are known, and how many these are.
fn add_site<A: Memory + Copy>(
    known: &mut BTreeSet<u64, A>,
    sites: &mut u64,
    site: u64,
) -> Result<(), AllocError>
    ensures adds { OnOk result (AddsSite known.old known.new sites.old sites.new site) }
    ensures memory { OnErr result A.may_refuse }
{
    if known.try_insert(site)? {
        *sites = sites.saturating_add(1);
    }
    Ok(())
}
