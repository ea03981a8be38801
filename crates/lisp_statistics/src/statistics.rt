//! What is counted of a node since its start.

ghost use Rattle.std.specs.Prelude.{◌≡◌, IfOk, OnErr};
ghost use Rattle.lisp_records.specs.Router.{router_cmp};
ghost use Rattle.lisp_statistics.specs.Hearing.{heard_in};
ghost use Rattle.lisp_statistics.specs.Kind.{kind_of};
ghost use Rattle.lisp_statistics.specs.LastRefusals.{RefusesLine, refused_from};
ghost use Rattle.lisp_statistics.specs.SiteRefusals.{refusal_in};
ghost use Rattle.lisp_statistics.specs.Statistics.{Begins, Counts, HearsLine, Sets, replied, requested, saved};

use crate::hearing::Hearing;
use crate::kind::LineKind;
use crate::last_refusals::LastRefusals;
use crate::site_refusals::SiteRefusal;
use lisp_memory::{FallibleMap, Memory};
use lisp_records::RouterId;
use lisp_sites::RouterEntry;
use lisp_turns::Printed;
use std::alloc::{AllocError, Allocator, Global};
use std::collections::BTreeMap;

/// When a node started; how many lines of each kind it printed since then, how many Map-Registers each limit of a site refused, which
/// refusal was the last one from the address of each configured router, which Map-Register a Map-Server accepted last of each router, how
/// long the longest save took, how many Map-Requests came, and how long the slowest answer to one took. A kind, a limit or a router that is new takes memory; where that is refused, it isn't kept.
#[derive(Drop)]
pub struct Statistics<A: Allocator = Global> {
    /// When the node started, in ms.
    pub(crate) started: u64,
    /// How many lines of each kind.
    pub(crate) tallies: BTreeMap<LineKind, u64, A>,
    /// How many Map-Registers each limit of a site refused.
    pub(crate) by_site: BTreeMap<SiteRefusal, u64, A>,
    /// The last refusal from the address of each configured router.
    pub(crate) last_refusals: LastRefusals<A>,
    /// The Map-Register of each router.
    pub(crate) heard: BTreeMap<RouterId, Hearing, A>,
    /// How long the longest save took, in ms.
    pub(crate) longest_save: u64,
    /// How many Map-Requests came.
    pub(crate) requests: u64,
    /// How long the slowest answer to one took, in us.
    pub(crate) slowest_reply: u64,
}

impl<A: Memory + Copy> Statistics<A> {
    /// Of a node that starts at a moment, in ms, in a network of these routers. The address of each router takes memory.
    pub fn start<E: Allocator>(
        alloc: A,
        routers: &[RouterEntry<E>],
        now: u64,
    ) -> Result<Statistics<A>, AllocError>
        ensures begins { IfOk result (λ statistics. Begins routers.now now statistics) }
        ensures memory { OnErr result A.may_refuse }
    {
        Ok(Statistics {
            started: now,
            tallies: BTreeMap::new(alloc),
            by_site: BTreeMap::new(alloc),
            last_refusals: LastRefusals::start(alloc, routers)?,
            heard: BTreeMap::new(alloc),
            longest_save: 0,
            requests: 0,
            slowest_reply: 0,
        })
    }

    /// The node prints a line, at a moment in ms.
    pub fn tell(&mut self, line: &Printed, now: u64)
        ensures counts { Counts ⟦<LineKind as Ord>⟧.cmp A.may_refuse self.old.tallies
            self.new.tallies (kind_of line.now) }
        ensures refuses { Counts ⟦<SiteRefusal as Ord>⟧.cmp A.may_refuse self.old.by_site
            self.new.by_site (refusal_in line.now) }
        ensures last_refusals { RefusesLine self.old.last_refusals.by_address
            self.new.last_refusals.by_address (refused_from line.now) }
        ensures hears { HearsLine router_cmp A.may_refuse self.old self.new
            (heard_in line.now now) }
        ensures saves { self.new.longest_save ≡ self.old.longest_save }
        ensures requests { self.new.requests ≡ self.old.requests }
        ensures replies { self.new.slowest_reply ≡ self.old.slowest_reply }
        ensures started { self.new.started ≡ self.old.started }
    {
        count(&mut self.tallies, LineKind::of(line));
        count(&mut self.by_site, SiteRefusal::of(line));
        self.last_refusals.tell(line);
        if let Some((router, hearing)) = Hearing::of(line, now) {
            hear(&mut self.heard, router, hearing);
        }
    }

    /// How long the longest save took, in ms; 0 before the first.
    pub fn longest_save(&self) -> u64
        ensures { result ≡ self.now.longest_save }
    {
        self.longest_save
    }

    /// A save took so many ms.
    pub fn note_save(&mut self, ms: u64)
        ensures { self.new ≡ saved self.old ms }
    {
        self.longest_save = self.longest_save.max(ms);
    }

    /// How many Map-Requests came, up to 2^64 - 1.
    pub fn requests(&self) -> u64
        ensures { result ≡ self.now.requests }
    {
        self.requests
    }

    /// A Map-Request came.
    pub fn note_request(&mut self)
        ensures { self.new ≡ requested self.old }
    {
        self.requests = self.requests.saturating_add(1);
    }

    /// The longest time, in us, from when a Map-Request was taken until a datagram for it was given to the socket; 0 before the first.
    pub fn slowest_reply(&self) -> u64
        ensures { result ≡ self.now.slowest_reply }
    {
        self.slowest_reply
    }

    /// A datagram was given to the socket, so many us after the Map-Request was taken that it is for.
    pub fn note_reply(&mut self, us: u64)
        ensures { self.new ≡ replied self.old us }
    {
        self.slowest_reply = self.slowest_reply.max(us);
    }
}

// One more of a kind, if there is one.
fn count<K: Ord + Copy + Drop, A: Memory + Copy>(tallies: &mut BTreeMap<K, u64, A>, kind: Option<K>)
    ensures { Counts K.Ord.cmp A.may_refuse tallies.old tallies.new kind }
{
    let Some(kind) = kind else {
        return;
    };
    let times = match tallies.get(&kind) {
        Some(times) => *times,
        None => 0,
    };
    let _ = tallies.try_insert(kind, times.saturating_add(1));
}

// A router was heard.
fn hear<A: Memory + Copy>(
    heard: &mut BTreeMap<RouterId, Hearing, A>,
    router: RouterId,
    hearing: Hearing,
)
    ensures { Sets router_cmp A.may_refuse heard.old heard.new router hearing }
{
    let _ = heard.try_insert(router, hearing);
}
