//! Routers that a Map-Server hears from another source address than before.

ghost use Rattle.std.specs.Prelude.{◌≡◌, []};
ghost use Rattle.std.specs.Option.{option_map};
ghost use Rattle.lisp_log.specs.Moves.{Hears, heard_from, heard_in, may_tell, moved_from, where_is};

use lisp_memory::{FallibleMap, Memory};
use lisp_model::Line;
use lisp_records::{Addr, RouterId};
use lisp_turns::Printed;
use std::alloc::{Allocator, Global};
use std::collections::BTreeMap;
use std::marker::Model;

/// How long after a move of a router was told the next one may be, in ms.
const MINUTE_MS: u64 = 60_000;

/// Where a router was heard last.
#[derive(Clone, Copy)]
pub struct Whereabouts {
    /// The source address of the last Map-Register that was accepted of it.
    pub from: Addr,
    /// When it was told last that the router moved, in ms; `None` where it never was.
    pub told: Option<u64>,
}

/// From where routers were heard: those of which a Map-Server accepted a Map-Register. That a router is heard from another
/// address than before is told, and at most once a minute. Each router takes memory: only one that has a key comes here.
#[derive(Drop)]
pub struct Moves<A: Allocator = Global> {
    heard: BTreeMap<RouterId, Whereabouts, A>,
}

impl<A: Allocator> Model for Moves<A> {
    ghost use Rattle.std.specs.Prelude.{List};
    ghost use Rattle.lisp_records.specs.declared.router.RouterId.{RouterId};
    ghost use Rattle.lisp_log.specs.declared.moves.Whereabouts.{Whereabouts};

    ghost Value = { List (RouterId × Whereabouts) };

    ghost view = { λ m. m.heard.entries };
}

impl<A: Memory + Copy> Moves<A> {
    /// None yet. Takes no memory.
    pub fn new(alloc: A) -> Moves<A>
        ensures { result ≡ [] }
    {
        Moves {
            heard: BTreeMap::new(alloc),
        }
    }

    /// A router is heard from an address, at a moment in ms: the address that it moved from, where that is told. Where memory is
    /// refused for a router that is new, it isn't noted.
    pub fn hears(&mut self, router: RouterId, from: Addr, now: u64) -> Option<Addr>
        ensures told { result ≡ moved_from (where_is self.old router) from now }
        ensures noted { Hears A.may_refuse self.old self.new router from now }
    {
        let last = self.heard.get(&router).copied();
        let moved = moved_from(last, from, now);
        let _ = self.heard.try_insert(router, heard_from(last, from, now));
        moved
    }
}

// The address that a router moved from which is heard from an address at a moment, where that is told.
fn moved_from(last: Option<Whereabouts>, from: Addr, now: u64) -> Option<Addr>
    ensures { result ≡ moved_from last from now }
{
    let last = last?;
    (last.from != from && may_tell(last.told, now)).then_some(last.from)
}

// Where a router is that is heard from an address at a moment.
fn heard_from(last: Option<Whereabouts>, from: Addr, now: u64) -> Whereabouts
    ensures { result ≡ heard_from last from now }
{
    let told = match moved_from(last, from, now) {
        Some(_) => Some(now),
        None => last.and_then(|last| last.told),
    };
    Whereabouts { from, told }
}

// Whether a move may be told at a moment, where the last one was told then.
fn may_tell(told: Option<u64>, now: u64) -> bool
    ensures { result ≡ may_tell told now }
{
    match told {
        Some(told) => now.saturating_sub(told) >= MINUTE_MS,
        None => true,
    }
}

/// Which router a line says was heard, and from which address; `None` of a line that says so of none.
pub(crate) fn heard_in(line: &Printed) -> Option<(RouterId, Addr)>
    ensures { result ≡ heard_in line.now }
{
    match *line {
        Printed::Heard {
            line: Line::Accepted { router, .. },
            from,
        } => Some((router, from)),
        _ => None,
    }
}
