//! What a client asks of a network, and what it is promised of the answers.

ghost use Rattle.std.specs.Prelude.{◌≡◌, IfOk, IfSome, IfNone, OnErr, map, replicate};
ghost use Rattle.lisp_model.specs.Trace.{event_value};
ghost use Rattle.lisp_client.specs.Answers.{HasRun, TellsPromised, TellsNothing, HearsPromised, HearsNothing, NoneTakes};
ghost use Rattle.lisp_client.specs.Stores.{fresh};

use crate::answers::Answers;
use crate::question::Question;
use lisp_memory::{FallibleVec, Memory};
use lisp_model::Event;
use lisp_nonces::MemoryStore;
use lisp_sites::Config;
use lisp_world::World;
use std::alloc::{AllocError, Allocator};

/// Makes a network over stores in memory that keep nothing yet, lets the events happen, and asks two Map-Servers what they
/// hold and one router what it counted last of a part from the Map-Server at a place of its list. `None` if two nodes of the
/// configuration are alike, an event isn't taken, a Map-Server's number isn't one, the router's isn't that of one that is up,
/// or memory runs out.
pub fn ask<A: Memory + Copy, E: Allocator, F: Allocator>(
    alloc: A,
    config: &Config<E>,
    events: &[Event<F>],
    question: Question,
) -> Option<Answers<A>>
    ensures told { IfSome result (TellsPromised config.now events.now question) }
    ensures untold { IfNone result (TellsNothing A.may_refuse config.now events.now question) }
{
    let world = run(alloc, config, events)?;
    heard(&world, question)
}

// What the client hears from the Map-Servers and the router of a network.
fn heard<A: Memory + Copy>(
    world: &World<MemoryStore<A>, A>,
    question: Question,
) -> Option<Answers<A>>
    ensures told { IfSome result (HearsPromised world.now question) }
    ensures untold { IfNone result (HearsNothing A.may_refuse world.now question) }
{
    let acked = world.router(question.router)?.acked(question.place);
    let counted = acked.get(question.part).copied().flatten();
    let rows = world.server(question.server)?.held(world.clock()).ok()?;
    let other_rows = world.server(question.other)?.held(world.clock()).ok()?;
    Some(Answers {
        rows,
        other_rows,
        counted,
    })
}

// A network of the configuration, over stores in memory, after the events.
pub(crate) fn run<A: Memory + Copy, E: Allocator, F: Allocator>(
    alloc: A,
    config: &Config<E>,
    events: &[Event<F>],
) -> Option<World<MemoryStore<A>, A>>
    ensures ran { IfSome result (λ w. HasRun config.now (map event_value events.now) w) }
    ensures not_run { IfNone result (NoneTakes A.may_refuse config.now events.now) }
{
    let Ok(stores) = stores(alloc, config.node_count()) else {
        return None;
    };
    let Ok(mut world) = World::new(alloc, config, stores) else {
        return None;
    };
    match world.run(events, &mut Vec::new(alloc)) {
        Ok(()) => Some(world),
        Err(_) => None,
    }
}

// So many stores that keep nothing.
fn stores<A: Memory + Copy>(alloc: A, count: usize) -> Result<Vec<MemoryStore<A>, A>, AllocError>
    ensures empty { IfOk result (λ stores. stores.items ≡ replicate count fresh) }
    ensures memory { OnErr result A.may_refuse }
{
    let mut stores = Vec::new(alloc);
    for _ in 0..count {
        stores.try_push(MemoryStore::new(alloc))?;
    }
    Ok(stores)
}
