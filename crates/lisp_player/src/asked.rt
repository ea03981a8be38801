//! The text of what is asked of a node.

ghost use Rattle.std.specs.Prelude.{◌≡◌, IfOk, OnErr};
ghost use Rattle.std.specs.String.{string_bytes};
ghost use Rattle.lisp_player.specs.Asked.{Acknowledges, Asks, Holds, IsDue, IsDueAtRouter, Requests, SaysOfTraces, fault_text, missing_text};

use lisp_lines::{
    DatagramPlace, RouterQuestion, ServerQuestion, Wording, line_text, request_text, router_answer,
    server_answer,
};
use lisp_memory::{FallibleString, Memory};
use lisp_model::Line;
use lisp_nonces::WorldStore;
use lisp_records::{Addr, Prefix};
use lisp_replies::QUIET;
use lisp_sites::Config;
use lisp_world::{World, WorldFault};
use std::alloc::{AllocError, Allocator};

/// Which rows a Map-Server holds.
pub(crate) fn hold_lines<S: WorldStore, A: Memory + Copy, E: Allocator>(
    alloc: A,
    world: &World<S, A>,
    config: &Config<E>,
    server: usize,
) -> Result<String<A>, AllocError>
    ensures told { SaysOfTraces result world.now config.now (λ o T. Holds o T server) }
    ensures memory { OnErr result A.may_refuse }
{
    let Some(core) = world.server(server) else {
        return missing_line(alloc, config, server);
    };
    server_answer(
        alloc,
        config,
        Wording::Schedule(DatagramPlace::Shown),
        server,
        core,
        ServerQuestion::Hold,
        world.clock(),
    )
}

/// Who answers for an address at a Map-Server.
pub(crate) fn ask_line<S: WorldStore, A: Memory + Copy, E: Allocator>(
    alloc: A,
    world: &World<S, A>,
    config: &Config<E>,
    server: usize,
    addr: &Addr,
) -> Result<String<A>, AllocError>
    ensures told { SaysOfTraces result world.now config.now (λ o T. Asks A o T server addr.now) }
    ensures memory { OnErr result A.may_refuse }
{
    let Some(core) = world.server(server) else {
        return missing_line(alloc, config, server);
    };
    server_answer(
        alloc,
        config,
        Wording::Schedule(DatagramPlace::Shown),
        server,
        core,
        ServerQuestion::Ask(*addr),
        world.clock(),
    )
}

/// What a Map-Server would send for an EID-Prefix that a Map-Request asks for, to an ITR with this ITR-RLOC, where one is named.
pub(crate) fn request_lines<S: WorldStore, A: Memory + Copy, E: Allocator>(
    alloc: A,
    world: &World<S, A>,
    config: &Config<E>,
    server: usize,
    asked: &Prefix,
    from: Option<Addr>,
) -> Result<String<A>, AllocError>
    ensures told { SaysOfTraces result world.now config.now
        (λ o T. Requests A o T server asked.now from) }
    ensures memory { OnErr result A.may_refuse }
{
    let Some(reply) = world.request(server, asked, QUIET) else {
        return missing_line(alloc, config, server);
    };
    let reply = reply?;
    request_text(alloc, config, server, asked, from, &reply)
}

/// What a router counted last of each part from each of its Map-Servers.
pub(crate) fn ack_lines<S: WorldStore, A: Memory + Copy, E: Allocator>(
    alloc: A,
    world: &World<S, A>,
    config: &Config<E>,
    router: usize,
) -> Result<String<A>, AllocError>
    ensures told { SaysOfTraces result world.now config.now (λ o T. Acknowledges o T router) }
    ensures memory { OnErr result A.may_refuse }
{
    let Some(entry) = config.router(router) else {
        return missing_line(alloc, config, router);
    };
    match world.router(router) {
        Some(etr) => router_answer(
            alloc,
            config,
            router,
            entry.servers.as_slice(),
            etr,
            RouterQuestion::Acks,
            world.clock(),
        ),
        None => line_text(
            alloc,
            config,
            &Line::Down { router },
            Wording::Schedule(DatagramPlace::Shown),
        ),
    }
}

/// Which Map-Server is due to a router, and of which part of its database, or to which router a notice of a Map-Server is.
pub(crate) fn due_line<S: WorldStore, A: Memory + Copy, E: Allocator>(
    alloc: A,
    world: &World<S, A>,
    config: &Config<E>,
    node: usize,
) -> Result<String<A>, AllocError>
    ensures told { SaysOfTraces result world.now config.now (λ o T. IsDue o T node) }
    ensures memory { OnErr result A.may_refuse }
{
    match world.server(node) {
        Some(core) => server_answer(
            alloc,
            config,
            Wording::Schedule(DatagramPlace::Shown),
            node,
            core,
            ServerQuestion::Due,
            world.clock(),
        ),
        None => due_at_router(alloc, world, config, node),
    }
}

// Which Map-Server is due to a router, and of which part of its database.
fn due_at_router<S: WorldStore, A: Memory + Copy, E: Allocator>(
    alloc: A,
    world: &World<S, A>,
    config: &Config<E>,
    node: usize,
) -> Result<String<A>, AllocError>
    ensures told { SaysOfTraces result world.now config.now (λ o T. IsDueAtRouter o T node) }
    ensures memory { OnErr result A.may_refuse }
{
    let Some(entry) = config.router(node) else {
        return missing_line(alloc, config, node);
    };
    match world.router(node) {
        Some(etr) => router_answer(
            alloc,
            config,
            node,
            entry.servers.as_slice(),
            etr,
            RouterQuestion::Due,
            world.clock(),
        ),
        None => line_text(
            alloc,
            config,
            &Line::Down { router: node },
            Wording::Schedule(DatagramPlace::Shown),
        ),
    }
}

// The line for a node that isn't there, or is of the other kind.
fn missing_line<A: Memory, E: Allocator>(
    alloc: A,
    config: &Config<E>,
    node: usize,
) -> Result<String<A>, AllocError>
    ensures text { IfOk result (λ text. string_bytes text ≡ missing_text config.now node) }
    ensures memory { OnErr result A.may_refuse }
{
    let fault = if node < config.node_count() {
        WorldFault::WrongKind
    } else {
        WorldFault::NoNode
    };
    fault_line(alloc, fault)
}

/// The line for what the network doesn't take.
pub(crate) fn fault_line<A: Memory>(alloc: A, fault: WorldFault) -> Result<String<A>, AllocError>
    ensures text { IfOk result (λ text. string_bytes text ≡ fault_text fault) }
    ensures memory { OnErr result A.may_refuse }
{
    let number = fault.number();
    String::try_format(alloc, format_args!("fault {number}\n"))
}
