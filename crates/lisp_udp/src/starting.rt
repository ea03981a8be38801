//! Nodes that begin a life over their stores.

ghost use Rattle.std.specs.Prelude.{◌≤◌, ◌<◌, IfOk, length};
ghost use Rattle.lisp_turns.specs.Beginning.{Begins};
ghost use Rattle.lisp_turns.specs.Node.{Router, Server};
ghost use Rattle.lisp_sites.specs.Numbers.{node_count};
ghost use Rattle.lisp_world.specs.Making.{StartsAt};

use lisp_nodes::{RouterNode, ServerNode, Start};
use lisp_nonces::WorldStore;
use lisp_policy::Sites;
use lisp_script::RunFault;
use lisp_sites::Config;
use lisp_world::router_node;
use std::alloc::Global;

/// The Map-Server with a number, which holds nothing, of these sites over its store; its life begins at a moment, in ms.
pub(crate) fn start_server<S: WorldStore + Drop>(
    alloc: Global,
    config: &Config,
    sites: Sites,
    number: usize,
    store: S,
    now: u64,
) -> ServerNode<S>
    requires { number < length config.now.servers }
    ensures { Begins config.now sites number (S.seen store) now (Server result) }
{
    ServerNode::start_at(alloc, sites, store, now)
}

/// The router with a number over its store, started at a moment, in ms. Faults: 35, 36, 97.
pub(crate) fn start_router<S: WorldStore + Drop>(
    alloc: Global,
    config: &Config,
    number: usize,
    store: S,
    now: u64,
) -> Result<RouterNode<S>, RunFault>
    requires { (length config.now.servers ≤ number) × (number < node_count config.now) }
    ensures { IfOk result (λ n. Begins config.now config.now.sites number (S.seen store) now
        (Router n)) }
{
    let place = number - config.servers().len();
    let router = router_node(alloc, config, place, store)?;
    start(alloc, router, now)
}

// The router, started at a moment. Faults: 35, 36.
fn start<S: WorldStore + Drop>(
    alloc: Global,
    router: RouterNode<S>,
    now: u64,
) -> Result<RouterNode<S>, RunFault>
    ensures { IfOk result (λ n. StartsAt router n now) }
{
    let start = Start {
        alloc,
        now,
        db: None,
    };
    let (router, answer) = router.start(start);
    match answer {
        Ok(()) => Ok(router),
        Err(fault) => Err(RunFault::from(fault)),
    }
}
