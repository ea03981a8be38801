//! A life of a node, from its start over its store until its turns end.

ghost use Rattle.std.specs.Prelude.{◌≡◌, ◌≤◌, ◌<◌, List, Err, IsErr, IfOk, IfErr, OnOk, OnErr, length};
ghost use Rattle.lisp_policy.specs.Site.{SiteValue};
ghost use Rattle.lisp_nonces.specs.Store.{StoreState};
ghost use Rattle.lisp_turns.specs.Node.{Server, Router, IsPlaced};
ghost use Rattle.lisp_sites.specs.Numbers.{IsMapServer, node_count};
ghost use Rattle.lisp_udp.specs.Running.{BeginsOver, ReadsFirst, RunsFrom, RunsOver, TakesItsTurns, TakesTurnsFrom};

use crate::resolving::{Answering, resolving};
use crate::starting::{start_router, start_server};
use lisp_memory::Memory;
use lisp_nodes::{RouterNode, ServerNode};
use lisp_nonces::WorldStore;
use lisp_policy::Sites;
use lisp_script::RunFault;
use lisp_sites::Config;
use lisp_turns::{
    Clock, Commit, Control, Endpoint, Lines, Node, Place, Requests, Uncommitted, take_turns,
};
use std::alloc::Global;

/// A node whose turns ended, and what is outside it.
#[derive(Drop)]
pub struct Life<N, O> {
    /// The node.
    pub node: N,
    /// What is outside.
    pub outside: O,
    /// Whether its turns ended in one that was lost.
    pub ended: Result<(), Uncommitted>,
}

/// Runs the Map-Server with a number, which holds nothing, under these sites over its store, in so many turns of so many datagrams. Its
/// life begins at the moment that its clock tells then. Faults: that of what is outside, then 97.
pub fn serve_over<
    S: WorldStore + Drop,
    O: Endpoint + Requests + Clock + Commit + Lines + Control + Drop,
>(
    alloc: Global,
    config: &Config,
    sites: Sites,
    number: usize,
    store: S,
    places: usize,
    answering: Answering,
    turns: u64,
    outside: Result<O, RunFault>,
) -> Result<Life<ServerNode<S>, O>, RunFault>
    requires { IsMapServer config.now number }
    ensures part { RunsOver O.seen config.now sites number (S.seen store) outside result }
    ensures turns { TakesItsTurns Global (λ n. Server n) O.seen config.now sites number
        (S.seen store) places answering turns outside result }
    ensures device { IfErr outside (λ fault. IsErr result) }
{
    let mut outside = outside;
    let now = moment(&mut outside);
    let server = Ok(start_server(alloc, config, sites, number, store, now));
    run_at(
        alloc, config, number, server, places, answering, turns, outside,
    )
}

/// Runs the router with a number over its store, which starts, in so many turns of so many datagrams. Its life begins at the moment that
/// its clock tells then. Faults: those of the start, then that of what is outside, then 97.
pub fn route_over<
    S: WorldStore + Drop,
    O: Endpoint + Requests + Clock + Commit + Lines + Control + Drop,
>(
    alloc: Global,
    config: &Config,
    number: usize,
    store: S,
    places: usize,
    answering: Answering,
    turns: u64,
    outside: Result<O, RunFault>,
) -> Result<Life<RouterNode<S>, O>, RunFault>
    requires { (length config.now.servers ≤ number) × (number < node_count config.now) }
    ensures part { RunsOver O.seen config.now config.now.sites number (S.seen store) outside
        result }
    ensures turns { TakesItsTurns Global (λ n. Router n) O.seen config.now config.now.sites number
        (S.seen store) places answering turns outside result }
    ensures device { IfErr outside (λ fault. IsErr result) }
{
    let mut outside = outside;
    let now = moment(&mut outside);
    let router = start_router(alloc, config, number, store, now);
    run_at(
        alloc, config, number, router, places, answering, turns, outside,
    )
}

// The moment that the clock tells; 0 where what is outside failed.
fn moment<O: Clock>(outside: &mut Result<O, RunFault>) -> u64
    ensures { ReadsFirst O.seen outside.old outside.new result }
{
    match outside {
        Ok(outside) => outside.now(),
        Err(_) => 0,
    }
}

// Runs the node with a number, if it started at the moment that the clock told last. Faults: those of its start, then that of what is
// outside, then 97.
fn run_at<N: Node + Drop, O: Endpoint + Requests + Clock + Commit + Lines + Control + Drop>(
    alloc: Global,
    config: &Config,
    number: usize,
    node: Result<N, RunFault>,
    places: usize,
    answering: Answering,
    turns: u64,
    outside: Result<O, RunFault>,
) -> Result<Life<N, O>, RunFault>
    requires { IfOk node (λ n. IsPlaced config.now number (N.state n)) }
    ensures part { (sites : List SiteValue) (store : StoreState)
        → IfOk node (λ n. BeginsOver O.seen config.now sites number store outside (N.state n))
        → RunsFrom O.seen config.now sites number store outside result }
    ensures turns { (sites : List SiteValue) (store : StoreState)
        → IfOk node (λ n. BeginsOver O.seen config.now sites number store outside (N.state n))
        → TakesTurnsFrom Global N.state O.seen config.now sites number store places answering turns
        outside result }
    ensures start { IfErr node (λ fault. result ≡ Err fault) }
    ensures device { OnOk node (IfErr outside (λ fault. result ≡ Err fault)) }
    ensures memory { OnOk node (OnOk outside (OnErr result ⟦<Global as Memory>⟧.may_refuse)) }
{
    let mut node = node?;
    let mut outside = outside?;
    let place = Place { config, number };
    let resolving = resolving(alloc, answering)?;
    let ended = take_turns(
        alloc,
        &mut node,
        &place,
        places,
        resolving,
        turns,
        &mut outside,
    );
    Ok(Life {
        node,
        outside,
        ended,
    })
}
