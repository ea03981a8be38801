//! A network is made.

ghost use Rattle.std.specs.Prelude.{◌≡◌, ◌↔◌, ◌+◌, ◌^◌, ◌<◌, ◌||◌, ◌++◌, ◌∷◌, true, false, [], Err, IfOk, IfErr, IsErrOf, OnOk, OnErr, length, map, slice_get, Some};
ghost use Rattle.std.specs.List.{AllByRecursion, list_any};
ghost use Rattle.lisp_records.specs.Address.{addr_eq};
ghost use Rattle.lisp_records.specs.Router.{router_eq};
ghost use Rattle.lisp_policy.specs.Configuration.{HasServers};
ghost use Rattle.lisp_etr.specs.declared.start_fault.StartFault.{StartFault};
ghost use Rattle.lisp_model.specs.declared.world_fault.WorldFault.{WorldFault};
ghost use Rattle.lisp_model.specs.Trace.{addresses as addresses_of, etr_config_of, secret_at};
ghost use Rattle.lisp_model.specs.Network.{IsNetwork};
ghost use Rattle.lisp_nodes.specs.Memory.{no_store_memory_to_start};
ghost use Rattle.lisp_world.specs.Making.{server_over, router_over, IsRouterOver, IsConfiguredAt, addresses_at, HasNodeLeft, AddsNode, AreMade, HasStarted, HaveStarted, StaysDown, IsStartFault, FailsOver, FailsToStartOnlyIf, FailsCalm};
ghost use Rattle.lisp_world.specs.Openings.{repeats, share_address, share_identity, nodes_share_address, IsOpened, KeepsLists};
ghost use Rattle.lisp_world.specs.Quiet.{AllHonest, StaysCalm};
ghost use Rattle.lisp_refinement.specs.Headline.{Promises};

use crate::world::World;
use core::mem::replace_with;
use lisp_admission::key_at;
use lisp_etr::{EtrConfig, Servers, StartFault};
use lisp_hmac::Key;
use lisp_memory::{FallibleCopies, FallibleVec, Memory};
use lisp_model::WorldFault;
use lisp_nodes::{RouterNode, ServerNode, Start};
use lisp_nonces::WorldStore;
use lisp_records::{Addr, RouterId};
use lisp_sites::{Config, Places, RouterEntry, ServerEntry};
use std::alloc::{AllocError, Allocator};

impl<S: WorldStore, A: Memory + Copy> World<S, A> {
    /// A network of the nodes of a configuration, each over a store of its own in their order, all started at the
    /// moment 0. What it makes lies in memory of `alloc`.
    ///
    /// It refuses in this order, and drops the stores: `Repeated` (two nodes have one address, or two routers
    /// one identity), `OutOfMemory`, `Start` (the first router that doesn't start, and why).
    pub fn new<E: Allocator>(
        alloc: A,
        config: &Config<E>,
        stores: Vec<S, A>,
    ) -> Result<World<S, A>, WorldFault>
    where
        S: Drop,
        requires { length stores.items ≡ length config.now.servers + length config.now.routers }

        // Over honest stores it stands for its opening.
        ensures stands { AllHonest (map S.seen stores.items) → IfOk result (IsOpened config.now) }
        ensures headline { IfOk result (λ w. Promises w) }
        ensures lists { KeepsLists (map S.seen stores.items) result }
        ensures faults { FailsOver config.now S.seen stores.items A.may_refuse S.may_refuse result }
        ensures repeated { (result ≡ Err WorldFault.Repeated) ↔ (repeats config.now ≡ true) }
        ensures memory { IsErrOf result WorldFault.OutOfMemory → A.may_refuse }
        ensures start_memory { FailsToStartOnlyIf result StartFault.OutOfMemory A.may_refuse }
        ensures store_memory { FailsToStartOnlyIf result no_store_memory_to_start S.may_refuse }

        // Stores that obey and fail no more are so again, and none has failed.
        ensures calm { StaysCalm (map S.seen stores.items) result }
        ensures calm_faults { FailsCalm (map S.seen stores.items) A.may_refuse S.may_refuse result }
    {
        if repeats(config) {
            return Err(WorldFault::Repeated);
        }
        let addresses = config.addresses(alloc)?;
        let sites = config.sites().copy(alloc)?;
        let (servers, mut routers) = nodes(alloc, config, &addresses, stores)?;
        start_all(alloc, &mut routers, servers.len())?;
        Ok(World {
            alloc,
            sites,
            addresses,
            clock: 0,
            bag: Vec::new(alloc),
            servers,
            routers,
        })
    }
}

// Whether two nodes have one address, or two routers one identity.
fn repeats<E: Allocator>(config: &Config<E>) -> bool
    ensures exact { result ≡ repeats config.now }
    ensures network { result ≡ false → IsNetwork config.now }
{
    let (servers, routers) = (config.servers(), config.routers());
    servers_repeat(servers, routers) || routers_repeat(routers)
}

// Whether a Map-Server has the address of another one behind it, or of a router.
fn servers_repeat<E: Allocator>(servers: &[ServerEntry<E>], routers: &[RouterEntry<E>]) -> bool
    ensures { (result || share_address routers.now) ≡ nodes_share_address servers.now routers.now }
{
    for (i, server) in servers.iter().enumerate() {
        if is_server_at(&servers[i + 1..], server.address)
            || is_router_at(routers, server.address)
        {
            return true;
        }
    }
    false
}

// Whether a router has the address or the identity of another one behind it.
fn routers_repeat<E: Allocator>(routers: &[RouterEntry<E>]) -> bool
    ensures { result ≡ (share_address routers.now || share_identity routers.now) }
{
    for (i, router) in routers.iter().enumerate() {
        if is_router_at(&routers[i + 1..], router.address)
            || is_router(&routers[i + 1..], router.me)
        {
            return true;
        }
    }
    false
}

// Whether a Map-Server has the address.
fn is_server_at<E: Allocator>(servers: &[ServerEntry<E>], address: Addr) -> bool
    ensures { result ≡ list_any (λ s. addr_eq address s.address) servers.now }
{
    servers.iter().any(|server| address == server.address)
}

// Whether a router has the address.
fn is_router_at<E: Allocator>(routers: &[RouterEntry<E>], address: Addr) -> bool
    ensures { result ≡ list_any (λ r. addr_eq address r.address) routers.now }
{
    routers.iter().any(|router| is_at(router, address))
}

// Whether it is the router's.
fn is_at<E: Allocator>(router: &RouterEntry<E>, address: Addr) -> bool
    ensures { result ≡ addr_eq address router.now.address }
{
    address == router.address
}

// Whether a router has the identity.
fn is_router<E: Allocator>(routers: &[RouterEntry<E>], me: RouterId) -> bool
    ensures { result ≡ list_any (λ r. router_eq me r.me) routers.now }
{
    routers.iter().any(|router| me == router.me)
}

/// The Map-Servers and the routers of a network.
type Nodes<S, A> = (Vec<ServerNode<S, A>, A>, Vec<RouterNode<S, A>, A>);

// The nodes of a configuration, each over its store: Map-Servers that hold nothing, and routers that are down.
fn nodes<S: WorldStore, A: Memory + Copy, E: Allocator>(
    alloc: A,
    config: &Config<E>,
    addresses: &[Addr],
    stores: Vec<S, A>,
) -> Result<Nodes<S, A>, AllocError>
where
    S: Drop,
    requires count { length stores.items ≡ length config.now.servers + length config.now.routers }
    requires addresses { addresses.now ≡ addresses_of config.now }
    ensures nodes { IfOk result (λ n. AreMade config.now S.seen stores.items n.0.items n.1.items) }
    ensures memory { OnErr result A.may_refuse }
{
    let mut servers = Vec::new(alloc);
    let mut routers = Vec::new(alloc);
    for store in stores {
        add_node(alloc, config, addresses, store, &mut servers, &mut routers)?;
    }
    Ok((servers, routers))
}

// One more node over its store: a Map-Server as long as the configuration has more of them, else a router.
fn add_node<S: WorldStore, A: Memory + Copy, E: Allocator>(
    alloc: A,
    config: &Config<E>,
    addresses: &[Addr],
    store: S,
    servers: &mut Vec<ServerNode<S, A>, A>,
    routers: &mut Vec<RouterNode<S, A>, A>,
) -> Result<(), AllocError>
where
    S: Drop,
    requires addresses { addresses.now ≡ addresses_of config.now }
    requires left { HasNodeLeft config.now servers.old.items routers.old.items }
    ensures added { OnOk result
        (AddsNode config.now (S.seen store) servers.old.items servers.new.items routers.old.items
        routers.new.items) }
    ensures memory { OnErr result A.may_refuse }
{
    if servers.len() < config.servers().len() {
        let node = server(alloc, config, store)?;
        return append(servers, node);
    }
    let node = router(alloc, config, addresses, routers.len(), store)?;
    append(routers, node)
}

// A node goes to the end of those that there are.
fn append<N: Drop, A: Memory>(nodes: &mut Vec<N, A>, node: N) -> Result<(), AllocError>
    ensures added { OnOk result (nodes.new.items ≡ nodes.old.items ++ node ∷ []) }
    ensures memory { OnErr result A.may_refuse }
{
    Ok(nodes.try_push(node)?)
}

// A Map-Server of the configuration over its store, which holds nothing.
fn server<S: WorldStore, A: Memory + Copy, E: Allocator>(
    alloc: A,
    config: &Config<E>,
    store: S,
) -> Result<ServerNode<S, A>, AllocError>
where
    S: Drop,
    ensures server { IfOk result (λ n. n ≡ server_over config.now (S.seen store)) }
    ensures memory { OnErr result A.may_refuse }
{
    let sites = config.sites().copy(alloc)?;
    Ok(ServerNode::start(alloc, sites, store))
}

/// The router at a place of the configuration over its store, not yet started.
pub fn router_node<S: WorldStore, A: Memory + Copy, E: Allocator>(
    alloc: A,
    config: &Config<E>,
    place: usize,
    store: S,
) -> Result<RouterNode<S, A>, AllocError>
where
    S: Drop,
    requires { place < length config.now.routers }
    ensures router { IfOk result (λ n. IsRouterOver config.now place (S.seen store) n) }
    ensures memory { OnErr result A.may_refuse }
{
    let addresses = config.addresses(alloc)?;
    router(alloc, config, &addresses, place, store)
}

/// What the router at a place of the configuration is configured with: its key, and the addresses of its Map-Servers.
pub fn router_settings<A: Memory + Copy, E: Allocator>(
    alloc: A,
    config: &Config<E>,
    place: usize,
) -> Result<EtrConfig<A>, AllocError>
    requires { place < length config.now.routers }
    ensures settings { IfOk result (λ s. IsConfiguredAt config.now place s) }
    ensures memory { OnErr result A.may_refuse }
{
    let addresses = config.addresses(alloc)?;
    settings(alloc, config, &addresses, entry_at(config, place))
}

// The router at a place of the configuration over its store, not yet started.
fn router<S: WorldStore, A: Memory + Copy, E: Allocator>(
    alloc: A,
    config: &Config<E>,
    addresses: &[Addr],
    place: usize,
    store: S,
) -> Result<RouterNode<S, A>, AllocError>
where
    S: Drop,
    requires addresses { addresses.now ≡ addresses_of config.now }
    requires place { place < length config.now.routers }
    ensures router { IfOk result (λ n. IsRouterOver config.now place (S.seen store) n) }
    ensures memory { OnErr result A.may_refuse }
{
    down(alloc, config, addresses, entry_at(config, place), store)
}

// The router at a place of the configuration.
fn entry_at<E: Allocator>(config: &Config<E>, place: usize) -> &RouterEntry<E>
    requires { place < length config.now.routers }
    ensures there { slice_get config.now.routers place ≡ Some result.now }
    ensures servers { HasServers config.now.servers result.now }
{
    &config.routers()[place]
}

// A router over its store, not yet started.
fn down<S: WorldStore, A: Memory + Copy, E: Allocator>(
    alloc: A,
    config: &Config<E>,
    addresses: &[Addr],
    entry: &RouterEntry<E>,
    store: S,
) -> Result<RouterNode<S, A>, AllocError>
where
    S: Drop,
    requires addresses { addresses.now ≡ addresses_of config.now }
    requires servers { HasServers config.now.servers entry.now }
    ensures router { IfOk result (λ n. n ≡ router_over config.now entry.now (S.seen store)) }
    ensures memory { OnErr result A.may_refuse }
{
    let servers = Vec::try_from_slice(alloc, entry.servers.as_slice())?;
    let settings = settings(alloc, config, addresses, entry)?;
    let database = entry.database.copy(alloc)?;
    Ok(RouterNode::down(Places::from_vec(servers), settings, database, store))
}

// What a router is configured with: its key, and the addresses of its Map-Servers.
fn settings<A: Memory + Copy, E: Allocator>(
    alloc: A,
    config: &Config<E>,
    addresses: &[Addr],
    entry: &RouterEntry<E>,
) -> Result<EtrConfig<A>, AllocError>
    requires addresses { addresses.now ≡ addresses_of config.now }
    requires servers { HasServers config.now.servers entry.now }
    ensures settings { IfOk result (λ s. s ≡ etr_config_of config.now entry.now) }
    ensures memory { OnErr result A.may_refuse }
{
    let servers = each_address(alloc, addresses, entry.servers.as_slice())?;
    Ok(EtrConfig {
        me: entry.me,
        key_id: entry.key_id,
        key: key(config, entry),
        servers: Servers::from_vec(servers),
        proxy: entry.proxy,
        use_ttl: entry.use_ttl,
        nonce_block: entry.nonce_block,
    })
}

// A router's key; that of no bytes where its site has no such key.
fn key<E: Allocator>(config: &Config<E>, entry: &RouterEntry<E>) -> Key
    ensures { result ≡ secret_at config.now.sites entry.now.me.site entry.now.key_id }
{
    match key_at(config.sites(), entry.me.site, entry.key_id) {
        Some(key) => key.copy(),
        None => Key::new(&[]),
    }
}

// The addresses at these places.
fn each_address<A: Memory + Copy>(
    alloc: A,
    addresses: &[Addr],
    places: &[usize],
) -> Result<Vec<Addr, A>, AllocError>
    requires { AllByRecursion (λ place. place < length addresses.now) places.now }
    ensures addresses { IfOk result (λ v. v.items ≡ addresses_at addresses.now places.now) }
    ensures memory { OnErr result A.may_refuse }
{
    let mut found = Vec::new(alloc);
    for place in places {
        found.try_push(addresses[*place])?;
    }
    Ok(found)
}

// Starts each router at the moment 0; the number of the first that doesn't start, and why.
fn start_all<S: WorldStore, A: Memory + Copy>(
    alloc: A,
    routers: &mut [RouterNode<S, A>],
    first: usize,
) -> Result<(), WorldFault>
    requires { first + length routers.old < 2 ^ 64 }
    ensures started { OnOk result (HaveStarted routers.old routers.new) }
    ensures faults { IfErr result
        (IsStartFault first routers.old routers.new A.may_refuse S.may_refuse) }
{
    for i in 0..routers.len() {
        if let Err(fault) = start(alloc, &mut routers[i]) {
            let node = first + i;
            return Err(WorldFault::Start { node, fault });
        }
    }
    Ok(())
}

// Starts a router at the moment 0.
fn start<S: WorldStore, A: Memory + Copy>(
    alloc: A,
    router: &mut RouterNode<S, A>,
) -> Result<(), StartFault>
    ensures started { OnOk result (HasStarted router.old router.new) }
    ensures unstarted { IfErr result (StaysDown router.old router.new A.may_refuse S.may_refuse) }
{
    let how = Start {
        alloc,
        now: 0,
        db: None,
    };
    replace_with(router, how, RouterNode::start)
}
