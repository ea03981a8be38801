//! The nodes of a network by their numbers and addresses.

ghost use Rattle.std.specs.Prelude.{◌≡◌, ◌<◌, IfOk, IfErr, OnOk, length, slice_index_or};
ghost use Rattle.lisp_world.specs.Faults.{is_missing, is_server, IsRouterPlace, IsPlaceWithKey, node_fault, server_fault, router_fault, pair_fault, RefusesKey, refusal_of};
ghost use Rattle.lisp_refinement.specs.Events.{address_of, node_with};

use crate::world::World;
use lisp_admission::key_at;
use lisp_hmac::Key;
use lisp_model::WorldFault;
use lisp_nonces::WorldStore;
use lisp_records::Addr;
use std::alloc::Allocator;

impl<S: WorldStore, A: Allocator> World<S, A> {
    // The address of a node.
    pub(crate) fn address(&self, node: usize) -> Addr
        requires { node < length self.now.addresses }
        ensures { result ≡ address_of self.now node }
    {
        self.addresses[node]
    }

    // The first node with an address.
    pub(crate) fn node_with(&self, address: &Addr) -> Option<usize>
        ensures { result ≡ node_with self.now address.now }
    {
        self.addresses.iter().position(|other| other == address)
    }

    // Whether no node has the number.
    pub(crate) fn is_missing(&self, node: usize) -> bool
        ensures { result ≡ is_missing self.now node }
    {
        self.addresses.len() <= node
    }

    // Whether the node is a Map-Server.
    pub(crate) fn is_server(&self, node: usize) -> bool
        ensures { result ≡ is_server self.now node }
    {
        node < self.servers.len()
    }

    // Refuses the number of no node.
    pub(crate) fn check_node(&self, node: usize) -> Result<(), WorldFault>
        ensures { refusal_of result ≡ node_fault self.now node }
    {
        if self.is_missing(node) {
            return Err(WorldFault::NoNode);
        }
        Ok(())
    }

    // Refuses the number of no Map-Server.
    pub(crate) fn check_server(&self, server: usize) -> Result<(), WorldFault>
        ensures server { OnOk result (server < length self.now.servers) }
        ensures fault { refusal_of result ≡ server_fault self.now server }
    {
        if self.is_missing(server) {
            return Err(WorldFault::NoNode);
        }
        if !self.is_server(server) {
            return Err(WorldFault::WrongKind);
        }
        Ok(())
    }

    // The place of a router among the routers.
    pub(crate) fn router_place(&self, router: usize) -> Result<usize, WorldFault>
        ensures place { IfOk result (IsRouterPlace self.now router) }
        ensures fault { refusal_of result ≡ router_fault self.now router }
    {
        if self.is_missing(router) {
            return Err(WorldFault::NoNode);
        }
        if self.is_server(router) {
            return Err(WorldFault::WrongKind);
        }
        Ok(router - self.servers.len())
    }

    // The place of a router among the routers, and a key of its site.
    pub(crate) fn place_and_key(&self, router: usize, key: u8) -> Result<(usize, Key), WorldFault>
        ensures found { IfOk result (λ x. IsPlaceWithKey self.now router key x.0 x.1) }
        ensures fault { IfErr result (RefusesKey self.now router key) }
    {
        let place = self.router_place(router)?;
        let me = self.routers[place].me();
        match key_at(&self.sites, me.site, key) {
            Some(found) => Ok((place, found.copy())),
            None => Err(WorldFault::UnknownKey),
        }
    }

    // The place of a router among the routers, beside a Map-Server.
    pub(crate) fn place_beside(&self, server: usize, router: usize) -> Result<usize, WorldFault>
        ensures place { IfOk result (IsRouterPlace self.now router) }
        ensures server { IfOk result (λ place. server < length self.now.servers) }
        ensures fault { refusal_of result ≡ pair_fault self.now router server }
    {
        if self.is_missing(router) || self.is_missing(server) {
            return Err(WorldFault::NoNode);
        }
        if self.is_server(router) || !self.is_server(server) {
            return Err(WorldFault::WrongKind);
        }
        Ok(router - self.servers.len())
    }
}
