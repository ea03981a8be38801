//! The network.

ghost use Rattle.std.specs.Prelude.{◌≡◌, length, slice_get};
ghost use Rattle.std.specs.Option.{option_map};
ghost use Rattle.lisp_refinement.specs.Nodes.{server_at, etr_at, store_at};

use lisp_etr::Etr;
use lisp_nodes::{Datagram, RouterNode, ServerNode};
use lisp_nonces::WorldStore;
use lisp_records::Addr;
use lisp_server::Server;
use lisp_sites::Sites;
use std::alloc::{Allocator, Global};
use std::marker::Model;

/// A network of Map-Servers and site routers, each with a store of its own, and the datagrams that they
/// sent. Nodes are numbered: servers, then routers, in the order of the configuration.
#[derive(Drop)]
pub struct World<S: WorldStore, A: Allocator = Global> {
    pub(crate) alloc: A,
    // Those of the configuration, which have the keys that a router may go over to.
    pub(crate) sites: Sites<A>,
    // Of the nodes, by their numbers.
    pub(crate) addresses: Vec<Addr, A>,
    pub(crate) clock: u64,
    pub(crate) bag: Vec<Datagram<A>, A>,
    pub(crate) servers: Vec<ServerNode<S, A>, A>,
    pub(crate) routers: Vec<RouterNode<S, A>, A>,
}

impl<S: WorldStore, A: Allocator> Model for World<S, A> {
    ghost use Rattle.std.specs.Prelude.{◌≡◌, ◌≤◌, ◌+◌, length};
    ghost use Rattle.std.specs.Coded.{codes};
    ghost use Rattle.lisp_records.specs.Moment.{max_moment};
    ghost use Rattle.lisp_nonces.specs.Kept.{kept_code};
    ghost use Rattle.lisp_server.specs.LastNonces.{nonces_code};
    ghost use Rattle.lisp_refinement.specs.World.{WorldState};

    ghost Value = { WorldState };

    ghost coded = { Prim.hlevel (codes, nonces_code, kept_code) };

    ghost view = { λ w. record { sites = w.sites; addresses = w.addresses.items; clock = w.clock; bag = w.bag.items; servers = w.servers.items; routers = w.routers.items } };

    ghost invariant = { λ w. (w.clock ≤ max_moment) × (length w.addresses.items ≡ length w.servers.items + length w.routers.items) };
}

impl<S: WorldStore, A: Allocator> World<S, A> {
    /// The moment, in ms since the network was made; at most 2^62. Takes no memory.
    pub fn clock(&self) -> u64
        ensures { result ≡ self.now.clock }
    {
        self.clock
    }

    /// How many datagrams were sent. Takes no memory.
    pub fn sent(&self) -> usize
        ensures { result ≡ length self.now.bag }
    {
        self.bag.len()
    }

    /// A datagram that was sent, by its number, from 0 on; `None` where there is none. Takes no memory.
    pub fn datagram(&self, k: usize) -> Option<&Datagram<A>>
        ensures { option_map (λ d. d.now) result ≡ slice_get self.now.bag k }
    {
        self.bag.get(k)
    }

    /// The Map-Server with a number; `None` where no Map-Server has it. Takes no memory.
    pub fn server(&self, node: usize) -> Option<&Server<A>>
        ensures { option_map (λ s. s.now) result ≡ server_at self.now node }
    {
        Some(self.servers.get(node)?.core())
    }

    /// The router with a number; `None` where no router has it, or it is down. Takes no memory.
    pub fn router(&self, node: usize) -> Option<&Etr<A>>
        ensures { option_map (λ e. e.now) result ≡ etr_at self.now node }
    {
        if node < self.servers.len() {
            return None;
        }
        self.routers.get(node - self.servers.len())?.etr()
    }

    /// The store of the node with a number; `None` where no node has it. Takes no memory.
    pub fn store(&self, node: usize) -> Option<&S>
        ensures { option_map (λ s. S.seen s.now) result ≡ store_at self.now node }
    {
        if node < self.servers.len() {
            return Some(self.servers.get(node)?.store());
        }
        Some(self.routers.get(node - self.servers.len())?.store())
    }
}
