//! The nodes of a configuration by their numbers and their names.

ghost use Rattle.std.specs.Prelude.{◌≡◌, ◌+◌, None, IfOk, IfSome, MatchOption, OnErr, length, position};
ghost use Rattle.std.specs.Option.{option_map};
ghost use Rattle.std.specs.Str.{bytes_eq};
ghost use Rattle.lisp_sites.specs.Numbers.{is_server, IsRouterPlace, IsNoRouter, router_at, servers_of, node_value, node_at, number_of, server_number_of, router_number_of, HasName, NoneNamed, addresses};

use crate::config::Config;
use crate::node::ConfigNode;
use crate::router::RouterEntry;
use crate::server::ServerEntry;
use lisp_memory::{FallibleVec, Memory};
use lisp_records::Addr;
use std::alloc::{AllocError, Allocator};

/// The nodes are numbered: the Map-Servers have 0, 1 and so on, in the order of the file, and the routers follow.
impl<A: Allocator> Config<A> {
    /// How many nodes there are: the Map-Servers and the site routers.
    pub fn node_count(&self) -> usize
        ensures { result ≡ length self.now.servers + length self.now.routers }
    {
        self.servers().len() + self.routers().len()
    }

    /// Whether a Map-Server has the number.
    pub fn is_server(&self, number: usize) -> bool
        ensures { result ≡ is_server self.now number }
    {
        number < self.servers().len()
    }

    /// The node with a number.
    pub fn node(&self, number: usize) -> Option<ConfigNode<'_, A>>
        ensures { option_map node_value result ≡ node_at self.now number }
    {
        if let Some(server) = self.servers().get(number) {
            return Some(ConfigNode::Server(server));
        }
        let router = self.router(number)?;
        Some(ConfigNode::Router(router))
    }

    /// The router with a number; `None` where a Map-Server has the number, or no node.
    pub fn router(&self, number: usize) -> Option<&RouterEntry<A>>
        ensures { option_map (λ r. r.now) result ≡ router_at self.now number }
    {
        let place = self.router_place(number)?;
        self.routers().get(place)
    }

    /// The place among the routers of the one with a number; `None` where a Map-Server has the number, or no node.
    pub fn router_place(&self, number: usize) -> Option<usize>
        ensures place { IfSome result (IsRouterPlace self.now number) }
        ensures none { result ≡ None → IsNoRouter self.now number }
    {
        let place = number.checked_sub(self.servers().len())?;
        if place < self.routers().len() {
            Some(place)
        } else {
            None
        }
    }

    /// The Map-Servers that the node with a number registers with, by their numbers: none where it is a
    /// Map-Server itself, or where there is no such node.
    pub fn servers_of(&self, number: usize) -> &[usize]
        ensures { result.now ≡ servers_of self.now number }
    {
        match self.router(number) {
            Some(router) => router.servers.as_slice(),
            None => &[],
        }
    }

    /// The number of the node with a name.
    pub fn number(&self, name: &str) -> Option<usize>
        ensures number { result ≡ number_of self.now name.now }
        ensures named { MatchOption result (NoneNamed self.now name.now)
            (HasName self.now name.now) }
    {
        match self.server_number(name) {
            Some(number) => Some(number),
            None => self.router_number(name),
        }
    }

    /// The number of the Map-Server with a name.
    pub fn server_number(&self, name: &str) -> Option<usize>
        ensures { result ≡ server_number_of self.now name.now }
    {
        server_named(self.servers(), name)
    }

    /// The number of the router with a name.
    pub fn router_number(&self, name: &str) -> Option<usize>
        ensures { result ≡ router_number_of self.now name.now }
    {
        let place = router_named(self.routers(), name)?;
        Some(self.servers().len() + place)
    }

    /// The addresses of the nodes, in the order of their numbers.
    pub fn addresses<M: Memory>(&self, alloc: M) -> Result<Vec<Addr, M>, AllocError>
        ensures addresses { IfOk result (λ v. v.items ≡ addresses self.now) }
        ensures memory { OnErr result M.may_refuse }
    {
        let mut addresses = Vec::new(alloc);
        for server in self.servers() {
            addresses.try_push(server.address)?;
        }
        for router in self.routers() {
            addresses.try_push(router.address)?;
        }
        Ok(addresses)
    }
}

// The place of the Map-Server with a name.
fn server_named<A: Allocator>(servers: &[ServerEntry<A>], name: &str) -> Option<usize>
    ensures { result ≡ position (λ s. bytes_eq s.name name.now) servers.now }
{
    servers
        .iter()
        .position(|server| server.name.as_str() == name)
}

// The place of the router with a name.
fn router_named<A: Allocator>(routers: &[RouterEntry<A>], name: &str) -> Option<usize>
    ensures { result ≡ position (λ r. bytes_eq r.name name.now) routers.now }
{
    routers
        .iter()
        .position(|router| router.name.as_str() == name)
}
