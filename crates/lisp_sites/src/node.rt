//! A node of a configuration, of either kind.

ghost use Rattle.std.specs.Prelude.{◌≡◌};
ghost use Rattle.lisp_sites.specs.Numbers.{node_value, name_of, address_of};

use crate::router::RouterEntry;
use crate::server::ServerEntry;
use lisp_records::Addr;
use std::alloc::{Allocator, Global};

/// A node of a configuration.
#[derive(Debug, Drop)]
pub enum ConfigNode<'c, A: Allocator = Global> {
    /// A Map-Server.
    Server(&'c ServerEntry<A>),
    /// A site router.
    Router(&'c RouterEntry<A>),
}

impl<'c, A: Allocator> ConfigNode<'c, A> {
    /// Its name.
    pub fn name(&self) -> &'c str
        ensures { result.now ≡ name_of (node_value self.now) }
    {
        match *self {
            ConfigNode::Server(server) => server.name.as_str(),
            ConfigNode::Router(router) => router.name.as_str(),
        }
    }

    /// Where it receives.
    pub fn address(&self) -> &'c Addr
        ensures { result.now ≡ address_of (node_value self.now) }
    {
        match *self {
            ConfigNode::Server(server) => &server.address,
            ConfigNode::Router(router) => &router.address,
        }
    }
}
