//! The nodes of a configuration: by their numbers, and by their names.

ghost use Rattle.std.specs.Prelude.{◌≡◌, Some, IfOk, IfErr};
ghost use Rattle.lisp_udp.specs.Inbox.{resolve_at};
ghost use Rattle.lisp_udp.specs.Names.{IsNamed, IsNameFault};
ghost use Rattle.lisp_sites.specs.Numbers.{IsNode, name_at, address_at};

use lisp_model::WorldFault;
use lisp_records::{Addr, Prefix};
use lisp_script::RunFault;
use lisp_sites::Config;

/// A node: its name, which its folder has too, its address, and whom it answers.
#[derive(Clone, Copy)]
pub struct NodeEntry<'a> {
    /// Its name.
    pub name: &'a str,
    /// Its address.
    pub address: &'a Addr,
    /// The prefixes of the ITR-RLOCs that its Map-Replies go to; none where it answers no Map-Requests.
    pub resolve: &'a [Prefix],
}

/// The node with a number: Map-Servers first, then routers.
pub fn entry_at(config: &Config, number: usize) -> NodeEntry<'_>
    requires { IsNode config.now number }
    ensures name { name_at config.now number ≡ Some result.name.now }
    ensures address { address_at config.now number ≡ Some result.address.now }
    ensures resolve { resolve_at config.now number ≡ result.resolve.now }
{
    let servers = config.servers();
    if number < servers.len() {
        let server = &servers[number];
        return NodeEntry {
            name: server.name.as_str(),
            address: &server.address,
            resolve: &server.resolve,
        };
    }
    let router = &config.routers()[number - servers.len()];
    NodeEntry {
        name: router.name.as_str(),
        address: &router.address,
        resolve: &router.resolve,
    }
}

/// A kind of node.
#[derive(Clone, Copy)]
pub enum NodeKind {
    /// A Map-Server.
    Server,
    /// A site router.
    Router,
}

/// The number of the node of a kind with a name. Faults: 71 where a node of the other kind has the name, 70 where none has it.
pub fn number_named(config: &Config, kind: NodeKind, name: &str) -> Result<usize, RunFault>
    ensures named { IfOk result (λ number. IsNamed config.now kind name.now number) }
    ensures fault { IfErr result (λ fault. IsNameFault config.now kind name.now fault) }
{
    let Some(number) = config.number(name) else {
        return Err(RunFault::from(WorldFault::NoNode));
    };
    match (kind, config.is_server(number)) {
        (NodeKind::Server, true) | (NodeKind::Router, false) => Ok(number),
        _ => Err(RunFault::from(WorldFault::WrongKind)),
    }
}
