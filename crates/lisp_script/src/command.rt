//! The commands of a script.

use lisp_model::Event;
use lisp_records::{Addr, Prefix};
use std::alloc::{Allocator, Global};

/// A command: an event, or what is asked of a node. Nodes are named by their numbers: Map-Servers, then routers, in the
/// order of the configuration. It has no `Debug`, as an event has none.
#[derive(Drop)]
pub enum Command<A: Allocator = Global> {
    /// An event.
    Act(Event<A>),
    /// Which rows a Map-Server holds.
    Hold(usize),
    /// What a router counted last from each of its Map-Servers.
    Acks(usize),
    /// Who answers for an address at a Map-Server.
    Ask {
        /// The Map-Server.
        server: usize,
        /// The address.
        addr: Addr,
    },
    /// What a Map-Server would send for an EID-Prefix that a Map-Request asks for.
    Request {
        /// The Map-Server.
        server: usize,
        /// The EID-Prefix.
        asked: Prefix,
        /// The ITR-RLOC to which a Map-Reply would go, where one is named.
        from: Option<Addr>,
    },
    /// Which Map-Server is due to a router, or to which router a notice of a Map-Server is.
    Due(usize),
}
