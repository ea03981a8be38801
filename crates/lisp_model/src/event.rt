//! What happens in a network.

use lisp_nonces::Fate;
use lisp_policy::Sites;
use lisp_records::{Addr, Bytes, Database};
use std::alloc::{Allocator, Global};

/// One event: one call of one node. Nodes are named by their numbers: servers, then routers, in the
/// order of the configuration. It has no `Debug`, as sites have none: no text shows their secrets.
#[derive(Drop)]
pub enum Event<A: Allocator = Global> {
    /// A router is given another database.
    Change {
        /// The router.
        router: usize,
        /// What it registers from now on.
        db: Database<A>,
    },
    /// A router sends a Map-Register of a part of its database to a Map-Server.
    Send {
        /// The router.
        router: usize,
        /// The Map-Server.
        server: usize,
        /// The part, from 0 on.
        part: usize,
        /// What becomes of the store's calls.
        fate: Fate,
    },
    /// A datagram that was sent arrives, perhaps not for the first time.
    Deliver {
        /// Its number.
        k: usize,
        /// What becomes of the store's calls.
        fate: Fate,
    },
    /// Bytes from outside arrive at a node.
    Junk {
        /// The node.
        to: usize,
        /// The source that they tell.
        from: Addr,
        /// The bytes.
        bytes: Bytes<A>,
    },
    /// Time passes, in ms, and every Map-Server drops its dead rows.
    Tick(u64),
    /// A node stops and starts again.
    Restart {
        /// The node.
        node: usize,
        /// Which of the values that its store may still answer are left.
        pick: u64,
        /// What a router registers from now on, where that is another database.
        db: Option<Database<A>>,
    },
    /// A router goes over to another key of its site.
    Rotate {
        /// The router.
        router: usize,
        /// The Key ID that it registers under from now on.
        key: u8,
        /// What becomes of the store's calls.
        fate: Fate,
    },
    /// A router stops, its store loses what it kept, and the router starts again under another key.
    Lose {
        /// The router.
        router: usize,
        /// The Key ID that it registers under from now on.
        key: u8,
        /// What the router registers from now on, where that is another database.
        db: Option<Database<A>>,
    },
    /// A Map-Server sends a router an unsolicited Map-Notify (notice) of what it holds of it.
    Notice {
        /// The Map-Server.
        server: usize,
        /// The router.
        router: usize,
        /// What becomes of the store's calls.
        fate: Fate,
    },
    /// A Map-Server sends a notice again.
    Resend {
        /// The Map-Server.
        server: usize,
        /// The router.
        router: usize,
    },
    /// A Map-Server takes other sites, without a restart.
    Reload {
        /// The Map-Server.
        server: usize,
        /// Its sites from now on.
        sites: Sites<A>,
    },
}
