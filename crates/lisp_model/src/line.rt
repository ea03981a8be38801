//! What an event came to.

use crate::refusal::Refusal;
use lisp_records::RouterId;

/// What an event came to. Nodes are named by their numbers, datagrams by theirs, from 0 on.
#[derive(Clone, Copy, Debug, PartialEq, Eq)]
pub enum Line {
    /// A router has another database.
    Changed {
        /// The router.
        router: usize,
        /// How many records the database has.
        records: usize,
    },
    /// A router sent a Map-Register of a part of its database.
    Sent {
        /// The router.
        router: usize,
        /// The Map-Server.
        server: usize,
        /// The part, from 0 on.
        part: usize,
        /// The Key ID.
        key: u8,
        /// The nonce.
        nonce: u64,
        /// The datagram.
        datagram: usize,
    },
    /// A Map-Server accepted a Map-Register.
    Accepted {
        /// The Map-Server.
        server: usize,
        /// The router that the message names.
        router: RouterId,
        /// The Key ID.
        key: u8,
        /// The nonce.
        nonce: u64,
        /// The Map-Notify that answers it, where one was asked for.
        datagram: Option<usize>,
    },
    /// A Map-Server's notice was acknowledged.
    Done {
        /// The Map-Server.
        server: usize,
        /// The router that the notice was for.
        router: RouterId,
        /// The nonce of the notice.
        nonce: u64,
    },
    /// A router's last Map-Register of a part of its database to a Map-Server was acknowledged.
    Counted {
        /// The router.
        router: usize,
        /// The Map-Server.
        server: usize,
        /// The part, from 0 on, which the present database may no longer have.
        part: usize,
        /// The Key ID.
        key: u8,
        /// The nonce.
        nonce: u64,
    },
    /// A router answered a notice.
    Noticed {
        /// The router.
        router: usize,
        /// The Map-Server.
        server: usize,
        /// The nonce of the notice.
        nonce: u64,
        /// The Map-Notify-Ack that answers it.
        datagram: usize,
    },
    /// No node has the address that a datagram was sent to.
    Nowhere {
        /// The datagram.
        datagram: usize,
    },
    /// Time passed.
    Ticked {
        /// How much, in ms.
        ms: u64,
        /// The moment now, in ms.
        now: u64,
    },
    /// A node started again.
    Restarted {
        /// The node.
        node: usize,
    },
    /// A router went over to another key.
    Rotated {
        /// The router.
        router: usize,
        /// The Key ID.
        key: u8,
    },
    /// A router started again, under another key, after its store lost what it kept.
    Emptied {
        /// The router.
        router: usize,
        /// The Key ID.
        key: u8,
    },
    /// A Map-Server sent a notice.
    Notice {
        /// The Map-Server.
        server: usize,
        /// The router.
        router: usize,
        /// The Key ID.
        key: u8,
        /// The nonce.
        nonce: u64,
        /// The datagram.
        datagram: usize,
    },
    /// A Map-Server sent a notice again.
    Resent {
        /// The Map-Server.
        server: usize,
        /// The router.
        router: usize,
        /// The datagram.
        datagram: usize,
    },
    /// A Map-Server has other sites, which have all that those before them had, and holds what it held.
    Reloaded {
        /// The Map-Server.
        server: usize,
        /// How many sites it has.
        sites: usize,
    },
    /// A Map-Server has other sites, which lack something that those before them had, and started anew under them.
    Renewed {
        /// The Map-Server.
        server: usize,
        /// How many sites it has.
        sites: usize,
    },
    /// The router is down.
    Down {
        /// The router.
        router: usize,
    },
    /// The node refused.
    Refused {
        /// The node.
        node: usize,
        /// Why.
        what: Refusal,
    },
}
