//! What a node has outside: a socket, a clock, the commits of its store, where its lines go, and its users. A node is proved over any that
//! keep these contracts.

ghost use Rattle.std.specs.Prelude.{◌≡◌, ◌≤◌, IfSome, length};
ghost use Rattle.lisp_turns.specs.Node.{core_value};
ghost use Rattle.lisp_turns.specs.Outside.{call_number, OutsideState, Logs, LogsLine, ReadsClock, reception, FitsBuffer, IsApart, came, Receives, Polls, Commits, Waits, Sends, Listens, Answers, Requests, Replies};

use crate::node_core::NodeCore;
use crate::order::Order;
use lisp_mapping::{Datagram, Outcome, Unasked};
use lisp_model::{Line, WorldFault};
use lisp_records::{Addr, Prefix, RouterId};

/// What came of waiting for a datagram.
#[derive(Clone, Copy, Debug, PartialEq, Eq)]
pub enum Received {
    /// A datagram.
    Datagram {
        /// The address that it comes from.
        from: Addr,
        /// How many bytes it has.
        count: usize,
    },
    /// None came in time.
    Nothing,
    /// The socket failed.
    Failed,
}

/// A Map-Request that waits: a datagram whose type is that of a Map-Request, 1, or of an Encapsulated Control Message, 8 (RFC 9301
/// section 5.1).
#[derive(Clone, Copy, Debug, PartialEq, Eq)]
pub struct Request {
    /// The address that it comes from.
    pub from: Addr,
    /// The UDP port that it comes from.
    pub port: u16,
    /// How many bytes it has.
    pub count: usize,
}

/// A call of a socket that failed.
#[derive(Clone, Copy, Debug, PartialEq, Eq)]
pub enum SocketCall {
    /// A receive.
    Receive,
    /// A send.
    Send,
}

impl SocketCall {
    /// The number that operators see.
    pub const fn number(&self) -> u16
        ensures { result ≡ call_number self.now }
    {
        match self {
            SocketCall::Receive => 90,
            SocketCall::Send => 91,
        }
    }
}

/// What a node prints: a line. A node that runs has no number for its datagrams: those of its lines are 0.
#[derive(Clone, Copy, Debug, PartialEq, Eq)]
pub enum Printed {
    /// What the node did of itself.
    Event(Line),
    /// What it made of a datagram.
    Heard {
        /// The line.
        line: Line,
        /// The address that the datagram came from.
        from: Addr,
    },
    /// A row of a Map-Server died: its router didn't register the record again in its lifetime (RFC 9301 section 8.2). A row
    /// that a Map-Register withdrew, by the TTL 0, isn't told.
    Expired {
        /// The router that registered the record.
        router: RouterId,
        /// The EID-Prefix of the record.
        eid: Prefix,
    },
    /// What is said of an EID-Prefix that a Map-Request asks for.
    Asked {
        /// The EID-Prefix.
        eid: Prefix,
        /// The ITR-RLOC to which Map-Replies go.
        to: Addr,
        /// What is said of it.
        outcome: Outcome,
    },
    /// Nothing is taken of a Map-Request.
    Unasked {
        /// The address that it came from.
        from: Addr,
        /// Why.
        why: Unasked,
    },
    /// A datagram for a Map-Request is held back: it is over the budget.
    OverBudget {
        /// The address that the Map-Request came from.
        from: Addr,
    },
    /// The node's socket failed.
    Failed(SocketCall),
}

/// Something outside a node, of which all that was asked may be known, in one log: so its order is known too.
pub trait Outside {
    ghost seen: { Self → OutsideState };
}

/// A node's UDP socket. Where Map-Requests wait apart, nothing that it gives is one.
pub trait Endpoint: Outside {
    /// The next datagram, taken into `buffer`; `Nothing` where none comes before its time limit.
    fn receive(&mut self, buffer: &mut [u8]) -> Received
        ensures asked { Logs (Self.seen self.old) (Self.seen self.new)
            (Receives (reception result buffer.new)) }
        ensures within { FitsBuffer result buffer.new }
        ensures apart { IsApart (Self.seen self.old).is_asked (reception result buffer.new) }
        ensures room { length buffer.new ≡ length buffer.old };

    /// The next datagram that waits already, taken into `buffer`; `Nothing` where none does. It waits for none.
    fn poll(&mut self, buffer: &mut [u8]) -> Received
        ensures asked { Logs (Self.seen self.old) (Self.seen self.new)
            (Polls (reception result buffer.new)) }
        ensures within { FitsBuffer result buffer.new }
        ensures apart { IsApart (Self.seen self.old).is_asked (reception result buffer.new) }
        ensures room { length buffer.new ≡ length buffer.old };

    /// Sends a message to an address; whether the socket took it.
    fn send(&mut self, to: &Addr, message: &[u8]) -> bool
        ensures { Logs (Self.seen self.old) (Self.seen self.new)
            (Sends to.now message.now result) };
}

/// Where Map-Requests wait that came on a node's socket, apart from what else came, and where what is sent for them goes.
pub trait Requests: Outside {
    /// The next Map-Request that waits already, taken into `buffer`; `None` where none does. It waits for none.
    fn next_request(&mut self, buffer: &mut [u8]) -> Option<Request>
        ensures asked { Logs (Self.seen self.old) (Self.seen self.new)
            (Requests (came result buffer.new)) }
        ensures within { IfSome result (λ request. request.count ≤ length buffer.new) }
        ensures room { length buffer.new ≡ length buffer.old };

    /// Sends a datagram to its address and UDP port; whether the socket took it.
    fn reply(&mut self, datagram: &Datagram) -> bool
        ensures { Logs (Self.seen self.old) (Self.seen self.new) (Replies datagram.now result) };
}

/// A node's clock.
pub trait Clock: Outside {
    /// How many ms it is since a moment that all nodes share (the start of 1970, of a node on sockets), at most 2^62, and no fewer than it
    /// said before.
    fn now(&mut self) -> u64
        ensures { ReadsClock (Self.seen self.old) (Self.seen self.new) result };

    /// Lets so many ms pass.
    fn wait(&mut self, ms: u64)
        ensures { Logs (Self.seen self.old) (Self.seen self.new) (Waits ms) };
}

/// Where what a node's store saved is committed.
pub trait Commit: Outside {
    /// Commits what was saved since the last commit, so that no crash takes it away; whether that was done. Where it wasn't, it is
    /// open what the store keeps of it.
    fn commit(&mut self) -> bool
        ensures { Logs (Self.seen self.old) (Self.seen self.new) (Commits result) };
}

/// Where a node's lines go.
pub trait Lines: Outside {
    /// Prints a line.
    fn print(&mut self, line: &Printed)
        ensures { LogsLine (Self.seen self.old) (Self.seen self.new) line.now };

    /// Whether a line couldn't be printed, so that the node is to end.
    fn is_cut(&self) -> bool
        ensures { result ≡ (Self.seen self.now).is_cut };
}

/// Where a user asks a node that runs, and tells it what to do.
pub trait Control: Outside {
    /// What a user tells the node, if one does. It waits for none.
    fn listen(&mut self) -> Option<Order>
        ensures { Logs (Self.seen self.old) (Self.seen self.new) (Listens result) };

    /// Answers the user, if there is one: what came of the order; or what was asked, by the node's core at a moment, in ms.
    fn answer(&mut self, core: NodeCore<'_>, now: u64, outcome: Option<Result<Line, WorldFault>>)
        ensures { Logs (Self.seen self.old) (Self.seen self.new)
            (Answers (core_value core.entry) now outcome) };
}
