//! What a client asks.

/// What a client asks at the end of a schedule: two Map-Servers what they hold, which may be the same one, and a router what
/// it counted. Nodes are named by their numbers: Map-Servers, then routers, in the order of the configuration.
#[derive(Clone, Copy, Debug, PartialEq, Eq)]
pub struct Question {
    /// The one Map-Server.
    pub server: usize,
    /// The other Map-Server.
    pub other: usize,
    /// The router.
    pub router: usize,
    /// The place of a Map-Server in the router's list.
    pub place: usize,
    /// A part of the router's database, from 0 on.
    pub part: usize,
}
