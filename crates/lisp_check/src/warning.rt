//! What may not be meant in a configuration.

/// A prefix of a site, both from 0 on.
#[derive(Clone, Copy)]
pub struct PrefixPlace {
    pub site: usize,
    pub prefix: usize,
}

/// A warning of a configuration. Each number is a place in a list of the configuration, from 0 on; a node's counts the
/// Map-Servers, then the routers.
#[derive(Clone, Copy)]
pub enum Warning {
    /// There are no Map-Servers and no routers.
    NoNodes,
    /// The site has no keys: none of its routers can register.
    NoKeys { site: usize },
    /// The site has no prefixes: nothing can be registered.
    NoPrefixes { site: usize },
    /// A prefix of the site is that of an earlier site too, the first that has it.
    SamePrefix { first: usize, at: PrefixPlace },
    /// A prefix of the site lies inside one of another site that has more-specifics, the first such site.
    Inside { around: usize, at: PrefixPlace },
    /// The node's address is unspecified, multicast or broadcast.
    NoUnicast { node: usize },
    /// The node has the address of an earlier one, the first that has it.
    SameAddress { first: usize, node: usize },
    /// A prefix of the node's `resolve` has every address of its family: whoever asks it names where Map-Replies go.
    AnyItrRloc { node: usize },
    /// The node's `resolve` has prefixes, and none of its own address's family: it sends no Map-Reply.
    NoItrRloc { node: usize },
    /// The router has the Site-ID and xTR-ID of an earlier one, the first that has them.
    SameIdentity { first: usize, router: usize },
    /// No prefix of the router's site allows the record: a Map-Server refuses the whole Map-Register (55).
    NotAllowed { router: usize, record: usize },
    /// The router and its Map-Server are of different address families.
    OtherFamily { router: usize, server: usize },
    /// The router uses the key of an earlier router of its site, the first that uses it.
    SameKey { first: usize, router: usize },
    /// The router has no Map-Servers.
    NoServers { router: usize },
    /// The site has no `most_rows`, and a prefix with more-specifics or several keys.
    NoMostRows { site: usize },
    /// The site has more routers than its `most_routers`.
    ManyRouters { site: usize },
    /// The router's site lists xTR-IDs, and not that of the router: a Map-Server refuses each of its Map-Registers (69).
    NotListed { router: usize },
    /// The router's site lists source addresses, and not that of the router: a Map-Server refuses each Map-Register from it (136).
    OtherSource { router: usize },
    /// The record would live for a TTL that the router's site doesn't let through: a Map-Server refuses the whole Map-Register (137).
    OutOfBounds { router: usize, record: usize },
    /// The router has more records that withdraw nothing than the `most_rows` of its site.
    ManyRows { router: usize },
}
