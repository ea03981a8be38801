//! Who replies to a Map-Request.

ghost use Rattle.std.specs.Prelude.{◌≡◌};
ghost use Rattle.lisp_mapping.specs.Asked.{is_router};

/// Who replies to a Map-Request.
#[derive(Clone, Copy, Debug, PartialEq, Eq)]
pub enum Replier {
    /// A Map-Server, for its sites' routers (RFC 9301 section 8.3).
    MapServer,
    /// A router (ETR), for its database (RFC 9301 section 8.2).
    Router,
}

impl Replier {
    /// Whether it is a router, whose records are authoritative.
    pub const fn is_router(self) -> bool
        ensures { result ≡ is_router self }
    {
        match self {
            Replier::MapServer => false,
            Replier::Router => true,
        }
    }
}
