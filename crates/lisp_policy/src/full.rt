//! What a site may have no more of.

ghost use Rattle.std.specs.Prelude.{◌≡◌};
ghost use Rattle.lisp_policy.specs.Limits.{full_number};

use thiserror::Error;

/// A limit on what is held of a site, which one more router or row would go beyond.
#[derive(Clone, Copy, Debug, PartialEq, Eq, Error)]
pub enum Full {
    /// As many routers of the site have live rows as may.
    #[error("no more routers may have rows")]
    Routers,
    /// The site has as many live rows as it may.
    #[error("it may have no more rows")]
    Rows,
}

impl Full {
    /// The number that operators see: `Routers` 139, `Rows` 140.
    pub const fn number(&self) -> u16
        ensures { result ≡ full_number self.now }
    {
        match self {
            Full::Routers => 139,
            Full::Rows => 140,
        }
    }
}
