//! The limits of a site that a Map-Register may be beyond.

ghost use Rattle.std.specs.Prelude.{◌≡◌};
ghost use Rattle.lisp_admission.specs.Refused.{limit_number};

use thiserror::Error;

/// A limit of a site. Each is off where the configuration doesn't give it.
#[derive(Clone, Copy, Debug, PartialEq, Eq, Error)]
pub enum Limit {
    /// The site lists its routers, and the one that sent the message isn't among them.
    #[error("the router isn't listed")]
    Router,
    /// The site lists source addresses, and that of the message isn't among them.
    #[error("the source address isn't listed")]
    Source,
    /// The place, from 0 on, of the first record that would live for a TTL out of the site's bounds.
    #[error("the TTL of record {0} is out of bounds")]
    Ttl(usize),
}

impl Limit {
    /// The number that operators see: `Router` 69, `Source` 136, `Ttl` 137.
    pub const fn number(&self) -> u16
        ensures { result ≡ limit_number self.now }
    {
        match self {
            Limit::Router => 69,
            Limit::Source => 136,
            Limit::Ttl(_) => 137,
        }
    }
}
