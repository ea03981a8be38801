//! The kinds of datagrams that wait in a queue.

ghost use Rattle.std.specs.Prelude.{◌≡◌};
ghost use Rattle.lisp_queue.specs.Kind.{is_of};

use lisp_requests::is_request;

/// Which datagrams wait in a queue.
#[derive(Clone, Copy, Debug, PartialEq, Eq)]
pub enum Kind {
    /// All.
    All,
    /// Those that are Map-Requests by their type (RFC 9301 section 5.1).
    Requests,
    /// The others.
    Others,
}

impl Kind {
    /// Whether a datagram of these bytes is of the kind.
    pub fn has(&self, bytes: &[u8]) -> bool
        ensures { result ≡ is_of self.now bytes.now }
    {
        match self {
            Kind::All => true,
            Kind::Requests => is_request(bytes),
            Kind::Others => !is_request(bytes),
        }
    }
}
