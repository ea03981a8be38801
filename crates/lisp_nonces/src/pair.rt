//! What nonces are kept for.

ghost use Rattle.std.specs.Prelude.{◌≡◌};
ghost use Rattle.std.specs.Ordering.{eq_by_cmp};
ghost use Rattle.lisp_nonces.specs.Pair.{pair_cmp};

use lisp_records::RouterId;

/// Which nonces: those that a router sent, those that a server received, those of a server's notices.
#[derive(Clone, Copy, Debug, PartialEq, Eq, PartialOrd, Ord, Hash)]
pub enum PairKind {
    Sent,
    Received,
    Notice,
}

/// What a store keeps one nonce for. Ordered by kind, then router, then key.
#[derive(Clone, Copy, Debug, PartialEq, Eq, PartialOrd, Ord, Hash)]
pub struct Pair {
    /// Which nonces.
    pub kind: PairKind,
    /// Whose nonces.
    pub router: RouterId,
    /// The Key ID that they were authenticated under.
    pub key: u8,
}

impl Pair {
    /// Whether the two are the same pair.
    pub fn is_same(&self, other: &Pair) -> bool
        ensures { result ≡ eq_by_cmp pair_cmp self.now other.now }
    {
        self.cmp(other).is_eq()
    }
}
