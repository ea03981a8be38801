//! What a store keeps.

use lisp_nonces::Pair;

/// A nonce that a store keeps for a pair.
#[derive(Clone, Copy, Debug, PartialEq, Eq)]
pub struct KeptNonce {
    /// Whose it is.
    pub pair: Pair,
    /// The nonce.
    pub nonce: u64,
}
