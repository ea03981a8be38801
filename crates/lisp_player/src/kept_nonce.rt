//! A nonce that a store keeps.

use lisp_nonces::Pair;

/// A nonce that a store keeps.
#[derive(Clone, Copy, Debug, PartialEq, Eq)]
pub struct KeptNonce {
    /// What it is kept for.
    pub pair: Pair,
    /// The nonce.
    pub nonce: u64,
}
