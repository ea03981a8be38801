//! Why a router keeps its key.

ghost use Rattle.std.specs.Prelude.{◌≡◌};
ghost use Rattle.lisp_etr.specs.Faults.{rotate_fault_number};

use lisp_hmac::Key;
use lisp_nonces::StoreFault;
use thiserror::Error;

/// What keeps a router from going over to another key; `SameKey` comes first.
#[derive(Clone, Copy, Debug, PartialEq, Eq, Error)]
pub enum RotateFault {
    /// The router registers under this key already; the store wasn't asked.
    #[error("the router has this key already")]
    SameKey,
    /// The store can't report the last nonce under the new key.
    #[error("the last nonce can't be loaded: {0}")]
    Store(StoreFault),
}

impl RotateFault {
    /// The number that operators see: `SameKey` 37, `Store` 38.
    pub const fn number(&self) -> u16
        ensures { result ≡ rotate_fault_number self.now }
    {
        match self {
            RotateFault::SameKey => 37,
            RotateFault::Store(_) => 38,
        }
    }
}

/// A router that keeps its key: why, and the key that it was given.
#[derive(Drop)]
pub struct RotateRefused {
    /// Why it keeps its key.
    pub fault: RotateFault,
    /// The key that was given.
    pub key: Key,
}
