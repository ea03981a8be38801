//! The nonce that a Map-Server accepted last of a router under a key.

ghost use Rattle.std.specs.Prelude.{◌≡◌, ◌++◌, IfOk, OnErr, OnOk};
ghost use Rattle.std.specs.List.{filter_map};
ghost use Rattle.std.specs.Option.{option_to_list};
ghost use Rattle.lisp_upkeep.specs.AcceptedNonce.{pair_of, accepted_of, ListsAccepted};

use lisp_memory::{FallibleVec, Memory};
use lisp_records::RouterId;
use lisp_store::{KeptNonce, Pair, PairKind};
use std::alloc::AllocError;

/// The nonce of the Map-Register that a Map-Server accepted last of a router under a key. Ordered by router, then key, then nonce.
#[derive(Clone, Copy, Debug, PartialEq, Eq, PartialOrd, Ord)]
pub struct AcceptedNonce {
    /// Whose it is.
    pub router: RouterId,
    /// The Key ID that it was authenticated under.
    pub key: u8,
    /// The nonce.
    pub nonce: u64,
}

impl AcceptedNonce {
    /// What a store keeps it for: always a received nonce.
    pub fn pair(&self) -> Pair
        ensures { result ≡ pair_of self.now }
    {
        Pair {
            kind: PairKind::Received,
            router: self.router,
            key: self.key,
        }
    }
}

/// The nonces that were accepted among those that a store keeps, in their order. Those that were sent, and those of notices, aren't.
pub fn accepted_nonces<A: Memory>(
    alloc: A,
    kept: &[KeptNonce],
) -> Result<Vec<AcceptedNonce, A>, AllocError>
    ensures nonces { IfOk result (λ nonces. ListsAccepted kept.now nonces.items) }
    ensures memory { OnErr result A.may_refuse }
{
    let mut nonces = collected(alloc, kept)?;
    nonces.sort_unstable();
    Ok(nonces)
}

// The same, in the order of the store.
fn collected<A: Memory>(alloc: A, kept: &[KeptNonce]) -> Result<Vec<AcceptedNonce, A>, AllocError>
    ensures nonces { IfOk result (λ nonces. nonces.items ≡ filter_map accepted_of kept.now) }
    ensures memory { OnErr result A.may_refuse }
{
    let mut nonces = Vec::new(alloc);
    for nonce in kept {
        add_accepted(&mut nonces, *nonce)?;
    }
    Ok(nonces)
}

// Adds a nonce that is kept, if it was accepted.
fn add_accepted<A: Memory>(
    nonces: &mut Vec<AcceptedNonce, A>,
    kept: KeptNonce,
) -> Result<(), AllocError>
    ensures added { OnOk result (nonces.new.items
        ≡ nonces.old.items ++ option_to_list (accepted_of kept)) }
    ensures memory { OnErr result A.may_refuse }
{
    if let Some(nonce) = accepted(kept) {
        nonces.try_push(nonce)?;
    }
    Ok(())
}

// A nonce that is kept, if it was accepted.
fn accepted(kept: KeptNonce) -> Option<AcceptedNonce>
    ensures { result ≡ accepted_of kept }
{
    let KeptNonce { pair, nonce } = kept;
    match pair.kind {
        PairKind::Received => Some(AcceptedNonce {
            router: pair.router,
            key: pair.key,
            nonce,
        }),
        PairKind::Sent | PairKind::Notice => None,
    }
}
