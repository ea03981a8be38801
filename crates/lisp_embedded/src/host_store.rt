//! A store of the one nonce that a program passed.

ghost use Rattle.std.specs.Prelude.{◌≡◌, IfOk, OnErr};
ghost use Rattle.lisp_nonces.specs.Memory.{memory_state};
ghost use Rattle.lisp_nonces.specs.declared.fate.Fate.TheVariants.{Done};
ghost use Rattle.lisp_embedded.specs.Host.{KeepsPassed};

use lisp_memory::Memory;
use lisp_nonces::{MemoryStore, NonceStore, Pair};
use std::alloc::AllocError;

/// A store that keeps for a pair what the program passed, in memory of `alloc`. Out of memory is the only refusal.
pub(crate) fn host_store<A: Memory + Copy>(
    alloc: A,
    pair: &Pair,
    kept: Option<u64>,
) -> Result<MemoryStore<A>, AllocError>
    ensures keeps { IfOk result (λ store. KeepsPassed pair.now kept (memory_state store)) }
    ensures calm { IfOk result (λ store. store.fate ≡ Done) }
    ensures memory { OnErr result A.may_refuse }
{
    let mut store = MemoryStore::new(alloc);
    let Some(nonce) = kept else {
        return Ok(store);
    };
    match store.save(pair, nonce) {
        Ok(()) => Ok(store),
        Err(_) => Err(AllocError),
    }
}
