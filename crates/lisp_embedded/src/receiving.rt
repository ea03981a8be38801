//! Receiving a datagram with the nonce that the program kept.

ghost use Rattle.std.specs.Prelude.{◌≡◌, IfOk, IfErr, OnErr, IsErrOf};
ghost use Rattle.lisp_admission.specs.declared.refused.Refused.{Refused};
ghost use Rattle.lisp_nonces.specs.Memory.{memory_state};
ghost use Rattle.lisp_nonces.specs.declared.fate.Fate.TheVariants.{Done};
ghost use Rattle.lisp_embedded.specs.Host.{Passes, pair_in};
ghost use Rattle.lisp_embedded.specs.Receiving.{IsOfNoStore, RefusesKept, TakesKept, of_this_call};

use crate::host_store::host_store;
use crate::pair::pair_at_ends;
use lisp_memory::Memory;
use lisp_nonces::{MemoryStore, StoreFault};
use lisp_records::Addr;
use lisp_server::{Refused, Server, Took};
use std::alloc::AllocError;

/// A Map-Server receives a datagram that came from an address at a time, in ms, as `Server::receive`, over a store that
/// keeps what the program passed: `kept`, the nonce that it loaded for the pair that the datagram needs (`pair_needed`), or
/// `None` where it has saved none. Where a Map-Register is accepted the program has to save its nonce for that pair before it
/// sends the answer. Where that fails, it has to start the Map-Server again, as after a crash. The refusals are those of
/// `Server::receive`: `OutOfMemory` may come in place of each, and is told where the store's memory runs out; so `StoreLoad`
/// and `StoreSave` never come.
pub fn receive_kept<A: Memory + Copy>(
    alloc: A,
    server: &mut Server<A>,
    kept: Option<u64>,
    from: Addr,
    bytes: &[u8],
    now: u64,
) -> Result<Took<A>, Refused>
    ensures taken { IfOk result (TakesKept kept from bytes.now server.old server.new now) }
    ensures refused { IfErr result (RefusesKept kept from bytes.now server.old now) }
    ensures err { OnErr result (server.new ≡ server.old) }
    ensures memory { IsErrOf result Refused.OutOfMemory → A.may_refuse }
    ensures storeless { IfErr result IsOfNoStore }
{
    let mut store = store_for(alloc, kept, bytes)?;
    match server.receive(&mut store, from, bytes, now) {
        Ok(took) => Ok(took),
        Err(refused) => Err(of_this_call(refused)),
    }
}

// A refusal of the store of this call: its memory is that of the call.
fn of_this_call(refused: Refused) -> Refused
    ensures { result ≡ of_this_call refused }
{
    match refused {
        Refused::StoreLoad(StoreFault::OutOfMemory) => Refused::OutOfMemory,
        Refused::StoreSave(StoreFault::OutOfMemory) => Refused::OutOfMemory,
        other => other,
    }
}

// A store that keeps what the program passed for a datagram.
fn store_for<A: Memory + Copy>(
    alloc: A,
    kept: Option<u64>,
    bytes: &[u8],
) -> Result<MemoryStore<A>, AllocError>
    ensures keeps { IfOk result (λ store. Passes (pair_in bytes.now) kept (memory_state store)) }
    ensures calm { IfOk result (λ store. store.fate ≡ Done) }
    ensures memory { OnErr result A.may_refuse }
{
    match pair_at_ends(bytes) {
        Some(pair) => host_store(alloc, &pair, kept),
        None => Ok(MemoryStore::new(alloc)),
    }
}
