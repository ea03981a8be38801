//! The nonces that a node keeps, raised, so that an old copy of its store can be put back.

ghost use Rattle.std.specs.Prelude.{◌≡◌, IsTrue, OnOk, IsErrOf};
ghost use Rattle.lisp_nonces.specs.declared.fault.StoreFault.{StoreFault};
ghost use Rattle.lisp_nonces.specs.Store.{Proceeds};
ghost use Rattle.lisp_upkeep.specs.Raising.{greatest, raised, KeepsAllRaised, KeepsOrRaises};

use crate::folder::{LockedFolder, find_folder};
use crate::output::print;
use crate::storage::Storage;
use crate::store_lines::{StoreWord, kept_line};
use lisp_database_store::SystemTable;
use lisp_files::Ending;
use lisp_nonces::{LAST_ROUTER_NONCE, NonceStore, PairKind, StoreFault};
use lisp_script::RunFault;
use lisp_store::KeptNonce;
use std::alloc::Global;
use std::cell::Cell;
use std::io::Write;

/// Raises each nonce that a node keeps in the folder `dir`/`name` by `by`, to the greatest of its kind at most, each synced; then prints a
/// line `raised KIND SITE XTR key K nonce N` for each, in the order KIND (`sent`, `received`, `notice`), Site-ID, xTR-ID, key.
///
/// The folder has to be there, and no node may run over it: it is locked meanwhile. A database takes over the nonces of files, as where a
/// node starts.
///
/// Faults, in this order: 93 for the folder, then for the store in it, and where a nonce can't be saved: then some are raised, and the others
/// are as they were; 88 where a line can't be written: then all are raised. 97 is out of memory.
pub fn raise_nonces<T: SystemTable, W: Write>(
    rt: &HostRuntime,
    dir: &str,
    name: &str,
    storage: Storage,
    by: u32,
    writer: &mut W,
) -> Result<(), Ending> {
    let folder = find_folder(rt, dir, name)?;
    let nonces = raise_in::<T>(rt, &folder, storage, by)?;
    for kept in &nonces {
        print_raised(rt.alloc(), &raised(kept, by), writer)?;
    }
    Ok(())
}

// Raises what the node of a folder keeps; what it was, in the order of pairs.
fn raise_in<T: SystemTable>(
    rt: &HostRuntime,
    folder: &LockedFolder,
    storage: Storage,
    by: u32,
) -> Result<Vec<KeptNonce>, Ending> {
    let failure = Cell::new(None);
    let mut store = folder.find_store::<T>(rt, storage, &failure)?;
    let mut nonces = folder.nonces(rt, &mut store)?;
    nonces.sort_unstable_by_key(|kept| kept.pair);
    folder.raise(rt, store, &failure, &nonces, by)?;
    Ok(nonces)
}

/// A nonce that is `by` above one that is kept, or the greatest of its kind, whichever is less: 2^63 - 1 of what a router sends, else
/// 2^64 - 1. One that is above that stays.
fn raised(kept: &KeptNonce, by: u32) -> KeptNonce
    ensures { result ≡ raised by kept.now }
{
    let KeptNonce { pair, nonce } = *kept;
    let higher = nonce.saturating_add(u64::from(by));
    KeptNonce {
        pair,
        nonce: higher.min(greatest(pair.kind)).max(nonce),
    }
}

fn greatest(kind: PairKind) -> u64
    ensures { result ≡ greatest kind }
{
    match kind {
        PairKind::Sent => LAST_ROUTER_NONCE,
        PairKind::Received | PairKind::Notice => u64::MAX,
    }
}

/// Raises each of these nonces in its store, one save after the other. After a fault some are raised, the others are as they were, and of
/// one it may be open which it is.
pub(crate) fn raise<S: NonceStore>(
    store: &mut S,
    nonces: &[KeptNonce],
    by: u32,
) -> Result<(), StoreFault>
    ensures raised { IsTrue (S.seen store.old).is_honest → OnOk result
        (KeepsAllRaised by nonces.now (S.seen store.new).kept) }
    ensures each { IsTrue (S.seen store.old).is_honest →
        KeepsOrRaises by nonces.now (S.seen store.old).kept (S.seen store.new).kept }
    ensures memory { IsErrOf result StoreFault.OutOfMemory → S.may_refuse }
    ensures proceeds { Proceeds (S.seen store.old) (S.seen store.new) }
{
    for kept in nonces {
        store.save(&kept.pair, raised(kept, by).nonce)?;
    }
    Ok(())
}

// Prints the line of a nonce that was raised, which goes out at once. Faults: 88, 97.
fn print_raised<W: Write>(
    alloc: Global,
    raised: &KeptNonce,
    writer: &mut W,
) -> Result<(), RunFault> {
    print(&kept_line(alloc, StoreWord::Raised, raised)?, writer)
}
