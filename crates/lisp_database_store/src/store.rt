//! A store of a node's nonces in a database.

ghost use Rattle.std.specs.Prelude.{◌≡◌, ◌≢◌, ◌≤◌, ⊤, Ok, Err, IfOk, IfErr, OnOk, IsErrOf};
ghost use Rattle.lisp_nonces.specs.declared.fault.StoreFault.{StoreFault};
ghost use Rattle.lisp_nonces.specs.Promises.{LoadsIfHonest, KeepsListsIfHonest, KeepsOthersIfHonest, SavesIfHonest, DoubtsIfHonest, KeepsTooIfObedient, IsOfDevice, LoadFailsAsArmed};
ghost use Rattle.lisp_nonces.specs.Store.{Proceeds, Rose, MayLoad, MaySave, MayFailSave};
ghost use Rattle.lisp_store.specs.File.{CountsFault};
ghost use Rattle.lisp_database_store.specs.Keeper.{store_over};

use crate::failure::Failure;
use crate::keeper::Keeper;
use lisp_nonces::{Fate, NonceStore, Pair, StoreFault, WorldStore};
use std::cell::Cell;
use std::io::ErrorKind;

/// A store in a database of the system's. Over a `Database`, a save is done once that is synced; over a `SharedDatabase`, it is in
/// doubt until the commit.
///
/// Over an honest keeper it is an honest store; it is called neither quiet nor obedient. No call lowers its count of faults, and one
/// that answers `Device` or `Damaged` raises it, up to 2^64 - 1. It may run out of memory whatever the memory: SQLite doesn't say why
/// it did.
#[derive(Drop)]
pub struct DatabaseStore<'a, K> {
    keeper: K,
    faults: u64,
    // The kind of the last failure.
    failure: &'a Cell<Option<ErrorKind>>,
}

impl<'a, K: Keeper> DatabaseStore<'a, K> {
    /// A store over a database that is open. `failure` holds the kind of the last error from now on.
    pub fn over(keeper: K, failure: &'a Cell<Option<ErrorKind>>) -> DatabaseStore<'a, K>
        ensures { (⟦<Self as NonceStore>⟧.seen result) ≡ store_over (K.seen keeper) 0 }
    {
        DatabaseStore {
            keeper,
            faults: 0,
            failure,
        }
    }
}

impl<K: Keeper> NonceStore for DatabaseStore<'_, K> {
    ghost seen = { λ s. store_over (K.seen s.keeper) s.faults };

    ghost may_refuse = { ⊤ };

    /// `Damaged` where the file holds no database, no table of nonces, or a nonce of another form; `Device` also where an earlier call
    /// since the last commit failed by the device.
    fn load(&mut self, pair: &Pair) -> Result<Option<u64>, StoreFault>
        ensures found { IfOk result (K.finds self.old.keeper self.new.keeper pair.now) }

        // What every store promises.
        ensures member { LoadsIfHonest (⟦<Self as NonceStore>⟧.seen self.old) pair.now result }
        ensures same { KeepsListsIfHonest (⟦<Self as NonceStore>⟧.seen self.old)
            (⟦<Self as NonceStore>⟧.seen self.new) }
        ensures loads { OnOk result (MayLoad (⟦<Self as NonceStore>⟧.seen self.old)) }
        ensures load_fails { IfErr result
            (LoadFailsAsArmed (⟦<Self as NonceStore>⟧.seen self.old)) }
        ensures cause { IfErr result
            (IsOfDevice (⟦<Self as NonceStore>⟧.seen self.old)
            (⟦<Self as NonceStore>⟧.seen self.new)) }
        ensures refused { IsErrOf result StoreFault.OutOfMemory
            → ⟦<Self as NonceStore>⟧.seen self.new ≡ ⟦<Self as NonceStore>⟧.seen self.old }
        ensures proceeds { Proceeds (⟦<Self as NonceStore>⟧.seen self.old)
            (⟦<Self as NonceStore>⟧.seen self.new) }
    {
        let loaded = self.keeper.load_nonce(pair);
        self.counted(loaded)
    }

    /// `Device` whatever failed, also memory, or an earlier call since the last commit.
    fn save(&mut self, pair: &Pair, nonce: u64) -> Result<(), StoreFault>
        ensures saved { OnOk result (K.saves self.old.keeper self.new.keeper pair.now nonce) }

        // What every store promises.
        ensures done { SavesIfHonest (⟦<Self as NonceStore>⟧.seen self.old)
            (⟦<Self as NonceStore>⟧.seen self.new) pair.now nonce result }
        ensures doubt { DoubtsIfHonest (⟦<Self as NonceStore>⟧.seen self.old)
            (⟦<Self as NonceStore>⟧.seen self.new) pair.now nonce result }
        ensures others { KeepsOthersIfHonest (⟦<Self as NonceStore>⟧.seen self.old)
            (⟦<Self as NonceStore>⟧.seen self.new) pair.now }
        ensures saves { OnOk result (MaySave (⟦<Self as NonceStore>⟧.seen self.old)) }
        ensures save_fails { IsErrOf result StoreFault.Device
            → MayFailSave (⟦<Self as NonceStore>⟧.seen self.old) }
        ensures doubted { KeepsTooIfObedient (⟦<Self as NonceStore>⟧.seen self.old)
            (⟦<Self as NonceStore>⟧.seen self.new) pair.now nonce result }
        ensures sound { result ≢ Err StoreFault.Damaged }
        ensures cause { IsErrOf result StoreFault.Device
            → Rose (⟦<Self as NonceStore>⟧.seen self.old) (⟦<Self as NonceStore>⟧.seen self.new) }
        ensures refused { IsErrOf result StoreFault.OutOfMemory
            → ⟦<Self as NonceStore>⟧.seen self.new ≡ ⟦<Self as NonceStore>⟧.seen self.old }
        ensures proceeds { Proceeds (⟦<Self as NonceStore>⟧.seen self.old)
            (⟦<Self as NonceStore>⟧.seen self.new) }
    {
        let saved = self.keeper.save_nonce(pair, nonce);
        self.counted(saved)
    }
}

impl<K: Keeper> WorldStore for DatabaseStore<'_, K> {
    /// Does nothing: what becomes of its calls is the disk's affair.
    fn arm(&mut self, _fate: Fate) {}

    /// Does nothing: the database is what a crash left.
    fn restart(&mut self, _pick: u64) {}

    /// Does nothing: the database is what is left of it.
    fn lose(&mut self) {}
}

impl<K> DatabaseStore<'_, K> {
    // The answer of a call. A fault is counted, unless memory ran out, and the kind of its error is told.
    fn counted<V: Drop>(&mut self, answer: Result<V, Failure>) -> Result<V, StoreFault>
        ensures done { IfOk answer (λ value. result ≡ Ok value) }
        ensures same { IfOk result (λ value. answer ≡ Ok value) }
        ensures fault { IfErr answer (λ failure. result ≡ Err failure.fault) }
        ensures counts { IfErr result (CountsFault self.old.faults self.new.faults) }
        ensures memory { IsErrOf result StoreFault.OutOfMemory → self.new.faults ≡ self.old.faults }
        ensures rises { self.old.faults ≤ self.new.faults }
        ensures keeper { self.new.keeper ≡ self.old.keeper }
    {
        match answer {
            Ok(value) => Ok(value),
            Err(failure) => {
                if failure.fault != StoreFault::OutOfMemory {
                    self.faults = self.faults.saturating_add(1);
                    self.failure.set(Some(failure.kind));
                }
                Err(failure.fault)
            }
        }
    }
}
