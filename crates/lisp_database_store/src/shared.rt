//! A database that a node's store and the loop around it share.

ghost use Rattle.std.specs.Prelude.{◌≡◌, Option, IfOk, IfErr, OnOk, IsTrue};
ghost use Rattle.lisp_nonces.specs.declared.fault.StoreFault.{StoreFault};
ghost use Rattle.lisp_database_store.specs.Groups.{JoinsGroup, SomeIsDone};
ghost use Rattle.lisp_database_store.specs.Keeper.{any_keeper, any_keeper_keeps, shared_store};
ghost use Rattle.lisp_database_store.specs.Table.{Finds};
ghost use Rattle.lisp_database_store.specs.declared.group.Groups.{Groups};

use crate::database::Database;
use crate::failure::Failure;
use crate::group::Groups;
use crate::keeper::Keeper;
use crate::store::DatabaseStore;
use crate::table::SystemTable;
use lisp_nonces::{NonceStore, Pair, StoreFault};
use std::cell::{Cell, RefCell};
use std::io::ErrorKind;

/// A database whose saves, made by its `store`, wait for `commit`. No contract sees what is in a cell, so each says that a database
/// answered so, but not which.
#[derive(Drop)]
pub struct SharedDatabase<'a, T> {
    groups: RefCell<Groups<T>>,
    // The kind of the last failure.
    failure: &'a Cell<Option<ErrorKind>>,
}

impl<'a, T: SystemTable> SharedDatabase<'a, T> {
    /// Over a database that is open. `failure` holds the kind of the last error from now on.
    pub fn over(
        database: Database<T>,
        failure: &'a Cell<Option<ErrorKind>>,
    ) -> SharedDatabase<'a, T> {
        SharedDatabase {
            groups: RefCell::new(Groups::over(database)),
            failure,
        }
    }

    /// A store in it.
    pub fn store(&'a self) -> DatabaseStore<'a, &'a SharedDatabase<'a, T>>
        ensures { (⟦<DatabaseStore<'a, &'a SharedDatabase<'a, T>> as NonceStore>⟧.seen result)
            ≡ shared_store }
    {
        DatabaseStore::over(self, self.failure)
    }

    /// Commits what was saved since the last commit: whether all of it is kept now, synced. Asks nothing of the disk where nothing
    /// was saved. Where it isn't kept, what the disk has is in doubt, so the next call opens the file anew.
    pub fn commit(&self) -> bool
        ensures { IsTrue result → SomeIsDone T.Table.means }
    {
        let committed = match self.groups.try_borrow_mut() {
            Ok(mut groups) => groups.commit(),
            Err(_) => Err(IN_USE),
        };
        if let Err(failure) = &committed {
            self.failure.set(Some(failure.kind));
        }
        committed.is_ok()
    }

    /// As `Groups::load`.
    pub(crate) fn load(&self, pair: &Pair) -> Result<Option<u64>, Failure>
        ensures found { IfOk result (λ nonce. (old new : Option T)
            × Finds T.Table.means old new pair.now nonce) }
    {
        match self.groups.try_borrow_mut() {
            Ok(mut groups) => groups.load(pair),
            Err(_) => Err(IN_USE),
        }
    }

    /// As `Groups::save`.
    pub(crate) fn save(&self, pair: &Pair, nonce: u64) -> Result<(), Failure>
        ensures saved { OnOk result ((old new : Groups T)
            × JoinsGroup T.Table.means old new pair.now nonce) }
        ensures device { IfErr result (λ failure. failure.fault ≡ StoreFault.Device) }
    {
        match self.groups.try_borrow_mut() {
            Ok(mut groups) => groups.save(pair, nonce),
            Err(_) => Err(IN_USE),
        }
    }
}

/// As for a `Database`, nothing is said of what it keeps.
impl<T: SystemTable> Keeper for &SharedDatabase<'_, T> {
    ghost seen = { λ _. any_keeper };

    ghost finds = { λ _ _ pair nonce. (old new : Option T) × Finds T.Table.means old new pair nonce };

    ghost saves = { λ _ _ pair nonce. (old new : Groups T) × JoinsGroup T.Table.means old new pair nonce };

    fn load_nonce(&mut self, pair: &Pair) -> Result<Option<u64>, Failure> {
        self.load(pair)
    }

    fn save_nonce(&mut self, pair: &Pair, nonce: u64) -> Result<(), Failure> {
        self.save(pair, nonce)
    }

    ghost has_values = { λ _. any_keeper_keeps };
}

/// A call under way has the database, which no caller makes happen.
const IN_USE: Failure = Failure {
    fault: StoreFault::Device,
    kind: ErrorKind::ResourceBusy,
};
