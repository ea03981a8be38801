//! Saves that are committed together.

ghost use Rattle.std.specs.Prelude.{◌≡◌, Ok, IfOk, IfErr, OnOk, OnErr, IsErr, None};
ghost use Rattle.lisp_nonces.specs.declared.fault.StoreFault.{StoreFault};
ghost use Rattle.lisp_database_store.specs.Table.{IsOpen, Finds, LeavesAll, Begins};
ghost use Rattle.lisp_database_store.specs.Groups.{StaysLost, GoesOn, Waits, JoinsGroup, LosesGroup, IsDone};
ghost use Rattle.lisp_database_store.specs.declared.group.Group.{Group};

use crate::database::Database;
use crate::failure::Failure;
use crate::table::SystemTable;
use lisp_nonces::{Pair, StoreFault};
use std::io::ErrorKind;
use std::mem;

/// What becomes of the saves since the last commit.
#[derive(Clone, Copy, PartialEq, Eq)]
enum Group {
    /// There are none.
    Empty,
    /// They wait for the next commit.
    Waiting,
    /// A later call failed, so none of them will be committed.
    Lost,
}

/// A database whose saves wait for a commit. A call that fails by the device, behind a save that was done, loses the group: no call of
/// it succeeds any more, its commit fails, and the next group begins over a file that is opened anew. Where no save was done before it,
/// nothing is lost: the next call opens the file anew.
#[derive(Drop)]
pub struct Groups<T> {
    database: Database<T>,
    group: Group,
}

impl<T: SystemTable> Groups<T> {
    /// No group yet, over a database in which no transaction is open.
    pub fn over(database: Database<T>) -> Groups<T>
        ensures { result ≡ record { database = database; group = Group.Empty } }
    {
        Groups {
            database,
            group: Group::Empty,
        }
    }

    /// The nonce that the pair has with the saves of the group, `None` for nothing. `Damaged` where its row has another form.
    pub fn load(&mut self, pair: &Pair) -> Result<Option<u64>, Failure>
        ensures kept { IfOk result
            (Finds T.Table.means self.old.database.table self.new.database.table pair.now) }
        ensures unchanged { OnOk result
            (LeavesAll T.Table.means self.old.database.table self.new.database.table) }
        ensures lost { self.old.group ≡ Group.Lost → IsErr result }
        ensures stays { StaysLost self.old self.new }
        ensures loses { IfErr result (λ failure. failure.fault ≡ StoreFault.Device
            → LosesGroup self.old self.new) }
        ensures found { OnOk result (self.new.group ≡ self.old.group) }
        ensures goes_on { OnErr result (GoesOn T.Table.means self.old self.new) }
    {
        if self.group == Group::Lost {
            return Err(LOST);
        }
        let answer = self.database.load(pair);
        self.noted(answer)
    }

    /// Makes the save of a nonce part of the group. `Device` whatever failed.
    pub fn save(&mut self, pair: &Pair, nonce: u64) -> Result<(), Failure>
        ensures saved { OnOk result (JoinsGroup T.Table.means self.old self.new pair.now nonce) }
        ensures waits { OnOk result (Waits T.Table.means self.new) }
        ensures lost { self.old.group ≡ Group.Lost → IsErr result }
        ensures loses { OnErr result (LosesGroup self.old self.new) }
        ensures device { IfErr result (λ failure. failure.fault ≡ StoreFault.Device) }
    {
        let saved = self.begun_and_saved(pair, nonce);
        match saved {
            Ok(()) => self.group = Group::Waiting,
            Err(_) => self.lose(),
        }
        saved
    }

    /// Commits the group, and is done once that is synced; asks nothing of the disk where no save waits. `Device` whatever failed, also
    /// an earlier call of the group: the next call opens the file anew then.
    pub fn commit(&mut self) -> Result<(), Failure>
        ensures done { OnOk result (IsDone T.Table.means self.old self.new) }
        ensures lost { self.old.group ≡ Group.Lost → IsErr result }
        ensures anew { OnErr result (self.new.database.table ≡ None) }
        ensures empty { self.new.group ≡ Group.Empty }
        ensures device { IfErr result (λ failure. failure.fault ≡ StoreFault.Device) }
    {
        match mem::replace(&mut self.group, Group::Empty) {
            Group::Empty => Ok(()),
            Group::Waiting => self.database.commit(),
            Group::Lost => {
                self.database.close();
                Err(LOST)
            }
        }
    }

    // Saves a nonce in the transaction of the group, which the first save begins.
    fn begun_and_saved(&mut self, pair: &Pair, nonce: u64) -> Result<(), Failure>
        ensures saved { OnOk result (JoinsGroup T.Table.means self.old self.new pair.now nonce) }
        ensures waits { OnOk result (IsOpen self.new.database.table T.Table.means.is_waiting) }
        ensures lost { self.old.group ≡ Group.Lost → IsErr result }
        ensures same { self.new.group ≡ self.old.group }
        ensures device { IfErr result (λ failure. failure.fault ≡ StoreFault.Device) }
    {
        self.begin()?;
        self.database.save(pair, nonce)?;
        if !self.database.has_transaction() {
            return Err(LOST);
        }
        Ok(())
    }

    // Begins the transaction of the group, if that isn't done.
    fn begin(&mut self) -> Result<(), Failure>
        ensures begun { self.old.group ≡ Group.Empty
            → OnOk result (Begins T.Table.means self.old.database.table self.new.database.table) }
        ensures waited { self.old.group ≡ Group.Waiting → self.new.database ≡ self.old.database }
        ensures lost { self.old.group ≡ Group.Lost → IsErr result }
        ensures same { self.new.group ≡ self.old.group }
        ensures device { IfErr result (λ failure. failure.fault ≡ StoreFault.Device) }
    {
        match self.group {
            Group::Empty => self.database.begin(),
            Group::Waiting => Ok(()),
            Group::Lost => Err(LOST),
        }
    }

    // The answer of a load, which loses the group where the device failed or the transaction was rolled back.
    fn noted(&mut self, answer: Result<Option<u64>, Failure>) -> Result<Option<u64>, Failure>
        ensures same { result ≡ answer }
        ensures unchanged { OnOk result (self.new ≡ self.old) }
        ensures stays { StaysLost self.old self.new }
        ensures loses { IfErr result (λ failure. failure.fault ≡ StoreFault.Device
            → LosesGroup self.old self.new) }
        ensures goes_on { OnErr result (GoesOn T.Table.means self.old self.new) }
    {
        if let Err(failure) = &answer {
            let is_rolled_back = self.group == Group::Waiting && !self.database.has_transaction();
            if failure.fault == StoreFault::Device || is_rolled_back {
                self.lose();
            }
        }
        answer
    }

    // A call failed: the saves that wait are lost, if there are any; else the file is closed.
    fn lose(&mut self)
        ensures { LosesGroup self.old self.new }
    {
        match self.group {
            Group::Empty => self.database.close(),
            Group::Waiting => self.group = Group::Lost,
            Group::Lost => {}
        }
    }
}

/// An earlier call of the group failed.
const LOST: Failure = Failure {
    fault: StoreFault::Device,
    kind: ErrorKind::Other,
};
