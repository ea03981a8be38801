//! A database of nonces in the system's files.

ghost use Rattle.std.specs.Prelude.{◌≡◌, Some, Ok, IfOk, IfErr, OnOk, OnErr, IsTrue, None};
ghost use Rattle.lisp_nonces.specs.declared.fault.StoreFault.{StoreFault};
ghost use Rattle.lisp_database_store.specs.Keeper.{any_keeper, any_keeper_keeps};
ghost use Rattle.lisp_database_store.specs.Table.{IsOpen, Finds, FindsEach, LeavesAll, Saves, SavesGreatest, Forgets, Begins, Commits};
ghost use Rattle.lisp_database_store.specs.Table.{CountsPairs, FindsWriter, SavesWriter};

use crate::failure::Failure;
use crate::files::Watch;
use crate::keeper::Keeper;
use crate::log_file::refuse_damage;
use crate::new_file::{front_of, is_empty_database, place_empty};
use crate::reopening::Reopening;
use crate::table::SystemTable;
use lisp_memory::FallibleString;
use lisp_nonces::{Pair, StoreFault};
use lisp_store::{KeptNonce, Writer};
use std::io::{self, ErrorKind};
use std::time::Instant;

/// A database of one row for each pair, in a file of the system's, which `sqlite3 -readonly` reads while the node doesn't run. The log
/// beside the file, named with `-wal` added, is part of it. After a call that failed by the device the next one opens the file again, since
/// it is in doubt what the disk has.
///
/// That the disk returns what was synced, and that nobody else writes the two files, is a premise. Where somebody removes, renames,
/// replaces or cuts one of them, each call that writes fails by the device, and none opens another file in its place. Where the disk stays
/// full, or fails otherwise, the file is opened again once in a second at most, and for a twentieth of the time.
#[derive(Drop)]
pub struct Database<T> {
    rt: HostRuntime,
    path: String,
    // None after a call that failed by the device.
    table: Option<T>,
    watch: Watch,
    reopening: Reopening,
    // The kind of the last failure by the device.
    failed: ErrorKind,
}

impl<T: SystemTable> Database<T> {
    /// Opens the database at `path`, or makes it, with the `application_id` of these databases, "LISP", and the `user_version` 1.
    /// `Device` where the file or its log can't be opened, read or written, `Damaged` where it holds no database of nonces, or its log is
    /// damaged, or gone: then the kind is `NotFound`.
    ///
    /// From then on the file has the tables. So it isn't an empty database, which alone may be without a log, before it keeps a nonce.
    pub fn open(rt: &HostRuntime, path: &str) -> Result<Database<T>, Failure>
        ensures tables { IfOk result (λ database. IsOpen database.table T.Table.means.has_tables) }
    {
        place_empty(rt, path)?;
        let front = front_of(rt, path)?;
        refuse_damage(rt, path, &front)?;
        if is_empty_database(&front) {
            move_tables::<T>(rt, path)?;
        }
        let table = open_table(rt, path)?;
        Ok(Database {
            rt: rt.clone()?,
            path: String::try_from_str(rt.alloc(), path)?,
            table: Some(table),
            watch: Watch::over(rt, path)?,
            reopening: Reopening::new(),
            failed: ErrorKind::Other,
        })
    }

    /// The nonce that is kept for the pair, `None` for nothing. `Damaged` where its row has another form.
    pub fn load(&mut self, pair: &Pair) -> Result<Option<u64>, Failure>
        ensures kept { IfOk result (Finds T.Table.means self.old.table self.new.table pair.now) }
        ensures unchanged { OnOk result (LeavesAll T.Table.means self.old.table self.new.table) }
        ensures anew { IfErr result (λ failure. failure.fault ≡ StoreFault.Device
            → self.new.table ≡ None) }
    {
        let mut table = self.opened()?;
        let answer = table.load(pair);
        self.answered(table, answer)
    }

    /// Keeps the nonce for the pair, and is done once that is committed, outside a transaction. `Device` whatever failed.
    pub fn save(&mut self, pair: &Pair, nonce: u64) -> Result<(), Failure>
        ensures saved { OnOk result
            (Saves T.Table.means self.old.table self.new.table pair.now nonce) }
        ensures device { IfErr result (λ failure. failure.fault ≡ StoreFault.Device) }
        ensures anew { OnErr result (self.new.table ≡ None) }
    {
        let mut table = self.opened_to_write()?;
        let answer = table.save(pair, nonce);
        self.written(table, answer)
    }

    /// Keeps nothing for the pair from now on, and is done once that is committed, outside a transaction. `Device` whatever failed.
    pub fn forget(&mut self, pair: &Pair) -> Result<(), Failure>
        ensures forgotten { OnOk result
            (Forgets T.Table.means self.old.table self.new.table pair.now) }
        ensures device { IfErr result (λ failure. failure.fault ≡ StoreFault.Device) }
        ensures anew { OnErr result (self.new.table ≡ None) }
    {
        let mut table = self.opened_to_write()?;
        let answer = table.forget(pair);
        self.written(table, answer)
    }

    /// All pairs with their nonces. `Damaged` where a row has another form. No clause says that none is missing.
    pub fn nonces(&mut self) -> Result<Vec<KeptNonce>, Failure>
        ensures kept { IfOk result (λ nonces.
            FindsEach T.Table.means self.old.table self.new.table nonces.items) }
        ensures unchanged { OnOk result (LeavesAll T.Table.means self.old.table self.new.table) }
        ensures anew { IfErr result (λ failure. failure.fault ≡ StoreFault.Device
            → self.new.table ≡ None) }
    {
        let mut table = self.opened()?;
        let answer = table.nonces();
        self.answered(table, answer)
    }

    /// How many pairs it keeps nonces for.
    pub fn pairs(&mut self) -> Result<usize, Failure>
        ensures counted { IfOk result (CountsPairs T.Table.means self.old.table self.new.table) }
        ensures unchanged { OnOk result (LeavesAll T.Table.means self.old.table self.new.table) }
        ensures anew { IfErr result (λ failure. failure.fault ≡ StoreFault.Device
            → self.new.table ≡ None) }
    {
        let mut table = self.opened()?;
        let answer = table.count_pairs();
        self.answered(table, answer)
    }

    /// Keeps the nonce for the pair, unless it has a greater one. `Device` whatever failed.
    pub(crate) fn keep_greatest(&mut self, pair: &Pair, nonce: u64) -> Result<(), Failure>
        ensures greatest { OnOk result
            (SavesGreatest T.Table.means self.old.table self.new.table pair.now nonce) }
        ensures device { IfErr result (λ failure. failure.fault ≡ StoreFault.Device) }
        ensures anew { OnErr result (self.new.table ≡ None) }
    {
        let mut table = self.opened_to_write()?;
        let answer = table.keep_greatest(pair, nonce);
        self.written(table, answer)
    }

    /// Who wrote last, `None` for nobody.
    pub(crate) fn load_writer(&mut self) -> Result<Option<Writer>, Failure>
        ensures found { IfOk result (FindsWriter T.Table.means self.old.table self.new.table) }
        ensures anew { IfErr result (λ failure. failure.fault ≡ StoreFault.Device
            → self.new.table ≡ None) }
    {
        let mut table = self.opened()?;
        let answer = table.load_writer();
        self.answered(table, answer)
    }

    /// Keeps who wrote last. `Device` whatever failed.
    pub(crate) fn save_writer(&mut self, writer: &Writer) -> Result<(), Failure>
        ensures saved { OnOk result
            (SavesWriter T.Table.means self.old.table self.new.table writer.now) }
        ensures device { IfErr result (λ failure. failure.fault ≡ StoreFault.Device) }
        ensures anew { OnErr result (self.new.table ≡ None) }
    {
        let mut table = self.opened_to_write()?;
        let answer = table.save_writer(writer);
        self.written(table, answer)
    }

    /// Begins a transaction: saves wait for `commit`. `Device` whatever failed, also where one is open already.
    pub(crate) fn begin(&mut self) -> Result<(), Failure>
        ensures begun { OnOk result (Begins T.Table.means self.old.table self.new.table) }
        ensures device { IfErr result (λ failure. failure.fault ≡ StoreFault.Device) }
        ensures anew { OnErr result (self.new.table ≡ None) }
    {
        let mut table = self.opened_to_write()?;
        let answer = table.begin();
        self.written(table, answer)
    }

    /// Commits the transaction, and is done once that is synced. `Device` whatever failed, also where none is open.
    pub(crate) fn commit(&mut self) -> Result<(), Failure>
        ensures committed { OnOk result (Commits T.Table.means self.old.table self.new.table) }
        ensures settled { OnOk result (IsOpen self.new.table T.Table.means.is_committed) }
        ensures device { IfErr result (λ failure. failure.fault ≡ StoreFault.Device) }
        ensures anew { OnErr result (self.new.table ≡ None) }
    {
        let mut table = self.opened_to_write()?;
        let answer = commit_all(&mut table);
        self.written(table, answer)
    }

    /// Whether a transaction is open. One is rolled back by a call that fails for memory or by the device.
    pub(crate) fn has_transaction(&self) -> bool
        ensures { IsTrue result → IsOpen self.now.table T.Table.means.is_waiting }
    {
        match &self.table {
            Some(table) => table.has_transaction(),
            None => false,
        }
    }

    /// Closes the files, so that the next call opens them anew. A transaction that is open is dropped.
    pub(crate) fn close(&mut self)
        ensures { self.new.table ≡ None }
    {
        self.table = None;
    }

    // The database, which is opened where it isn't open. `Device` where it was opened just now, and failed.
    fn opened(&mut self) -> Result<T, Failure>
        ensures same { (c : _) → self.old.table ≡ Some c → result ≡ Ok c }
        ensures taken { self.new.table ≡ None }
        ensures tables { self.old.table ≡ None → IfOk result T.Table.means.has_tables }
    {
        if let Some(table) = self.table.take() {
            return Ok(table);
        }
        if self.reopening.is_recent(&self.rt) {
            return Err(Failure::of_device(self.failed));
        }
        self.opened_again()
    }

    // The database, opened again: the same files as before.
    fn opened_again(&mut self) -> Result<T, Failure>
        ensures same { self.new.table ≡ self.old.table }
        ensures tables { IfOk result T.Table.means.has_tables }
    {
        self.watch.refuse_others(&self.rt, self.path.as_str())?;
        let begin = Instant::now(&self.rt)?;
        let table = open_table(&self.rt, self.path.as_str());
        self.reopening.note(&self.rt, begin);
        let table = table?;
        self.watch.note(&self.rt, self.path.as_str())?;
        Ok(table)
    }

    // The same, for a call that writes: nobody changed the files since the last one that wrote.
    fn opened_to_write(&mut self) -> Result<T, Failure>
        ensures same { (c : _) → self.old.table ≡ Some c → IfOk result (λ table. table ≡ c) }
        ensures taken { self.new.table ≡ None }
        ensures tables { self.old.table ≡ None → IfOk result T.Table.means.has_tables }
        ensures device { IfErr result (λ failure. failure.fault ≡ StoreFault.Device) }
    {
        let seen = self.see_unchanged();
        match self.opened() {
            Ok(table) => match seen {
                Ok(()) => Ok(table),
                Err(error) => Err(Failure::of_device(error.kind())),
            },
            Err(failure) => Err(Failure::of_device(failure.kind)),
        }
    }

    // Sees that nobody changed the files of a database that is open.
    fn see_unchanged(&mut self) -> io::Result<()>
        ensures { self.new.table ≡ self.old.table }
    {
        if self.table.is_none() {
            return Ok(());
        }
        self.watch.refuse_changed(&self.rt, self.path.as_str())
    }

    // The answer of a call that reads; the database stays open unless its device failed.
    fn answered<V: Drop>(&mut self, table: T, answer: Result<V, Failure>) -> Result<V, Failure>
        ensures same { result ≡ answer }
        ensures open { OnOk result (self.new.table ≡ Some table) }
        ensures anew { IfErr result (λ failure. failure.fault ≡ StoreFault.Device
            → self.new.table ≡ self.old.table) }
    {
        match &answer {
            Err(failure) if failure.fault == StoreFault::Device => self.failed = failure.kind,
            _ => self.table = Some(table),
        }
        answer
    }

    // The answer of a call that writes; the database stays open if that was done, in the files that lie at their names.
    fn written<V: Drop>(&mut self, table: T, answer: Result<V, Failure>) -> Result<(), Failure>
        ensures ok { OnOk result ((value : _) × (answer ≡ Ok value)
            × (self.new.table ≡ Some table)) }
        ensures anew { OnErr result (self.new.table ≡ self.old.table) }
        ensures device { IfErr result (λ failure. failure.fault ≡ StoreFault.Device) }
    {
        match answer {
            Ok(_) => {
                self.note_written()?;
                self.table = Some(table);
                Ok(())
            }
            Err(failure) => {
                self.failed = failure.kind;
                Err(Failure::of_device(failure.kind))
            }
        }
    }

    // Notes how the files are left that were written.
    fn note_written(&mut self) -> Result<(), Failure>
        ensures same { self.new.table ≡ self.old.table }
        ensures device { IfErr result (λ failure. failure.fault ≡ StoreFault.Device) }
    {
        match self.watch.note(&self.rt, self.path.as_str()) {
            Ok(()) => Ok(()),
            Err(error) => Err(Failure::of_device(error.kind())),
        }
    }
}

/// That the disk returns what was synced is a premise, so nothing is said of what it keeps.
impl<T: SystemTable> Keeper for Database<T> {
    ghost seen = { λ _. any_keeper };

    ghost finds = { λ old new. Finds T.Table.means old.table new.table };

    ghost saves = { λ old new. Saves T.Table.means old.table new.table };

    fn load_nonce(&mut self, pair: &Pair) -> Result<Option<u64>, Failure> {
        self.load(pair)
    }

    fn save_nonce(&mut self, pair: &Pair, nonce: u64) -> Result<(), Failure> {
        self.save(pair, nonce)
    }

    ghost has_values = { λ _. any_keeper_keeps };
}

// Opens the file at `path`, and makes the tables where it has none.
fn open_table<T: SystemTable>(rt: &HostRuntime, path: &str) -> Result<T, Failure>
    ensures { IfOk result T.Table.means.has_tables }
{
    let mut table = T::open(rt, path)?;
    table.make_tables()?;
    Ok(table)
}

// Makes the tables in an empty database, where its log doesn't have them, and moves them into the file.
fn move_tables<T: SystemTable>(rt: &HostRuntime, path: &str) -> Result<(), Failure> {
    let table: T = open_table(rt, path)?;
    table.close()
}

// Commits the transaction of a table, after which none is open.
fn commit_all<T: SystemTable>(table: &mut T) -> Result<(), Failure>
    ensures committed { T.Table.means.has_tables table.old → T.Table.means.has_clean_disk table.new
        → OnOk result (T.Table.means.commits_group table.old table.new) }
    ensures settled { OnOk result (T.Table.means.is_committed table.new) }
{
    match table.commit() {
        Ok(()) if !table.has_transaction() => Ok(()),
        Ok(()) => Err(Failure::of_device(ErrorKind::Other)),
        Err(failure) => Err(failure),
    }
}
