//! Databases that are open.

ghost use Rattle.std.specs.Prelude.{◌≡◌, false, Some, All, IsTrue, IfOk, OnOk};
ghost use Rattle.lisp_database_store.specs.Meaning.{Meaning};

use crate::failure::Failure;
use lisp_nonces::Pair;
use lisp_store::{KeptNonce, Writer};
use std::alloc::Global;

/// A database that is open, for nonces. What its calls come to is told in words whose meaning is the table's own: that of an SQLite
/// database is a definition of `lisp_database`.
pub trait Table: Drop {
    ghost means: { Meaning Self };

    /// Makes the tables, where the database has nothing in it. `Damaged` where it has others.
    fn make_tables(&mut self) -> Result<(), Failure>
        ensures { OnOk result (Self.means.has_tables self.new) };

    /// The nonce that is kept for the pair, `None` for nothing. `Damaged` where its row has another form.
    fn load(&mut self, pair: &Pair) -> Result<Option<u64>, Failure>
        ensures kept { Self.means.is_of_nonces self.old → Self.means.has_clean_disk self.new
            → IfOk result (Self.means.keeps self.old pair.now) }
        ensures unchanged { Self.means.has_tables self.old → Self.means.has_clean_disk self.new
            → OnOk result (Self.means.is_unchanged self.old self.new) };

    /// Keeps the nonce for the pair, and is done once that is committed, outside a transaction.
    fn save(&mut self, pair: &Pair, nonce: u64) -> Result<(), Failure>
        ensures { Self.means.is_of_nonces self.old → Self.means.has_clean_disk self.new
            → OnOk result (Self.means.saves_nonce self.old self.new pair.now nonce) };

    /// Keeps nothing for the pair from now on, and is done once that is committed, outside a transaction. Done too where nothing was kept.
    fn forget(&mut self, pair: &Pair) -> Result<(), Failure>
        ensures { Self.means.is_of_nonces self.old → Self.means.has_clean_disk self.new
            → OnOk result (Self.means.forgets self.old self.new pair.now) };

    /// All pairs with their nonces. `Damaged` where a row has another form. No clause says that none is missing.
    fn nonces(&mut self) -> Result<Vec<KeptNonce>, Failure>
        ensures kept { Self.means.is_of_nonces self.old → Self.means.has_clean_disk self.new
            → IfOk result (λ nonces. All (λ kept. Self.means.keeps self.old kept.pair
            (Some kept.nonce)) nonces.items) }
        ensures unchanged { Self.means.has_tables self.old → Self.means.has_clean_disk self.new
            → OnOk result (Self.means.is_unchanged self.old self.new) };

    /// Keeps the nonce for the pair, unless it has a greater one.
    fn keep_greatest(&mut self, pair: &Pair, nonce: u64) -> Result<(), Failure>
        ensures { Self.means.is_of_nonces self.old → Self.means.has_clean_disk self.new
            → OnOk result (Self.means.keeps_greatest self.old self.new pair.now nonce) };

    /// Begins a transaction.
    fn begin(&mut self) -> Result<(), Failure>
        ensures { Self.means.has_tables self.old → Self.means.has_clean_disk self.new
            → OnOk result (Self.means.begins_group self.old self.new) };

    /// Commits the transaction, and is done once that is synced.
    fn commit(&mut self) -> Result<(), Failure>
        ensures { Self.means.has_tables self.old → Self.means.has_clean_disk self.new
            → OnOk result (Self.means.commits_group self.old self.new) };

    /// Whether a transaction is open.
    fn has_transaction(&self) -> bool
        ensures waits { IsTrue result → Self.means.is_waiting self.now }
        ensures settled { result ≡ false → Self.means.is_committed self.now };

    /// For how many pairs a nonce is kept.
    fn count_pairs(&mut self) -> Result<usize, Failure>
        ensures counted { Self.means.has_tables self.old → Self.means.has_clean_disk self.new
            → IfOk result (Self.means.counts_pairs self.old) }
        ensures unchanged { Self.means.has_tables self.old → Self.means.has_clean_disk self.new
            → OnOk result (Self.means.is_unchanged self.old self.new) };

    /// Who wrote last, `None` for nobody yet.
    fn load_writer(&mut self) -> Result<Option<Writer>, Failure>
        ensures { Self.means.has_clean_disk self.new
            → IfOk result (Self.means.finds_writer self.old self.new) };

    /// Keeps who writes from now on.
    fn save_writer(&mut self, writer: &Writer) -> Result<(), Failure>
        ensures { Self.means.has_clean_disk self.new
            → OnOk result (Self.means.saves_writer self.old self.new writer.now) };
}

/// A database in a file of the system's.
pub trait SystemTable: Table {
    /// Opens the database at `path`, or an empty one where nothing is there. `Device` where what is there can't be opened, `Damaged`
    /// where it is no database.
    fn open(rt: &HostRuntime, path: &str) -> Result<Self, Failure>;

    /// The nonces of a database whose file and log have these bytes, as an open would find them; none where it has nothing in it.
    /// `Damaged` where they are no database of nonces, or a damaged one.
    fn read(alloc: Global, file: &[u8], log: &[u8]) -> Result<Vec<KeptNonce>, Failure>;

    /// Moves what its log has into the file, syncs both, and closes them. `Device` where that fails, `Damaged` where the log is found
    /// damaged.
    fn close(self) -> Result<(), Failure>;
}
