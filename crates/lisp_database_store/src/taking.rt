//! The take-over of nonces that are kept in files.

ghost use Rattle.std.specs.Prelude.{Option, OnOk, IfOk};
ghost use Rattle.lisp_database_store.specs.Table.{TakesAll};
ghost use Rattle.lisp_database_store.specs.TakeOver.{TakesOver};

use crate::database::Database;
use crate::failure::Failure;
use crate::table::SystemTable;
use lisp_store::{KeptNonce, put_aside, read_nonces};
use std::io;
use std::rt::Files;

impl<T: SystemTable> Database<T> {
    /// Takes over the nonces that files of the folder `dir` keep, and answers how many. Each pair has the greater of its two nonces
    /// then. Then the files are named `NAME.nonce.taken`, and the folder is synced.
    ///
    /// All files are read first: where one holds no nonce (`Damaged`) or can't be read (`Device`), nothing is changed. The nonces are
    /// committed in one transaction before the first file is renamed. So a crash at any moment leaves the files whole, or the database
    /// with all that they kept; another take-over goes on from there. Where no file is there, it changes nothing.
    pub fn take_over<R: Files + AllocGlobal + Clone + Drop>(
        &mut self,
        rt: &R,
        dir: &str,
    ) -> Result<usize, Failure>
        ensures { IfOk result (TakesOver T.Table.means self.old self.new) }
    {
        let found = read_nonces(rt, dir)?;
        if found.is_empty() {
            return Ok(0);
        }
        self.keep_all(found.as_slice())?;
        self.replace(rt, dir, found.as_slice())?;
        Ok(found.len())
    }

    // Keeps the greater nonce of each pair, in one transaction.
    fn keep_all(&mut self, found: &[KeptNonce]) -> Result<(), Failure>
        ensures { OnOk result (TakesAll T.Table.means self.old.table self.new.table found.now) }
    {
        self.begin()?;
        for kept in found {
            self.keep_greatest(&kept.pair, kept.nonce)?;
        }
        self.commit()
    }

    // Puts the files aside whose nonces the database keeps now, committed.
    fn replace<R: Files + AllocGlobal>(
        &self,
        rt: &R,
        dir: &str,
        nonces: &[KeptNonce],
    ) -> io::Result<()>
        requires { (old : Option T) × TakesAll T.Table.means old self.now.table nonces.now }
    {
        put_aside(rt, dir, nonces)
    }
}
