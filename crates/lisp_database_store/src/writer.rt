//! Who wrote a database last.

ghost use Rattle.std.specs.Prelude.{IfOk};
ghost use Rattle.lisp_store.specs.declared.writer.Writer.{Writer};
ghost use Rattle.lisp_database_store.specs.Signing.{Signs};

use crate::database::Database;
use crate::failure::Failure;
use crate::table::SystemTable;
use lisp_store::{Change, Writer};
use std::rt::Files;

impl<T: SystemTable> Database<T> {
    /// Compares the machine and its start with those of the last writer, and keeps the new ones where they differ. What can't be read
    /// now, or couldn't be then, is no change. Takes memory. `Device` whatever failed as they are kept.
    pub fn sign<R: Files + AllocGlobal>(&mut self, rt: &R) -> Result<Change, Failure>
        ensures { IfOk result (λ change. (now : Writer)
            × Signs T.Table.means self.old.table self.new.table now change) }
    {
        let now = Writer::of_this_start(rt)?;
        self.sign_as(now)
    }

    // As `sign`, for a machine and its start.
    fn sign_as(&mut self, now: Writer) -> Result<Change, Failure>
        ensures { IfOk result (Signs T.Table.means self.old.table self.new.table now) }
    {
        let Some(last) = self.load_writer()? else {
            self.save_writer(&now)?;
            return Ok(Change {
                machine: false,
                boot: false,
            });
        };
        let change = Change::between(&last, &now);
        if now.is_news(&last) {
            self.save_writer(&now.joined(last))?;
        }
        Ok(change)
    }
}
