//! Saves that one commit keeps together.

ghost use Rattle.std.specs.Prelude.{◌≡◌, OnOk, OnErr};
ghost use Rattle.sqlite.specs.State.{HasCleanDisk, Survives};
ghost use Rattle.sqlite.specs.Held.{state};
ghost use Rattle.lisp_database.specs.Group.{BeginsGroup, CommitsGroup};
ghost use Rattle.lisp_database.specs.Kept.{HasTables, LeavesAll};

use sqlite::{Alter, Connection, Error};

/// Begins a transaction: the saves from here on are kept by the next `commit`, all or none. An error inside a transaction.
pub fn begin<S: Alter>(connection: &mut Connection<S>) -> Result<(), Error>
    ensures begun { HasTables (state S.Store connection.old)
        → HasCleanDisk (state S.Store connection.new)
        → OnOk result (BeginsGroup (state S.Store connection.old) (state S.Store connection.new)) }
    ensures failed { HasCleanDisk (state S.Store connection.new)
        → OnErr result (LeavesAll (state S.Store connection.old) (state S.Store connection.new)) }
    ensures crash { Survives (state S.Store connection.old) (state S.Store connection.new)
        (λ _. ¬ (HasTables (state S.Store connection.old))) }
{
    connection.execute("BEGIN", &[])?;
    Ok(())
}

/// Keeps what was saved since `begin`, with one sync. An error outside a transaction, as behind a failure that ended it.
pub fn commit<S: Alter>(connection: &mut Connection<S>) -> Result<(), Error>
    ensures committed { HasTables (state S.Store connection.old)
        → HasCleanDisk (state S.Store connection.new)
        → OnOk result (CommitsGroup (state S.Store connection.old) (state S.Store connection.new)) }
    ensures failed { HasCleanDisk (state S.Store connection.new)
        → OnErr result (LeavesAll (state S.Store connection.old) (state S.Store connection.new)) }

    // A crash leaves what it could leave before, or all of the group.
    ensures crash { Survives (state S.Store connection.old) (state S.Store connection.new)
        (λ db. HasTables (state S.Store connection.old)
        → db ≡ (state S.Store connection.old).now.trees) }
{
    connection.execute("COMMIT", &[])?;
    Ok(())
}
