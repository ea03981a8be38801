//! The tables of a new database.

ghost use Rattle.std.specs.Prelude.{◌≡◌, false, Err, OnOk};
ghost use Rattle.sqlite.specs.declared.error.Error.TheVariants.{SqliteFailure};
ghost use Rattle.sqlite.specs.declared.error.ErrorCode.TheVariants.{DatabaseCorrupt};
ghost use Rattle.sqlite.specs.State.{HasCleanDisk, Survives};
ghost use Rattle.sqlite.specs.Held.{state};
ghost use Rattle.lisp_database.specs.Kept.{HasTables, HasNothing, AreMade, MakesTables};

use crate::schema::{is_new, is_of_nonces};
use crate::table::DAMAGED;
use sqlite::{Alter, Connection, Error, ErrorCode};

/// Makes the table of nonces.
const CREATE_NONCES: &str =
    "CREATE TABLE nonces (kind TEXT NOT NULL, site_id TEXT NOT NULL, xtr_id TEXT NOT NULL, key_id INTEGER NOT NULL, nonce TEXT NOT NULL, PRIMARY KEY (xtr_id, site_id, key_id, kind)) STRICT";

/// Makes the table of who wrote last.
const CREATE_WRITER: &str =
    "CREATE TABLE writer (machine_id TEXT NOT NULL, boot_id TEXT NOT NULL) STRICT";

/// Makes both tables in one transaction, where the database has nothing in it.
///
/// # Errors
///
/// Of the making; `DatabaseCorrupt` where the database has other tables than these two, or anything beside them.
pub fn make_tables<S: Alter>(connection: &mut Connection<S>) -> Result<(), Error>
    // The two tables are there, and nothing else.
    ensures tables { OnOk result (HasTables (state S.Store connection.new)) }

    // Of a new database, they have no row yet, and are committed.
    ensures made { HasNothing (state S.Store connection.old)
        → HasCleanDisk (state S.Store connection.new)
        → OnOk result (MakesTables (state S.Store connection.new)) }
    ensures crash { Survives (state S.Store connection.old) (state S.Store connection.new)
        (λ db. HasNothing (state S.Store connection.old) → AreMade db) }

    // Of any other, nothing changes.
    ensures same { ¬ (HasNothing (state S.Store connection.old)) → connection.new ≡ connection.old }
    ensures other { ¬ (HasNothing (state S.Store connection.old))
        → ¬ (HasTables (state S.Store connection.old))
        → result ≡ Err (SqliteFailure DatabaseCorrupt) }
    ensures mode { connection.old.in_transaction ≡ false → connection.new.in_transaction ≡ false }
{
    if is_new(connection.schema()) {
        create(connection)?;
    }
    if is_of_nonces(connection.schema()) {
        Ok(())
    } else {
        Err(DAMAGED)
    }
}

// Makes both tables in one transaction.
fn create<S: Alter>(connection: &mut Connection<S>) -> Result<(), Error>
    requires { HasNothing (state S.Store connection.old) }
    ensures made { HasCleanDisk (state S.Store connection.new)
        → OnOk result (MakesTables (state S.Store connection.new)) }
    ensures crash { Survives (state S.Store connection.old) (state S.Store connection.new) AreMade }
    ensures mode { connection.old.in_transaction ≡ false → connection.new.in_transaction ≡ false }
{
    if !connection.is_autocommit() {
        return Err(Error::SqliteFailure(ErrorCode::TransactionState));
    }
    let mut transaction = connection.transaction();
    transaction.execute(CREATE_NONCES, &[])?;
    transaction.execute(CREATE_WRITER, &[])?;
    transaction.commit()
}
