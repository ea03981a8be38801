//! The row of who wrote a database last.

ghost use Rattle.std.specs.Prelude.{[], IfOk, OnOk};
ghost use Rattle.sqlite.specs.State.{HasCleanDisk, Survives, Executes, QueriesRow, CommitsBy};
ghost use Rattle.sqlite.specs.Held.{state};
ghost use Rattle.lisp_database.specs.Writer.{load_writer_text, row_of_writer, HasIds, LoadsWriter, SavesWriter};

use lisp_store::Writer;
use sqlite::{Alter, Connection, Error, Row, params};

/// Finds who wrote last.
const LOAD: &str = "SELECT machine_id, boot_id FROM writer";

/// Puts another in the place of who wrote last.
const CHANGE: &str = "UPDATE writer SET machine_id = ?1, boot_id = ?2";

/// Puts the first writer in.
const SAVE: &str = "INSERT INTO writer (machine_id, boot_id) VALUES (?1, ?2)";

/// Who wrote last, `None` for nobody yet.
pub fn load_writer<S: Alter>(connection: &mut Connection<S>) -> Result<Option<Writer>, Error>
    ensures { HasCleanDisk (state S.Store connection.new)
        → IfOk result (LoadsWriter (state S.Store connection.old) (state S.Store connection.new)) }
{
    match find_row(connection) {
        Ok(row) => Ok(Some(writer_in(&row)?)),
        Err(Error::QueryReturnedNoRows) => Ok(None),
        Err(error) => Err(error),
    }
}

/// Keeps who writes from now on, in the place of who wrote before.
pub fn save_writer<S: Alter>(connection: &mut Connection<S>, writer: &Writer) -> Result<(), Error>
    ensures { HasCleanDisk (state S.Store connection.new)
        → OnOk result (SavesWriter S.Store connection.old connection.new writer.now) }
{
    if put(connection, CHANGE, writer)? == 0 {
        put(connection, SAVE, writer)?;
    }
    Ok(())
}

// The row of who wrote last.
fn find_row<S: Alter>(connection: &mut Connection<S>) -> Result<Row, Error>
    ensures { HasCleanDisk (state S.Store connection.new)
        → QueriesRow load_writer_text [] (state S.Store connection.old)
        (state S.Store connection.new) result }
{
    connection.query_row(LOAD, &[])
}

// Runs a statement with the writer's two texts. How many rows it wrote.
fn put<S: Alter>(
    connection: &mut Connection<S>,
    statement: &str,
    writer: &Writer,
) -> Result<usize, Error>
    ensures runs { HasCleanDisk (state S.Store connection.new)
        → Executes statement.now (row_of_writer writer.now) (state S.Store connection.old)
        (state S.Store connection.new) result }
    ensures survives { Survives (state S.Store connection.old) (state S.Store connection.new)
        (CommitsBy statement.now (row_of_writer writer.now) (state S.Store connection.old)) }
{
    connection.execute(
        statement,
        params![writer.machine_id.as_str(), writer.boot_id.as_str()],
    )
}

// The writer in a row.
fn writer_in(row: &Row) -> Result<Writer, Error>
    ensures { IfOk result (HasIds row.now) }
{
    Ok(Writer {
        machine_id: row.get(0)?,
        boot_id: row.get(1)?,
    })
}
