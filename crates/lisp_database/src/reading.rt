//! The nonces of a database whose files lie in memory.

ghost use Rattle.std.specs.Prelude.{◌≡◌, [], All, Some, Ok, Err, IsTrue, IfOk};
ghost use Rattle.sqlite.specs.declared.error.Error.TheVariants.{SqliteFailure};
ghost use Rattle.sqlite.specs.declared.error.ErrorCode.TheVariants.{DatabaseCorrupt};
ghost use Rattle.sqlite.specs.State.{HasCleanDisk};
ghost use Rattle.sqlite.specs.Held.{state};
ghost use Rattle.sqlite_disk.specs.Memory.{memory_is_usable};
ghost use Rattle.lisp_database.specs.Kept.{HasTables, HasNothing, IsOfNonces, Keeps};

use crate::nonces::load_nonces;
use crate::schema::{is_new, is_of_nonces};
use crate::table::DAMAGED;
use lisp_database_store::KeptNonce;
use sqlite::{Alter, Connection, Error, Files, Options};
use sqlite_disk::{Disk, Memory};
use std::alloc::Global;
use std::io;

/// For the salts of a log in memory, which nobody else reads.
const SEED: u64 = 0;

/// A disk in memory with these bytes. An error where memory runs out.
pub(crate) fn disk_of(alloc: Global, bytes: &[u8]) -> io::Result<Memory>
    ensures { IfOk result (λ disk. IsTrue (memory_is_usable disk)) }
{
    let mut disk = Memory::new(alloc);
    disk.write_at(0, bytes)?;
    Ok(disk)
}

/// The nonces of the database on two disks, which is opened there: its log is recovered, and each page, the index and the constraints
/// are checked.
pub(crate) fn nonces_on<D: Disk + Drop>(
    alloc: Global,
    files: Files<D>,
) -> Result<Vec<KeptNonce>, Error>
    requires log { IsTrue (D.Disk.is_usable files.log) }
    requires db { IsTrue (D.Disk.is_usable files.db) }
{
    let mut connection = match Connection::open_files(alloc, files, Options::new(SEED)) {
        Ok(connection) => connection,
        Err((error, _)) => return Err(error),
    };
    nonces_of(alloc, &mut connection)
}

// All nonces of a database: none where it has nothing in it. `DatabaseCorrupt` where it has other tables than those of nonces.
fn nonces_of<S: Alter>(
    alloc: Global,
    connection: &mut Connection<S>,
) -> Result<Vec<KeptNonce>, Error>
    ensures kept { IsOfNonces (state S.Store connection.old).now
        → HasCleanDisk (state S.Store connection.new)
        → IfOk result (λ nonces. All (λ kept. Keeps (state S.Store connection.old).now.trees
        kept.pair (Some kept.nonce)) nonces.items) }
    ensures nothing { HasNothing (state S.Store connection.old)
        → IfOk result (λ nonces. nonces.items ≡ []) }
    ensures other { ¬ (HasNothing (state S.Store connection.old))
        → ¬ (HasTables (state S.Store connection.old))
        → result ≡ Err (SqliteFailure DatabaseCorrupt) }
{
    if is_new(connection.schema()) {
        return Ok(Vec::new(alloc));
    }
    if !is_of_nonces(connection.schema()) {
        return Err(DAMAGED);
    }
    load_nonces(connection)
}
