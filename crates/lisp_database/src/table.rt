//! The table of nonces in a database.

ghost use Rattle.std.specs.Prelude.{◌≡◌, [], pos, Some, false, IsTrue, IfOk, OnOk, OnErr};
ghost use Rattle.std.specs.Str.{IsUtf8};
ghost use Rattle.sqlite.specs.declared.types.Value.TheVariants.{Int, Text};
ghost use Rattle.sqlite.specs.Order.{column};
ghost use Rattle.sqlite.specs.State.{HasCleanDisk, IsUnchanged, Survives, QueriesRow, CommitsShowing};
ghost use Rattle.sqlite.specs.Values.{bound};
ghost use Rattle.sqlite.specs.Held.{state};
ghost use Rattle.lisp_store.specs.NonceText.{last_digits};
ghost use Rattle.lisp_database.specs.Columns.{key_of};
ghost use Rattle.lisp_database.specs.Kept.{HasTables, IsOfNonces, Keeps, SavesNonce, CommitsSave, ForgetsNonce, CommitsForgetting, LeavesAll, KeepsGreatest, greatest, CountsPairs};
ghost use Rattle.lisp_database.specs.Table.{load_text, count_text, Saves, CommitsNonce, Forgets, CommitsForget, Loads, CommitsLoad, LoadFails, Counts};

use crate::columns::{kind_word, known, nonce_digits, nonce_from_digits, site_digits, xtr_digits};
use lisp_nonces::Pair;
use sqlite::{Alter, Connection, Error, ErrorCode, Row, params};
use sqlite_value::value::ValueRef;

/// Finds the nonce of a pair.
const LOAD: &str =
    "SELECT nonce FROM nonces WHERE xtr_id = ?3 AND site_id = ?2 AND key_id = ?4 AND kind = ?1";

/// Puts the row of a pair in, or in the place of the one that the pair has.
const SAVE: &str =
    "INSERT INTO nonces (kind, site_id, xtr_id, key_id, nonce) VALUES (?1, ?2, ?3, ?4, ?5) ON CONFLICT DO UPDATE SET kind = ?1, site_id = ?2, xtr_id = ?3, key_id = ?4, nonce = ?5";

/// Takes the row of a pair out.
const FORGET: &str =
    "DELETE FROM nonces WHERE xtr_id = ?3 AND site_id = ?2 AND key_id = ?4 AND kind = ?1";

/// Counts the pairs.
const COUNT: &str = "SELECT count(*) FROM nonces";

/// The error for what is no nonce, or no database of nonces.
pub const DAMAGED: Error = Error::SqliteFailure(ErrorCode::DatabaseCorrupt);

/// The nonce that is kept for the pair, `None` for nothing.
pub fn load_nonce<S: Alter>(
    connection: &mut Connection<S>,
    pair: &Pair,
) -> Result<Option<u64>, Error>
    // What is kept for the pair.
    ensures kept { IsOfNonces (state S.Store connection.old).now
        → HasCleanDisk (state S.Store connection.new)
        → IfOk result (Keeps (state S.Store connection.old).now.trees pair.now) }

    // A load changes nothing.
    ensures unchanged { HasTables (state S.Store connection.old)
        → HasCleanDisk (state S.Store connection.new)
        → OnOk result (IsUnchanged (state S.Store connection.old) (state S.Store connection.new)) }
    ensures failed { HasTables (state S.Store connection.old)
        → HasCleanDisk (state S.Store connection.new)
        → OnErr result (LeavesAll (state S.Store connection.old) (state S.Store connection.new)) }
    ensures crash { Survives (state S.Store connection.old) (state S.Store connection.new)
        (λ _. ¬ (HasTables (state S.Store connection.old))) }
{
    let _schema = connection.schema();
    read_nonce(connection, pair)
}

/// Keeps the nonce for the pair, and is done once that is committed. How many rows it wrote: one.
pub fn save_nonce<S: Alter>(
    connection: &mut Connection<S>,
    pair: &Pair,
    nonce: u64,
) -> Result<usize, Error>
    // Of a database of nonces, it is kept, and nothing else changes.
    ensures saved { IsOfNonces (state S.Store connection.old).now
        → HasCleanDisk (state S.Store connection.new)
        → OnOk result (SavesNonce (state S.Store connection.old)
        (state S.Store connection.new) pair.now nonce) }

    // A save that failed leaves all as before, or as the last commit left it.
    ensures failed { HasCleanDisk (state S.Store connection.new)
        → OnErr result (LeavesAll (state S.Store connection.old) (state S.Store connection.new)) }

    // Outside a transaction, a crash leaves what it could leave before, or the database with the nonce; inside one, what it could before.
    ensures crash { Survives (state S.Store connection.old) (state S.Store connection.new)
        (λ db. IsOfNonces (state S.Store connection.old).now
        → CommitsSave (state S.Store connection.old) pair.now nonce db) }
{
    known(*pair);
    write_row(connection, pair, nonce)
}

/// Keeps nothing for the pair from now on, and is done once that is committed. How many rows it took out: one, or none where nothing was
/// kept.
pub fn forget_nonce<S: Alter>(connection: &mut Connection<S>, pair: &Pair) -> Result<usize, Error>
    // Of a database of nonces, nothing is kept for the pair, and nothing else changes.
    ensures forgotten { IsOfNonces (state S.Store connection.old).now
        → HasCleanDisk (state S.Store connection.new)
        → OnOk result (ForgetsNonce (state S.Store connection.old)
        (state S.Store connection.new) pair.now) }

    // One that failed leaves all as before, or as the last commit left it.
    ensures failed { HasCleanDisk (state S.Store connection.new)
        → OnErr result (LeavesAll (state S.Store connection.old) (state S.Store connection.new)) }

    // Outside a transaction, a crash leaves what it could leave before, or the database without the nonce; inside one, what it could before.
    ensures crash { Survives (state S.Store connection.old) (state S.Store connection.new)
        (λ db. IsOfNonces (state S.Store connection.old).now
        → CommitsForgetting (state S.Store connection.old) pair.now db) }
{
    known(*pair);
    remove_row(connection, pair)
}

/// Keeps the nonce for the pair unless a greater one is kept.
pub fn keep_greatest<S: Alter>(
    connection: &mut Connection<S>,
    pair: &Pair,
    nonce: u64,
) -> Result<(), Error>
    ensures greatest { IsOfNonces (state S.Store connection.old).now
        → HasCleanDisk (state S.Store connection.new)
        → OnOk result (KeepsGreatest (state S.Store connection.old)
        (state S.Store connection.new) pair.now nonce) }
    ensures failed { HasTables (state S.Store connection.old)
        → HasCleanDisk (state S.Store connection.new)
        → OnErr result (LeavesAll (state S.Store connection.old) (state S.Store connection.new)) }
    ensures crash { Survives (state S.Store connection.old) (state S.Store connection.new)
        (λ db. IsOfNonces (state S.Store connection.old).now
        → CommitsSave (state S.Store connection.old) pair.now nonce db) }
{
    let kept = load_nonce(connection, pair)?;
    if is_as_great(kept, nonce) {
        return Ok(());
    }
    save_nonce(connection, pair, nonce)?;
    Ok(())
}

// Whether what is kept is as great as the nonce.
fn is_as_great(kept: Option<u64>, nonce: u64) -> bool
    ensures stays { IsTrue result → kept ≡ Some (greatest kept nonce) }
    ensures rises { result ≡ false → greatest kept nonce ≡ nonce }
{
    match kept {
        Some(kept) => nonce <= kept,
        None => false,
    }
}

/// For how many pairs a nonce is kept.
pub fn count_pairs<S: Alter>(connection: &mut Connection<S>) -> Result<usize, Error>
    ensures counted { HasTables (state S.Store connection.old)
        → HasCleanDisk (state S.Store connection.new)
        → IfOk result (CountsPairs (state S.Store connection.old).now.trees) }
    ensures unchanged { HasTables (state S.Store connection.old)
        → HasCleanDisk (state S.Store connection.new)
        → OnOk result (IsUnchanged (state S.Store connection.old) (state S.Store connection.new)) }
{
    read_count(connection)
}

// The count of pairs.
fn read_count<S: Alter>(connection: &mut Connection<S>) -> Result<usize, Error>
    ensures { HasCleanDisk (state S.Store connection.new)
        → IfOk result (Counts (state S.Store connection.old) (state S.Store connection.new)) }
{
    count_in(&query_count(connection)?)
}

// The row with the count of pairs.
fn query_count<S: Alter>(connection: &mut Connection<S>) -> Result<Row, Error>
    ensures { HasCleanDisk (state S.Store connection.new)
        → QueriesRow count_text [] (state S.Store connection.old)
        (state S.Store connection.new) result }
{
    connection.query_row(COUNT, &[])
}

// The count in the first column of a row.
fn count_in(row: &Row) -> Result<usize, Error>
    ensures { IfOk result (λ count. column row.now 0 ≡ Int (pos count)) }
{
    let count: i64 = row.get(0)?;
    usize::try_from(count).map_err(|_| DAMAGED)
}

// The nonce of a pair.
fn read_nonce<S: Alter>(connection: &mut Connection<S>, pair: &Pair) -> Result<Option<u64>, Error>
    ensures loads { HasCleanDisk (state S.Store connection.new)
        → IfOk result (Loads (state S.Store connection.old)
        (state S.Store connection.new) pair.now) }
    ensures fails { HasCleanDisk (state S.Store connection.new)
        → OnErr result (LoadFails (state S.Store connection.old)
        (state S.Store connection.new) pair.now) }
    ensures survives { Survives (state S.Store connection.old) (state S.Store connection.new)
        (CommitsLoad (state S.Store connection.old) pair.now) }
{
    match find_row(connection, pair) {
        Ok(row) => Ok(Some(nonce_at(&row, 0)?)),
        Err(Error::QueryReturnedNoRows) => Ok(None),
        Err(error) => Err(error),
    }
}

// Writes the row of a pair and its nonce.
fn write_row<S: Alter>(
    connection: &mut Connection<S>,
    pair: &Pair,
    nonce: u64,
) -> Result<usize, Error>
    ensures saves { HasCleanDisk (state S.Store connection.new)
        → Saves (state S.Store connection.old)
        (state S.Store connection.new) pair.now nonce result }
    ensures survives { Survives (state S.Store connection.old) (state S.Store connection.new)
        (CommitsNonce (state S.Store connection.old) pair.now nonce) }
{
    let (site, xtr) = (site_digits(pair.router.site), xtr_digits(pair.router.xtr));
    let nonce = nonce_digits(nonce);
    let (kind, key) = (kind_word(pair.kind), u32::from(pair.key));
    connection.execute(
        SAVE,
        params![kind, text(&site), text(&xtr), key, text(&nonce)],
    )
}

// Takes the row of a pair out.
fn remove_row<S: Alter>(connection: &mut Connection<S>, pair: &Pair) -> Result<usize, Error>
    ensures forgets { HasCleanDisk (state S.Store connection.new)
        → Forgets (state S.Store connection.old) (state S.Store connection.new) pair.now result }
    ensures survives { Survives (state S.Store connection.old) (state S.Store connection.new)
        (CommitsForget (state S.Store connection.old) pair.now) }
{
    let (site, xtr) = (site_digits(pair.router.site), xtr_digits(pair.router.xtr));
    let (kind, key) = (kind_word(pair.kind), u32::from(pair.key));
    connection.execute(FORGET, params![kind, text(&site), text(&xtr), key])
}

// The row of a pair.
fn find_row<S: Alter>(connection: &mut Connection<S>, pair: &Pair) -> Result<Row, Error>
    ensures row { HasCleanDisk (state S.Store connection.new)
        → QueriesRow load_text (key_of pair.now) (state S.Store connection.old)
        (state S.Store connection.new) result }
    ensures survives { Survives (state S.Store connection.old) (state S.Store connection.new)
        (CommitsLoad (state S.Store connection.old) pair.now) }
{
    let (site, xtr) = (site_digits(pair.router.site), xtr_digits(pair.router.xtr));
    let (kind, key) = (kind_word(pair.kind), u32::from(pair.key));
    query_row(connection, params![kind, text(&site), text(&xtr), key])
}

// The row with a key.
fn query_row<S: Alter>(connection: &mut Connection<S>, key: &[ValueRef<'_>]) -> Result<Row, Error>
    ensures row { HasCleanDisk (state S.Store connection.new)
        → QueriesRow load_text (bound key.now) (state S.Store connection.old)
        (state S.Store connection.new) result }
    ensures survives { Survives (state S.Store connection.old) (state S.Store connection.new)
        (CommitsShowing load_text (bound key.now) (state S.Store connection.old)) }
{
    connection.query_row(LOAD, key)
}

// The nonce in a column of a row.
pub(crate) fn nonce_at(row: &Row, at: usize) -> Result<u64, Error>
    ensures { IfOk result (λ nonce. column row.now at ≡ Text (last_digits 20 nonce)) }
{
    let digits: String = row.get(at)?;
    match nonce_from_digits(digits.as_str()) {
        Some(nonce) => Ok(nonce),
        None => Err(DAMAGED),
    }
}

// A text that is known to be one.
fn text(bytes: &[u8]) -> &str
    requires { IsUtf8 bytes.now }
    ensures { result.now ≡ bytes.now }
{
    str::from_utf8(bytes).unwrap()
}
