//! All nonces that the table keeps.

ghost use Rattle.std.specs.Prelude.{◌≡◌, [], string_bytes, All, Some, IfOk, OnOk};
ghost use Rattle.sqlite.specs.declared.types.Value.TheVariants.{Text};
ghost use Rattle.sqlite.specs.Order.{column};
ghost use Rattle.sqlite.specs.State.{HasCleanDisk, IsUnchanged, Shown};
ghost use Rattle.sqlite.specs.Held.{state};
ghost use Rattle.lisp_database.specs.Columns.{TellsPair, TellsNonce, IsTold};
ghost use Rattle.lisp_database.specs.Kept.{HasTables, IsOfNonces, Keeps};
ghost use Rattle.lisp_database.specs.Table.{load_all_text};

use crate::columns::{kind_from_word, site_from_digits, xtr_from_digits};
use crate::table::{DAMAGED, nonce_at};
use lisp_database_store::KeptNonce;
use lisp_memory::FallibleVec;
use lisp_nonces::Pair;
use lisp_records::RouterId;
use sqlite::{Alter, Connection, Error, Row};
use std::alloc::Global;

/// Finds the row of each pair.
const LOAD_ALL: &str = "SELECT kind, site_id, xtr_id, key_id, nonce FROM nonces";

/// All pairs with their nonces. No clause says that none is missing. `DatabaseCorrupt` where a row has another form.
pub fn load_nonces<S: Alter>(connection: &mut Connection<S>) -> Result<Vec<KeptNonce>, Error>
    // Each is kept for its pair.
    ensures kept { IsOfNonces (state S.Store connection.old).now
        → HasCleanDisk (state S.Store connection.new)
        → IfOk result (λ nonces. All (λ kept. Keeps (state S.Store connection.old).now.trees
        kept.pair (Some kept.nonce)) nonces.items) }
    ensures unchanged { HasTables (state S.Store connection.old)
        → HasCleanDisk (state S.Store connection.new)
        → OnOk result (IsUnchanged (state S.Store connection.old) (state S.Store connection.new)) }
{
    let _schema = connection.schema();
    let rows = query_rows(connection)?;
    nonces_in(*rows.allocator(), rows.as_slice())
}

// The rows of all pairs.
fn query_rows<S: Alter>(connection: &mut Connection<S>) -> Result<Vec<Row>, Error>
    ensures { HasCleanDisk (state S.Store connection.new)
        → IfOk result (λ rows. Shown load_all_text [] (state S.Store connection.old)
        (state S.Store connection.new) rows.items) }
{
    connection.query_all(LOAD_ALL, &[])
}

// The nonces of rows.
fn nonces_in(alloc: Global, rows: &[Row]) -> Result<Vec<KeptNonce>, Error>
    ensures { IfOk result (λ nonces. All (IsTold rows.now) nonces.items) }
{
    let mut nonces = Vec::new(alloc);
    for row in rows {
        nonces.try_push(nonce_in(row)?)?;
    }
    Ok(nonces)
}

// The pair and the nonce of a row.
fn nonce_in(row: &Row) -> Result<KeptNonce, Error>
    ensures { IfOk result (TellsNonce row.now) }
{
    Ok(KeptNonce {
        pair: pair_in(row)?,
        nonce: nonce_at(row, 4)?,
    })
}

// The pair of a row.
fn pair_in(row: &Row) -> Result<Pair, Error>
    ensures { IfOk result (TellsPair row.now) }
{
    let (kind, site, xtr) = (text_at(row, 0)?, text_at(row, 1)?, text_at(row, 2)?);
    let key: u32 = row.get(3)?;
    match (
        kind_from_word(kind.as_str()),
        site_from_digits(site.as_str()),
        xtr_from_digits(xtr.as_str()),
        u8::try_from(key),
    ) {
        (Some(kind), Some(site), Some(xtr), Ok(key)) => Ok(Pair {
            kind,
            router: RouterId { site, xtr },
            key,
        }),
        _ => Err(DAMAGED),
    }
}

// The text in a column of a row.
fn text_at(row: &Row, at: usize) -> Result<String, Error>
    ensures { IfOk result (λ text. column row.now at ≡ Text (string_bytes text)) }
{
    row.get(at)
}
