//! Whether a database is one of nonces.

ghost use Rattle.std.specs.Prelude.{◌≡◌, ◌↔◌, [], None, codes, IsTrue, false};
ghost use Rattle.lisp_database.specs.Schema.{column_of, no_stamps, nonces, writer, nonces_index, nonces_schema, no_schema, key_places, IsPlain};

use sqlite_schema::code::Terms;
use sqlite_schema::schema::{Column, Index, Kind, Schema, Stamps, Table};
use sqlite_value::keys::{Collation, Order};
use sqlite_value::value::{Bytes, Value};

/// The places of xTR-ID, Site-ID, Key ID and kind in a row of the table of nonces.
const KEY: [usize; 4] = [3, 2, 4, 1];

/// The order of an index that ascends by the bytes of its columns.
const PLAIN: Order = Order { digits: 0 };

/// Whether the database has the table of nonces with its index, the table of who wrote last, and nothing else.
pub fn is_of_nonces(schema: &Schema) -> bool
    ensures { IsTrue result ↔ (schema.now ≡ nonces_schema) }
{
    match (schema.tables.as_slice(), schema.indexes.as_slice()) {
        ([nonces, writer], [index]) => is_nonces(nonces)
            && is_writer(writer)
            && is_index(index)
            && schema.views.is_empty(),
        _ => false,
    }
}

/// Whether the database has nothing in it.
pub fn is_new(schema: &Schema) -> bool
    ensures { IsTrue result ↔ (schema.now ≡ no_schema) }
{
    schema.tables.is_empty() && schema.indexes.is_empty() && schema.views.is_empty()
}

// The table of nonces.
fn is_nonces(table: &Table) -> bool
    ensures { IsTrue result ↔ (table.now ≡ nonces) }
{
    has_name(&table.name, "nonces")
        && table.tree == 0
        && are_columns(table.columns.as_slice())
        && is_keyed(table)
        && is_plain(table)
}

// The columns of the table of nonces.
fn are_columns(columns: &[Column]) -> bool
    ensures { IsTrue result ↔ (columns.now ≡ nonces.columns) }
{
    match columns {
        [kind, site, xtr, key, nonce] => is_column(kind, "kind", Kind::Text)
            && is_column(site, "site_id", Kind::Text)
            && is_column(xtr, "xtr_id", Kind::Text)
            && is_column(key, "key_id", Kind::Integer)
            && is_column(nonce, "nonce", Kind::Text),
        _ => false,
    }
}

// The primary key of the table is what a pair gives, and nothing else is unique.
fn is_keyed(table: &Table) -> bool
    ensures { IsTrue result
        ↔ ((table.now.primary ≡ nonces.primary) × (table.now.uniques ≡ nonces.uniques)
        × (table.now.orders ≡ nonces.orders)) }
{
    match (table.uniques.as_slice(), table.orders.as_slice()) {
        ([unique], [order]) => is_key(table.primary.as_slice())
            && is_key(unique.as_slice())
            && *order == PLAIN,
        _ => false,
    }
}

// The places are those of the primary key, in its order.
fn is_key(places: &[usize]) -> bool
    ensures { IsTrue result ↔ (places.now ≡ key_places) }
{
    places == KEY.as_slice()
}

// The table of who wrote last.
fn is_writer(table: &Table) -> bool
    ensures { IsTrue result ↔ (table.now ≡ writer) }
{
    match table.columns.as_slice() {
        [machine, boot] => has_name(&table.name, "writer")
            && table.tree == 2
            && is_column(machine, "machine_id", Kind::Text)
            && is_column(boot, "boot_id", Kind::Text)
            && table.primary.is_empty()
            && table.uniques.is_empty()
            && table.orders.is_empty()
            && is_plain(table),
        _ => false,
    }
}

// The index that SQLite makes for the primary key of the table of nonces.
fn is_index(index: &Index) -> bool
    ensures { IsTrue result ↔ (index.now ≡ nonces_index) }
{
    has_name(&index.name, "sqlite_autoindex_nonces_1")
        && index.tree == 1
        && index.table == 0
        && is_key(index.columns.as_slice())
        && index.order == PLAIN
        && index.is_unique
}

// A column of this name and type in a STRICT table, never NULL.
fn is_column(column: &Column, name: &str, kind: Kind) -> bool
    ensures { IsTrue result ↔ (column.now ≡ column_of name.now kind) }
{
    has_name(&column.name, name)
        && column.kind == kind
        && column.is_strict
        && column.not_null
        && matches!(column.default, Value::Null)
        && column.collation == Collation::Binary
}

// The table has no integer key, checks nothing, refers to nothing and computes nothing.
fn is_plain(table: &Table) -> bool
    ensures { IsTrue result ↔ IsPlain table.now }
{
    table.key.is_none()
        && is_empty(&table.checks)
        && table.references.is_empty()
        && table.computed.is_empty()
        && is_unstamped(&table.stamps)
        && !table.is_counted
}

// No column's default reads the time.
fn is_unstamped(stamps: &Stamps) -> bool
    ensures { IsTrue result ↔ (stamps.now ≡ no_stamps) }
{
    stamps.places.is_empty() && is_empty(&stamps.terms) && stamps.formats.is_empty()
}

// No terms.
fn is_empty(terms: &Terms) -> bool
    ensures { IsTrue result ↔ (terms.now ≡ []) }
{
    terms.roots.is_empty()
}

// A name.
fn has_name(name: &Bytes, word: &str) -> bool
    ensures { IsTrue result ↔ (name.now ≡ word.now) }
{
    name.as_slice() == word.as_bytes()
}
