//! Keys and tables of a document that no configuration has.

use crate::document::{Document, array_key, elements, place_words};
use crate::line::{entry_line, table_line};
use crate::places::{NOWHERE, entry_place, part_place};
use lisp_memory::{FallibleString, FallibleVec};
use lisp_sites::{Field, Place};
use std::alloc::{AllocError, Global};
use strsim::levenshtein;
use toml::Value;

/// How many letters a word that was meant may differ in.
const MOST_EDITS: usize = 2;

/// The keys of a configuration, of a site, of a key and a prefix of it, of a Map-Server, and of a router, with a space between them.
const ARRAYS: &str = "site server router";

const SITE_KEYS: &str =
    "id key prefix routers from least_ttl most_ttl most_jump most_routers most_rows";

const KEY_KEYS: &str = "id secret";

const PREFIX_KEYS: &str = "eid more_specifics";

const SERVER_KEYS: &str = "name address resolve";

const ROUTER_KEYS: &str =
    "name address site xtr key servers proxy use_ttl nonce_block records resolve";

/// A key or a table of a document that no configuration has.
#[derive(Drop)]
pub struct Unknown {
    /// It is a table or an array of tables: what was written in it vanishes.
    pub is_table: bool,
    /// The line of the table, or else of the entry that it is in, where that is known.
    pub line: Option<usize>,
    /// Its name, after its entry, with the nearest one that is known: `site 1, prefix 2: unknown key more_specific
    /// (more_specifics?)`.
    pub words: String,
}

/// The keys and tables of the document that no configuration has.
pub fn unknown_keys(alloc: Global, document: &Document) -> Result<Vec<Unknown>, AllocError> {
    let mut all = Vec::new(alloc);
    let whole = &document.value;
    add_unknown(&mut all, alloc, document, whole, NOWHERE, ARRAYS)?;
    for (index, table) in elements(whole, "site").iter().enumerate() {
        add_of_site(&mut all, alloc, document, table, index)?;
    }
    add_of_entries(&mut all, alloc, document, Field::Server, SERVER_KEYS)?;
    add_of_entries(&mut all, alloc, document, Field::Router, ROUTER_KEYS)?;
    Ok(all)
}

fn add_of_entries(
    all: &mut Vec<Unknown>,
    alloc: Global,
    document: &Document,
    array: Field,
    keys: &'static str,
) -> Result<(), AllocError> {
    for (index, table) in elements(&document.value, array.name()).iter().enumerate() {
        let place = entry_place(array, index);
        add_unknown(all, alloc, document, table, place, keys)?;
    }
    Ok(())
}

fn add_of_site(
    all: &mut Vec<Unknown>,
    alloc: Global,
    document: &Document,
    table: &Value,
    site: usize,
) -> Result<(), AllocError> {
    let place = entry_place(Field::Site, site);
    add_unknown(all, alloc, document, table, place, SITE_KEYS)?;
    for (array, keys) in [(Field::SiteKey, KEY_KEYS), (Field::SitePrefix, PREFIX_KEYS)] {
        for (index, part) in elements(table, array_key(array)).iter().enumerate() {
            let place = part_place(site, array, index);
            add_unknown(all, alloc, document, part, place, keys)?;
        }
    }
    Ok(())
}

// Those of a table, which may have these keys.
fn add_unknown(
    all: &mut Vec<Unknown>,
    alloc: Global,
    document: &Document,
    table: &Value,
    place: Place,
    keys: &'static str,
) -> Result<(), AllocError> {
    let Some(table) = table.as_table() else {
        return Ok(());
    };
    for (key, value) in table.iter() {
        let key = key.as_str();
        if !is_among(keys, key) {
            let is_table = is_tables(value);
            let words = unknown_words(alloc, document, place, key, is_table, keys)?;
            all.try_push(Unknown {
                is_table,
                line: unknown_line(document, place, key, is_table),
                words,
            })?;
        }
    }
    Ok(())
}

fn is_among(keys: &str, key: &str) -> bool {
    for name in keys.split(' ') {
        if name == key {
            return true;
        }
    }
    false
}

fn unknown_line(document: &Document, place: Place, key: &str, is_table: bool) -> Option<usize> {
    if is_table {
        table_line(document, place, key)
    } else {
        entry_line(document, place)
    }
}

fn unknown_words(
    alloc: Global,
    document: &Document,
    place: Place,
    key: &str,
    is_table: bool,
    keys: &'static str,
) -> Result<String, AllocError> {
    let place = place_words(alloc, &document.value, place)?;
    let what = if is_table { "table" } else { "key" };
    let mut words = String::try_format(alloc, format_args!("{place}unknown {what} "))?;
    put_key(&mut words, key)?;
    if let Some(name) = nearest(alloc, key, keys)? {
        words.try_write(format_args!(" ({name}?)"))?;
    }
    Ok(words)
}

// A table, or an array that has one.
fn is_tables(value: &Value) -> bool {
    match value.as_array() {
        Some(values) => values.iter().any(|value| value.is_table()),
        None => value.is_table(),
    }
}

// A key of other characters than those of a bare key is quoted, so that it can't be taken for more than it is.
fn put_key(line: &mut String, key: &str) -> Result<(), AllocError> {
    if is_bare(key) {
        line.try_write(key)
    } else {
        line.try_write(format_args!("{key:?}"))
    }
}

fn is_bare(key: &str) -> bool {
    !key.is_empty()
        && key.as_bytes().iter().all(|letter| letter.is_ascii_alphanumeric()
            || matches!(letter, b'_' | b'-'))
}

// The known word that is nearest to this one, in at most two letters and fewer than it has; the first one of several.
fn nearest(
    alloc: Global,
    word: &str,
    known: &'static str,
) -> Result<Option<&'static str>, AllocError> {
    let mut nearest = None;
    let mut least = word.len().min(MOST_EDITS + 1);
    for candidate in known.split(' ') {
        let edits = levenshtein(alloc, word, candidate)?;
        if edits < least {
            least = edits;
            nearest = Some(candidate);
        }
    }
    Ok(nearest)
}
