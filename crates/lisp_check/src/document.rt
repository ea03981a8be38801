//! A configuration's document; its entries, by their arrays and numbers, and their names.

ghost use Rattle.std.specs.Prelude.{◌≡◌, IfOk};
ghost use Rattle.lisp_check.specs.Header.{headers_in};

use crate::header::{Header, headers, name_at};
use lisp_memory::FallibleString;
use lisp_sites::{Entry, Field, Place};
use std::alloc::{AllocError, Global};
use std::marker::Model;
use toml::{Table, Value};

/// The most letters of a name.
const MAX_NAME: usize = 32;

/// A configuration's text, as TOML, and the headers in it.
#[derive(Drop)]
pub struct Document {
    pub(crate) value: Value,
    text: String,
    headers: Vec<Header>,
}

impl Model for Document {
    ghost use Rattle.std.specs.Prelude.{◌≡◌, string_bytes};
    ghost use Rattle.lisp_check.specs.Header.{DocumentValue, headers_in};

    ghost Value = { DocumentValue };

    ghost view = { λ d. record { text = string_bytes d.text } };

    ghost invariant = { λ d. d.headers.items ≡ headers_in (string_bytes d.text) };
}

impl Document {
    /// The document that a text is.
    pub(crate) fn new(alloc: Global, text: &str, table: Table) -> Result<Document, AllocError>
        ensures { IfOk result (λ document. document.text ≡ text.now) }
    {
        Ok(Document {
            value: Value::Table(table),
            text: String::try_from_str(alloc, text)?,
            headers: headers(alloc, text)?,
        })
    }

    /// The headers in its text.
    pub(crate) fn headers(&self) -> &[Header]
        ensures { result.now ≡ headers_in self.now.text }
    {
        &self.headers
    }

    /// The name in a header.
    pub(crate) fn name(&self, header: &Header) -> &str {
        name_at(&self.text, header.offset)
    }
}

/// The document of a text that was read as TOML before: so only memory can run out.
pub fn read_document(alloc: Global, text: &str) -> Result<Document, AllocError>
    ensures document { IfOk result (λ document. document.text ≡ text.now) }
{
    match toml::table_from_str(alloc, text) {
        Ok(table) => Document::new(alloc, text, table),
        Err(_) => Err(AllocError),
    }
}

/// The elements of an array; none where there is no such array.
pub(crate) fn elements<'a>(table: &'a Value, key: &str) -> &'a [Value] {
    match table.get(key).and_then(Value::as_array) {
        Some(values) => values,
        None => &[],
    }
}

/// An element of an array, counted from 1.
pub(crate) fn element<'a>(table: &'a Value, key: &str, number: usize) -> Option<&'a Value> {
    elements(table, key).get(number.checked_sub(1)?)
}

/// The key of an array of a configuration.
pub(crate) fn array_key(array: Field) -> &'static str {
    last_part(array.name())
}

/// What stands after the last dot of a field's name: its key.
pub(crate) fn last_part(name: &'static str) -> &'static str {
    match name.rsplit_once('.') {
        Some((_, key)) => key,
        None => name,
    }
}

// An entry of the document in words: a Map-Server or a router by its name, any other by its number.
fn entry_words(alloc: Global, document: &Value, entry: Entry) -> Result<String, AllocError> {
    let key = array_key(entry.array);
    let named = match entry.array {
        Field::Server | Field::Router => element(document, key, entry.number),
        _ => None,
    };
    match named.and_then(name) {
        Some(name) => String::try_format(alloc, format_args!("{key} {name}")),
        None => String::try_format(alloc, entry),
    }
}

/// A place in words, with a colon after it: as it says, with the name of its entry where it has one. Empty where it is in no entry.
pub(crate) fn place_words(
    alloc: Global,
    document: &Value,
    place: Place,
) -> Result<String, AllocError> {
    let Some(entry) = place.entry else {
        return Ok(String::new(alloc));
    };
    let words = entry_words(alloc, document, entry)?;
    match place.part {
        Some(part) => String::try_format(alloc, format_args!("{words}, {part}: ")),
        None => String::try_format(alloc, format_args!("{words}: ")),
    }
}

// The name of an entry, where it is well formed.
fn name(entry: &Value) -> Option<&str> {
    let name = entry.get("name")?.as_str()?;
    if is_name(name) { Some(name) } else { None }
}

/// Whether a text is a node's name: 1 to 32 of `a` to `z`, `0` to `9` and `-`.
pub(crate) fn is_name(text: &str) -> bool {
    let letters = text.as_bytes();
    !letters.is_empty()
        && letters.len() <= MAX_NAME
        && letters.iter().all(|letter| matches!(letter, b'a'..=b'z' | b'0'..=b'9' | b'-'))
}
