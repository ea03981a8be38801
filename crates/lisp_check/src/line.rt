//! The lines of a document's entries and tables.

ghost use Rattle.std.specs.Prelude.{◌<◌, length, IfSome};
ghost use Rattle.lisp_check.specs.Line.{IsHeaderLine, IsLineOf};
ghost use Rattle.lisp_check.specs.Header.{AreAmong, headers_in};

use crate::document::{Document, array_key, element, elements};
use crate::header::Header;
use lisp_sites::{Entry, Field, Place};

/// The line of an entry, counted from 1: that of its header. `None` where it has none, or where the document has another number
/// of such entries than headers: some are written another way then.
pub fn entry_line(document: &Document, place: Place) -> Option<usize>
    ensures header { IfSome result (IsHeaderLine document.now.text) }
{
    first_line(entry_headers(document, place)?)
}

// The line of the first header.
fn first_line(headers: &[Header]) -> Option<usize>
    ensures { IfSome result (IsLineOf headers.now) }
{
    Some(headers.first()?.line)
}

/// The line of a table in an entry, or in none: that of the first header that names it; where there is none, that of the entry.
pub(crate) fn table_line(document: &Document, place: Place, key: &str) -> Option<usize> {
    let headers = match place.entry {
        Some(_) => entry_headers(document, place),
        None => Some(document.headers()),
    };
    let array = innermost(place);
    let found = headers?
        .iter()
        .find(|header| is_of_table(document.name(header), array, key));
    match found {
        Some(header) => Some(header.line),
        None => entry_line(document, place),
    }
}

// The array of a place's innermost entry.
fn innermost(place: Place) -> Option<Field> {
    Some(place.part.or(place.entry)?.array)
}

// Whether a header's name is that of a table in an entry of the array, or of what is in that table.
fn is_of_table(name: &str, array: Option<Field>, key: &str) -> bool {
    match in_array(name, array).and_then(|rest| rest.strip_prefix(key)) {
        Some(rest) => rest.is_empty() || rest.starts_with('.'),
        None => false,
    }
}

// What of a name stands after that of the array.
fn in_array(name: &str, array: Option<Field>) -> Option<&str> {
    match array {
        Some(array) => name.strip_prefix(array.name())?.strip_prefix('.'),
        None => Some(name),
    }
}

// The header of an entry, then all up to the next one of its array.
fn entry_headers(document: &Document, place: Place) -> Option<&[Header]>
    ensures { IfSome result (λ headers. AreAmong headers.now (headers_in document.now.text)) }
{
    let entry = place.entry?;
    let count = elements(&document.value, array_key(entry.array)).len();
    let headers = numbered(document, document.headers(), entry, count)?;
    match place.part {
        Some(part) if has_headers(part.array) => {
            let owner = element(&document.value, array_key(entry.array), entry.number)?;
            let count = elements(owner, array_key(part.array)).len();
            numbered(document, headers, part, count)
        }
        _ => Some(headers),
    }
}

// Whether entries of the array, inside another one, are tables.
fn has_headers(array: Field) -> bool {
    matches!(array, Field::SiteKey | Field::SitePrefix)
}

// Of these headers that of an entry, then all up to the next one of its array, where there are so many of the array.
fn numbered<'a>(
    document: &Document,
    headers: &'a [Header],
    entry: Entry,
    count: usize,
) -> Option<&'a [Header]>
    ensures { IfSome result (λ some. AreAmong some.now headers.now) }
{
    let name = entry.array.name();
    if headers
        .iter()
        .filter(|header| is_named(document, header, name))
        .count()
        != count
    {
        return None;
    }
    let mut rest = headers;
    for _ in 1..entry.number {
        rest = after_first(document, rest, name)?;
    }
    let rest = rest.get(first_named(document, rest, name)?..)?;
    match first_named(document, rest.get(1..)?, name) {
        Some(further) => rest.get(..further + 1),
        None => Some(rest),
    }
}

fn after_first<'a>(document: &Document, headers: &'a [Header], name: &str) -> Option<&'a [Header]>
    ensures { IfSome result (λ some. AreAmong some.now headers.now) }
{
    headers.get(first_named(document, headers, name)? + 1..)
}

fn first_named(document: &Document, headers: &[Header], name: &str) -> Option<usize>
    ensures { IfSome result (λ place. place < length headers.now) }
{
    headers
        .iter()
        .position(|header| is_named(document, header, name))
}

fn is_named(document: &Document, header: &Header, name: &str) -> bool {
    document.name(header) == name
}
