//! What a fault of a configuration is about.

use crate::document::{Document, array_key, element, is_name, last_part, place_words};
use crate::line::entry_line;
use crate::position::position_at;
use crate::words::lined;
use lisp_memory::FallibleString;
use lisp_sites::{ConfigFault, Entry, Field, PlacedFault};
use std::alloc::{AllocError, Global};
use toml::Value;

/// The most characters of a value that are shown.
const MOST_SHOWN: usize = 60;

/// Where in a text a fault is, and what of its value is wrong.
#[derive(Drop)]
pub struct FaultNote {
    /// The line of the entry, where it is known, and the entry, each with a colon after it, as `line 12: router r2: `, or the line and
    /// the column where the text is not valid TOML; empty where it is in no entry.
    pub place: String,
    /// The value at fault, after a space, where it is a text, a number or a boolean, and no secret; else empty. A text is quoted,
    /// with its control characters escaped, and cut at 60 characters.
    pub value: String,
    /// What would be right, or what is wrong in the value; `None` where only the field is known.
    pub advice: Option<String>,
}

/// What is known of a fault of this text.
pub fn fault_note(
    alloc: Global,
    text: &str,
    placed: &PlacedFault,
) -> Result<FaultNote, AllocError> {
    match toml::table_from_str(alloc, text) {
        Ok(table) => note_in(alloc, &Document::new(alloc, text, table)?, placed),
        Err(error) => note_of_toml(alloc, text, &error),
    }
}

// Why a text is not valid TOML.
fn note_of_toml(
    alloc: Global,
    text: &str,
    error: &toml::de::Error,
) -> Result<FaultNote, AllocError> {
    let span = error.span().ok_or(AllocError)?;
    let place = position_at(text, span.start);
    let (line, column) = (place.line, place.column);
    Ok(FaultNote {
        place: String::try_format(alloc, format_args!("line {line}, column {column}: "))?,
        value: String::new(alloc),
        advice: Some(String::try_format(alloc, error.message())?),
    })
}

fn note_in(
    alloc: Global,
    document: &Document,
    placed: &PlacedFault,
) -> Result<FaultNote, AllocError> {
    let place = place_words(alloc, &document.value, placed.place)?;
    Ok(FaultNote {
        place: lined(alloc, entry_line(document, placed.place), place)?,
        value: value_words(alloc, &document.value, placed)?,
        advice: advice(alloc, &document.value, placed)?,
    })
}

// The value at fault, after a space, unless it may be a secret.
fn value_words(
    alloc: Global,
    document: &Value,
    placed: &PlacedFault,
) -> Result<String, AllocError> {
    if let ConfigFault::BadValue(Field::SiteKey | Field::SiteKeySecret) = placed.fault {
        return Ok(String::new(alloc));
    }
    match faulty_value(document, placed) {
        Some(Value::String(text)) => text_words(alloc, text.as_str()),
        Some(Value::Integer(number)) => String::try_format(alloc, format_args!(" {number}")),
        Some(Value::Boolean(is)) => String::try_format(alloc, format_args!(" {is}")),
        _ => Ok(String::new(alloc)),
    }
}

// A text, quoted and cut.
fn text_words(alloc: Global, text: &str) -> Result<String, AllocError> {
    let mut words = String::try_from_str(alloc, " \"")?;
    for (place, character) in text.chars().enumerate() {
        if place >= MOST_SHOWN {
            words.try_write("..")?;
            break;
        }
        words.try_write(character.escape_debug())?;
    }
    words.try_push('"')?;
    Ok(words)
}

// What is wrong in the value at fault, where it is a text that tells.
fn advice(
    alloc: Global,
    document: &Value,
    placed: &PlacedFault,
) -> Result<Option<String>, AllocError> {
    let Some(text) = faulty_text(document, placed) else {
        return Ok(None);
    };
    let advice = match placed.fault {
        ConfigFault::BadValue(Field::RouterServers) if is_name(text) => {
            String::try_format(alloc, format_args!("{text} is no Map-Server"))?
        }
        ConfigFault::Repeated(Field::RouterServers) if is_name(text) => {
            String::try_format(alloc, format_args!("{text} is there twice"))?
        }
        ConfigFault::BadValue(field) if has_address(field) && text.contains("::") => {
            String::try_from_str(alloc, "write all eight groups")?
        }
        _ => return Ok(None),
    };
    Ok(Some(advice))
}

// Whether the field's value has an address in it.
fn has_address(field: Field) -> bool {
    matches!(
        field,
        Field::SitePrefixEid
            | Field::SiteFrom
            | Field::ServerAddress
            | Field::ServerResolve
            | Field::RouterAddress
            | Field::RouterRecords
            | Field::RouterResolve
    )
}

/// The value at fault, where it is a text.
pub(crate) fn faulty_text<'a>(document: &'a Value, placed: &PlacedFault) -> Option<&'a str> {
    faulty_value(document, placed)?.as_str()
}

/// The value at fault.
pub(crate) fn faulty_value<'a>(document: &'a Value, placed: &PlacedFault) -> Option<&'a Value> {
    let (ConfigFault::BadValue(field) | ConfigFault::Repeated(field)) = placed.fault else {
        return None;
    };
    let entry = at(document, placed.place.entry?)?;
    match placed.place.part {
        None => entry.get(last_part(field.name())),
        Some(part) if part.array == field => at(entry, part),
        Some(part) => at(entry, part)?.get(last_part(field.name())),
    }
}

// An entry of a table.
fn at(table: &Value, entry: Entry) -> Option<&Value> {
    element(table, array_key(entry.array), entry.number)
}
