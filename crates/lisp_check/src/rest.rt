//! What is left of a configuration's document when what is at fault is left out of it.

use crate::document::{array_key, last_part};
use lisp_memory::{FallibleMap, FallibleString, FallibleVec};
use lisp_sites::{ConfigFault, Entry, Field, Place, PlacedFault};
use std::alloc::{AllocError, Global};
use toml::Value;

/// The rest of a document.
#[derive(Drop)]
pub(crate) struct Rest {
    pub(crate) document: Value,
    /// The entries that were left out, as they are numbered in the text.
    left_out: Vec<Place>,
}

impl Rest {
    /// All of a document.
    pub(crate) fn new(alloc: Global, document: Value) -> Rest {
        Rest {
            document,
            left_out: Vec::new(alloc),
        }
    }

    /// Leaves out what is at fault: a key, where the entry can be read without it; its value, where another one stands for it;
    /// else the entry. Returns whether there was such a thing.
    pub(crate) fn leave_out(
        &mut self,
        alloc: Global,
        placed: &PlacedFault,
    ) -> Result<bool, AllocError> {
        let Some(field) = field_of(placed.fault) else {
            return Ok(false);
        };
        let place = placed.place;
        let left = leave_out(alloc, &mut self.document, place, field)?;
        if matches!(left, Left::Entry) {
            let place = self.in_text(place);
            self.left_out.try_push(place)?;
        }
        Ok(!matches!(left, Left::Nothing))
    }

    /// A place of the rest, as it is numbered in the text.
    pub(crate) fn in_text(&self, place: Place) -> Place {
        let Some(entry) = place.entry else {
            return place;
        };
        let entry = self.numbered(None, entry);
        Place {
            entry: Some(entry),
            part: place.part.map(|part| self.numbered(Some(entry), part)),
        }
    }

    // An entry in another one, or in none, as it is numbered in the text.
    fn numbered(&self, owner: Option<Entry>, entry: Entry) -> Entry {
        let array = entry.array;
        let mut left = entry.number;
        for number in 1..usize::MAX {
            if !self.is_left_out(owner, Entry { array, number }) {
                if left <= 1 {
                    return Entry { array, number };
                }
                left -= 1;
            }
        }
        entry
    }

    fn is_left_out(&self, owner: Option<Entry>, entry: Entry) -> bool {
        let place = match owner {
            Some(_) => Place {
                entry: owner,
                part: Some(entry),
            },
            None => Place {
                entry: Some(entry),
                part: None,
            },
        };
        self.left_out.iter().any(|other| *other == place)
    }
}

/// The field at fault.
pub(crate) fn field_of(fault: ConfigFault) -> Option<Field> {
    match fault {
        ConfigFault::Missing(field) | ConfigFault::BadValue(field) | ConfigFault::Repeated(field) =>
            Some(field),
        ConfigFault::Toml | ConfigFault::OutOfMemory => None,
    }
}

/// What was left out of a document.
#[derive(Clone, Copy)]
enum Left {
    Nothing,
    /// A key or a value.
    Field,
    Entry,
}

fn leave_out(
    alloc: Global,
    document: &mut Value,
    place: Place,
    field: Field,
) -> Result<Left, AllocError> {
    let Some(entry) = place.entry else {
        return Ok(without_key(document, last_part(field.name())));
    };
    let Some(entries) = array_mut(document, array_key(entry.array)) else {
        return Ok(Left::Nothing);
    };
    let Some(part) = place.part else {
        return leave_out_in(alloc, entries, entry, field);
    };
    let Some(owner) = entries.get_mut(entry.number.saturating_sub(1)) else {
        return Ok(Left::Nothing);
    };
    match array_mut(owner, array_key(part.array)) {
        Some(parts) => leave_out_in(alloc, parts, part, field),
        None => Ok(Left::Nothing),
    }
}

fn array_mut<'a>(table: &'a mut Value, key: &str) -> Option<&'a mut Vec<Value>> {
    table.get_mut(key)?.as_array_mut()
}

// Leaves out what is at fault in an entry of the array, or that entry.
fn leave_out_in(
    alloc: Global,
    entries: &mut Vec<Value>,
    entry: Entry,
    field: Field,
) -> Result<Left, AllocError> {
    let index = entry.number.saturating_sub(1);
    if index >= entries.len() {
        return Ok(Left::Nothing);
    }
    if entry.array != field && is_mended(alloc, &mut entries[index], field)? {
        return Ok(Left::Field);
    }
    entries.remove(index);
    Ok(Left::Entry)
}

// Leaves out the field, or puts another value for it, where the entry can then be read.
fn is_mended(alloc: Global, entry: &mut Value, field: Field) -> Result<bool, AllocError> {
    let key = last_part(field.name());
    if may_be_absent(field) {
        return Ok(matches!(without_key(entry, key), Left::Field));
    }
    let Some(table) = entry.as_table_mut() else {
        return Ok(false);
    };
    match other_value(alloc, field)? {
        Some(value) => {
            table.try_insert(String::try_from_str(alloc, key)?, value)?;
            Ok(true)
        }
        None => Ok(false),
    }
}

fn without_key(entry: &mut Value, key: &str) -> Left {
    match entry.as_table_mut() {
        Some(table) => match table.remove(key) {
            Some(_) => Left::Field,
            None => Left::Nothing,
        },
        None => Left::Nothing,
    }
}

// Whether an entry may be without the field.
fn may_be_absent(field: Field) -> bool {
    matches!(
        field,
        Field::SiteKey
            | Field::SitePrefix
            | Field::SitePrefixMoreSpecifics
            | Field::SiteRouters
            | Field::SiteFrom
            | Field::SiteLeastTtl
            | Field::SiteMostTtl
            | Field::SiteMostJump
            | Field::SiteMostRouters
            | Field::SiteMostRows
            | Field::ServerResolve
            | Field::RouterProxy
            | Field::RouterUseTtl
            | Field::RouterNonceBlock
            | Field::RouterRecords
            | Field::RouterResolve
    )
}

// A value of a field that no other entry depends on, and that may be that of several.
fn other_value(alloc: Global, field: Field) -> Result<Option<Value>, AllocError> {
    let text = match field {
        Field::ServerAddress | Field::RouterAddress => "0.0.0.0",
        Field::RouterXtr => "00000000000000000000000000000000",
        Field::SiteKeySecret => "00",
        Field::RouterServers => return Ok(Some(Value::Array(Vec::new(alloc)))),
        _ => return Ok(None),
    };
    Ok(Some(Value::String(String::try_from_str(alloc, text)?)))
}
