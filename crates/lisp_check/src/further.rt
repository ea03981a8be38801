//! The faults of a configuration after its first one.

ghost use Rattle.std.specs.Prelude.{◌≤◌, length, IfOk};

use crate::document::is_name;
use crate::note::{faulty_text, faulty_value};
use crate::rest::{Rest, field_of};
use lisp_memory::FallibleVec;
use lisp_sites::{Config, ConfigFault, Field, PlacedFault, site_id_from_text};
use std::alloc::{AllocError, Global};
use toml::Value;

/// The most faults that are reported after the first one.
const MOST_FURTHER: usize = 20;

/// How often a document is read at most.
const MOST_READ: usize = 100;

/// The arrays that had a fault whose entries others name: what names them may be right.
#[derive(Clone, Copy)]
struct Lost {
    sites: bool,
    servers: bool,
}

impl Lost {
    // Those, and the array of a field at fault.
    fn and(self, fault: ConfigFault) -> Lost {
        let field = field_of(fault);
        Lost {
            sites: self.sites
                || matches!(
                    field,
                    Some(Field::Site | Field::SiteId | Field::SiteKey | Field::SiteKeyId)
                ),
            servers: self.servers || matches!(field, Some(Field::Server | Field::ServerName)),
        }
    }
}

/// The faults of a text after its first one, in their order, at most 20: what is at fault is left out, and the rest read again. So of an
/// entry that can't be read without its field no further fault is reported; nor is a name of what was at fault itself.
pub fn further_faults(
    alloc: Global,
    text: &str,
    first: &PlacedFault,
) -> Result<Vec<PlacedFault>, AllocError>
    ensures few { IfOk result (λ faults. length faults.items ≤ 20) }
{
    let mut further = Vec::new(alloc);
    let Ok(table) = toml::table_from_str(alloc, text) else {
        return Ok(further);
    };
    let mut rest = Rest::new(alloc, Value::Table(table));
    let mut lost = Lost {
        sites: false,
        servers: false,
    };
    let mut last = *first;
    for _ in 0..MOST_READ {
        if further.len() >= MOST_FURTHER || !rest.leave_out(alloc, &last)? {
            break;
        }
        lost = lost.and(last.fault);
        let Some(next) = first_fault(alloc, &rest.document) else {
            break;
        };
        if !is_consequence(&rest.document, &next, lost) {
            further.try_push(PlacedFault {
                fault: next.fault,
                place: rest.in_text(next.place),
            })?;
        }
        last = next;
    }
    Ok(further)
}

// The first fault of a document, where it is one of a field.
fn first_fault(alloc: Global, document: &Value) -> Option<PlacedFault> {
    let text = toml::table_to_string(alloc, document.as_table()?).ok()?;
    let placed = Config::read(alloc, alloc, text.as_str()).err()?;
    field_of(placed.fault)?;
    Some(placed)
}

// Whether a name that nothing has may be that of what was at fault.
fn is_consequence(document: &Value, placed: &PlacedFault, lost: Lost) -> bool {
    let ConfigFault::BadValue(field) = placed.fault else {
        return false;
    };
    match field {
        Field::RouterSite => lost.sites && is_site_id(document, placed),
        Field::RouterKey => lost.sites && is_key_id(document, placed),
        Field::RouterServers => lost.servers && is_server(document, placed),
        _ => false,
    }
}

fn is_site_id(document: &Value, placed: &PlacedFault) -> bool {
    match faulty_text(document, placed) {
        Some(text) => site_id_from_text(text).is_some(),
        None => false,
    }
}

fn is_key_id(document: &Value, placed: &PlacedFault) -> bool {
    let number = faulty_value(document, placed).and_then(Value::as_integer);
    matches!(number, Some(0..=255))
}

fn is_server(document: &Value, placed: &PlacedFault) -> bool {
    faulty_text(document, placed).map(is_name).unwrap_or(false)
}
