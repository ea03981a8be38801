//! The text of the records that a router registers.

ghost use Rattle.lisp_lines.specs.Front.{Adds, GivesText};
ghost use Rattle.lisp_lines.specs.Records.{records_head, record_line, records_text};
ghost use Rattle.std.specs.List.{flat_map};
ghost use Rattle.std.specs.Prelude.{OnErr};

use crate::name::node_name;
use lisp_memory::{FallibleString, Memory};
use lisp_records::MapRecord;
use lisp_sites::Config;
use lisp_texts::record_to_text;
use std::alloc::{AllocError, Allocator};

/// The records that a router registers: a line with their number, then one for each.
pub fn records_text<A: Memory + Copy, E: Allocator, F: Allocator>(
    alloc: A,
    config: &Config<E>,
    router: usize,
    records: &[MapRecord<F>],
) -> Result<String<A>, AllocError>
    ensures text { GivesText result (records_text config.now router records.now) }
    ensures memory { OnErr result A.may_refuse }
{
    let mut text = records_head(alloc, node_name(config, router), records.len())?;
    put_entries(alloc, &mut text, records)?;
    Ok(text)
}

// The line before the records of a router: how many they are.
fn records_head<A: Memory>(alloc: A, router: &str, records: usize) -> Result<String<A>, AllocError>
    ensures text { GivesText result (records_head router.now records) }
    ensures memory { OnErr result A.may_refuse }
{
    String::try_format(alloc, format_args!("records {router} {records}\n"))
}

/// Appends a line for each of some records. Out of memory, it may leave a part of them.
pub(crate) fn put_entries<A: Memory + Copy, F: Allocator>(
    alloc: A,
    text: &mut String<A>,
    records: &[MapRecord<F>],
) -> Result<(), AllocError>
    ensures text { Adds result text.old text.new (flat_map record_line records.now) }
    ensures memory { OnErr result A.may_refuse }
{
    for entry in records {
        put_entry(alloc, text, entry)?;
    }
    Ok(())
}

// Appends the line of a record. Out of memory, it may leave a part of it.
fn put_entry<A: Memory + Copy, F: Allocator>(
    alloc: A,
    text: &mut String<A>,
    entry: &MapRecord<F>,
) -> Result<(), AllocError>
    ensures text { Adds result text.old text.new (record_line entry.now) }
    ensures memory { OnErr result A.may_refuse }
{
    let record = record_to_text(alloc, entry)?;
    text.try_write(format_args!("record {record}\n"))
}
