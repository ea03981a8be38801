//! The rows that a Map-Server holds, where they come by parts.

ghost use Rattle.std.specs.Prelude.{IfOk, OnErr};
ghost use Rattle.std.specs.String.{string_bytes};
ghost use Rattle.lisp_lines.specs.Listing.{ListsRows, PutsRow, PutsRows};

use crate::held::put_held;
use crate::query::put_row;
use crate::walk::Walk;
use crate::wording::Wording;
use lisp_memory::Memory;
use lisp_server::Server;
use lisp_sites::Config;
use std::alloc::{AllocError, Allocator, Global};

/// The most rows of a part: it takes far less than 1 ms.
pub const MOST_ROWS: usize = 256;

/// A part of the lines.
#[derive(Debug, Drop)]
pub struct RowsPart<A: Allocator = Global> {
    /// The lines.
    pub text: String<A>,
    /// It is the last part.
    pub is_last: bool,
}

/// The lines of the next rows of a walk over those of the Map-Server with a number, as `hold_text` has them of a node; after the last one a line
/// that says how many rows came. Takes memory of `alloc`.
pub fn next_rows<A: Memory + Copy, E: Allocator>(
    alloc: A,
    config: &Config<E>,
    number: usize,
    core: &Server<A>,
    walk: &mut Walk,
) -> Result<RowsPart<A>, AllocError>
    ensures lines { IfOk result (λ part. ListsRows config.now number core.now.rows walk.old walk.new
        (string_bytes part.text) part.is_last) }
    ensures memory { OnErr result A.may_refuse }
{
    let mut text = String::new(alloc);
    let is_last = put_rows(alloc, &mut text, config, core, walk)?;
    if is_last {
        put_held(&mut text, config, number, walk.rows())?;
    }
    Ok(RowsPart { text, is_last })
}

// Appends the lines of the next rows; whether they were the last.
fn put_rows<A: Memory + Copy, E: Allocator>(
    alloc: A,
    text: &mut String<A>,
    config: &Config<E>,
    core: &Server<A>,
    walk: &mut Walk,
) -> Result<bool, AllocError>
    ensures lines { IfOk result (λ is_end. PutsRows config.now core.now.rows walk.old walk.new
        (string_bytes text.old) (string_bytes text.new) is_end) }
    ensures memory { OnErr result A.may_refuse }
{
    // Reading it shows the proof that it has 64 bits.
    let _rows = walk.rows();
    for _count in 0..MOST_ROWS {
        if !put_next(alloc, text, config, core, walk)? {
            return Ok(true);
        }
    }
    Ok(false)
}

// Appends the line of the next row; whether there was one.
fn put_next<A: Memory + Copy, E: Allocator>(
    alloc: A,
    text: &mut String<A>,
    config: &Config<E>,
    core: &Server<A>,
    walk: &mut Walk,
) -> Result<bool, AllocError>
    ensures line { IfOk result (λ is_row. PutsRow config.now core.now.rows walk.old walk.new
        (string_bytes text.old) (string_bytes text.new) is_row) }
    ensures memory { OnErr result A.may_refuse }
{
    let now = walk.moment();
    match walk.next(core) {
        Some(row) => {
            put_row(alloc, text, config, Wording::Node, now, row)?;
            Ok(true)
        }
        None => Ok(false),
    }
}
