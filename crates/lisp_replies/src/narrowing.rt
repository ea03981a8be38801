//! The widest prefix for which one message can carry the records.

ghost use Rattle.std.specs.Prelude.{◌≡◌, ◌<◌, ◌≤◌, None, IfOk, IfSome, OnErr};
ghost use Rattle.lisp_records.specs.Address.{max_len, prefix_around};
ghost use Rattle.lisp_lookup.specs.Covering.{IsBestFor};
ghost use Rattle.lisp_lookup.specs.Table.{OneEach};
ghost use Rattle.lisp_replies.specs.Narrowing.{AreWidest, FitFor, FitNowhere, NoneFitFor};

use crate::records::records_for;
use lisp_lookup::Table;
use lisp_memory::Memory;
use lisp_records::{MapRecord, Prefix, Row};
use std::alloc::{AllocError, Allocator};

/// The records for the widest prefix, from that of the row that answers to the one that is asked for, for which one message can carry them;
/// `None` where none can.
pub(crate) fn widest_records<A: Allocator + Copy, C: Memory + Copy>(
    alloc: C,
    table: &Table<A>,
    best: &Row<A>,
    asked: &Prefix,
    now: u64,
) -> Result<Option<Vec<MapRecord<C>, C>>, AllocError>
    requires one_each { OneEach table.now.rows }
    requires is_best { IsBestFor table.now.rows asked.now now best.now }
    ensures widest { IfOk result (λ found. IfSome found
        (λ records. AreWidest table.now.rows asked.now now best.now records.items)) }
    ensures nowhere { IfOk result (λ found. found ≡ None
        → FitNowhere table.now.rows asked.now now best.now) }

    // A longer prefix is inside the one that is asked for then.
    ensures inner { IfOk result (λ found. found ≡ None
        → asked.now.mask_len < max_len asked.now.addr) }
    ensures memory { OnErr result C.may_refuse }
{
    // Nearly always all records fit.
    let widest = best.mapping.eid_ref().mask_len();
    let found = records_around(alloc, table, best, asked, widest, now)?;
    if found.is_some() {
        return Ok(found);
    }
    let mut low = widest + 1;
    let mut high = asked.mask_len();
    let Some(mut records) = records_around(alloc, table, best, asked, high, now)? else {
        return Ok(None);
    };
    while low < high {
        let middle = low + (high - low) / 2;
        match records_around(alloc, table, best, asked, middle, now)? {
            Some(found) => {
                records = found;
                high = middle;
            }
            None => low = middle + 1,
        }
    }
    Ok(Some(records))
}

// The records for the prefix of a length around the one that is asked for; `None` where one message can't carry them.
fn records_around<A: Allocator + Copy, C: Memory + Copy>(
    alloc: C,
    table: &Table<A>,
    best: &Row<A>,
    asked: &Prefix,
    length: u8,
    now: u64,
) -> Result<Option<Vec<MapRecord<C>, C>>, AllocError>
    requires one_each { OneEach table.now.rows }
    requires within { length ≤ asked.now.mask_len }
    ensures fit { IfOk result (λ found. IfSome found (λ records. FitFor table.now.rows
        (prefix_around asked.now.addr length) now best.now records.items)) }
    ensures unfit { IfOk result (λ found. found ≡ None
        → NoneFitFor table.now.rows (prefix_around asked.now.addr length) now best.now) }
    ensures inner { IfOk result (λ found. found ≡ None → length < max_len asked.now.addr) }
    ensures memory { OnErr result C.may_refuse }
{
    let eid = Prefix::new(asked.addr(), length).unwrap();
    records_for(alloc, table, best, &eid, now)
}
