//! The records for a prefix, and whether one message can carry them.

ghost use Rattle.std.specs.Prelude.{◌≡◌, ◌∷◌, ◌<◌, List, None, true, false, map, IfOk, IfSome, OnErr};
ghost use Rattle.lisp_records.specs.Address.{max_len};
ghost use Rattle.lisp_records.specs.Parts.{fits_message};
ghost use Rattle.lisp_records.specs.Row.{RowValue};
ghost use Rattle.lisp_lookup.specs.Inside.{AreInside};
ghost use Rattle.lisp_lookup.specs.Replies.{record_of, not_local, IsLeastTtl};
ghost use Rattle.lisp_lookup.specs.Table.{OneEach};
ghost use Rattle.lisp_replies.specs.Narrowing.{FitFor, NoneFitFor};
ghost use Rattle.lisp_replies.specs.Walk.{records_of, HasMoreThan};

use lisp_lookup::{Inside, Table};
use lisp_memory::{FallibleVec, Memory};
use lisp_records::{Locator, MAX_RECORDS, MAX_SIZE, MapRecord, Prefix, Row};
use std::alloc::{AllocError, Allocator};

/// ACT 2, Send-Map-Request: the ITR asks again when it needs the prefix.
const SEND_MAP_REQUEST: u8 = 2;

/// The records for a prefix, of the row that answers for it and of those of the longer prefixes inside, all with the least TTL; `None`
/// where one message can't carry them.
pub(crate) fn records_for<A: Allocator + Copy, C: Memory + Copy>(
    alloc: C,
    table: &Table<A>,
    best: &Row<A>,
    eid: &Prefix,
    now: u64,
) -> Result<Option<Vec<MapRecord<C>, C>>, AllocError>
    requires one_each { OneEach table.now.rows }
    ensures fit { IfOk result (λ found. IfSome found
        (λ records. FitFor table.now.rows eid.now now best.now records.items)) }
    ensures unfit { IfOk result (λ found. found ≡ None
        → NoneFitFor table.now.rows eid.now now best.now) }

    // A longer prefix is inside then.
    ensures inner { IfOk result (λ found. found ≡ None
        → eid.now.mask_len < max_len eid.now.addr) }
    ensures memory { OnErr result C.may_refuse }
{
    let inside = table.inside(eid, now);
    match least_ttl(best, inside.again()) {
        Some(ttl) => records_with(alloc, best, eid, inside, ttl),
        None => Ok(None),
    }
}

// The least TTL, in minutes, of a row and of the best rows of the longer prefixes inside another; `None` where these are more than 254, so
// that one message can't carry a record of each.
fn least_ttl<A: Allocator + Copy>(best: &Row<A>, inside: Inside<'_, A>) -> Option<u32>
    requires one_each { OneEach inside.rows }
    requires begun { inside.after ≡ inside.outer }
    ensures least { IfSome result (λ ttl. (rows : List RowValue)
        → AreInside inside.entry.rows inside.entry.outer inside.entry.moment rows → IsLeastTtl (best.now ∷ rows) ttl) }
    ensures many { result ≡ None → HasMoreThan 254 inside.entry.rows inside.entry.outer inside.entry.moment }
    ensures inner { result ≡ None → inside.entry.outer.mask_len < max_len inside.entry.outer.addr }
{
    let mut least = best.mapping.ttl();
    let mut inside = inside;
    let mut count = 1;
    while let Some(row) = inside.next() {
        // A proof learns here that its prefix is a block.
        let _first = row.mapping.eid_ref().addr();
        if count == MAX_RECORDS {
            return None;
        }
        count += 1;
        least = least.min(row.mapping.ttl());
    }
    Some(least)
}

// The records with a TTL, in minutes: that of a row for a prefix, and those of the longer ones inside.
fn records_with<A: Allocator + Copy, C: Memory + Copy>(
    alloc: C,
    best: &Row<A>,
    eid: &Prefix,
    inside: Inside<'_, A>,
    ttl: u32,
) -> Result<Option<Vec<MapRecord<C>, C>>, AllocError>
    requires one_each { OneEach inside.rows }
    requires begun { (inside.outer ≡ eid.now) × (inside.after ≡ eid.now) }
    ensures fit { IfOk result (λ found. IfSome found (λ records. (rows : List RowValue)
        × AreInside inside.entry.rows eid.now inside.entry.moment rows
        × (records.items ≡ records_of ttl eid.now best.now rows)
        × (fits_message records.items ≡ true))) }
    ensures unfit { IfOk result (λ found. found ≡ None → (rows : List RowValue)
        → AreInside inside.entry.rows eid.now inside.entry.moment rows
        → fits_message (records_of ttl eid.now best.now rows) ≡ false) }
    ensures inner { IfOk result (λ found. found ≡ None
        → eid.now.mask_len < max_len eid.now.addr) }
    ensures memory { OnErr result C.may_refuse }
{
    let first = record_of(alloc, ttl, eid, best)?;
    let mut size = first.written_len();
    let mut records = Vec::new(alloc);
    records.try_push(first)?;
    let mut inside = inside;
    while let Some(row) = inside.next() {
        let record = record_of(alloc, ttl, row.mapping.eid_ref(), row)?;
        size += record.written_len();
        if records.len() == MAX_RECORDS || size > MAX_SIZE {
            return Ok(None);
        }
        records.try_push(record)?;
    }
    Ok(Some(records))
}

// The record of a row for a prefix: as registered where its router asked for proxy replies, but not authoritative, and no locator local;
// else without locators, so that the ITR asks again.
fn record_of<A: Allocator, C: Memory + Copy>(
    alloc: C,
    ttl: u32,
    eid: &Prefix,
    row: &Row<A>,
) -> Result<MapRecord<C>, AllocError>
    ensures record { IfOk result (λ r. r ≡ record_of ttl eid.now row.now) }
    ensures memory { OnErr result C.may_refuse }
{
    if !row.proxy {
        let record = MapRecord::new(ttl, SEND_MAP_REQUEST, false, 0, *eid, Vec::new(alloc));
        return Ok(record.unwrap());
    }
    let mapping = &row.mapping;
    let locators = not_local(alloc, mapping.locators())?;
    let record = MapRecord::new(ttl, mapping.act(), false, mapping.version(), *eid, locators);
    Ok(record.unwrap())
}

// The same locators, none of them of the one that replies.
fn not_local<C: Memory + Copy>(
    alloc: C,
    locators: &[Locator],
) -> Result<Vec<Locator, C>, AllocError>
    ensures copies { IfOk result (λ copies. copies.items ≡ map not_local locators.now) }
    ensures memory { OnErr result C.may_refuse }
{
    let mut copies = Vec::new(alloc);
    copies.make_room_for(locators)?;
    for locator in locators {
        copies.try_push(Locator {
            local: false,
            ..*locator
        })?;
    }
    Ok(copies)
}
