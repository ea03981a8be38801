//! The records of one router that are alive.

ghost use Rattle.std.specs.Prelude.{◌≡◌, [], None, true, false, IsOk, IfOk, IfSome, OnErr};
ghost use Rattle.lisp_lookup.specs.Records.{is_live_of, live_of, live_count, live_fit};

use lisp_memory::{FallibleVec, Memory};
use lisp_records::{MAX_RECORDS, MAX_SIZE, MapRecord, RouterId, Row};
use std::alloc::{AllocError, Allocator};

/// How many records of a router are alive at a moment, in ms; `None` where one message can't carry them.
pub(crate) fn count_live<A: Allocator>(
    rows: &[Row<A>],
    router: &RouterId,
    now: u64,
) -> Option<usize>
    ensures fits { IfSome result (λ count. live_fit rows.now router.now now ≡ true) }
    ensures count { IfSome result (λ count. count ≡ live_count rows.now router.now now) }
    ensures too_large { result ≡ None → live_fit rows.now router.now now ≡ false }
{
    let mut count = 0;
    let mut size = 0;
    for row in rows {
        if is_live_of(row, router, now) {
            count += 1;
            size += row.mapping.written_len();
        }
        if count > MAX_RECORDS || size > MAX_SIZE {
            return None;
        }
    }
    Some(count)
}

/// Copies of the records of a router that are alive at a moment, in ms, in memory of `alloc`.
pub(crate) fn copy_live<A: Memory + Copy>(
    alloc: A,
    rows: &[Row<A>],
    router: &RouterId,
    now: u64,
) -> Result<Vec<MapRecord<A>, A>, AllocError>
    ensures records { IfOk result (λ records. records.items ≡ live_of rows.now router.now now) }
    ensures none_alive { live_of rows.now router.now now ≡ [] → IsOk result }
    ensures memory { OnErr result A.may_refuse }
{
    let mut records = Vec::new(alloc);
    for row in rows {
        if is_live_of(row, router, now) {
            let copy = row.mapping.copy(alloc)?;
            records.try_push(copy)?;
        }
    }
    Ok(records)
}

// Whether a row is one of a router, and alive.
fn is_live_of<A: Allocator>(row: &Row<A>, router: &RouterId, now: u64) -> bool
    ensures { result ≡ is_live_of router.now now row.now }
{
    row.router == *router && row.alive(now)
}
