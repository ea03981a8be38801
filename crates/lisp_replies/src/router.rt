//! What a router sends.

ghost use Rattle.std.specs.Prelude.{◌≡◌, ◌≤◌, None, length, IfOk, IfSome, OnErr};
ghost use Rattle.lisp_records.specs.Address.{max_len};
ghost use Rattle.lisp_replies.specs.Own.{IsOwnReply, IsOwnUnanswered, NoneIsFor, OwnRepliesWith};

use crate::own_hole::own_hole;
use crate::own_narrowing::widest_that_fits;
use crate::own_records::{longest_for, own_records};
use crate::reply::{Negative, Reply};
use lisp_memory::Memory;
use lisp_records::{Addr, Database, MapRecord, Prefix, Records};
use std::alloc::{AllocError, Allocator};

/// How long an ITR may keep a negative reply of a router, in minutes: the router's records may come back.
const NEGATIVE_TTL: u32 = 1;

/// What a router with this database sends for an EID-Prefix that a Map-Request asks for; what it makes lies in memory of `alloc` (RFC 9301
/// sections 5.5, 7.1 and 8.2).
///
/// - The longest record whose prefix covers it answers: the records are sent of that prefix, then of each longer one inside, in the
///   database's order, as configured, but authoritative, and all with the least TTL. Where one message can't carry them, the first one's
///   prefix is narrowed toward the one that is asked for.
/// - Where no record's prefix covers it, or the records fit no message, the prefix of its address alone is answered: by its records, or by
///   a negative reply for the widest prefix around the address in which no record's prefix lies, for 1 minute.
/// - Where an address is `probed` (P of the Map-Request), each locator of that address has the probe bit.
pub fn router_reply<A: Allocator, C: Memory + Copy>(
    alloc: C,
    database: &Database<A>,
    asked: &Prefix,
    probed: Option<Addr>,
) -> Result<Reply<C>, AllocError>
    ensures reply { IfOk result (λ reply. IsOwnReply database.now asked.now probed reply) }
    ensures memory { OnErr result C.may_refuse }
{
    let records = database.records();
    if let Some(found) = records_for(alloc, records, asked, probed)? {
        return Ok(Reply::Records(found));
    }
    let addr = asked.addr();
    let alone = Prefix::new(addr, addr.family().max_mask_len()).unwrap();
    if let Some(found) = records_for(alloc, records, &alone, probed)? {
        return Ok(Reply::Records(found));
    }
    Ok(Reply::Negative(Negative {
        eid: own_hole(records, &addr),
        ttl: NEGATIVE_TTL,
    }))
}

// The records that are sent for a prefix; `None` where no record's prefix covers it, or one message can't carry them.
fn records_for<A: Allocator, C: Memory + Copy>(
    alloc: C,
    records: &[MapRecord<A>],
    asked: &Prefix,
    probed: Option<Addr>,
) -> Result<Option<Records<C>>, AllocError>
    requires few { length records.now ≤ 1024 }
    ensures records { IfOk result (λ found. IfSome found
        (λ own. OwnRepliesWith records.now asked.now probed own)) }
    ensures unanswered { IfOk result (λ found. found ≡ None
        → IsOwnUnanswered records.now asked.now probed) }
    ensures alone { IfOk result (λ found. found ≡ None
        → asked.now.mask_len ≡ max_len asked.now.addr → NoneIsFor records.now asked.now) }
    ensures memory { OnErr result C.may_refuse }
{
    let Some(longest) = longest_for(records, asked) else {
        return Ok(None);
    };
    let Some(eid) = widest_that_fits(records, longest, asked) else {
        return Ok(None);
    };
    let own = own_records(alloc, records, longest, &eid, probed)?;
    Ok(Some(Records::from_vec(own)))
}
