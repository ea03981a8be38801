//! What a Map-Server sends.

ghost use Rattle.std.specs.Prelude.{◌≡◌, ◌⊎◌, ◌<◌, None, IfOk, IfSome, OnErr};
ghost use Rattle.std.specs.List.{All};
ghost use Rattle.lisp_records.specs.Address.{IsPrefix, IsWhole, max_len};
ghost use Rattle.lisp_lookup.specs.Covering.{alone, NoneAnswersFor};
ghost use Rattle.lisp_lookup.specs.Table.{OneEach};
ghost use Rattle.lisp_replies.specs.Reply.{IsReply, IsUnanswered, RepliesFor, RepliesNone, negative_ttl};

use crate::early::is_held_back;
use crate::narrowing::widest_records;
use crate::reply::{Negative, Reply};
use lisp_lookup::Table;
use lisp_memory::Memory;
use lisp_policy::Sites;
use lisp_records::{Addr, Prefix, Records};
use std::alloc::{AllocError, Allocator};

/// What a Map-Server of these sites sends at a moment, in ms, for an EID-Prefix that a Map-Request asks for; what it makes lies in memory
/// of `alloc` (RFC 9301 sections 8.3 and 8.4).
///
/// - The best row whose prefix covers it answers, in the order of [`Table::answer`]. Where its router asked for proxy replies, the
///   records are sent: of that row's prefix, then of each longer one inside that has a live row, in rising order, all with the least TTL.
///   Where one message can't carry them, the first one's prefix is narrowed toward the one that is asked for. Else the Map-Request goes
///   on to the source of the row's Map-Register.
/// - Where no row covers it, or its records fit no message, the prefix of its address alone is answered: by its row, or by a negative
///   reply for the widest prefix around the address in which nobody is there, for 1 minute where a site has the address, else 15.
/// - While the Map-Server is `starting` and rows haven't come back yet, it sends no negative reply, and no records of a row whose
///   prefix isn't the longest of a site that covers the one that is asked for.
pub fn server_reply<A: Allocator + Copy, B: Allocator, C: Memory + Copy>(
    alloc: C,
    table: &Table<A>,
    sites: &Sites<B>,
    asked: &Prefix,
    starting: bool,
    now: u64,
) -> Result<Reply<C>, AllocError>
    ensures reply { IfOk result
        (λ reply. IsReply table.now.rows sites.now asked.now starting now reply) }
    ensures one_each { OneEach table.now.rows }
    ensures memory { OnErr result C.may_refuse }
{
    if let Some(reply) = reply_for(alloc, table, sites, asked, starting, now)? {
        return Ok(reply);
    }
    let addr = asked.addr();
    let alone = Prefix::new(addr, addr.family().max_mask_len()).unwrap();
    if let Some(reply) = reply_for(alloc, table, sites, &alone, starting, now)? {
        return Ok(reply);
    }
    Ok(negative(table, sites, &addr, starting, now))
}

// What is sent for a prefix for which a row answers; `None` where none does, or one message can't carry its records.
fn reply_for<A: Allocator + Copy, B: Allocator, C: Memory + Copy>(
    alloc: C,
    table: &Table<A>,
    sites: &Sites<B>,
    asked: &Prefix,
    starting: bool,
    now: u64,
) -> Result<Option<Reply<C>>, AllocError>
    ensures reply { IfOk result (λ found. IfSome found
        (λ reply. RepliesFor table.now.rows sites.now asked.now starting now reply)) }
    ensures unanswered { IfOk result (λ found. found ≡ None
        → IsUnanswered table.now.rows sites.now asked.now starting now) }

    // A row's records always fit for a prefix of one address.
    ensures inner { IfOk result (λ found. found ≡ None
        → NoneAnswersFor table.now.rows asked.now now
        ⊎ (asked.now.mask_len < max_len asked.now.addr)) }
    ensures one_each { OneEach table.now.rows }
    ensures blocks { All (λ h. IsPrefix h.mapping.eid) table.now.rows }
    ensures memory { OnErr result C.may_refuse }
{
    let Some(best) = table.best_for(asked, now) else {
        return Ok(None);
    };
    if !best.proxy {
        return Ok(Some(Reply::Forward(best.from)));
    }
    if is_held_back(starting, sites, asked, best) {
        return Ok(Some(Reply::Silent));
    }
    match widest_records(alloc, table, best, asked, now)? {
        Some(records) => Ok(Some(Reply::Records(Records::from_vec(records)))),
        None => Ok(None),
    }
}

// What is sent for an address that no row has.
fn negative<A: Allocator + Copy, B: Allocator, C: Memory + Copy>(
    table: &Table<A>,
    sites: &Sites<B>,
    addr: &Addr,
    starting: bool,
    now: u64,
) -> Reply<C>
    requires none { NoneAnswersFor table.now.rows (alone addr.now) now }
    requires blocks { All (λ h. IsPrefix h.mapping.eid) table.now.rows }
    requires whole { IsWhole addr.now }
    ensures { RepliesNone table.now.rows sites.now addr.now starting now result }
{
    if starting {
        return Reply::Silent;
    }
    Reply::Negative(Negative {
        eid: table.hole(sites, addr, now).unwrap(),
        ttl: negative_ttl(sites.configured(addr)),
    })
}

// How long an ITR may keep a negative reply, in minutes.
fn negative_ttl(configured: bool) -> u32
    ensures { result ≡ negative_ttl configured }
{
    if configured { 1 } else { 15 }
}
