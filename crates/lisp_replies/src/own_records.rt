//! The records of a router's database for a prefix.

ghost use Rattle.std.specs.Prelude.{◌≡◌, ◌∷◌, map, IfOk, OnErr};
ghost use Rattle.std.specs.List.{All};
ghost use Rattle.std.specs.Option.{option_map};
ghost use Rattle.lisp_records.specs.Address.{IsPrefix};
ghost use Rattle.lisp_replies.specs.OwnSteps.{is_longer};
ghost use Rattle.lisp_replies.specs.Own.{AreOwnRecords, IsLeastOwnTtl, IsLongestForOf, own_inside, own_locator, own_record};

use lisp_lookup::is_inside;
use lisp_memory::{FallibleVec, Memory};
use lisp_records::{Addr, Locator, MapRecord, Prefix};
use std::alloc::{AllocError, Allocator};

/// The record of the longest prefix that covers the one that is asked for; `None` where none does.
pub(crate) fn longest_for<'a, A: Allocator>(
    records: &'a [MapRecord<A>],
    asked: &Prefix,
) -> Option<&'a MapRecord<A>>
    ensures longest { IsLongestForOf records.now asked.now (option_map (λ m. m.now) result) }

    // What the type promises of every record.
    ensures prefixes { All (λ m. IsPrefix m.eid) records.now }
{
    let mut longest: Option<&MapRecord<A>> = None;
    for record in records {
        // A proof learns here that the prefix is a block.
        let _first = record.eid_ref().addr();
        if record.eid_ref().covers(asked) && is_longer(longest, record) {
            longest = Some(record);
        }
    }
    longest
}

// Whether a record's prefix is longer than that of another one, where there is one.
fn is_longer<A: Allocator>(one: Option<&MapRecord<A>>, other: &MapRecord<A>) -> bool
    ensures { result ≡ is_longer (option_map (λ m. m.now) one.entry) other.now }
{
    match one {
        Some(one) => one.eid_ref().mask_len() < other.eid_ref().mask_len(),
        None => true,
    }
}

/// The records for a prefix, of the longest one that covers what is asked for and of those of longer prefixes inside, as a router sends
/// them: authoritative, all with the least TTL, and where an address is probed with the probe bit in its locators.
pub(crate) fn own_records<A: Allocator, C: Memory + Copy>(
    alloc: C,
    records: &[MapRecord<A>],
    longest: &MapRecord<A>,
    eid: &Prefix,
    probed: Option<Addr>,
) -> Result<Vec<MapRecord<C>, C>, AllocError>
    ensures own { IfOk result
        (λ own. AreOwnRecords records.now probed eid.now longest.now own.items) }
    ensures memory { OnErr result C.may_refuse }
{
    let ttl = least_ttl(records, longest, eid);
    let mut own = Vec::new(alloc);
    own.try_push(own_record(alloc, probed, ttl, eid, longest)?)?;
    for record in records {
        let inner = record.eid_ref();
        if is_inside(eid, inner) {
            own.try_push(own_record(alloc, probed, ttl, inner, record)?)?;
        }
    }
    Ok(own)
}

// The least TTL of a record and of those of longer prefixes inside `eid`, in minutes.
fn least_ttl<A: Allocator>(records: &[MapRecord<A>], longest: &MapRecord<A>, eid: &Prefix) -> u32
    ensures { IsLeastOwnTtl (longest.now ∷ own_inside records.now eid.now) result }
{
    let mut least = longest.ttl();
    for record in records {
        if is_inside(eid, record.eid_ref()) {
            least = least.min(record.ttl());
        }
    }
    least
}

// A record as a router sends it, for a TTL, in minutes, and a prefix.
fn own_record<A: Allocator, C: Memory + Copy>(
    alloc: C,
    probed: Option<Addr>,
    ttl: u32,
    eid: &Prefix,
    entry: &MapRecord<A>,
) -> Result<MapRecord<C>, AllocError>
    ensures record { IfOk result (λ own. own ≡ own_record probed ttl eid.now entry.now) }
    ensures memory { OnErr result C.may_refuse }
{
    let locators = own_locators(alloc, probed, entry.locators())?;
    let own = MapRecord::new(ttl, entry.act(), true, entry.version(), *eid, locators);
    Ok(own.unwrap())
}

// Locators as a router sends them.
fn own_locators<C: Memory + Copy>(
    alloc: C,
    probed: Option<Addr>,
    locators: &[Locator],
) -> Result<Vec<Locator, C>, AllocError>
    ensures own { IfOk result (λ own. own.items ≡ map (own_locator probed) locators.now) }
    ensures memory { OnErr result C.may_refuse }
{
    let mut own = Vec::new(alloc);
    own.make_room_for(locators)?;
    for locator in locators {
        own.try_push(own_locator(probed, locator))?;
    }
    Ok(own)
}

// A locator as a router sends it: with the probe bit where its address is probed.
fn own_locator(probed: Option<Addr>, locator: &Locator) -> Locator
    ensures { result ≡ own_locator probed locator.now }
{
    match probed {
        Some(probed) if locator.addr == probed => Locator {
            probe: true,
            ..*locator
        },
        _ => *locator,
    }
}
