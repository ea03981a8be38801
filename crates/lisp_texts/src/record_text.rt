//! The texts of records.

ghost use Rattle.std.specs.Prelude.{◌≡◌, Some, IfSome, IfOk, OnErr, OnOk, string_bytes};
ghost use Rattle.lisp_memory.specs.Appending.{StringGrowsBy};
ghost use Rattle.lisp_records.specs.Record.{MapRecordValue, IsMapRecord};
ghost use Rattle.lisp_texts.specs.Text.{IsRecordText};
ghost use Rattle.lisp_texts.specs.Reading.{texts, items_of, pieces_of, numbers_of, located, locator_of, locators_of, front_of, record_of, record_text_of};
ghost use Rattle.lisp_texts.specs.Written.{numbers_text, locator_text, locators_text, record_text};

use crate::number::{byte_from_text, number_from_text};
use crate::text::{addr_from_text, parted, prefix_from_text, put_addr, put_prefix, quarters};
use lisp_memory::{FallibleString, FallibleVec, Memory};
use lisp_records::{Addr, Locator, MapRecord, Prefix};
use std::alloc::{AllocError, Allocator};

/// The record that a text spells, or `None`: a prefix as for [`prefix_from_text`], `=`, the TTL,
/// and for each locator `+`, its address and, all or none, its four numbers:
///
/// ```text
/// 10.1.0.0/16=1440+192.0.2.1+192.0.2.2/2/50/255/0
/// ```
///
/// They are priority, weight, multicast priority and multicast weight, from 0 to 255; left out,
/// they are 1, 100, 255 and 0. Numbers may have leading zeros. There are at most 255 locators.
/// ACT and the Map-Version are 0, A is set; of a locator L and R are set, and p is clear.
pub fn record_from_text<A: Memory + Copy>(
    alloc: A,
    text: &str,
) -> Result<Option<MapRecord<A>>, AllocError>
    ensures found { IfOk result (λ r. IfSome r (λ m. IsRecordText text.now m)) }
    ensures only { (m : MapRecordValue) → IsRecordText text.now m → IfOk result (λ r. r ≡ Some m) }
    ensures exact { IfOk result (λ r. r ≡ record_text_of text.now) }
    ensures memory { OnErr result A.may_refuse }
{
    let pieces = pieces(alloc, text)?;
    record(alloc, &pieces)
}

/// The text of a record: its prefix, `=`, its TTL, and for each locator `+`, its address and its
/// four numbers. ACT, A, the Map-Version and the locators' flags are not shown.
pub fn record_to_text<A: Memory, B: Allocator>(
    alloc: A,
    entry: &MapRecord<B>,
) -> Result<String<A>, AllocError>
    ensures text { IfOk result (λ t. string_bytes t ≡ record_text entry.now) }
    ensures memory { OnErr result A.may_refuse }

    // Every record of the program has this text, so that what is written is read again.
    ensures known { IsMapRecord entry.now }
{
    let mut text = String::new(alloc);
    put_record(&mut text, entry)?;
    Ok(text)
}

// The pieces between plus signs.
fn pieces<A: Memory>(alloc: A, text: &str) -> Result<Vec<&str, A>, AllocError>
    ensures value { IfOk result (λ v. texts v.items ≡ pieces_of text.now) }
    ensures memory { OnErr result A.may_refuse }
{
    let mut pieces = Vec::new(alloc);
    for piece in text.split('+') {
        pieces.try_push(piece)?;
    }
    Ok(pieces)
}

// A record from its pieces.
#[tactic(auto, unfolding(crate::specs::Reading::record_of))]
fn record<A: Memory + Copy>(alloc: A, pieces: &[&str]) -> Result<Option<MapRecord<A>>, AllocError>
    ensures value { IfOk result (λ r. r ≡ record_of (texts pieces.now)) }
    ensures memory { OnErr result A.may_refuse }
{
    let [piece, pieces @ ..] = pieces else {
        return Ok(None);
    };
    let Some((eid, ttl)) = front(piece) else {
        return Ok(None);
    };
    let Some(locators) = locators(alloc, pieces)? else {
        return Ok(None);
    };
    Ok(MapRecord::new(ttl, 0, true, 0, eid, locators))
}

// A prefix and a TTL.
#[tactic(auto, unfolding(crate::specs::Reading::front_of, crate::specs::Reading::number_below))]
fn front(text: &str) -> Option<(Prefix, u32)>
    ensures { result ≡ front_of text.now }
{
    let (eid, ttl) = parted(text, '=')?;
    let eid = prefix_from_text(eid)?;
    let ttl = u32::try_from(number_from_text(ttl)?).ok()?;
    Some((eid, ttl))
}

// The locators of pieces, one each.
fn locators<A: Memory>(alloc: A, pieces: &[&str]) -> Result<Option<Vec<Locator, A>>, AllocError>
    ensures value { IfOk result (λ r. items_of r ≡ locators_of (texts pieces.now)) }
    ensures memory { OnErr result A.may_refuse }
{
    let mut locators = Vec::new(alloc);
    for piece in pieces {
        let Some(locator) = locator(piece) else {
            return Ok(None);
        };
        locators.try_push(locator)?;
    }
    Ok(Some(locators))
}

// A locator: its address, and its numbers where a slash follows.
#[tactic(auto, unfolding(crate::specs::Reading::locator_of))]
fn locator(text: &str) -> Option<Locator>
    ensures { result ≡ locator_of text.now }
{
    match parted(text, '/') {
        None => Some(located(addr_from_text(text)?, [1, 100, 255, 0])),
        Some((addr, behind)) => {
            let addr = addr_from_text(addr)?;
            Some(located(addr, numbers(behind)?))
        }
    }
}

// The locator with this address, and with this priority and weight, multicast priority and weight.
fn located(addr: Addr, numbers: [u8; 4]) -> Locator
    ensures { result ≡ located addr numbers }
{
    let [priority, weight, m_priority, m_weight] = numbers;
    Locator {
        priority,
        weight,
        m_priority,
        m_weight,
        local: true,
        probe: false,
        reachable: true,
        addr,
    }
}

// Four numbers, joined by slashes.
#[tactic(auto, unfolding(crate::specs::Reading::numbers_of))]
fn numbers(text: &str) -> Option<[u8; 4]>
    ensures { result ≡ numbers_of text.now }
{
    let (first, second, third, fourth) = quarters(text, '/')?;
    Some([
        byte_from_text(first)?,
        byte_from_text(second)?,
        byte_from_text(third)?,
        byte_from_text(fourth)?,
    ])
}

// Appends the text of a record. Out of memory, it may leave a part of it.
fn put_record<A: Memory, B: Allocator>(
    text: &mut String<A>,
    entry: &MapRecord<B>,
) -> Result<(), AllocError>
    ensures text { OnOk result (StringGrowsBy text.old text.new (record_text entry.now)) }
    ensures memory { OnErr result A.may_refuse }
    ensures known { IsMapRecord entry.now }
{
    let (ttl, locators) = (entry.ttl(), entry.locators());
    put_prefix(text, entry.eid())?;
    text.try_write(format_args!("={ttl}"))?;
    put_locators(text, locators)
}

// Appends the texts of locators, each after a plus sign. Out of memory, it may leave a part of them.
fn put_locators<A: Memory>(text: &mut String<A>, locators: &[Locator]) -> Result<(), AllocError>
    ensures text { OnOk result (StringGrowsBy text.old text.new (locators_text locators.now)) }
    ensures memory { OnErr result A.may_refuse }
{
    for locator in locators {
        text.try_push('+')?;
        put_locator(text, locator)?;
    }
    Ok(())
}

// Appends the text of a locator. Out of memory, it may leave a part of it.
fn put_locator<A: Memory>(text: &mut String<A>, locator: &Locator) -> Result<(), AllocError>
    ensures text { OnOk result (StringGrowsBy text.old text.new (locator_text locator.now)) }
    ensures memory { OnErr result A.may_refuse }
{
    put_addr(text, locator.addr)?;
    put_numbers(text, locator)
}

// Appends the numbers of a locator, each after a slash.
fn put_numbers<A: Memory>(text: &mut String<A>, locator: &Locator) -> Result<(), AllocError>
    ensures text { OnOk result (StringGrowsBy text.old text.new (numbers_text locator.now)) }
    ensures memory { OnErr result A.may_refuse }
{
    let (priority, weight) = (locator.priority, locator.weight);
    let (m_priority, m_weight) = (locator.m_priority, locator.m_weight);
    text.try_write(format_args!("/{priority}/{weight}/{m_priority}/{m_weight}"))
}
