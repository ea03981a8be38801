//! The record: an EID-Prefix and its locators, read from bytes and written as bytes.

ghost use Rattle.std.specs.Prelude.{◌≡◌, ◌+◌, ◌<◌, ◌≤◌, ◌↔◌, ◌++◌, length, drop, IsSome, IfOk, OnOk, OnErr};
ghost use Rattle.std.specs.List.{AllByRecursion};
ghost use Rattle.lisp_memory.specs.Appending.{VecAppends};
ghost use Rattle.lisp_records.specs.Address.{IsWhole, IsPrefix, prefix_cmp};
ghost use Rattle.lisp_records.specs.Grown.{Grew};
ghost use Rattle.lisp_records.specs.Record.{IsLocator, IsMapRecord, FitRecord, MakesRecord};
ghost use Rattle.lisp_records.specs.Spelling.{SpellsBetween};
ghost use Rattle.lisp_records.specs.Written.{written, written_head, written_afi, written_front, written_locators};
ghost use Rattle.lisp_records.specs.Result.{Reads, PassesFault};
ghost use Rattle.lisp_records.specs.Reading.{Gives, GivesSpelling, IfOutOfMemory, HasLocators, start_at, locators_at, map_record_of, record_at};

use crate::address::{Addr, read_address};
use crate::fault::RecordFault;
use crate::flags::is_set;
use crate::locator::{Locator, put_locator, read_locator};
use crate::prefix::Prefix;
use lisp_memory::{FallibleCopies, FallibleVec, Memory};
use std::alloc::{AllocError, Allocator, Global};
use std::cmp::Ordering;
use std::marker::Model;

/// The most locators of one record: their count is one byte.
pub const MAX_LOCATORS: usize = 255;

// The bytes before the EID-Prefix.
const HEAD_LEN: usize = 12;

// The flags, byte 6: the lowest bit of ACT, and A.
const ACT: u8 = 0x20;

const AUTHORITATIVE: u8 = 0x10;

/// One mapping record (RFC 9301 section 5.4):
///
/// ```text
/// byte 0 to 3  Record TTL, minutes      byte 8, 9    reserved (4 bits), Map-Version (12 bits)
/// byte 4       Locator Count            byte 10, 11  EID-Prefix-AFI: 1 is IPv4, 2 is IPv6
/// byte 5       EID mask-len             byte 12 on   EID-Prefix, 4 or 16 bytes, then the locators
/// byte 6, 7    ACT 0xe000, A 0x1000, the rest reserved
/// ```
#[derive(Debug, Drop)]
pub struct MapRecord<A: Allocator = Global> {
    eid: Prefix,
    act: u8,
    authoritative: bool,
    version: u16,
    ttl: u32,
    locators: Vec<Locator, A>,
}

impl<A: Allocator> Model for MapRecord<A> {
    ghost use Rattle.lisp_records.specs.Record.{MapRecordValue, IsMapRecord};

    ghost Value = { MapRecordValue };

    ghost view = { λ r. record { ttl = r.ttl; act = r.act; authoritative = r.authoritative; version = r.version; eid = r.eid; locators = r.locators.items } };

    ghost invariant = { λ r. IsMapRecord (record { ttl = r.ttl; act = r.act; authoritative = r.authoritative; version = r.version; eid = r.eid; locators = r.locators.items }) };
}

impl<A: Allocator> MapRecord<A> {
    /// A record of these fields: the TTL in minutes, the ACT bits, the A bit, the Map-Version
    /// number, the EID-Prefix and the locators in their order. `None` where `act` is above 7,
    /// `version` above 4095, or there are more than 255 locators.
    pub fn new(
        ttl: u32,
        act: u8,
        authoritative: bool,
        version: u16,
        eid: Prefix,
        locators: Vec<Locator, A>,
    ) -> Option<MapRecord<A>>
    where
        A: Drop,
        ensures valid { IsSome result ↔ FitRecord act version locators.items }
        ensures value { MakesRecord result ttl act authoritative version eid locators.items }
    {
        if act > 7 || version > 4095 || locators.len() > MAX_LOCATORS {
            return None;
        }
        each_fits(eid, &locators);
        Some(MapRecord {
            ttl,
            act,
            authoritative,
            version,
            eid,
            locators,
        })
    }

    /// How long a cache may keep the record, in minutes.
    pub fn ttl(&self) -> u32
        ensures { result ≡ self.now.ttl }
    {
        self.ttl
    }

    /// The ACT bits, 0 to 7: what to do where the record has no locators.
    pub fn act(&self) -> u8
        ensures value { result ≡ self.now.act }
        ensures small { result < 8 }
    {
        self.act
    }

    /// The A bit: the record is its owner's own.
    pub fn authoritative(&self) -> bool
        ensures { result ≡ self.now.authoritative }
    {
        self.authoritative
    }

    /// The Map-Version number, 0 to 4095.
    pub fn version(&self) -> u16
        ensures value { result ≡ self.now.version }
        ensures small { result < 4096 }
    {
        self.version
    }

    /// The EID-Prefix that the record maps.
    pub fn eid(&self) -> Prefix
        ensures { result ≡ self.now.eid }
    {
        self.eid
    }

    /// As `eid`, where it lies.
    pub fn eid_ref(&self) -> &Prefix
        ensures { result.now ≡ self.now.eid }
    {
        &self.eid
    }

    /// How the EID-Prefix stands to that of another record: by address (IPv4 before IPv6, then by its bytes), then by
    /// mask length.
    pub fn eid_cmp<B: Allocator>(&self, other: &MapRecord<B>) -> Ordering
        ensures { result ≡ prefix_cmp self.now.eid other.now.eid }
    {
        Prefix::order(&self.eid, &other.eid)
    }

    /// The locators, in the record's order; at most 255.
    pub fn locators(&self) -> &[Locator]
        ensures value { result.now ≡ self.now.locators }
        ensures few { length result.now < 256 }

        // What the type promises of every record.
        ensures known { IsMapRecord self.now }
    {
        &self.locators
    }

    /// An equal record, its locators in memory of `alloc`.
    pub fn copy<B: Memory>(&self, alloc: B) -> Result<MapRecord<B>, AllocError>
        ensures equal { IfOk result (λ r. r ≡ self.now) }
        ensures memory { OnErr result B.may_refuse }
    {
        let locators = Vec::try_from_slice(alloc, &self.locators)?;
        Ok(MapRecord {
            ttl: self.ttl,
            act: self.act,
            authoritative: self.authoritative,
            version: self.version,
            eid: self.eid,
            locators,
        })
    }

    /// The length of the written spelling, in bytes: at most 12 + 16 + 255 * 24.
    pub fn written_len(&self) -> usize
        ensures len { result ≡ length (written self.now) }
        ensures small { result ≤ 6148 }
    {
        let mut len = HEAD_LEN + self.eid_ref().first().family().width() as usize;
        for locator in self.locators() {
            len += locator.written_len();
        }
        len
    }
}

// The prefix is a block, and each number of a locator is a byte: the types promise it, but a proof learns
// it only by this walk.
fn each_fits(eid: Prefix, locators: &[Locator])
    ensures block { IsPrefix eid }
    ensures whole { IsWhole eid.addr }
    ensures locators { AllByRecursion IsLocator locators.now }
{
    let _ = eid.addr();
    for locator in locators {
        locator_fits(*locator);
    }
}

// As `each_fits`, of one locator.
fn locator_fits(locator: Locator)
    ensures { IsLocator locator }
{
    let _ = locator.addr.octets();
}

/// The record that begins at byte `at`, its locators in memory of `alloc`, and the position after
/// it. EID bits past the mask, and reserved bits, are ignored. The faults come in this order:
/// `Short` (no 12 bytes), `Afi`, `Mask` (longer than the address), `Short` (no whole address), then
/// for each locator `Short` (no 8 bytes), `Afi`, `Short` (no whole address). `OutOfMemory` may come
/// in place of any answer past the first address.
pub fn read_record<A: Memory>(
    alloc: A,
    bytes: &[u8],
    at: usize,
) -> Result<(MapRecord<A>, usize), RecordFault>
    requires { at ≤ length bytes.now }
    // What is read is spelled there.
    ensures found { IfOk result (λ x. SpellsBetween bytes.now at x.1 x.0) }

    // What is spelled there is read, unless memory runs out.
    ensures only { GivesSpelling bytes.now at result }

    // Which answer it is.
    ensures exact { Gives (λ x. (x.0, drop x.1 bytes.now)) result (record_at (drop at bytes.now)) }

    // Before the first locator nothing takes memory.
    ensures early { PassesFault (start_at (drop at bytes.now)) result }
    ensures memory { IfOutOfMemory result A.may_refuse }
    ensures grows { IfOutOfMemory result (HasLocators (drop at bytes.now)) }
{
    read_at(alloc, bytes, at)
}

// As `read_record`.
fn read_at<A: Memory>(
    alloc: A,
    bytes: &[u8],
    at: usize,
) -> Result<(MapRecord<A>, usize), RecordFault>
    requires { at ≤ length bytes.now }
    ensures exact { Gives (λ x. (x.0, drop x.1 bytes.now)) result (record_at (drop at bytes.now)) }
    ensures within { IfOk result (λ x. (at ≤ x.1) × (x.1 ≤ length bytes.now)) }
    ensures early { PassesFault (start_at (drop at bytes.now)) result }
    ensures memory { IfOutOfMemory result (A.may_refuse × HasLocators (drop at bytes.now)) }
{
    let (_, record) = bytes.split_at(at);
    let (addr, rest) = read_start(record)?;
    let (locators, rest) = read_locators(alloc, record[4], rest)?;
    Ok((record_of(record, addr, locators), bytes.len() - rest.len()))
}

/// The record whose first bytes are these, of the address and the locators that were read after them.
pub(crate) fn record_of<A: Allocator>(
    head: &[u8],
    addr: Addr,
    locators: Vec<Locator, A>,
) -> MapRecord<A>
    requires head { 12 ≤ length head.now }
    requires fits { IsMapRecord (map_record_of head.now addr locators.items) }
    ensures { result ≡ map_record_of head.now addr locators.items }
{
    MapRecord {
        ttl: u32::from_be_bytes([head[0], head[1], head[2], head[3]]),
        act: head[6] / ACT,
        authoritative: is_set(head[6], AUTHORITATIVE),
        version: u16::from_be_bytes([head[8] & 0x0f, head[9]]),
        eid: Prefix::masked(addr, head[5]),
        locators,
    }
}

/// The address of the EID-Prefix, and the bytes after it.
pub(crate) fn read_start(bytes: &[u8]) -> Result<(Addr, &[u8]), RecordFault>
    ensures start { Reads (λ x. (x.0, x.1.now)) result (start_at bytes.now) }
    ensures head { OnOk result (12 ≤ length bytes.now) }
{
    if bytes.len() < HEAD_LEN {
        return Err(RecordFault::Short);
    }
    let (_, rest) = bytes.split_at(HEAD_LEN);
    read_address(u16::from_be_bytes([bytes[10], bytes[11]]), bytes[5], rest)
}

// So many locators from the front of the bytes, and the bytes after them.
fn read_locators<A: Memory>(
    alloc: A,
    count: u8,
    bytes: &[u8],
) -> Result<(Vec<Locator, A>, &[u8]), RecordFault>
    ensures locators { Gives (λ x. (x.0.items, x.1.now)) result (locators_at count bytes.now) }
    ensures memory { IfOutOfMemory result (A.may_refuse × (0 < count)) }
{
    let mut locators = Vec::new(alloc);
    let mut rest = bytes;
    for _ in 0..count {
        let (locator, after) = read_locator(rest)?;
        locators.try_push(locator)?;
        rest = after;
    }
    Ok((locators, rest))
}

/// Appends the written spelling of a record: all reserved bits 0. Out of memory, it leaves `out` as
/// it was.
pub fn write_record<A: Allocator, B: Memory>(
    entry: &MapRecord<A>,
    out: &mut Vec<u8, B>,
) -> Result<(), AllocError>
    ensures ok { OnOk result (out.new.items ≡ out.old.items ++ written entry.now) }
    ensures err { OnErr result (out.new.items ≡ out.old.items) }
    ensures memory { OnErr result B.may_refuse }

    // Every record of the program has a spelling, so that what is written is read again.
    ensures known { IsMapRecord entry.now }
{
    let start = out.len();
    let locators = entry.locators();
    put_front(out, entry)?;
    if let Err(full) = put_locators(out, locators) {
        out.truncate(start);
        return Err(full);
    }
    Ok(())
}

// Appends all before the locators at once.
fn put_front<A: Allocator, B: Memory>(
    out: &mut Vec<u8, B>,
    entry: &MapRecord<A>,
) -> Result<(), AllocError>
    ensures items { VecAppends result out.old out.new (written_front entry.now) }
    ensures memory { OnErr result B.may_refuse }
{
    let head = head_of(entry);
    match entry.eid_ref().first() {
        Addr::V4(octets) => out.try_extend_from_slice(&joined::<16>(&head, octets)),
        Addr::V6(octets) => out.try_extend_from_slice(&joined::<28>(&head, octets)),
    }
}

/// The bytes before an address, and its own.
pub(crate) fn joined<const LEN: usize>(head: &[u8], octets: &[u8]) -> [u8; LEN]
    requires { LEN ≡ length head.now + length octets.now }
    ensures { result ≡ head.now ++ octets.now }
{
    let mut front = [0; LEN];
    let (start, end) = front.split_at_mut(head.len());
    start.copy_from_slice(head);
    end.copy_from_slice(octets);
    front
}

// The bytes before the EID-Prefix.
fn head_of<A: Allocator>(entry: &MapRecord<A>) -> [u8; HEAD_LEN]
    ensures { result ≡ written_head entry.now ++ written_afi entry.now.eid.addr }
{
    let [ttl_0, ttl_1, ttl_2, ttl_3] = entry.ttl.to_be_bytes();
    let [version_high, version_low] = entry.version.to_be_bytes();
    let [afi_high, afi_low] = entry.eid.first().family().afi().to_be_bytes();
    [
        ttl_0,
        ttl_1,
        ttl_2,
        ttl_3,
        entry.locators().len() as u8,
        entry.eid.mask_len(),
        entry.act() * ACT + u8::from(entry.authoritative) * AUTHORITATIVE,
        0,
        version_high,
        version_low,
        afi_high,
        afi_low,
    ]
}

fn put_locators<A: Memory>(out: &mut Vec<u8, A>, locators: &[Locator]) -> Result<(), AllocError>
    ensures ok { OnOk result (out.new.items ≡ out.old.items ++ written_locators locators.now) }
    ensures err { OnErr result (Grew out.old.items out.new.items) }
    ensures memory { OnErr result A.may_refuse }
{
    for locator in locators {
        put_locator(out, locator)?;
    }
    Ok(())
}
