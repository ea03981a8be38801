//! Records and their locators, as C has them.

ghost use Rattle.std.specs.Prelude.{◌≡◌, ◌<◌, length, IsErrOf, IfOk};
ghost use Rattle.lisp_registration.specs.Plain.{plain_locator, no_record, plain_mapping, plain_record, plain_record_at};
ghost use Rattle.lisp_registration.specs.Meaning.{Makes, block_in, few_records_in, locator_in, record_in, records_in};
ghost use Rattle.lisp_registration.specs.declared.fault.WriteFault.TheVariants.{OutOfMemory};

use crate::address::PlainAddress;
use crate::fault::WriteFault;
use crate::items::{Says, items_of};
use lisp_memory::{FallibleVec, Memory};
use lisp_records::{Locator, MAX_RECORDS, MapRecord, Prefix, RecordLayout, Records};
use std::alloc::Allocator;

/// A locator, in plain numbers (RFC 9301 section 5.4).
#[repr(C)]
#[derive(Clone, Copy)]
pub struct PlainLocator {
    /// Unicast priority: less is preferred, 255 is never used.
    pub priority: u8,
    /// The share of unicast traffic among locators of one priority.
    pub weight: u8,
    /// Multicast priority.
    pub m_priority: u8,
    /// Multicast weight.
    pub m_weight: u8,
    /// L, as 1 or 0: the locator is of the router that sent the record.
    pub local: u8,
    /// p, as 1 or 0: the locator is probed.
    pub probe: u8,
    /// R, as 1 or 0: the sender can reach the locator.
    pub reachable: u8,
    /// The locator itself.
    pub address: PlainAddress,
    /// Where it ends in the message that it was read from. Not written.
    pub end: usize,
}

impl PlainLocator {
    /// A locator in plain numbers, which ends at byte `end`.
    pub(crate) fn of(locator: &Locator, end: usize) -> PlainLocator
        ensures { result ≡ plain_locator locator.now end }
    {
        PlainLocator {
            priority: locator.priority,
            weight: locator.weight,
            m_priority: locator.m_priority,
            m_weight: locator.m_weight,
            local: u8::from(locator.local),
            probe: u8::from(locator.probe),
            reachable: u8::from(locator.reachable),
            address: PlainAddress::of(locator.addr),
            end,
        }
    }
}

impl Says for PlainLocator {
    type Said = Locator;

    ghost said = { locator_in };

    /// The locator, of which each flag but 0 is set; `None` where the family is neither IPv4 nor IPv6.
    fn said(&self) -> Option<Locator>
        ensures { result ≡ locator_in self.now }
    {
        let addr = self.address.said()?;
        Some(Locator {
            priority: self.priority,
            weight: self.weight,
            m_priority: self.m_priority,
            m_weight: self.m_weight,
            local: self.local != 0,
            probe: self.probe != 0,
            reachable: self.reachable != 0,
            addr,
        })
    }
}

/// A record but its locators, in plain numbers (RFC 9301 section 5.4).
#[repr(C)]
#[derive(Clone, Copy)]
pub struct PlainRecord {
    /// How long a cache may keep the record, in minutes.
    pub ttl: u32,
    /// The Map-Version number, 0 to 4095.
    pub version: u16,
    /// The ACT bits, 0 to 7: what to do where the record has no locators.
    pub act: u8,
    /// A, as 1 or 0: the record is its owner's own.
    pub authoritative: u8,
    /// How many bits of the EID-Prefix its addresses share.
    pub mask_len: u8,
    /// How many locators the record has.
    pub locator_count: u8,
    /// The first address of the EID-Prefix. Of one that is written, bits past the mask are cleared.
    pub eid: PlainAddress,
    /// Where its first locator begins in the message that it was read from; the others follow. Not written.
    pub locators_at: usize,
    /// Where it ends there. Not written.
    pub end: usize,
}

impl PlainRecord {
    /// The record of a layout in plain numbers.
    pub(crate) fn of<A: Allocator>(layout: &RecordLayout<A>) -> PlainRecord
        ensures { result ≡ plain_record layout.now }
    {
        let fields = &layout.fields;
        PlainRecord::at(fields, layout.locator_count, layout.locators_at, layout.end)
    }

    /// A record that is in no message, in plain numbers.
    pub(crate) fn of_mapping<A: Allocator>(mapping: &MapRecord<A>) -> PlainRecord
        ensures { result ≡ plain_mapping mapping.now }
    {
        let count = mapping.locators().len() as u8;
        PlainRecord::at(mapping, count, 0, 0)
    }

    /// No record: all is 0.
    pub(crate) const fn none() -> PlainRecord
        ensures { result ≡ no_record }
    {
        PlainRecord {
            ttl: 0,
            version: 0,
            act: 0,
            authoritative: 0,
            mask_len: 0,
            locator_count: 0,
            eid: PlainAddress::none(),
            locators_at: 0,
            end: 0,
        }
    }

    // A record that counts so many locators, of which the first begins at `locators_at`, and which ends at `end`.
    fn at<A: Allocator>(
        fields: &MapRecord<A>,
        locator_count: u8,
        locators_at: usize,
        end: usize,
    ) -> PlainRecord
        ensures { result ≡ plain_record_at fields.now locator_count locators_at end }
    {
        let eid = fields.eid();
        PlainRecord {
            ttl: fields.ttl(),
            version: fields.version(),
            act: fields.act(),
            authoritative: u8::from(fields.authoritative()),
            mask_len: eid.mask_len(),
            locator_count,
            eid: PlainAddress::of(eid.addr()),
            locators_at,
            end,
        }
    }

    /// The record of these locators, in memory of `alloc`. Faults: `Field`, of the EID-Prefix, of the locators from the
    /// first one on, then of ACT and the Map-Version number.
    pub(crate) fn record<A: Memory>(
        &self,
        alloc: A,
        locators: &[PlainLocator],
    ) -> Result<MapRecord<A>, WriteFault>
        requires few { length locators.now < 256 }
        ensures value { Makes (λ r. r) result (record_in self.now locators.now) }
        ensures memory { IsErrOf result OutOfMemory → A.may_refuse }
    {
        let Some(eid) = self.block() else {
            return Err(WriteFault::Field);
        };
        let locators = items_of(alloc, locators)?;
        let authoritative = self.authoritative != 0;
        let ttl = self.ttl;
        match MapRecord::new(ttl, self.act, authoritative, self.version, eid, locators) {
            Some(record) => Ok(record),
            None => Err(WriteFault::Field),
        }
    }

    // The EID-Prefix.
    fn block(&self) -> Option<Prefix>
        ensures { result ≡ block_in self.now }
    {
        Prefix::new(self.eid.said()?, self.mask_len)
    }
}

/// The records of a message, of which each has so many of the locators as it counts, those of the first record first; in
/// memory of `alloc`. Faults: `Counts` for more than 255 records; of each record `Counts` where too few locators are left, and
/// `Field`; then `Counts` where locators are left.
pub(crate) fn records_of<A: Memory + Copy>(
    alloc: A,
    plain: &[PlainRecord],
    locators: &[PlainLocator],
) -> Result<Records<A>, WriteFault>
    ensures value { Makes (λ r. r) result (few_records_in plain.now locators.now) }
    ensures few { IfOk result (λ r. length r < 256) }
    ensures memory { IsErrOf result OutOfMemory → A.may_refuse }
{
    if plain.len() > MAX_RECORDS {
        return Err(WriteFault::Counts);
    }
    let records = each_record(alloc, plain, locators)?;
    Ok(Records::from_vec(records))
}

// The records, one after the other. Faults: those of `records_of` but the first.
fn each_record<A: Memory + Copy>(
    alloc: A,
    plain: &[PlainRecord],
    locators: &[PlainLocator],
) -> Result<Vec<MapRecord<A>, A>, WriteFault>
    ensures value { Makes (λ v. v.items) result (records_in plain.now locators.now) }
    ensures count { IfOk result (λ v. length v.items ≡ length plain.now) }
    ensures memory { IsErrOf result OutOfMemory → A.may_refuse }
{
    let mut records = Vec::new(alloc);
    let mut rest = locators;
    for entry in plain {
        let count = usize::from(entry.locator_count);
        let Some((own, others)) = rest.split_at_checked(count) else {
            return Err(WriteFault::Counts);
        };
        records.try_push(entry.record(alloc, own)?)?;
        rest = others;
    }
    if !rest.is_empty() {
        return Err(WriteFault::Counts);
    }
    Ok(records)
}
