//! The worked record.

use lisp_records::{Addr, Locator, MapRecord};

/// The worked record, as it is written.
pub const RECORD: [u8; 28] = [
    0, 0, 0x05, 0xa0, // TTL: 1440 minutes
    1, 16, // one locator, a mask of 16 bits
    0x10, 0, // ACT 0, authoritative
    0, 0, // Map-Version 0
    0, 1, 10, 1, 0, 0, // IPv4, 10.1.0.0
    1, 100, 255, 0, // priority, weight, multicast priority and weight
    0, 0x05, // local and reachable, not probed
    0, 1, 192, 0, 2, 1, // IPv4, 192.0.2.1
];

/// The locator of the worked record.
const LOCATOR: Locator = Locator {
    priority: 1,
    weight: 100,
    m_priority: 255,
    m_weight: 0,
    local: true,
    probe: false,
    reachable: true,
    addr: Addr::V4([192, 0, 2, 1]),
};

/// What a record says: what `MapRecord::new` takes.
#[derive(Drop)]
pub struct Said<'a> {
    pub ttl: u32,
    pub act: u8,
    pub authoritative: bool,
    pub version: u16,
    pub eid: (Addr, u8),
    pub locators: &'a [Locator],
}

/// What the worked record says.
pub const SAID: Said<'static> = Said {
    ttl: 1440,
    act: 0,
    authoritative: true,
    version: 0,
    eid: (Addr::V4([10, 1, 0, 0]), 16),
    locators: &[LOCATOR],
};

/// Whether the record says this.
pub fn says(record: &MapRecord, said: &Said) -> bool {
    let eid = record.eid();
    record.ttl() == said.ttl
        && record.act() == said.act
        && record.authoritative() == said.authoritative
        && record.version() == said.version
        && (eid.addr(), eid.mask_len()) == said.eid
        && record.locators() == said.locators
}
