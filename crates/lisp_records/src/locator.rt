//! Locators: where the addresses of a prefix are reached.

ghost use Rattle.std.specs.Prelude.{◌≡◌, ◌≤◌, length, OnErr};
ghost use Rattle.lisp_memory.specs.Appending.{VecAppends};
ghost use Rattle.lisp_records.specs.Written.{written_locator_head, written_locator};
ghost use Rattle.lisp_records.specs.Result.{Reads};
ghost use Rattle.lisp_records.specs.Reading.{locator_at};

use crate::address::{Addr, read_address};
use crate::fault::RecordFault;
use crate::flags::is_set;
use crate::record::joined;
use lisp_memory::{FallibleCopies, Memory};
use std::alloc::AllocError;

// The flags, byte 5.
const LOCAL: u8 = 0x04;

const PROBE: u8 = 0x02;

const REACHABLE: u8 = 0x01;

/// One locator of a record (RFC 9301 section 5.4):
///
/// ```text
/// byte 0  Priority       byte 4     unused, save L 0x04, p 0x02 and R 0x01 of byte 5
/// byte 1  Weight         byte 6, 7  Loc-AFI: 1 is IPv4, 2 is IPv6
/// byte 2  M Priority     byte 8 on  the address, 4 or 16 bytes
/// byte 3  M Weight
/// ```
#[derive(Clone, Copy, Debug, PartialEq, Eq)]
pub struct Locator {
    /// Unicast priority: less is preferred, 255 is never used.
    pub priority: u8,
    /// The share of unicast traffic among locators of one priority.
    pub weight: u8,
    /// Multicast priority.
    pub m_priority: u8,
    /// Multicast weight.
    pub m_weight: u8,
    /// L: the locator is of the router that sent the record.
    pub local: bool,
    /// p: the locator is probed.
    pub probe: bool,
    /// R: the sender can reach the locator.
    pub reachable: bool,
    /// The locator itself.
    pub addr: Addr,
}

impl Locator {
    /// The length of the written spelling, in bytes: 12 or 24.
    pub(crate) fn written_len(&self) -> usize
        ensures len { result ≡ length (written_locator self.now) }
        ensures small { result ≤ 24 }
    {
        8 + self.addr.octets().len()
    }
}

/// The locator at the front of the bytes, and the bytes after it. Its faults come in the order
/// `Short` (no 8 bytes), `Afi`, `Short` (no whole address).
pub(crate) fn read_locator(bytes: &[u8]) -> Result<(Locator, &[u8]), RecordFault>
    ensures { Reads (λ x. (x.0, x.1.now)) result (locator_at bytes.now) }
{
    let &[
        priority,
        weight,
        m_priority,
        m_weight,
        _,
        flags,
        afi_high,
        afi_low,
        ref rest @ ..,
    ] = bytes
    else {
        return Err(RecordFault::Short);
    };
    let (addr, rest) = read_address(u16::from_be_bytes([afi_high, afi_low]), 0, rest)?;
    let locator = Locator {
        priority,
        weight,
        m_priority,
        m_weight,
        local: is_set(flags, LOCAL),
        probe: is_set(flags, PROBE),
        reachable: is_set(flags, REACHABLE),
        addr,
    };
    Ok((locator, rest))
}

/// Appends the written spelling of a locator. Out of memory, it leaves `out` as it was.
pub(crate) fn put_locator<A: Memory>(
    out: &mut Vec<u8, A>,
    locator: &Locator,
) -> Result<(), AllocError>
    ensures items { VecAppends result out.old out.new (written_locator locator.now) }
    ensures memory { OnErr result A.may_refuse }
{
    let head = head_of(locator);
    match &locator.addr {
        Addr::V4(octets) => out.try_extend_from_slice(&joined::<12>(&head, octets)),
        Addr::V6(octets) => out.try_extend_from_slice(&joined::<24>(&head, octets)),
    }
}

// The bytes before the address.
fn head_of(locator: &Locator) -> [u8; 8]
    ensures { result ≡ written_locator_head locator.now }
{
    let flags = u8::from(locator.local) * LOCAL
        + u8::from(locator.probe) * PROBE
        + u8::from(locator.reachable) * REACHABLE;
    let [afi_high, afi_low] = locator.addr.family().afi().to_be_bytes();
    [
        locator.priority,
        locator.weight,
        locator.m_priority,
        locator.m_weight,
        0,
        flags,
        afi_high,
        afi_low,
    ]
}
