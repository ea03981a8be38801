//! The addresses of a Map-Request: its Source EID, its ITR-RLOCs, and those of its records.

ghost use Rattle.std.specs.Prelude.{◌≡◌, ◌≤◌, ◌*◌, ◌++◌, IfOk, OnOk, OnErr};
ghost use Rattle.lisp_records.specs.Address.{IsWhole, max_len, width, prefix_around};
ghost use Rattle.lisp_records.specs.Result.{Reads};
ghost use Rattle.lisp_records.specs.Reading.{address_at, named_at};
ghost use Rattle.lisp_records.specs.Written.{written_address};
ghost use Rattle.lisp_requests.specs.Reading.{IfOutOfMemory, lifted};
ghost use Rattle.lisp_requests.specs.Request.{IsEid, IsSource, rloc_at, source_at, eid_at, written_source, written_eid};

use crate::fault::RequestFault;
use crate::head::number_at;
use lisp_memory::{FallibleCopies, Memory};
use lisp_records::{Addr, Family, Prefix};
use std::alloc::AllocError;

// The bytes of an AFI.
const AFI_LEN: usize = 2;

// The bytes of a record before its address: a reserved one, the mask length and the AFI.
const EID_HEAD_LEN: usize = 4;

// Where the fields of a record stand.
const MASK_LEN_AT: usize = 1;

const EID_AFI_AT: usize = 2;

// The AFI of a Source EID that is not there.
const NO_ADDRESS: u16 = 0;

/// The address at the front of the bytes, of the family that an AFI names, and the bytes after it. The faults come in the
/// order `Afi`, `Mask` (a mask of so many bits, 0 where there is none, is longer than the address), `Short`.
fn read_named(afi: u16, mask_len: u8, bytes: &[u8]) -> Result<(Addr, &[u8]), RequestFault>
    ensures address { Reads (λ x. (x.0, x.1.now)) result
        (lifted (named_at afi mask_len bytes.now)) }
    ensures plain { IfOutOfMemory result ⊥ }
    ensures fits { IfOk result (λ x. mask_len ≤ max_len x.0) }
{
    let family = match afi {
        1 => Family::Ipv4,
        2 => Family::Ipv6,
        _ => return Err(RequestFault::Afi),
    };
    if mask_len > family.max_mask_len() {
        return Err(RequestFault::Mask);
    }
    read_octets(family, bytes)
}

// The address of a family at the front of the bytes, and the bytes after it; `Short` where they are too few.
#[tactic(auto, unfolding(lisp_records::specs::Reading::address_at))]
fn read_octets(expected: Family, bytes: &[u8]) -> Result<(Addr, &[u8]), RequestFault>
    ensures address { Reads (λ x. (x.0, x.1.now)) result (lifted (address_at expected bytes.now)) }
    ensures plain { IfOutOfMemory result ⊥ }
    ensures fits { IfOk result (λ x. max_len x.0 ≡ 8 * width expected) }
{
    match expected {
        Family::Ipv4 => {
            let Some((octets, rest)) = bytes.split_first_chunk::<4>() else {
                return Err(RequestFault::Short);
            };
            Ok((Addr::V4(*octets), rest))
        }
        Family::Ipv6 => {
            let Some((octets, rest)) = bytes.split_first_chunk::<16>() else {
                return Err(RequestFault::Short);
            };
            Ok((Addr::V6(*octets), rest))
        }
    }
}

/// The ITR-RLOC at the front of the bytes, and the bytes after it. The faults come in the order `Short` (no AFI), `Afi`,
/// `Short` (no whole address).
#[tactic(auto, unfolding(crate::specs::Request::rloc_at))]
pub(crate) fn read_rloc(bytes: &[u8]) -> Result<(Addr, &[u8]), RequestFault>
    ensures address { Reads (λ x. (x.0, x.1.now)) result (rloc_at bytes.now) }
    ensures plain { IfOutOfMemory result ⊥ }
{
    if bytes.len() < AFI_LEN {
        return Err(RequestFault::Short);
    }
    let (_, rest) = bytes.split_at(AFI_LEN);
    read_named(number_at(bytes, 0), 0, rest)
}

/// The Source EID at the front of the bytes, nothing where its AFI is 0, and the bytes after it. The faults are those of
/// an ITR-RLOC.
#[tactic(auto, unfolding(crate::specs::Request::source_at))]
pub(crate) fn read_source(bytes: &[u8]) -> Result<(Option<Addr>, &[u8]), RequestFault>
    ensures address { Reads (λ x. (x.0, x.1.now)) result (source_at bytes.now) }
    ensures plain { IfOutOfMemory result ⊥ }
{
    if bytes.len() < AFI_LEN {
        return Err(RequestFault::Short);
    }
    let (_, rest) = bytes.split_at(AFI_LEN);
    if number_at(bytes, 0) == NO_ADDRESS {
        return Ok((None, rest));
    }
    let (addr, rest) = read_rloc(bytes)?;
    Ok((Some(addr), rest))
}

/// The address and the mask length of the record at the front of the bytes, and the bytes after it. The faults come in the
/// order `Short` (no 4 bytes), `Afi`, `Mask`, `Short` (no whole address).
#[tactic(auto, unfolding(crate::specs::Request::eid_at))]
pub(crate) fn read_eid(bytes: &[u8]) -> Result<(Addr, u8, &[u8]), RequestFault>
    ensures eid { Reads (λ x. (prefix_around x.0 x.1, x.2.now)) result (eid_at bytes.now) }
    ensures plain { IfOutOfMemory result ⊥ }
    ensures fits { IfOk result (λ x. x.1 ≤ max_len x.0) }
{
    if bytes.len() < EID_HEAD_LEN {
        return Err(RequestFault::Short);
    }
    let (_, rest) = bytes.split_at(EID_HEAD_LEN);
    let mask_len = bytes[MASK_LEN_AT];
    let (addr, rest) = read_named(number_at(bytes, EID_AFI_AT), mask_len, rest)?;
    Ok((addr, mask_len, rest))
}

/// Appends an AFI, and the address of it.
pub(crate) fn put_address<A: Memory>(out: &mut Vec<u8, A>, addr: Addr) -> Result<(), AllocError>
    ensures address { OnOk result (out.new.items ≡ out.old.items ++ written_address addr) }
    ensures whole { IsWhole addr }
    ensures memory { OnErr result A.may_refuse }
{
    let octets = addr.octets();
    out.try_extend_from_slice(&addr.family().afi().to_be_bytes())?;
    out.try_extend_from_slice(octets)
}

/// Appends a Source EID; AFI 0 where there is none.
pub(crate) fn put_source<A: Memory>(
    out: &mut Vec<u8, A>,
    source: Option<Addr>,
) -> Result<(), AllocError>
    ensures source { OnOk result (out.new.items ≡ out.old.items ++ written_source source) }
    ensures whole { IsSource source }
    ensures memory { OnErr result A.may_refuse }
{
    match source {
        None => out.try_extend_from_slice(&NO_ADDRESS.to_be_bytes()),
        Some(addr) => put_address(out, addr),
    }
}

/// Appends a record: a reserved byte, the mask length, the AFI and the EID-Prefix.
pub(crate) fn put_eid<A: Memory>(out: &mut Vec<u8, A>, eid: &Prefix) -> Result<(), AllocError>
    ensures eid { OnOk result (out.new.items ≡ out.old.items ++ written_eid eid.now) }
    ensures known { IsEid eid.now }
    ensures memory { OnErr result A.may_refuse }
{
    let addr = eid.addr();
    out.try_extend_from_slice(&[0, eid.mask_len()])?;
    put_address(out, addr)
}

/// The block of an address and a mask that fits it.
pub(crate) fn prefix_of(addr: Addr, mask_len: u8) -> Prefix
    requires { mask_len ≤ max_len addr }
    ensures { result ≡ prefix_around addr mask_len }
{
    Prefix::new(addr, mask_len).unwrap()
}
