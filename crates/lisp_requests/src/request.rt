//! The Map-Request.

ghost use Rattle.std.specs.Prelude.{◌≡◌, ◌<◌, ◌≤◌, ◌++◌, ◌^◌, [], length, slice_index, Ok, IfOk, OnOk, OnErr};
ghost use Rattle.std.specs.List.{AllByRecursion};
ghost use Rattle.lisp_records.specs.Address.{IsWhole};
ghost use Rattle.lisp_records.specs.Result.{Reads, PassesFault};
ghost use Rattle.lisp_requests.specs.Reading.{Gives, IfOutOfMemory, items_at};
ghost use Rattle.lisp_requests.specs.Request.{MapRequestValue, IsMapRequest, FitRequest, IsEid, IsSource, SpellsRequest, rloc_at, eid_at, head_at, front_at, map_request_of, rloc_count, request_at, TakesMemory, request_kind, request_flags, request_counts, written_rlocs, written_eids, written_request_head, written_request};

use crate::address::{
    prefix_of, put_address, put_eid, put_source, read_eid, read_rloc, read_source,
};
use crate::fault::RequestFault;
use crate::head::{COUNTS_AT, FLAGS_AT, HEAD_LEN, KIND_AT, RECORD_COUNT_AT, head, read_nonce};
use lisp_memory::{FallibleCopies, FallibleVec, Memory};
use lisp_records::{Addr, Prefix, is_set};
use std::alloc::{AllocError, Allocator, Global};
use std::marker::Model;

/// The message type.
pub(crate) const MAP_REQUEST: u8 = 1;

// The flags in the first byte.
pub(crate) const AUTHORITATIVE: u8 = 0x08;

pub(crate) const PROBE: u8 = 0x02;

pub(crate) const SMR: u8 = 0x01;

// The flags in the second byte.
pub(crate) const PITR: u8 = 0x80;

pub(crate) const SMR_INVOKED: u8 = 0x40;

// The flags in the third byte, and the values of IRC.
pub(crate) const LOCAL: u8 = 0x40;

pub(crate) const NO_REPLY: u8 = 0x20;

pub(crate) const IRC_VALUES: u8 = 0x20;

/// A Map-Request (RFC 9301 section 5.2), type 1, with 1 to 32 ITR-RLOCs and 1 to 255 EID-Prefixes:
///
/// ```text
/// byte 0        type 1 in the high 4 bits, A 0x08, M 0x04 (not read), P 0x02, S 0x01
/// byte 1        p 0x80, s 0x40, R 0x20 and I 0x10 (not read), the rest reserved
/// byte 2        reserved (1 bit), L 0x40, D 0x20, IRC 0x1f: the number of ITR-RLOCs less one
/// byte 3        Record Count
/// byte 4 to 11  nonce
/// byte 12 on    Source-EID-AFI (2 bytes; 0: no address follows) and Source EID, for each ITR-RLOC its AFI (2 bytes) and
///               address, for each record a reserved byte, EID mask-len, EID-Prefix-AFI (2 bytes) and EID-Prefix
/// ```
///
/// What follows the records, a Map-Reply record (M) or xTR-ID and Site-ID (I), is not read: a Map-Request is not
/// authenticated.
#[derive(Debug, Drop)]
pub struct MapRequest<A: Allocator = Global> {
    /// A: an authoritative answer is wanted, from the site itself.
    pub authoritative: bool,
    /// P: the ITR probes whether a locator is reached.
    pub probe: bool,
    /// S: a Solicit-Map-Request, which asks the receiver to ask again.
    pub smr: bool,
    /// p: a PITR sends it.
    pub pitr: bool,
    /// s: a Solicit-Map-Request was the reason for it.
    pub smr_invoked: bool,
    /// L: it comes from an xTR of the same site.
    pub local: bool,
    /// D: no Map-Reply is wanted.
    pub no_reply: bool,
    /// The nonce, which the Map-Reply gives back.
    pub nonce: u64,
    /// The Source EID, from which the packet came that is the reason for it.
    pub source: Option<Addr>,
    /// The ITR-RLOCs, to one of which the Map-Reply goes.
    pub itr_rlocs: Vec<Addr, A>,
    /// The EID-Prefixes that are asked for.
    pub eids: Vec<Prefix, A>,
}

impl<A: Allocator> Model for MapRequest<A> {
    ghost use Rattle.lisp_requests.specs.Request.{MapRequestValue, FitRequest};

    ghost Value = { MapRequestValue };

    ghost view = { λ m. record { authoritative = m.authoritative; probe = m.probe; smr = m.smr; pitr = m.pitr; smr_invoked = m.smr_invoked; local = m.local; no_reply = m.no_reply; nonce = m.nonce; source = m.source; itr_rlocs = m.itr_rlocs.items; eids = m.eids.items } };

    ghost invariant = { λ m. FitRequest m.itr_rlocs.items m.eids.items };
}

/// The Map-Request that the bytes begin with, its addresses and EID-Prefixes in memory of `alloc`. M, R, I, reserved bits
/// and an EID's bits past its mask are ignored. The faults come in this order: `Short` (no 12 bytes), `Kind`, `NoRecord`,
/// `Short` (no AFI) `Afi` and `Short` (no whole address) for the Source EID and for each ITR-RLOC, then for each record
/// `Short` (no 4 bytes), `Afi`, `Mask` and `Short` (no whole address). `OutOfMemory` may come in place of any answer past
/// the Source EID.
pub fn read_request<A: Memory + Copy>(alloc: A, bytes: &[u8]) -> Result<MapRequest<A>, RequestFault>
    // What is read is spelled by the bytes.
    ensures found { IfOk result (λ m. SpellsRequest bytes.now m) }

    // What is spelled so is read, unless memory runs out.
    ensures only { (m : MapRequestValue) → SpellsRequest bytes.now m
        → Gives (λ m. m) result (Ok m) }

    // Which answer it is.
    ensures exact { Gives (λ m. m) result (request_at bytes.now) }

    // Before the first ITR-RLOC nothing takes memory.
    ensures early { PassesFault (front_at bytes.now) result }
    ensures memory { IfOutOfMemory result A.may_refuse }
    ensures grows { IfOutOfMemory result (TakesMemory bytes.now) }
{
    read_whole(alloc, bytes)
}

fn read_whole<A: Memory + Copy>(alloc: A, bytes: &[u8]) -> Result<MapRequest<A>, RequestFault>
    ensures exact { Gives (λ m. m) result (request_at bytes.now) }
    ensures early { PassesFault (front_at bytes.now) result }
    ensures memory { IfOutOfMemory result (A.may_refuse × TakesMemory bytes.now) }
{
    let (source, rest) = read_front(bytes)?;
    let (itr_rlocs, rest) = read_rlocs(alloc, bytes[COUNTS_AT] % IRC_VALUES + 1, rest)?;
    let (eids, _) = read_eids(alloc, bytes[RECORD_COUNT_AT], rest)?;
    Ok(request_of(bytes, source, itr_rlocs, eids))
}

// The Map-Request whose first bytes are these, of what was read after them.
fn request_of<A: Allocator>(
    head: &[u8],
    source: Option<Addr>,
    itr_rlocs: Vec<Addr, A>,
    eids: Vec<Prefix, A>,
) -> MapRequest<A>
    requires head { 12 ≤ length head.now }
    requires fits { FitRequest itr_rlocs.items eids.items }
    ensures { result ≡ map_request_of head.now source itr_rlocs.items eids.items }
{
    MapRequest {
        authoritative: is_set(head[KIND_AT], AUTHORITATIVE),
        probe: is_set(head[KIND_AT], PROBE),
        smr: is_set(head[KIND_AT], SMR),
        pitr: is_set(head[FLAGS_AT], PITR),
        smr_invoked: is_set(head[FLAGS_AT], SMR_INVOKED),
        local: is_set(head[COUNTS_AT], LOCAL),
        no_reply: is_set(head[COUNTS_AT], NO_REPLY),
        nonce: read_nonce(head),
        source,
        itr_rlocs,
        eids,
    }
}

/// The Source EID, and the bytes after it, which are those of the ITR-RLOCs.
#[tactic(auto, unfolding(crate::specs::Request::front_at))]
pub(crate) fn read_front(bytes: &[u8]) -> Result<(Option<Addr>, &[u8]), RequestFault>
    ensures front { Reads (λ x. (x.0, x.1.now)) result (front_at bytes.now) }
    ensures plain { IfOutOfMemory result ⊥ }
    ensures head { OnOk result ((12 ≤ length bytes.now) × (0 < slice_index bytes.now 3)) }
{
    let rest = read_head(bytes)?;
    read_source(rest)
}

// The bytes after the first 12, where these are as they must be.
#[tactic(auto, unfolding(crate::specs::Request::head_at))]
fn read_head(bytes: &[u8]) -> Result<&[u8], RequestFault>
    ensures rest { Reads (λ rest. rest.now) result (head_at bytes.now) }
    ensures plain { IfOutOfMemory result ⊥ }
    ensures head { OnOk result ((12 ≤ length bytes.now) × (0 < slice_index bytes.now 3)) }
{
    if bytes.len() < HEAD_LEN {
        return Err(RequestFault::Short);
    }
    if bytes[KIND_AT] / 16 != MAP_REQUEST {
        return Err(RequestFault::Kind);
    }
    if bytes[RECORD_COUNT_AT] == 0 {
        return Err(RequestFault::NoRecord);
    }
    let (_, rest) = bytes.split_at(HEAD_LEN);
    Ok(rest)
}

// So many ITR-RLOCs from the front of the bytes, and the bytes after them.
fn read_rlocs<A: Memory>(
    alloc: A,
    count: u8,
    bytes: &[u8],
) -> Result<(Vec<Addr, A>, &[u8]), RequestFault>
    ensures rlocs { Gives (λ x. (x.0.items, x.1.now)) result (items_at rloc_at count bytes.now) }
    ensures count { IfOk result (λ x. length x.0.items ≡ count) }
    ensures memory { IfOutOfMemory result A.may_refuse }
{
    let mut itr_rlocs = Vec::new(alloc);
    let mut rest = bytes;
    for _ in 0..count {
        let (addr, after) = read_rloc(rest)?;
        itr_rlocs.try_push(addr)?;
        rest = after;
    }
    Ok((itr_rlocs, rest))
}

// So many EID-Prefixes from the front of the bytes, and the bytes after them.
fn read_eids<A: Memory>(
    alloc: A,
    count: u8,
    bytes: &[u8],
) -> Result<(Vec<Prefix, A>, &[u8]), RequestFault>
    ensures eids { Gives (λ x. (x.0.items, x.1.now)) result (items_at eid_at count bytes.now) }
    ensures count { IfOk result (λ x. length x.0.items ≡ count) }
    ensures memory { IfOutOfMemory result A.may_refuse }
{
    let mut eids = Vec::new(alloc);
    let mut rest = bytes;
    for _ in 0..count {
        let (addr, mask_len, after) = read_eid(rest)?;
        eids.try_push(prefix_of(addr, mask_len))?;
        rest = after;
    }
    Ok((eids, rest))
}

/// The written spelling of a Map-Request: M, R, I and all reserved bits 0, and nothing after the records. It lies in
/// memory of `alloc`; out of memory is the only refusal.
pub fn write_request<A: Memory, B: Allocator>(
    alloc: A,
    request: &MapRequest<B>,
) -> Result<Vec<u8, A>, AllocError>
    ensures written { IfOk result (λ v. v.items ≡ written_request request.now) }
    ensures spells { IfOk result (λ v. SpellsRequest v.items request.now) }
    ensures known { OnOk result (IsMapRequest request.now) }
    ensures memory { OnErr result A.may_refuse }
{
    let mut out = Vec::new(alloc);
    put_request(&mut out, request)?;
    Ok(out)
}

// The written spelling, in an empty buffer.
fn put_request<A: Memory, B: Allocator>(
    out: &mut Vec<u8, A>,
    request: &MapRequest<B>,
) -> Result<(), AllocError>
    requires { out.old.items ≡ [] }
    ensures written { OnOk result (out.new.items ≡ written_request request.now) }
    ensures known { OnOk result (IsMapRequest request.now) }
    ensures memory { OnErr result A.may_refuse }
{
    out.try_extend_from_slice(&head_of(request))?;
    put_source(out, request.source)?;
    put_rlocs(out, &request.itr_rlocs)?;
    put_eids(out, &request.eids)
}

// The bytes before the Source EID.
fn head_of<A: Allocator>(request: &MapRequest<A>) -> [u8; HEAD_LEN]
    ensures head { result ≡ written_request_head request.now }
    ensures nonce { request.now.nonce < 2 ^ 64 }
    ensures fits { FitRequest request.now.itr_rlocs request.now.eids }
{
    head(
        kind_of(request),
        flags_of(request),
        counts_of(request),
        request.eids.len() as u8,
        request.nonce,
    )
}

// The first byte: type, A, P and S.
fn kind_of<A: Allocator>(request: &MapRequest<A>) -> u8
    ensures { result ≡ request_kind request.now }
{
    MAP_REQUEST * 16
        + u8::from(request.authoritative) * AUTHORITATIVE
        + u8::from(request.probe) * PROBE
        + u8::from(request.smr) * SMR
}

// The second byte: p and s.
fn flags_of<A: Allocator>(request: &MapRequest<A>) -> u8
    ensures { result ≡ request_flags request.now }
{
    u8::from(request.pitr) * PITR + u8::from(request.smr_invoked) * SMR_INVOKED
}

// The third byte: L, D and IRC.
fn counts_of<A: Allocator>(request: &MapRequest<A>) -> u8
    ensures { result ≡ request_counts request.now }
{
    let irc = (request.itr_rlocs.len() - 1) as u8;
    u8::from(request.local) * LOCAL + u8::from(request.no_reply) * NO_REPLY + irc
}

// Appends each ITR-RLOC behind its AFI.
fn put_rlocs<A: Memory>(out: &mut Vec<u8, A>, itr_rlocs: &[Addr]) -> Result<(), AllocError>
    ensures rlocs { OnOk result (out.new.items ≡ out.old.items ++ written_rlocs itr_rlocs.now) }
    ensures known { OnOk result (AllByRecursion IsWhole itr_rlocs.now) }
    ensures memory { OnErr result A.may_refuse }
{
    for addr in itr_rlocs {
        put_address(out, *addr)?;
    }
    Ok(())
}

// Appends each record.
fn put_eids<A: Memory>(out: &mut Vec<u8, A>, eids: &[Prefix]) -> Result<(), AllocError>
    ensures eids { OnOk result (out.new.items ≡ out.old.items ++ written_eids eids.now) }
    ensures known { OnOk result (AllByRecursion IsEid eids.now) }
    ensures memory { OnErr result A.may_refuse }
{
    for eid in eids {
        put_eid(out, eid)?;
    }
    Ok(())
}
