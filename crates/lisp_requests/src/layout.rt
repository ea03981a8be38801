//! Where the parts of a Map-Request stand among its bytes.

ghost use Rattle.std.specs.Prelude.{◌≡◌, ◌≤◌, length, slice_index, drop, IfOk};
ghost use Rattle.lisp_records.specs.Layout.{Skips};
ghost use Rattle.lisp_records.specs.Result.{Reads};
ghost use Rattle.lisp_requests.specs.Layout.{LaysOut, HasFields};
ghost use Rattle.lisp_requests.specs.Reading.{items_at};
ghost use Rattle.lisp_requests.specs.Request.{rloc_at, eid_at, rloc_count};

use crate::address::{prefix_of, read_eid, read_rloc};
use crate::fault::RequestFault;
use crate::head::{COUNTS_AT, FLAGS_AT, KIND_AT, RECORD_COUNT_AT, read_nonce};
use crate::request::{
    AUTHORITATIVE, IRC_VALUES, LOCAL, NO_REPLY, PITR, PROBE, SMR, SMR_INVOKED, read_front,
};
use lisp_records::{Addr, Prefix, is_set};

/// A Map-Request where it lies among bytes: what it says but its ITR-RLOCs and records, and where these are (RFC 9301
/// section 5.2). The flags are those of [`MapRequest`](crate::MapRequest).
#[derive(Clone, Copy, Debug, PartialEq, Eq)]
pub struct RequestLayout {
    pub authoritative: bool,
    pub probe: bool,
    pub smr: bool,
    pub pitr: bool,
    pub smr_invoked: bool,
    pub local: bool,
    pub no_reply: bool,
    /// The nonce.
    pub nonce: u64,
    /// The Source EID.
    pub source: Option<Addr>,
    /// How many ITR-RLOCs it has, 1 to 32.
    pub rloc_count: u8,
    /// Where the first ITR-RLOC begins; the others follow.
    pub rlocs_at: usize,
    /// How many records it has, 1 to 255.
    pub eid_count: u8,
    /// Where the first record begins; the others follow.
    pub eids_at: usize,
    /// Where the last record ends.
    pub end: usize,
}

/// The layout of the Map-Request that the bytes begin with; takes no memory. The faults are those of
/// [`read_request`](crate::read_request), in the same order, but `OutOfMemory`.
pub fn request_layout(bytes: &[u8]) -> Result<RequestLayout, RequestFault>
    ensures { LaysOut bytes.now result }
{
    let (source, rlocs) = read_front(bytes)?;
    let eids = skip_rlocs(bytes[COUNTS_AT] % IRC_VALUES + 1, rlocs)?;
    let rest = skip_eids(bytes[RECORD_COUNT_AT], eids)?;
    let rlocs_at = bytes.len() - rlocs.len();
    let eids_at = bytes.len() - eids.len();
    Ok(layout_of(bytes, source, rlocs_at, eids_at, bytes.len() - rest.len()))
}

// The layout of a Map-Request whose first bytes are these, of the Source EID that was read after them.
fn layout_of(
    head: &[u8],
    source: Option<Addr>,
    rlocs_at: usize,
    eids_at: usize,
    end: usize,
) -> RequestLayout
    requires { 12 ≤ length head.now }
    ensures fields { HasFields result head.now source }
    ensures counts { (result.rloc_count ≡ rloc_count head.now)
        × (result.eid_count ≡ slice_index head.now 3) }
    ensures places { (result.rlocs_at ≡ rlocs_at) × (result.eids_at ≡ eids_at)
        × (result.end ≡ end) }
{
    RequestLayout {
        authoritative: is_set(head[KIND_AT], AUTHORITATIVE),
        probe: is_set(head[KIND_AT], PROBE),
        smr: is_set(head[KIND_AT], SMR),
        pitr: is_set(head[FLAGS_AT], PITR),
        smr_invoked: is_set(head[FLAGS_AT], SMR_INVOKED),
        local: is_set(head[COUNTS_AT], LOCAL),
        no_reply: is_set(head[COUNTS_AT], NO_REPLY),
        nonce: read_nonce(head),
        source,
        rloc_count: head[COUNTS_AT] % IRC_VALUES + 1,
        rlocs_at,
        eid_count: head[RECORD_COUNT_AT],
        eids_at,
        end,
    }
}

// The bytes after so many ITR-RLOCs.
fn skip_rlocs(count: u8, bytes: &[u8]) -> Result<&[u8], RequestFault>
    ensures { Skips (λ rest. rest.now) result (items_at rloc_at count bytes.now) }
{
    let mut rest = bytes;
    for _ in 0..count {
        let (_, after) = read_rloc(rest)?;
        rest = after;
    }
    Ok(rest)
}

// The bytes after so many records.
fn skip_eids(count: u8, bytes: &[u8]) -> Result<&[u8], RequestFault>
    ensures { Skips (λ rest. rest.now) result (items_at eid_at count bytes.now) }
{
    let mut rest = bytes;
    for _ in 0..count {
        let (_, _, after) = read_eid(rest)?;
        rest = after;
    }
    Ok(rest)
}

/// The ITR-RLOC that begins at byte `at`, and where it ends; takes no memory. The faults come in the order `Short` (no
/// AFI), `Afi`, `Short` (no whole address).
pub fn itr_rloc_at(bytes: &[u8], at: usize) -> Result<(Addr, usize), RequestFault>
    ensures rloc { Reads (λ x. (x.0, drop x.1 bytes.now)) result (rloc_at (drop at bytes.now)) }
    ensures within { IfOk result (λ x. (at ≤ x.1) × (x.1 ≤ length bytes.now)) }
{
    if at > bytes.len() {
        return Err(RequestFault::Short);
    }
    let (_, rloc) = bytes.split_at(at);
    let (addr, rest) = read_rloc(rloc)?;
    Ok((addr, bytes.len() - rest.len()))
}

/// The EID-Prefix of the record that begins at byte `at`, and where the record ends; takes no memory. The faults come in
/// the order `Short` (no 4 bytes), `Afi`, `Mask`, `Short` (no whole address).
pub fn eid_record_at(bytes: &[u8], at: usize) -> Result<(Prefix, usize), RequestFault>
    ensures eid { Reads (λ x. (x.0, drop x.1 bytes.now)) result (eid_at (drop at bytes.now)) }
    ensures within { IfOk result (λ x. (at ≤ x.1) × (x.1 ≤ length bytes.now)) }
{
    if at > bytes.len() {
        return Err(RequestFault::Short);
    }
    let (_, record) = bytes.split_at(at);
    let (addr, mask_len, rest) = read_eid(record)?;
    Ok((prefix_of(addr, mask_len), bytes.len() - rest.len()))
}
