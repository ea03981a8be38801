//! What is asked.

ghost use Rattle.std.specs.Prelude.{◌≡◌};
ghost use Rattle.std.specs.Option.{option_map};
ghost use Rattle.std.specs.List.{find, list_any};
ghost use Rattle.lisp_records.specs.Address.{holds};
ghost use Rattle.lisp_records.specs.Result.{Reads};
ghost use Rattle.lisp_requests.specs.declared.fault.RequestFault.TheVariants.{OutOfMemory};
ghost use Rattle.lisp_mapping.specs.Asked.{Takes, asked_of, encapsulated_asked, is_alone, is_of, rloc_for, router_asked};
ghost use Rattle.lisp_mapping.specs.declared.replier.Replier.TheVariants.{MapServer};
ghost use Rattle.lisp_mapping.specs.declared.unasked.Unasked.TheVariants.{Request};

use crate::replier::Replier;
use crate::unasked::Unasked;
use lisp_memory::Memory;
use lisp_records::{Addr, Family, Prefix};
use lisp_requests::{MapRequest, read_encapsulated, read_request};
use std::alloc::{Allocator, Global};
use std::marker::Model;

/// The message type of a Map-Request.
const MAP_REQUEST: u8 = 1;

/// What a Map-Request asks a node for, and where its Map-Replies go.
#[derive(Debug, Drop)]
pub struct Asked<A: Allocator = Global> {
    /// Who replies.
    pub of: Replier,
    /// The nonce, which each Map-Reply gives back.
    pub nonce: u64,
    /// P: the ITR probes whether a locator is reached.
    pub probe: bool,
    /// The ITR-RLOC to which Map-Replies go.
    pub to: Addr,
    /// The UDP port to which they go: that from which the Map-Request came.
    pub port: u16,
    /// The EID-Prefixes that are asked for, from 1 to 255.
    pub eids: Vec<Prefix, A>,
}

impl<A: Allocator> Model for Asked<A> {
    ghost use Rattle.lisp_mapping.specs.Asked.{AskedValue};

    ghost Value = { AskedValue };

    ghost view = { λ a. record { of = a.of; nonce = a.nonce; probe = a.probe; to = a.to; port = a.port; eids = a.eids.items } };
}

/// What a Map-Server takes of a datagram that is an Encapsulated Map-Request (RFC 9301 sections 5.8 and 8.3), in memory of `alloc`.
/// `resolve` are the prefixes of ITR-RLOCs to which it sends Map-Replies, `own` is its address family. The faults come in the order of
/// [`Unasked`]; those of the bytes are first what `read_encapsulated` finds, then what `read_request` does.
pub fn server_asked<A: Memory + Copy>(
    alloc: A,
    resolve: &[Prefix],
    own: Family,
    bytes: &[u8],
) -> Result<Asked<A>, Unasked>
    ensures exact { Takes result (encapsulated_asked MapServer resolve.now own bytes.now) }
    ensures memory { result ≡ Err (Request OutOfMemory) → A.may_refuse }
{
    encapsulated_asked(alloc, Replier::MapServer, resolve, own, bytes)
}

/// What a router takes of a datagram: as `server_asked`, of an Encapsulated Map-Request, or of a Map-Request that came alone from a UDP
/// port (RFC 9301 section 8.2).
pub fn router_asked<A: Memory + Copy>(
    alloc: A,
    resolve: &[Prefix],
    own: Family,
    port: u16,
    bytes: &[u8],
) -> Result<Asked<A>, Unasked>
    ensures exact { Takes result (router_asked resolve.now own port bytes.now) }
    ensures memory { result ≡ Err (Request OutOfMemory) → A.may_refuse }
{
    if !is_alone(bytes) {
        return encapsulated_asked(alloc, Replier::Router, resolve, own, bytes);
    }
    let request = read_request(alloc, bytes)?;
    asked_of(Replier::Router, resolve, own, port, request)
}

// Whether the bytes begin as a Map-Request that nothing stands around.
fn is_alone(bytes: &[u8]) -> bool
    ensures { result ≡ is_alone bytes.now }
{
    match bytes.first() {
        Some(first) => *first / 16 == MAP_REQUEST,
        None => false,
    }
}

// What is taken of an Encapsulated Map-Request.
fn encapsulated_asked<A: Memory + Copy>(
    alloc: A,
    of: Replier,
    resolve: &[Prefix],
    own: Family,
    bytes: &[u8],
) -> Result<Asked<A>, Unasked>
    ensures exact { Takes result (encapsulated_asked of resolve.now own bytes.now) }
    ensures memory { result ≡ Err (Request OutOfMemory) → A.may_refuse }
{
    let around = read_encapsulated(bytes)?;
    let request = read_request(alloc, around.message)?;
    asked_of(of, resolve, own, around.port, request)
}

// What is taken of a Map-Request.
fn asked_of<A: Allocator>(
    of: Replier,
    resolve: &[Prefix],
    own: Family,
    port: u16,
    request: MapRequest<A>,
) -> Result<Asked<A>, Unasked>
    ensures { Reads (λ a. a) result (asked_of of resolve.now own port request) }
{
    if request.smr {
        return Err(Unasked::Solicited);
    }
    if request.probe && !of.is_router() {
        return Err(Unasked::Probed);
    }
    if request.no_reply {
        return Err(Unasked::Unwanted);
    }
    let to = rloc_for(resolve, own, &request.itr_rlocs)?;
    let MapRequest {
        probe,
        nonce,
        eids,
        ..
    } = request;
    Ok(Asked {
        of,
        nonce,
        probe,
        to,
        port,
        eids,
    })
}

// The ITR-RLOC to which Map-Replies go.
fn rloc_for(resolve: &[Prefix], own: Family, rlocs: &[Addr]) -> Result<Addr, Unasked>
    ensures { Reads (λ addr. addr) result (rloc_for resolve.now own rlocs.now) }
{
    match own_rloc(own, rlocs) {
        None => Err(Unasked::NoItrRloc),
        Some(rloc) if is_listed(resolve, rloc) => Ok(*rloc),
        Some(_) => Err(Unasked::Unlisted),
    }
}

// The first address of a family.
fn own_rloc(own: Family, rlocs: &[Addr]) -> Option<&Addr>
    ensures { option_map (λ addr. addr.now) result ≡ find (is_of own) rlocs.now }
{
    rlocs.iter().find(|addr| is_of(own, addr))
}

// Whether one of the prefixes has an address.
fn is_listed(resolve: &[Prefix], addr: &Addr) -> bool
    ensures { result ≡ list_any (λ p. holds p addr.now) resolve.now }
{
    resolve.iter().any(|prefix| prefix.contains(addr))
}

// Whether an address is of a family.
fn is_of(own: Family, addr: &Addr) -> bool
    ensures { result ≡ is_of own addr.now }
{
    matches!(
        (own, addr),
        (Family::Ipv4, Addr::V4(_)) | (Family::Ipv6, Addr::V6(_))
    )
}
