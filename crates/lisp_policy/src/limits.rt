//! What the routers of a site may register, beyond its prefixes.

ghost use Rattle.std.specs.Prelude.{◌≡◌, IfOk, OnErr};
ghost use Rattle.lisp_policy.specs.Limits.{no_limits, lists_router, lets_router, lists_source, lets_source, lives_by_ttl, lets_ttl};

use lisp_memory::{FallibleCopies, Memory};
use lisp_records::{Addr, Prefix};
use std::alloc::{AllocError, Allocator, Global};
use std::marker::Model;

/// Limits of a site: each is off where it isn't given.
#[derive(Drop)]
pub struct Limits<A: Allocator = Global> {
    /// The xTR-IDs of the routers that may register; any may where none is listed.
    pub routers: Vec<[u8; 16], A>,
    /// The prefixes of the source addresses that Map-Registers are taken from; from any where none is listed.
    pub from: Vec<Prefix, A>,
    /// The least TTL, in minutes, of a record that lives for its TTL.
    pub least_ttl: Option<u32>,
    /// The greatest such TTL, in minutes.
    pub most_ttl: Option<u32>,
    /// How far above the last nonce of a router under a key the next one may be.
    pub most_jump: Option<u64>,
    /// How many routers of the site may have live rows.
    pub most_routers: Option<u32>,
    /// How many live rows the site may have.
    pub most_rows: Option<u32>,
}

impl<A: Allocator> Model for Limits<A> {
    ghost use Rattle.lisp_policy.specs.Limits.{LimitsValue};

    ghost Value = { LimitsValue };

    ghost view = { λ l. record { routers = l.routers.items; from = l.from.items; least_ttl = l.least_ttl; most_ttl = l.most_ttl; most_jump = l.most_jump; most_routers = l.most_routers; most_rows = l.most_rows } };
}

impl<A: Allocator + Copy> Limits<A> {
    /// No limits; takes no memory.
    pub fn none(alloc: A) -> Limits<A>
        ensures { result ≡ no_limits }
    {
        Limits {
            routers: Vec::new(alloc),
            from: Vec::new(alloc),
            least_ttl: None,
            most_ttl: None,
            most_jump: None,
            most_routers: None,
            most_rows: None,
        }
    }
}

impl<A: Allocator> Limits<A> {
    /// Whether a router may register, by its xTR-ID.
    pub fn lets_router(&self, xtr: &[u8; 16]) -> bool
        ensures { result ≡ lets_router self.now xtr.now }
    {
        self.routers.is_empty() || lists_router(&self.routers, xtr)
    }

    /// Whether Map-Registers are taken from a source address.
    pub fn lets_source(&self, from: &Addr) -> bool
        ensures { result ≡ lets_source self.now from.now }
    {
        self.from.is_empty() || lists_source(&self.from, from)
    }

    /// Whether a record may have a TTL, in minutes, under bit T of its Map-Register (RFC 9301 section 5.6).
    pub fn lets_ttl(&self, use_ttl: bool, ttl: u32) -> bool
        ensures { result ≡ lets_ttl self.now use_ttl ttl }
    {
        !lives_by_ttl(use_ttl, ttl)
            || self.least_ttl.is_none_or(|least| least <= ttl)
                && self.most_ttl.is_none_or(|most| ttl <= most)
    }

    // Equal limits, in memory of `alloc`.
    pub(crate) fn copy<B: Memory + Copy>(&self, alloc: B) -> Result<Limits<B>, AllocError>
        ensures equal { IfOk result (λ l. l ≡ self.now) }
        ensures memory { OnErr result B.may_refuse }
    {
        Ok(Limits {
            routers: Vec::try_from_slice(alloc, &self.routers)?,
            from: Vec::try_from_slice(alloc, &self.from)?,
            least_ttl: self.least_ttl,
            most_ttl: self.most_ttl,
            most_jump: self.most_jump,
            most_routers: self.most_routers,
            most_rows: self.most_rows,
        })
    }
}

// Whether one of the xTR-IDs is this one.
pub(crate) fn lists_router(routers: &[[u8; 16]], xtr: &[u8; 16]) -> bool
    ensures { result ≡ lists_router routers.now xtr.now }
{
    routers.iter().any(|x| x == xtr)
}

// Whether one of the prefixes holds the address.
fn lists_source(prefixes: &[Prefix], from: &Addr) -> bool
    ensures { result ≡ lists_source prefixes.now from.now }
{
    prefixes.iter().any(|prefix| prefix.contains(from))
}

// Whether a record lives for its TTL.
const fn lives_by_ttl(use_ttl: bool, ttl: u32) -> bool
    ensures { result ≡ lives_by_ttl use_ttl ttl }
{
    use_ttl && ttl != 0 && ttl != u32::MAX
}
