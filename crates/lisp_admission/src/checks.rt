//! What is checked of a message before any nonce is looked at, and the keys that it is checked under.

ghost use Rattle.std.specs.Prelude.{◌≡◌, IsErrOf};
ghost use Rattle.std.specs.Option.{option_map};
ghost use Rattle.lisp_records.specs.Result.{Reads};
ghost use Rattle.lisp_admission.specs.Checks.{first_not_allowed, first_out_of_bounds, admitted, secret_under, secret_at, most_jump_at, most_routers_at, most_rows_at};
ghost use Rattle.lisp_admission.specs.declared.refused.Refused.{Refused};
ghost use Rattle.lisp_admission.specs.Refused.{IsStoreless};

use crate::limit::Limit;
use crate::refused::Refused;
use lisp_hmac::Key;
use lisp_messages::{MapRegister, authentic_under};
use lisp_policy::{Limits, Site, Sites};
use lisp_records::{Addr, MapRecord};
use std::alloc::Allocator;

/// The key that a Map-Register from an address is authentic under, or the first check that it fails: `UnknownSite`,
/// `UnknownKey`, `BadAuth`, `Limited` (`Router`, `Source`), `MergeAsked`, `NotAllowed`, `Limited` (`Ttl`).
#[tactic(auto, unfolding(crate::specs::Checks::secret_under))]
pub fn key_under<'s, A: Allocator, B: Allocator>(
    sites: &'s Sites<B>,
    from: &Addr,
    bytes: &[u8],
    register: &MapRegister<A>,
) -> Result<&'s Key, Refused>
    ensures secret { Reads (λ k. k.now) result
        (secret_under sites.now from.now bytes.now register.now) }
    ensures plain { ¬ (IsErrOf result Refused.OutOfMemory) }
    ensures storeless { IsStoreless result }
{
    let Some(site) = sites.site(register.site) else {
        return Err(Refused::UnknownSite);
    };
    let Some(key) = site.key(register.key_id) else {
        return Err(Refused::UnknownKey);
    };
    if !authentic_under(bytes, key) {
        return Err(Refused::BadAuth);
    }
    admit(site, from, register)?;
    Ok(key)
}

// Whether the site admits an authentic Map-Register from an address: always `true`, or the first check that it fails.
fn admit<A: Allocator, B: Allocator>(
    site: &Site<B>,
    from: &Addr,
    register: &MapRegister<A>,
) -> Result<bool, Refused>
    ensures admitted { result ≡ admitted site.now from.now register.now }
    ensures plain { ¬ (IsErrOf result Refused.OutOfMemory) }
    ensures storeless { IsStoreless result }
{
    if !site.limits().lets_router(&register.xtr) {
        return Err(Refused::Limited {
            site: register.site,
            limit: Limit::Router,
        });
    }
    if !site.limits().lets_source(from) {
        return Err(Refused::Limited {
            site: register.site,
            limit: Limit::Source,
        });
    }
    if register.merge {
        return Err(Refused::MergeAsked);
    }
    let records = register.records.as_slice();
    if let Some(place) = first_not_allowed(site, records) {
        return Err(Refused::NotAllowed(place));
    }
    match first_out_of_bounds(site.limits(), register.use_ttl, records) {
        Some(place) => Err(Refused::Limited {
            site: register.site,
            limit: Limit::Ttl(place),
        }),
        None => Ok(true),
    }
}

// The place, from 0 on, of the first record whose prefix the site doesn't allow.
fn first_not_allowed<A: Allocator, B: Allocator>(
    site: &Site<B>,
    records: &[MapRecord<A>],
) -> Option<usize>
    ensures { result ≡ first_not_allowed site.now records.now }
{
    for (place, record) in records.iter().enumerate() {
        if !site.allows(record.eid_ref()) {
            return Some(place);
        }
    }
    None
}

// The place, from 0 on, of the first record that would live for a TTL out of bounds.
fn first_out_of_bounds<A: Allocator, B: Allocator>(
    limits: &Limits<B>,
    use_ttl: bool,
    records: &[MapRecord<A>],
) -> Option<usize>
    ensures { result ≡ first_out_of_bounds limits.now use_ttl records.now }
{
    for (place, record) in records.iter().enumerate() {
        if !limits.lets_ttl(use_ttl, record.ttl()) {
            return Some(place);
        }
    }
    None
}

/// The key of a site under a Key ID, made ready for tags.
pub fn key_at<A: Allocator>(sites: &Sites<A>, site: u64, key_id: u8) -> Option<&Key>
    ensures { option_map (λ k. k.now) result ≡ secret_at sites.now site key_id }
{
    sites.site(site)?.key(key_id)
}

/// How far above the last nonce of a router of the site the next one may be; `None` where the site has no such limit.
pub fn most_jump_at<A: Allocator>(sites: &Sites<A>, site: u64) -> Option<u64>
    ensures { result ≡ most_jump_at sites.now site }
{
    sites.site(site)?.limits().most_jump
}

/// How many routers of the site may have live rows; `None` where the site has no such limit.
pub fn most_routers_at<A: Allocator>(sites: &Sites<A>, site: u64) -> Option<u32>
    ensures { result ≡ most_routers_at sites.now site }
{
    sites.site(site)?.limits().most_routers
}

/// How many live rows the site may have; `None` where it has no such limit.
pub fn most_rows_at<A: Allocator>(sites: &Sites<A>, site: u64) -> Option<u32>
    ensures { result ≡ most_rows_at sites.now site }
{
    sites.site(site)?.limits().most_rows
}
