//! Reading the limits of a site: what its routers may register, beyond its prefixes.

ghost use Rattle.std.specs.Prelude.{◌≡◌, None, [], IfErr, IsErrOf};
ghost use Rattle.toml.specs.View.{view};
ghost use Rattle.lisp_policy.specs.Limits.{lists_router};
ghost use Rattle.lisp_sites.specs.Form.{limit_as, jump_as};
ghost use Rattle.lisp_sites.specs.Table.{GivesAt, optional, flat, listed_xtr, xtr_at, site_routers_of, site_from_of, are_bounds, site_ttls_of, most_jump_of, most_held_of, limits_of};
ghost use Rattle.lisp_sites.specs.declared.fault.ConfigFault.TheVariants.{OutOfMemory};

use crate::entries::{Entries, read_each};
use crate::fault::ConfigFault;
use crate::field::Field;
use crate::keyed::{HasKey, Keyed};
use crate::place::PlacedFault;
use crate::value::some_elements;
use lisp_memory::Memory;
use lisp_policy::Limits;
use lisp_records::Prefix;
use lisp_texts::xtr_from_text;
use std::alloc::Allocator;
use toml::Value;

/// The most minutes that a limit of TTLs may be; one more, 0xffffffff, is no time (RFC 9301 section 5.6).
const MOST_MINUTES: u32 = 4_294_967_294;

/// The limits of a site; each is off where it is absent.
#[tactic(auto, unfolding(crate::specs::Table::limits_of))]
pub(crate) fn read_limits<A: Memory + Copy>(
    alloc: A,
    entry: &Value,
) -> Result<Limits<A>, PlacedFault>
    ensures gives { GivesAt (λ l. l) result (limits_of (view entry.now)) }
    ensures memory { IfErr result (λ f. f.fault ≡ OutOfMemory → A.may_refuse) }
{
    let routers = read_routers(alloc, entry)?;
    let from = read_from(alloc, entry)?;
    let (least_ttl, most_ttl) = read_ttls(entry)?;
    let most_jump = read_jump(entry)?;
    let (most_routers, most_rows) = read_most_held(entry)?;
    Ok(Limits {
        routers,
        from,
        least_ttl,
        most_ttl,
        most_jump,
        most_routers,
        most_rows,
    })
}

// The xTR-IDs of its routers.
fn read_routers<A: Memory + Copy>(alloc: A, entry: &Value) -> Result<Vec<[u8; 16], A>, PlacedFault>
    ensures gives { GivesAt (λ xtrs. xtrs.items) result (site_routers_of (view entry.now)) }
    ensures memory { IfErr result (λ f. f.fault ≡ OutOfMemory → A.may_refuse) }
{
    let texts = some_elements(entry, "routers", Field::SiteRouters)?;
    let routers = read_each(Keyed::new(alloc), &(), Field::SiteRouters, texts)?;
    Ok(routers.into_vec())
}

impl HasKey for [u8; 16] {
    type Key = [u8; 16];

    ghost key = { λ xtr. xtr };

    fn key(&self) -> [u8; 16] {
        *self
    }
}

impl<A: Memory + Copy> Entries for Keyed<[u8; 16], A> {
    type Entry = [u8; 16];

    type Given = ();

    ghost entries = { λ xtrs. xtrs };

    ghost may_refuse = { A.may_refuse };

    ghost read = { λ _. flat xtr_at };

    fn read_next(&mut self, _given: &(), text: &Value) -> Result<(), PlacedFault> {
        let xtr = fresh_xtr(text, self)?;
        self.push(xtr)?;
        Ok(())
    }
}

// The xTR-ID of a router that the site hasn't listed before.
fn fresh_xtr<A: Allocator>(
    text: &Value,
    before: &Keyed<[u8; 16], A>,
) -> Result<[u8; 16], ConfigFault>
    ensures value { result ≡ xtr_at before.now (view text.now) }
    ensures plain { ¬ (IsErrOf result OutOfMemory) }
{
    let xtr = read_xtr(text)?;
    if lists_router(before, &xtr) {
        return Err(ConfigFault::Repeated(Field::SiteRouters));
    }
    Ok(xtr)
}

fn read_xtr(text: &Value) -> Result<[u8; 16], ConfigFault>
    ensures value { result ≡ listed_xtr (view text.now) }
    ensures plain { ¬ (IsErrOf result OutOfMemory) }
{
    let Some(text) = text.as_str() else {
        return Err(ConfigFault::BadValue(Field::SiteRouters));
    };
    xtr_from_text(text).ok_or(ConfigFault::BadValue(Field::SiteRouters))
}

// Whether one of the xTR-IDs is this one.
fn lists_router<A: Allocator>(xtrs: &Keyed<[u8; 16], A>, xtr: &[u8; 16]) -> bool
    ensures { result ≡ lists_router xtrs.now xtr.now }
{
    xtrs.has(xtr)
}

// The prefixes of the source addresses of its routers.
fn read_from<A: Memory + Copy>(alloc: A, entry: &Value) -> Result<Vec<Prefix, A>, PlacedFault>
    ensures gives { GivesAt (λ prefixes. prefixes.items) result (site_from_of (view entry.now)) }
    ensures memory { IfErr result (λ f. f.fault ≡ OutOfMemory → A.may_refuse) }
{
    let name = Field::SiteFrom;
    read_each(
        Vec::new(alloc),
        &name,
        name,
        some_elements(entry, "from", name)?,
    )
}

// The least TTL and the greatest, which is not less.
#[tactic(auto, unfolding(crate::specs::Table::site_ttls_of))]
fn read_ttls(entry: &Value) -> Result<(Option<u32>, Option<u32>), ConfigFault>
    ensures value { result ≡ site_ttls_of (view entry.now) }
    ensures plain { ¬ (IsErrOf result OutOfMemory) }
{
    let least = limit(entry, "least_ttl", Field::SiteLeastTtl, MOST_MINUTES)?;
    let most = limit(entry, "most_ttl", Field::SiteMostTtl, MOST_MINUTES)?;
    if !are_bounds(least, most) {
        return Err(ConfigFault::BadValue(Field::SiteMostTtl));
    }
    Ok((least, most))
}

// Whether some TTL is within both.
fn are_bounds(least: Option<u32>, most: Option<u32>) -> bool
    ensures { result ≡ are_bounds least most }
{
    match (least, most) {
        (Some(least), Some(most)) => least <= most,
        _ => true,
    }
}

// How many of its routers may have live rows, and how many live rows it may have.
#[tactic(auto, unfolding(crate::specs::Table::most_held_of))]
fn read_most_held(entry: &Value) -> Result<(Option<u32>, Option<u32>), ConfigFault>
    ensures value { result ≡ most_held_of (view entry.now) }
    ensures plain { ¬ (IsErrOf result OutOfMemory) }
{
    let routers = limit(entry, "most_routers", Field::SiteMostRouters, u32::MAX)?;
    let rows = limit(entry, "most_rows", Field::SiteMostRows, u32::MAX)?;
    Ok((routers, rows))
}

// A whole number from 1 to a greatest one, if it is there.
fn limit(entry: &Value, key: &str, name: Field, most: u32) -> Result<Option<u32>, ConfigFault>
    ensures value { result ≡ optional name key.now (limit_as most) None (view entry.now) }
    ensures plain { ¬ (IsErrOf result OutOfMemory) }
{
    match entry.get(key) {
        None => Ok(None),
        Some(value) => match value.as_integer() {
            Some(number) if 1 <= number && number <= i64::from(most) => Ok(Some(number as u32)),
            _ => Err(ConfigFault::BadValue(name)),
        },
    }
}

// How far nonces may rise at once, if it is there.
fn read_jump(entry: &Value) -> Result<Option<u64>, ConfigFault>
    ensures value { result ≡ most_jump_of (view entry.now) }
    ensures plain { ¬ (IsErrOf result OutOfMemory) }
{
    match entry.get("most_jump") {
        None => Ok(None),
        Some(value) => match value.as_integer() {
            Some(number @ 1..=i64::MAX) => Ok(Some(number as u64)),
            _ => Err(ConfigFault::BadValue(Field::SiteMostJump)),
        },
    }
}
