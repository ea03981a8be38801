//! Whether sites have all that others have.

ghost use Rattle.std.specs.Prelude.{◌≡◌};
ghost use Rattle.std.specs.List.{list_all, list_any};
ghost use Rattle.lisp_policy.specs.Limits.{lists_router};
ghost use Rattle.lisp_policy.specs.Site.{site_of, secret_of};
ghost use Rattle.lisp_policy.specs.Extends.{is_secret, keeps_keys, is_as_wide, keeps_prefixes, widens_routers, lists_prefix, widens_from, widens_least, widens_most, widens_limits, keeps_site, is_kept_by, extends};

use crate::limits::{Limits, lists_router};
use crate::site::{Site, SiteKey, SitePrefix};
use crate::sites::Sites;
use lisp_records::Prefix;
use std::alloc::Allocator;

impl<A: Allocator> Sites<A> {
    /// Whether these sites have all that the old ones have: each site, by its Site-ID, with each of its keys and their secrets and
    /// each of its prefixes, under limits that are as wide. They may have more.
    pub fn extends<B: Allocator>(&self, old: &Sites<B>) -> bool
        ensures { result ≡ extends old.now self.now }
    {
        old.as_slice().iter().all(|site| self.keeps(site))
    }

    // Whether the site of the same Site-ID has all that the old one has.
    fn keeps<B: Allocator>(&self, old: &Site<B>) -> bool
        ensures { result ≡ is_kept_by (site_of self.now old.now.id) old.now }
    {
        match self.site(old.id()) {
            Some(site) => site.keeps(old),
            None => false,
        }
    }
}

impl<A: Allocator> Site<A> {
    // Whether the site has all that the old one has.
    fn keeps<B: Allocator>(&self, old: &Site<B>) -> bool
        ensures { result ≡ keeps_site old.now self.now }
    {
        self.keeps_keys(old) && self.keeps_prefixes(old) && self.limits().widens(old.limits())
    }

    fn keeps_keys<B: Allocator>(&self, old: &Site<B>) -> bool
        ensures { result ≡ keeps_keys old.now self.now }
    {
        old.keys().iter().all(|key| self.has_secret(key))
    }

    // Whether the site has the same secret under the Key ID.
    fn has_secret<B: Allocator>(&self, key: &SiteKey<B>) -> bool
        ensures { result ≡ is_secret (secret_of self.now key.now.id) key.now.secret }
    {
        match self.key_under(key.id()) {
            Some(found) => found.secret() == key.secret(),
            None => false,
        }
    }

    fn keeps_prefixes<B: Allocator>(&self, old: &Site<B>) -> bool
        ensures { result ≡ keeps_prefixes old.now self.now }
    {
        old.prefixes()
            .iter()
            .all(|entry| has_as_wide(self.prefixes(), entry))
    }
}

impl<A: Allocator> Limits<A> {
    // Whether these limits let in whatever the old ones do.
    fn widens<B: Allocator>(&self, old: &Limits<B>) -> bool
        ensures { result ≡ widens_limits old.now self.now }
    {
        widens_routers(&old.routers, &self.routers)
            && widens_from(&old.from, &self.from)
            && widens_least(old.least_ttl, self.least_ttl)
            && widens_most(wide(old.most_ttl), wide(self.most_ttl))
            && widens_most(old.most_jump, self.most_jump)
            && widens_most(wide(old.most_routers), wide(self.most_routers))
            && widens_most(wide(old.most_rows), wide(self.most_rows))
    }
}

// Whether one of the entries lets in what the old one does.
fn has_as_wide(entries: &[SitePrefix], old: &SitePrefix) -> bool
    ensures { result ≡ list_any (is_as_wide old.now) entries.now }
{
    entries.iter().any(|entry| is_as_wide(old, entry))
}

fn is_as_wide(old: &SitePrefix, new: &SitePrefix) -> bool
    ensures { result ≡ is_as_wide old.now new.now }
{
    new.eid == old.eid && (!old.more_specifics || new.more_specifics)
}

// Any router may register where none is listed.
fn widens_routers(old: &[[u8; 16]], new: &[[u8; 16]]) -> bool
    ensures { result ≡ widens_routers old.now new.now }
{
    new.is_empty() || !old.is_empty() && lists_routers(new, old)
}

fn lists_routers(routers: &[[u8; 16]], old: &[[u8; 16]]) -> bool
    ensures { result ≡ list_all (lists_router routers.now) old.now }
{
    old.iter().all(|xtr| lists_router(routers, xtr))
}

// From any address where no prefix is listed.
fn widens_from(old: &[Prefix], new: &[Prefix]) -> bool
    ensures { result ≡ widens_from old.now new.now }
{
    new.is_empty() || !old.is_empty() && lists_prefixes(new, old)
}

fn lists_prefixes(prefixes: &[Prefix], old: &[Prefix]) -> bool
    ensures { result ≡ list_all (lists_prefix prefixes.now) old.now }
{
    old.iter().all(|prefix| lists_prefix(prefixes, prefix))
}

fn lists_prefix(prefixes: &[Prefix], prefix: &Prefix) -> bool
    ensures { result ≡ lists_prefix prefixes.now prefix.now }
{
    prefixes.iter().any(|listed| listed == prefix)
}

const fn widens_least(old: Option<u32>, new: Option<u32>) -> bool
    ensures { result ≡ widens_least old new }
{
    match (old, new) {
        (_, None) => true,
        (None, Some(_)) => false,
        (Some(old), Some(new)) => new <= old,
    }
}

const fn widens_most(old: Option<u64>, new: Option<u64>) -> bool
    ensures { result ≡ widens_most old new }
{
    match (old, new) {
        (_, None) => true,
        (None, Some(_)) => false,
        (Some(old), Some(new)) => old <= new,
    }
}

// The same greatest value.
fn wide(most: Option<u32>) -> Option<u64>
    ensures { result ≡ most }
{
    match most {
        Some(most) => Some(u64::from(most)),
        None => None,
    }
}
