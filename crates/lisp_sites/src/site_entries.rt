//! Reading the sites of a configuration file.

ghost use Rattle.std.specs.Prelude.{◌≡◌, [], IfErr, IsErrOf, is_some};
ghost use Rattle.toml.specs.View.{view, items_view};
ghost use Rattle.lisp_policy.specs.Site.{has_key};
ghost use Rattle.lisp_sites.specs.Table.{Gives, GivesAt, flat, fresh_key_id, key_at, has_eid, prefix_at, has_site, fresh_site_id, site_at, sites_of};
ghost use Rattle.lisp_sites.specs.declared.fault.ConfigFault.TheVariants.{OutOfMemory};

use crate::entries::{Entries, read_tables};
use crate::fault::ConfigFault;
use crate::field::Field;
use crate::keyed::{HasKey, Keyed};
use crate::limits::read_limits;
use crate::place::PlacedFault;
use crate::value::{byte, check_table, flag, secret, text_as};
use lisp_memory::{FallibleVec, Memory};
use lisp_policy::{Site, SiteKey, SitePrefix, Sites};
use lisp_records::Prefix;
use std::alloc::Allocator;
use toml::Value;

/// The sites of the document, in its order.
pub(crate) fn read_sites<A: Memory + Copy>(
    alloc: A,
    document: &Value,
) -> Result<Sites<A>, PlacedFault>
    ensures gives { GivesAt (λ sites. sites) result (sites_of (view document.now)) }
    ensures memory { IfErr result (λ f. f.fault ≡ OutOfMemory → A.may_refuse) }
{
    let sites = Sites::new(alloc);
    read_tables(sites, &alloc, Field::Site, document, "site")
}

impl<A: Memory + Copy> Entries for Sites<A> {
    type Entry = Site<A>;

    type Given = A;

    ghost entries = { λ sites. sites };

    ghost may_refuse = { A.may_refuse };

    ghost read = { λ _. site_at };

    #[tactic(auto, unfolding(crate::specs::Table::site_at))]
    fn read_next(&mut self, alloc: &A, entry: &Value) -> Result<(), PlacedFault> {
        check_table(entry, Field::Site)?;
        let id = fresh_site_id(entry, self)?;
        let keys = Vec::new(*alloc);
        let keys = read_tables(keys, alloc, Field::SiteKey, entry, "key")?;
        let prefixes = Keyed::new(*alloc);
        let prefixes = read_tables(prefixes, &(), Field::SitePrefix, entry, "prefix")?;
        let site = Site::new(*alloc, id, keys, prefixes.into_vec())?;
        self.push(site.with_limits(read_limits(*alloc, entry)?))?;
        Ok(())
    }
}

fn fresh_site_id<A: Allocator>(entry: &Value, before: &Sites<A>) -> Result<u64, ConfigFault>
    ensures value { result ≡ fresh_site_id before.now (view entry.now) }
    ensures plain { ¬ (IsErrOf result OutOfMemory) }
{
    let id = text_as(entry, "id", Field::SiteId)?;
    if has_site(before, id) {
        return Err(ConfigFault::Repeated(Field::SiteId));
    }
    Ok(id)
}

fn has_site<A: Allocator>(sites: &Sites<A>, id: u64) -> bool
    ensures { result ≡ has_site sites.now id }
{
    sites.site(id).is_some()
}

impl<A: Memory + Copy> Entries for Vec<SiteKey<A>, A> {
    type Entry = SiteKey<A>;

    type Given = A;

    ghost entries = { λ keys. keys.items };

    ghost may_refuse = { A.may_refuse };

    ghost read = { λ _. flat key_at };

    fn read_next(&mut self, alloc: &A, entry: &Value) -> Result<(), PlacedFault> {
        let key = read_key(*alloc, entry, self.as_slice())?;
        self.try_push(key)?;
        Ok(())
    }
}

#[tactic(auto, unfolding(crate::specs::Table::key_at))]
fn read_key<A: Memory + Copy>(
    alloc: A,
    entry: &Value,
    before: &[SiteKey<A>],
) -> Result<SiteKey<A>, ConfigFault>
    ensures gives { Gives (λ k. k) result (key_at before.now (view entry.now)) }
    ensures memory { IsErrOf result OutOfMemory → A.may_refuse }
{
    check_table(entry, Field::SiteKey)?;
    let id = fresh_key_id(entry, before)?;
    let secret = secret(alloc, entry, "secret", Field::SiteKeySecret)?;
    Ok(SiteKey::new(alloc, id, secret.as_slice())?)
}

fn fresh_key_id<A: Allocator>(entry: &Value, before: &[SiteKey<A>]) -> Result<u8, ConfigFault>
    ensures value { result ≡ fresh_key_id before.now (view entry.now) }
    ensures plain { ¬ (IsErrOf result OutOfMemory) }
{
    let id = byte(entry, "id", Field::SiteKeyId)?;
    if has_key(before, id) {
        return Err(ConfigFault::Repeated(Field::SiteKeyId));
    }
    Ok(id)
}

// Whether one of the keys has the Key ID.
fn has_key<A: Allocator>(keys: &[SiteKey<A>], id: u8) -> bool
    ensures { result ≡ has_key keys.now id }
{
    keys.iter().any(|key| key.id() == id)
}

impl HasKey for SitePrefix {
    type Key = Prefix;

    ghost key = { λ p. p.eid };

    fn key(&self) -> Prefix {
        self.eid
    }
}

impl<A: Memory + Copy> Entries for Keyed<SitePrefix, A> {
    type Entry = SitePrefix;

    type Given = ();

    ghost entries = { λ prefixes. prefixes };

    ghost may_refuse = { A.may_refuse };

    ghost read = { λ _. flat prefix_at };

    fn read_next(&mut self, _given: &(), entry: &Value) -> Result<(), PlacedFault> {
        let prefix = read_prefix(entry, self)?;
        self.push(prefix)?;
        Ok(())
    }
}

#[tactic(auto, unfolding(crate::specs::Table::prefix_at))]
fn read_prefix<A: Allocator>(
    entry: &Value,
    before: &Keyed<SitePrefix, A>,
) -> Result<SitePrefix, ConfigFault>
    ensures value { result ≡ prefix_at before.now (view entry.now) }
    ensures plain { ¬ (IsErrOf result OutOfMemory) }
{
    check_table(entry, Field::SitePrefix)?;
    let eid = text_as(entry, "eid", Field::SitePrefixEid)?;
    if has_eid(before, &eid) {
        return Err(ConfigFault::Repeated(Field::SitePrefixEid));
    }
    let more_specifics = flag(entry, "more_specifics", Field::SitePrefixMoreSpecifics)?;
    Ok(SitePrefix {
        eid,
        more_specifics,
    })
}

// Whether one of the prefixes has the EID-Prefix.
#[tactic(auto, using(crate::proofs::Eids::has_eid_derived))]
fn has_eid<A: Allocator>(prefixes: &Keyed<SitePrefix, A>, eid: &Prefix) -> bool
    ensures { result ≡ has_eid prefixes.now eid.now }
{
    prefixes.has(eid)
}
