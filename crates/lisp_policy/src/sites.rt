//! The sites that a Map-Server serves.

ghost use Rattle.std.specs.Prelude.{◌≡◌, [], ◌∷◌, ◌++◌, IfOk, OnOk, OnErr};
ghost use Rattle.std.specs.Option.{option_map};
ghost use Rattle.lisp_policy.specs.Site.{site_with, site_of, is_configured, single};

use crate::index::Index;
use crate::site::{Site, SiteKey, SitePrefix};
use lisp_memory::{FallibleCopies, FallibleVec, Memory};
use lisp_records::{Addr, Prefix};
use std::alloc::{AllocError, Allocator, Global};
use std::marker::Model;

/// Sites, in the order of the configuration.
#[derive(Drop)]
pub struct Sites<A: Allocator = Global> {
    items: Vec<Site<A>, A>,
    // Their places, by their Site-IDs.
    by_id: Index<A>,
}

impl<A: Allocator> Model for Sites<A> {
    ghost use Rattle.std.specs.Prelude.{List};
    ghost use Rattle.lisp_policy.specs.Index.{Indexes};
    ghost use Rattle.lisp_policy.specs.Site.{SiteValue};

    ghost Value = { List SiteValue };

    ghost view = { λ s. s.items.items };

    ghost invariant = { λ s. Indexes s.by_id (λ x. x.id) s.items.items };
}

impl<A: Allocator> Sites<A> {
    /// No sites; takes no memory.
    pub fn new(alloc: A) -> Sites<A>
    where
        A: Copy,
        ensures { result ≡ [] }
    {
        Sites {
            items: Vec::new(alloc),
            by_id: Index::new(alloc),
        }
    }

    /// The sites in their order.
    pub fn as_slice(&self) -> &[Site<A>]
        ensures { result.now ≡ self.now }
    {
        &self.items
    }

    /// The site with a Site-ID, the first one where several have it; `None` where there is none.
    pub fn site(&self, id: u64) -> Option<&Site<A>>
        ensures { option_map (λ s. s.now) result ≡ site_of self.now id }
    {
        match self.by_id.place(id) {
            Some(place) => Some(&self.items[place]),
            None => None,
        }
    }

    /// Whether the address is one of some prefix of some site.
    pub fn configured(&self, addr: &Addr) -> bool
        ensures { result ≡ is_configured self.now addr.now }
    {
        self.items.iter().any(|site| site.has_address(addr))
    }

    /// Equal sites, in memory of `alloc`.
    pub fn copy<B: Memory + Copy>(&self, alloc: B) -> Result<Sites<B>, AllocError>
        ensures equal { IfOk result (λ s. s ≡ self.now) }
        ensures memory { OnErr result B.may_refuse }
    {
        Sites::new(alloc).followed_by(alloc, self)
    }
}

impl<A: Memory> Sites<A> {
    /// Adds a site behind the others.
    pub fn push(&mut self, site: Site<A>) -> Result<(), AllocError>
        ensures added { OnOk result (self.new ≡ self.old ++ site ∷ []) }
        ensures err { OnErr result (self.new ≡ self.old) }
        ensures memory { OnErr result A.may_refuse }
    {
        self.items.make_room(1)?;
        self.by_id.add(site.id(), self.items.len())?;
        self.items.push_reserved(site);
        Ok(())
    }
}

impl<A: Memory + Copy> Sites<A> {
    /// These sites, and copies of others behind them. Where memory runs out all are gone.
    pub fn followed_by<B: Allocator>(
        self,
        alloc: A,
        others: &Sites<B>,
    ) -> Result<Sites<A>, AllocError>
        ensures both { IfOk result (λ s. s ≡ self ++ others.now) }
        ensures memory { OnErr result A.may_refuse }
    {
        let mut both = self;
        for site in others.as_slice() {
            both.push(site.copy(alloc)?)?;
        }
        Ok(both)
    }

    /// One site with one key and one prefix, in memory of `alloc`.
    pub fn single(
        alloc: A,
        id: u64,
        key_id: u8,
        secret: &[u8],
        prefix: Prefix,
        more_specifics: bool,
    ) -> Result<Sites<A>, AllocError>
        ensures single { IfOk result (λ s. s ≡ single id key_id secret.now prefix more_specifics) }
        ensures memory { OnErr result A.may_refuse }
    {
        let key = SiteKey::new(alloc, key_id, secret)?;
        let entry = SitePrefix {
            eid: prefix,
            more_specifics,
        };
        let mut sites = Sites::new(alloc);
        sites.push(one_site(alloc, id, key, entry)?)?;
        Ok(sites)
    }
}

// A site with one key and one prefix, in memory of `alloc`.
fn one_site<A: Memory + Copy>(
    alloc: A,
    id: u64,
    key: SiteKey<A>,
    entry: SitePrefix,
) -> Result<Site<A>, AllocError>
    ensures site { IfOk result (λ s. s ≡ site_with id (key ∷ []) (entry ∷ [])) }
    ensures memory { OnErr result A.may_refuse }
{
    let mut keys = Vec::new(alloc);
    keys.try_push(key)?;
    let prefixes = Vec::try_from_slice(alloc, &[entry])?;
    Site::new(alloc, id, keys, prefixes)
}
