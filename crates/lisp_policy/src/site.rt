//! A site of a Map-Server: its secrets, the prefixes that its routers may register, and its limits.

ghost use Rattle.std.specs.Prelude.{◌≡◌, ◌↔◌, IsTrue, IfOk, OnErr};
ghost use Rattle.std.specs.Option.{option_map};
ghost use Rattle.lisp_policy.specs.Index.{Indexes};
ghost use Rattle.lisp_policy.specs.Site.{site_with, Allowed, is_allowed, has_address, key_of, lets_in, secret_of};

use crate::index::Index;
use crate::limits::Limits;
use lisp_hmac::Key;
use lisp_memory::{FallibleCopies, FallibleVec, Memory};
use lisp_records::{Addr, Prefix};
use std::alloc::{AllocError, Allocator, Global};
use std::marker::Model;

/// A pre-shared secret of a site, under its Key ID (RFC 9301 section 5.6). It has no `Debug`, so that no text shows it.
#[derive(Drop)]
pub struct SiteKey<A: Allocator = Global> {
    id: u8,
    // The secret, made ready for tags.
    key: Key,
    // Its bytes, by which it is compared.
    secret: Vec<u8, A>,
}

impl<A: Allocator> Model for SiteKey<A> {
    ghost use Rattle.std.specs.Prelude.{◌≡◌};
    ghost use Rattle.lisp_policy.specs.Site.{SiteKeyValue};

    ghost Value = { SiteKeyValue };

    ghost view = { λ k. record { id = k.id; secret = k.key } };

    ghost invariant = { λ k. k.secret.items ≡ k.key };
}

impl<A: Memory> SiteKey<A> {
    /// The key of a Key ID and a secret, which may have any length.
    pub fn new(alloc: A, id: u8, secret: &[u8]) -> Result<SiteKey<A>, AllocError>
        ensures key { IfOk result (λ k. k ≡ record { id = id; secret = secret.now }) }
        ensures memory { OnErr result A.may_refuse }
    {
        Ok(SiteKey {
            id,
            key: Key::new(secret),
            secret: Vec::try_from_slice(alloc, secret)?,
        })
    }
}

impl<A: Allocator> SiteKey<A> {
    /// Its Key ID.
    pub fn id(&self) -> u8
        ensures { result ≡ self.now.id }
    {
        self.id
    }

    /// The secret, made ready for tags.
    pub fn key(&self) -> &Key
        ensures { result.now ≡ self.now.secret }
    {
        &self.key
    }

    // The bytes of the secret.
    pub(crate) fn secret(&self) -> &[u8]
        ensures { result.now ≡ self.now.secret }
    {
        &self.secret
    }

    // An equal key, in memory of `alloc`.
    fn copy<B: Memory>(&self, alloc: B) -> Result<SiteKey<B>, AllocError>
        ensures equal { IfOk result (λ k. k ≡ self.now) }
        ensures memory { OnErr result B.may_refuse }
    {
        Ok(SiteKey {
            id: self.id,
            key: self.key.copy(),
            secret: Vec::try_from_slice(alloc, &self.secret)?,
        })
    }
}

/// A prefix that a site's routers may register, alone or with all prefixes inside it.
#[derive(Clone, Copy, Debug, PartialEq, Eq)]
pub struct SitePrefix {
    /// The prefix itself.
    pub eid: Prefix,
    /// Prefixes inside it may be registered too.
    pub more_specifics: bool,
}

impl SitePrefix {
    // Whether a router may register the prefix by this entry.
    fn lets_in(&self, prefix: &Prefix) -> bool
        ensures { result ≡ lets_in self.now prefix.now }
    {
        self.eid == *prefix || self.more_specifics && self.eid.covers(prefix)
    }
}

/// A site (RFC 9301 section 8.2): its Site-ID, its keys, its prefixes and its limits.
#[derive(Drop)]
pub struct Site<A: Allocator = Global> {
    id: u64,
    keys: Vec<SiteKey<A>, A>,
    // Their places, by their Key IDs.
    by_id: Index<A>,
    prefixes: Vec<SitePrefix, A>,
    limits: Limits<A>,
}

impl<A: Allocator> Model for Site<A> {
    ghost use Rattle.lisp_policy.specs.Index.{Indexes};
    ghost use Rattle.lisp_policy.specs.Site.{SiteValue};

    ghost Value = { SiteValue };

    ghost view = { λ s. record { id = s.id; keys = s.keys.items; prefixes = s.prefixes.items; limits = s.limits } };

    ghost invariant = { λ s. Indexes s.by_id (λ k. k.id) s.keys.items };
}

impl<A: Memory + Copy> Site<A> {
    /// The site of a Site-ID, keys and prefixes, without limits.
    pub fn new(
        alloc: A,
        id: u64,
        keys: Vec<SiteKey<A>, A>,
        prefixes: Vec<SitePrefix, A>,
    ) -> Result<Site<A>, AllocError>
        ensures site { IfOk result (λ s. s ≡ site_with id keys.items prefixes.items) }
        ensures memory { OnErr result A.may_refuse }
    {
        let by_id = index_of(alloc, &keys)?;
        Ok(Site {
            id,
            keys,
            by_id,
            prefixes,
            limits: Limits::none(alloc),
        })
    }
}

impl<A: Allocator> Site<A> {
    /// The same site with these limits. Takes no memory.
    pub fn with_limits(self, limits: Limits<A>) -> Site<A>
        ensures { result ≡ record self { limits = limits } }
    {
        Site { limits, ..self }
    }

    /// The Site-ID.
    pub fn id(&self) -> u64
        ensures { result ≡ self.now.id }
    {
        self.id
    }

    /// The site's keys, in the order of the configuration.
    pub fn keys(&self) -> &[SiteKey<A>]
        ensures { result.now ≡ self.now.keys }
    {
        &self.keys
    }

    /// The prefixes that the site's routers may register, in the order of the configuration.
    pub fn prefixes(&self) -> &[SitePrefix]
        ensures { result.now ≡ self.now.prefixes }
    {
        &self.prefixes
    }

    /// The site's limits.
    pub fn limits(&self) -> &Limits<A>
        ensures { result.now ≡ self.now.limits }
    {
        &self.limits
    }

    /// The key under a Key ID, made ready for tags; `None` where the site has no such key.
    pub fn key(&self, key_id: u8) -> Option<&Key>
        ensures { option_map (λ k. k.now) result ≡ secret_of self.now key_id }
    {
        match self.key_under(key_id) {
            Some(found) => Some(found.key()),
            None => None,
        }
    }

    // The key under a Key ID, the first one where several have it.
    pub(crate) fn key_under(&self, key_id: u8) -> Option<&SiteKey<A>>
        ensures { option_map (λ k. k.now) result ≡ key_of self.now.keys key_id }
    {
        match self.by_id.place(u64::from(key_id)) {
            Some(place) => Some(&self.keys[place]),
            None => None,
        }
    }

    /// Whether the site's routers may register the prefix: one of the site's prefixes equals it, or
    /// has more-specifics and covers it.
    pub fn allows(&self, prefix: &Prefix) -> bool
        ensures allowed { IsTrue result ↔ Allowed self.now prefix.now }
        ensures test { result ≡ is_allowed self.now prefix.now }
    {
        self.is_allowed(prefix)
    }

    fn is_allowed(&self, prefix: &Prefix) -> bool
        ensures { result ≡ is_allowed self.now prefix.now }
    {
        self.prefixes.iter().any(|entry| entry.lets_in(prefix))
    }

    // Whether the address is one of some prefix of the site.
    pub(crate) fn has_address(&self, addr: &Addr) -> bool
        ensures { result ≡ has_address self.now addr.now }
    {
        self.prefixes.iter().any(|prefix| prefix.eid.contains(addr))
    }

    // An equal site, in memory of `alloc`.
    pub(crate) fn copy<B: Memory + Copy>(&self, alloc: B) -> Result<Site<B>, AllocError>
        ensures equal { IfOk result (λ s. s ≡ self.now) }
        ensures memory { OnErr result B.may_refuse }
    {
        let keys = copy_keys(alloc, &self.keys)?;
        let prefixes = Vec::try_from_slice(alloc, &self.prefixes)?;
        let limits = self.limits.copy(alloc)?;
        Ok(Site::new(alloc, self.id, keys, prefixes)?.with_limits(limits))
    }
}

// The places of keys, by their Key IDs.
fn index_of<A: Memory>(alloc: A, keys: &[SiteKey<A>]) -> Result<Index<A>, AllocError>
    ensures index { IfOk result (λ index. Indexes index (λ k. k.id) keys.now) }
    ensures memory { OnErr result A.may_refuse }
{
    let mut index = Index::new(alloc);
    for (place, key) in keys.iter().enumerate() {
        index.add(u64::from(key.id()), place)?;
    }
    Ok(index)
}

// Equal keys, in memory of `alloc`.
fn copy_keys<A: Allocator, B: Memory + Copy>(
    alloc: B,
    keys: &[SiteKey<A>],
) -> Result<Vec<SiteKey<B>, B>, AllocError>
    ensures equal { IfOk result (λ copies. copies.items ≡ keys.now) }
    ensures memory { OnErr result B.may_refuse }
{
    let mut copies = Vec::new(alloc);
    for key in keys {
        copies.try_push(key.copy(alloc)?)?;
    }
    Ok(copies)
}
