//! Secrets that are short, or alike.

ghost use Rattle.std.specs.Prelude.{◌≡◌, ◌++◌, List, IfOk, OnOk};
ghost use Rattle.lisp_check.specs.Warning.{Adds};
ghost use Rattle.lisp_check.specs.Secret.{KeySecretValue, AreFirsts, AddsFirst, is_short, is_place, unless_own, first_like, short_of, same_of, of_secret, of_secrets};

use crate::document::{Document, elements};
use lisp_memory::{FallibleMap, FallibleVec};
use lisp_records::Bytes;
use lisp_texts::secret_from_text;
use std::alloc::{AllocError, Global};
use std::collections::BTreeMap;
use std::fmt::{self, Display, Formatter, Write};
use std::marker::Model;
use toml::Value;

/// The bytes of a secret that isn't short.
const ENOUGH: usize = 16;

/// A key of a site, both from 0 on.
#[derive(Clone, Copy)]
pub struct KeyPlace {
    pub site: usize,
    pub key: usize,
}

impl Display for KeyPlace {
    // Both are counted from 1.
    fn fmt<W: Write>(&self, formatter: &mut Formatter<W>) -> fmt::Result {
        let (site, key) = (self.site.saturating_add(1), self.key.saturating_add(1));
        write!(formatter, "site {site}, key {key}")
    }
}

/// The secret of a key, and where the key stands.
#[derive(Drop)]
pub struct KeySecret {
    place: KeyPlace,
    secret: Bytes,
}

impl Model for KeySecret {
    ghost use Rattle.lisp_check.specs.Secret.{KeySecretValue};

    ghost Value = { KeySecretValue };

    ghost view = { λ k. record { place = k.place; secret = k.secret } };
}

/// A warning of a secret.
#[derive(Clone, Copy)]
pub enum SecretWarning {
    /// It has fewer than 16 bytes.
    Short { place: KeyPlace },
    /// It is that of an earlier key too, the first that has it.
    Same { first: KeyPlace, place: KeyPlace },
}

/// The secrets of a document, in its order.
pub fn key_secrets(alloc: Global, document: &Document) -> Result<Vec<KeySecret>, AllocError> {
    let mut secrets = Vec::new(alloc);
    for (site, table) in elements(&document.value, "site").iter().enumerate() {
        for (key, entry) in elements(table, "key").iter().enumerate() {
            add_secret(&mut secrets, alloc, entry, KeyPlace { site, key })?;
        }
    }
    Ok(secrets)
}

// Adds the secret of an entry, where it has one.
fn add_secret(
    secrets: &mut Vec<KeySecret>,
    alloc: Global,
    entry: &Value,
    place: KeyPlace,
) -> Result<(), AllocError> {
    let Some(text) = entry.get("secret").and_then(Value::as_str) else {
        return Ok(());
    };
    if let Some(secret) = secret_from_text(alloc, text)? {
        secrets.try_push(KeySecret { place, secret })?;
    }
    Ok(())
}

/// What may not be meant of secrets: one after another, of each first that it is short.
pub fn secret_warnings(
    alloc: Global,
    secrets: &[KeySecret],
) -> Result<Vec<SecretWarning>, AllocError>
    ensures exact { IfOk result (λ warnings. warnings.items ≡ of_secrets secrets.now) }
{
    let firsts = first_places(alloc, secrets)?;
    let mut warnings = Vec::new(alloc);
    let mut rest = secrets;
    while let [secret, others @ ..] = rest {
        warn_of_secret(&mut warnings, &firsts, secret)?;
        rest = others;
    }
    Ok(warnings)
}

// The place of the first key that has it, by each secret.
fn first_places<'a>(
    alloc: Global,
    secrets: &'a [KeySecret],
) -> Result<BTreeMap<&'a [u8], KeyPlace>, AllocError>
    ensures { IfOk result (λ firsts. AreFirsts firsts secrets.now) }
{
    let mut firsts = BTreeMap::new(alloc);
    let mut rest = secrets;
    while let [secret, others @ ..] = rest {
        add_first(&mut firsts, secret)?;
        rest = others;
    }
    Ok(firsts)
}

// Adds the place of a secret, unless an earlier key has the secret.
fn add_first<'a>(
    firsts: &mut BTreeMap<&'a [u8], KeyPlace>,
    secret: &'a KeySecret,
) -> Result<(), AllocError>
    ensures { OnOk result (AddsFirst firsts.old firsts.new secret.now) }
{
    let bytes = secret.secret.as_slice();
    if !firsts.contains_key(bytes) {
        firsts.try_insert(bytes, secret.place)?;
    }
    Ok(())
}

fn warn_of_secret(
    warnings: &mut Vec<SecretWarning>,
    firsts: &BTreeMap<&[u8], KeyPlace>,
    secret: &KeySecret,
) -> Result<(), AllocError>
    ensures { OnOk result ((secrets : List KeySecretValue) → AreFirsts firsts.now secrets
        → warnings.new.items ≡ warnings.old.items ++ of_secret secrets secret.now) }
{
    warn_of_length(warnings, secret)?;
    warn_of_like(warnings, secret.place, first_like(firsts, secret))
}

fn warn_of_length(warnings: &mut Vec<SecretWarning>, secret: &KeySecret) -> Result<(), AllocError>
    ensures { Adds result warnings.old warnings.new (short_of secret.now) }
{
    if is_short(secret) {
        let place = secret.place;
        warnings.try_push(SecretWarning::Short { place })?;
    }
    Ok(())
}

fn warn_of_like(
    warnings: &mut Vec<SecretWarning>,
    place: KeyPlace,
    first: Option<KeyPlace>,
) -> Result<(), AllocError>
    ensures { Adds result warnings.old warnings.new (same_of place first) }
{
    if let Some(first) = first {
        warnings.try_push(SecretWarning::Same { first, place })?;
    }
    Ok(())
}

fn is_short(secret: &KeySecret) -> bool
    ensures { result ≡ is_short secret.now }
{
    secret.secret.as_slice().len() < ENOUGH
}

// The first key with the secret of this one; `None` where it is this one.
fn first_like(firsts: &BTreeMap<&[u8], KeyPlace>, secret: &KeySecret) -> Option<KeyPlace>
    ensures { (secrets : List KeySecretValue) → AreFirsts firsts.now secrets
        → result ≡ first_like secrets secret.now }
{
    unless_own(secret.place, firsts.get(secret.secret.as_slice()).copied())
}

// The place of a key, unless it is this one.
fn unless_own(place: KeyPlace, first: Option<KeyPlace>) -> Option<KeyPlace>
    ensures { result ≡ unless_own place first }
{
    let first = first?;
    (!is_place(place, first)).then_some(first)
}

fn is_place(place: KeyPlace, other: KeyPlace) -> bool
    ensures { result ≡ is_place place other }
{
    other.site == place.site && other.key == place.key
}
