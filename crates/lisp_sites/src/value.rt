//! The fields of an entry of the configuration file: TOML values in their forms. Nothing here takes
//! memory but what is passed an allocator.

ghost use Rattle.std.specs.Prelude.{◌≡◌, IsErrOf, false, ok_or, option_and_then};
ghost use Rattle.toml.specs.Data.{as_str, as_bool, as_array};
ghost use Rattle.toml.specs.View.{view};
ghost use Rattle.lisp_texts.specs.Reading.{address_of, prefix_of};
ghost use Rattle.lisp_texts.specs.Form.{site_id_of, xtr_of};
ghost use Rattle.lisp_sites.specs.Form.{name_of, text_as, byte_as, nonce_block_as};
ghost use Rattle.lisp_records.specs.Result.{Reads};
ghost use Rattle.lisp_sites.specs.Table.{required, optional, items, some_items, limit_items, as_entry};
ghost use Rattle.lisp_sites.specs.Answers.{ReadsItems, ReadsText, GivesSecret};
ghost use Rattle.lisp_sites.specs.declared.fault.ConfigFault.TheVariants.{BadValue, OutOfMemory};

use crate::fault::ConfigFault;
use crate::field::Field;
use crate::name::is_name;
use lisp_memory::Memory;
use lisp_nonces::MAX_NONCE_BLOCK;
use lisp_records::{Addr, Bytes, Prefix};
use lisp_texts::{
    addr_from_text, prefix_from_text, secret_from_text, site_id_from_text, xtr_from_text,
};
use toml::Value;

/// The tables of an array of tables; none where the array is absent.
pub(crate) fn tables<'a>(
    entry: &'a Value,
    key: &str,
    name: Field,
) -> Result<&'a [Value], ConfigFault>
    ensures reads { ReadsItems result (items name key.now (view entry.now)) }
    ensures plain { ¬ (IsErrOf result OutOfMemory) }
{
    match entry.get(key) {
        None => Ok(&[]),
        Some(value) => elements(value, name),
    }
}

/// The elements of an array that a limit is; none where it is absent, and at least one where it is there.
pub(crate) fn some_elements<'a>(
    entry: &'a Value,
    key: &str,
    name: Field,
) -> Result<&'a [Value], ConfigFault>
    ensures reads { ReadsItems result (limit_items name key.now (view entry.now)) }
    ensures plain { ¬ (IsErrOf result OutOfMemory) }
{
    match entry.get(key) {
        None => Ok(&[]),
        Some(value) => not_empty(value, name),
    }
}

// The elements of an array that has some.
fn not_empty(value: &Value, name: Field) -> Result<&[Value], ConfigFault>
    ensures reads { ReadsItems result (ok_or (option_and_then some_items (as_array (view value.now))) (BadValue name)) }
    ensures plain { ¬ (IsErrOf result OutOfMemory) }
{
    match value.as_array() {
        Some(values) if !values.is_empty() => Ok(values),
        _ => Err(ConfigFault::BadValue(name)),
    }
}

/// The elements of an array that has to be there.
pub(crate) fn array<'a>(
    entry: &'a Value,
    key: &str,
    name: Field,
) -> Result<&'a [Value], ConfigFault>
    ensures reads { ReadsItems result (required name key.now as_array (view entry.now)) }
    ensures plain { ¬ (IsErrOf result OutOfMemory) }
{
    match entry.get(key) {
        None => Err(ConfigFault::Missing(name)),
        Some(value) => elements(value, name),
    }
}

// The elements of an array.
fn elements(value: &Value, name: Field) -> Result<&[Value], ConfigFault>
    ensures reads { ReadsItems result (ok_or (as_array (view value.now)) (BadValue name)) }
    ensures plain { ¬ (IsErrOf result OutOfMemory) }
{
    match value.as_array() {
        Some(values) => Ok(values),
        None => Err(ConfigFault::BadValue(name)),
    }
}

/// Checks that an entry is a table.
pub(crate) fn check_table(entry: &Value, name: Field) -> Result<(), ConfigFault>
    ensures reads { Reads (λ _. view entry.now) result (as_entry name (view entry.now)) }
    ensures plain { ¬ (IsErrOf result OutOfMemory) }
{
    if entry.is_table() {
        Ok(())
    } else {
        Err(ConfigFault::BadValue(name))
    }
}

// A text that has to be there.
fn text<'a>(entry: &'a Value, key: &str, name: Field) -> Result<&'a str, ConfigFault>
    ensures reads { ReadsText result (required name key.now as_str (view entry.now)) }
    ensures plain { ¬ (IsErrOf result OutOfMemory) }
{
    match entry.get(key) {
        None => Err(ConfigFault::Missing(name)),
        Some(value) => value.as_str().ok_or(ConfigFault::BadValue(name)),
    }
}

/// What a text of a form says.
pub(crate) trait FromText: Sized {
    ghost use Rattle.std.specs.Prelude.{List, Option, ℕ};

    ghost form: { List ℕ → Option Self };

    /// What the text says, if it is of the form.
    fn from_text(text: &str) -> Option<Self>
        ensures { result ≡ form text.now };
}

/// What a text that has to be there says.
pub(crate) fn text_as<T: FromText>(entry: &Value, key: &str, name: Field) -> Result<T, ConfigFault>
    ensures value { result ≡ required name key.now (text_as T.form) (view entry.now) }
    ensures plain { ¬ (IsErrOf result OutOfMemory) }
{
    T::from_text(text(entry, key, name)?).ok_or(ConfigFault::BadValue(name))
}

/// An address.
impl FromText for Addr {
    ghost form = { address_of };

    fn from_text(text: &str) -> Option<Addr> {
        addr_from_text(text)
    }
}

/// A prefix.
impl FromText for Prefix {
    ghost form = { prefix_of };

    fn from_text(text: &str) -> Option<Prefix> {
        prefix_from_text(text)
    }
}

/// A Site-ID.
impl FromText for u64 {
    ghost form = { site_id_of };

    fn from_text(text: &str) -> Option<u64> {
        site_id_from_text(text)
    }
}

/// An xTR-ID.
impl FromText for [u8; 16] {
    ghost form = { xtr_of };

    fn from_text(text: &str) -> Option<[u8; 16]> {
        xtr_from_text(text)
    }
}

/// A whole number from 0 to 255.
pub(crate) fn byte(entry: &Value, key: &str, name: Field) -> Result<u8, ConfigFault>
    ensures value { result ≡ required name key.now byte_as (view entry.now) }
    ensures plain { ¬ (IsErrOf result OutOfMemory) }
{
    match entry.get(key) {
        None => Err(ConfigFault::Missing(name)),
        Some(value) => match value.as_integer() {
            Some(number @ 0..=255) => Ok(number as u8),
            _ => Err(ConfigFault::BadValue(name)),
        },
    }
}

const MOST_NONCES: i64 = MAX_NONCE_BLOCK as i64;

/// How many nonces one save serves, 1 to 1,024; 1 if it is absent.
pub(crate) fn nonce_block(entry: &Value, key: &str, name: Field) -> Result<u16, ConfigFault>
    ensures value { result ≡ optional name key.now nonce_block_as 1 (view entry.now) }
    ensures plain { ¬ (IsErrOf result OutOfMemory) }
{
    match entry.get(key) {
        None => Ok(1),
        Some(value) => match value.as_integer() {
            Some(number @ 1..=MOST_NONCES) => Ok(number as u16),
            _ => Err(ConfigFault::BadValue(name)),
        },
    }
}

/// A boolean, false if it is absent.
pub(crate) fn flag(entry: &Value, key: &str, name: Field) -> Result<bool, ConfigFault>
    ensures value { result ≡ optional name key.now as_bool false (view entry.now) }
    ensures plain { ¬ (IsErrOf result OutOfMemory) }
{
    match entry.get(key) {
        None => Ok(false),
        Some(value) => value.as_bool().ok_or(ConfigFault::BadValue(name)),
    }
}

/// A secret.
pub(crate) fn secret<A: Memory>(
    alloc: A,
    entry: &Value,
    key: &str,
    name: Field,
) -> Result<Bytes<A>, ConfigFault>
    ensures gives { GivesSecret result name key.now entry.now }
    ensures memory { IsErrOf result OutOfMemory → A.may_refuse }
{
    match secret_from_text(alloc, text(entry, key, name)?)? {
        Some(secret) => Ok(secret),
        None => Err(ConfigFault::BadValue(name)),
    }
}

/// The text of a node's name.
pub(crate) fn name<'a>(entry: &'a Value, key: &str, name: Field) -> Result<&'a str, ConfigFault>
    ensures reads { ReadsText result (required name key.now (text_as name_of) (view entry.now)) }
    ensures plain { ¬ (IsErrOf result OutOfMemory) }
{
    let text = text(entry, key, name)?;
    if is_name(text) {
        Ok(text)
    } else {
        Err(ConfigFault::BadValue(name))
    }
}
