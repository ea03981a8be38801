//! Warnings in words: a table of the words of each kind, and the values that stand in them.

ghost use Rattle.std.specs.Prelude.{OnErr};

use crate::document::array_key;
use crate::nodes::any_of;
use crate::places::{entry_place, node_place, warning_place};
use crate::secret::SecretWarning;
use crate::warning::Warning;
use lisp_memory::{FallibleString, Memory};
use lisp_records::{Addr, Prefix};
use lisp_sites::{
    Config, ConfigNode, Entry, Field, Place, RouterEntry, addr_to_text, prefix_to_text,
};
use std::alloc::{AllocError, Global};

/// Words after the line of their entry, where it is known: `line 12: router r2: ..`.
pub fn lined(alloc: Global, line: Option<usize>, words: String) -> Result<String, AllocError>
    ensures memory { OnErr result ⟦<Global as Memory>⟧.may_refuse }
{
    match line {
        Some(line) => String::try_format(alloc, format_args!("line {line}: {words}")),
        None => Ok(words),
    }
}

// The words of a kind of warnings, after the entry that it is of. Between two bars stands the name of a value (`value_of`).
fn words_of(warning: Warning) -> &'static str {
    match warning {
        Warning::NoNodes => "no server and no router",
        Warning::NoKeys { .. } => "no keys: no router of it can register",
        Warning::NoPrefixes { .. } => {
            "no prefixes: a Map-Server refuses each Map-Register with records (55)"
        }
        Warning::SamePrefix { .. } => {
            "|eid| is a prefix of |other| too: routers of both can register it"
        }
        Warning::Inside { .. } => {
            "|eid| lies inside a prefix of |other| that has more_specifics: routers of both can register it"
        }
        Warning::NoUnicast { .. } => "address |address| can't be a node's",
        Warning::SameAddress { .. } => {
            "address |address| is that of |other| too: play refuses both (74)"
        }
        Warning::AnyItrRloc { .. } => {
            "resolve lists |any|: anyone may have Map-Replies sent to anyone"
        }
        Warning::NoItrRloc { .. } => {
            "resolve lists no prefix of the family of address |address|: it replies to nobody"
        }
        Warning::SameIdentity { .. } => {
            "site |site| and xtr are those of |other| too: play refuses both (74)"
        }
        Warning::NotAllowed { .. } => {
            "record |eid| is no prefix of site |site|: a Map-Server refuses the whole Map-Register, all its records (55)"
        }
        Warning::OtherFamily { .. } => {
            "address |address| is of another family than that of |other|: neither reaches the other (91)"
        }
        Warning::SameKey { .. } => {
            "key |key| is that of |other| too: each can register as the other"
        }
        Warning::NoServers { .. } => "no Map-Servers: it registers nowhere",
        Warning::NoMostRows { .. } => {
            "no most_rows: a stolen key may fill a Map-Server's memory with rows"
        }
        Warning::ManyRouters { .. } => {
            "more routers than most_routers: not all of them can have rows at once (139)"
        }
        Warning::NotListed { .. } => {
            "xtr isn't in the routers of site |site|: a Map-Server refuses each Map-Register (69)"
        }
        Warning::OtherSource { .. } => {
            "address |address| isn't in the from of site |site|: a Map-Server refuses each Map-Register that comes from it (136)"
        }
        Warning::OutOfBounds { .. } => {
            "record |eid| has a TTL below least_ttl or above most_ttl of site |site|: a Map-Server refuses the whole Map-Register, all its records (137)"
        }
        Warning::ManyRows { .. } => {
            "more records than most_rows of site |site|: not all of them can have rows at once (140)"
        }
    }
}

/// A warning of the configuration in words, after the entry that it is of.
pub fn warning_line(alloc: Global, config: &Config, warning: Warning) -> Result<String, AllocError>
    ensures memory { OnErr result ⟦<Global as Memory>⟧.may_refuse }
{
    let mut line = String::new(alloc);
    let place = warning_place(config, warning);
    if place.entry.is_some() {
        put_place(&mut line, config, place)?;
        line.try_write(": ")?;
    }
    put_words(&mut line, alloc, config, warning)?;
    Ok(line)
}

// Appends the words of a warning.
fn put_words(
    line: &mut String,
    alloc: Global,
    config: &Config,
    warning: Warning,
) -> Result<(), AllocError>
    ensures memory { OnErr result ⟦<Global as Memory>⟧.may_refuse }
{
    for (index, part) in words_of(warning).split('|').enumerate() {
        if index % 2 == 0 {
            line.try_write(part)?;
        } else if let Some(value) = value_of(config, warning, part) {
            put_value(line, alloc, config, value)?;
        }
    }
    Ok(())
}

// A value in the words of a warning.
#[derive(Drop)]
enum Value<'c> {
    Address(&'c Addr),
    Prefix(&'c Prefix),
    SiteId(u64),
    KeyId(u8),
    Entry(Place),
}

// The value with a name: of what the warning is of, or else the other entry that it names.
fn value_of<'c>(config: &'c Config, warning: Warning, name: &str) -> Option<Value<'c>> {
    match name {
        "address" => Some(Value::Address(node_of(config, warning)?.address())),
        "any" => Some(Value::Prefix(any_of(&node_of(config, warning)?)?)),
        "eid" => Some(Value::Prefix(prefix_of(config, warning)?)),
        "site" => Some(Value::SiteId(router_of(config, warning)?.me.site)),
        "key" => Some(Value::KeyId(router_of(config, warning)?.key_id)),
        _ => Some(Value::Entry(other_place(config, warning)?)),
    }
}

fn put_value(
    line: &mut String,
    alloc: Global,
    config: &Config,
    value: Value<'_>,
) -> Result<(), AllocError>
    ensures memory { OnErr result ⟦<Global as Memory>⟧.may_refuse }
{
    match value {
        Value::Address(address) => line.try_write(addr_to_text(alloc, address)?),
        Value::Prefix(prefix) => line.try_write(prefix_to_text(alloc, prefix)?),
        Value::SiteId(site) => line.try_write(format_args!("{site:016x}")),
        Value::KeyId(key) => line.try_write(key),
        Value::Entry(place) => put_place(line, config, place),
    }
}

// Appends the entry at a place: a Map-Server or a router by its name, a site by its number, and after it the number of a prefix of it.
fn put_place(line: &mut String, config: &Config, place: Place) -> Result<(), AllocError>
    ensures memory { OnErr result ⟦<Global as Memory>⟧.may_refuse }
{
    if let Some(entry) = place.entry {
        put_entry(line, config, entry)?;
    }
    match place.part {
        Some(part) => line.try_write(format_args!(", {part}")),
        None => Ok(()),
    }
}

fn put_entry(line: &mut String, config: &Config, entry: Entry) -> Result<(), AllocError>
    ensures memory { OnErr result ⟦<Global as Memory>⟧.may_refuse }
{
    match node_at(config, entry) {
        Some(node) => {
            let (kind, name) = (array_key(entry.array), node.name());
            line.try_write(format_args!("{kind} {name}"))
        }
        None => line.try_write(entry),
    }
}

// The node that an entry is.
fn node_at(config: &Config, entry: Entry) -> Option<ConfigNode<'_>> {
    let index = entry.number.checked_sub(1)?;
    match entry.array {
        Field::Server => Some(ConfigNode::Server(config.servers().get(index)?)),
        Field::Router => Some(ConfigNode::Router(config.routers().get(index)?)),
        _ => None,
    }
}

// The node that a warning is of.
fn node_of(config: &Config, warning: Warning) -> Option<ConfigNode<'_>> {
    node_at(config, warning_place(config, warning).entry?)
}

fn router_of(config: &Config, warning: Warning) -> Option<&RouterEntry> {
    match node_of(config, warning)? {
        ConfigNode::Router(router) => Some(router),
        ConfigNode::Server(_) => None,
    }
}

// The prefix of a site, or the record of a router, that a warning is of.
fn prefix_of(config: &Config, warning: Warning) -> Option<&Prefix> {
    match warning {
        Warning::SamePrefix { at, .. } | Warning::Inside { at, .. } => {
            let site = config.sites().as_slice().get(at.site)?;
            Some(&site.prefixes().get(at.prefix)?.eid)
        }
        Warning::NotAllowed { router, record } | Warning::OutOfBounds { router, record } => {
            let router = config.routers().get(router)?;
            Some(router.database.records().get(record)?.eid_ref())
        }
        _ => None,
    }
}

// The other entry that a warning names: an earlier one, the one around, or the Map-Server of a router.
fn other_place(config: &Config, warning: Warning) -> Option<Place> {
    match warning {
        Warning::SamePrefix { first: site, .. } | Warning::Inside { around: site, .. } => {
            Some(entry_place(Field::Site, site))
        }
        Warning::SameAddress { first, .. } => Some(node_place(config, first)),
        Warning::SameIdentity { first, .. } | Warning::SameKey { first, .. } => {
            Some(entry_place(Field::Router, first))
        }
        Warning::OtherFamily { server, .. } => Some(entry_place(Field::Server, server)),
        _ => None,
    }
}

/// A warning of a secret in words, after its key.
pub fn secret_line(alloc: Global, warning: SecretWarning) -> Result<String, AllocError>
    ensures memory { OnErr result ⟦<Global as Memory>⟧.may_refuse }
{
    match warning {
        SecretWarning::Short { place } => String::try_format(
            alloc,
            format_args!("{place}: the secret has fewer than 16 bytes: it can be guessed"),
        ),
        SecretWarning::Same { first, place } => String::try_format(
            alloc,
            format_args!("{place}: the secret is that of {first} too: each key needs its own"),
        ),
    }
}
