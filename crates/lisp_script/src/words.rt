//! The words of a line, and what single words stand for.

ghost use Rattle.std.specs.Prelude.{◌≡◌, ◌≢◌, [], IfOk, OnErr};
ghost use Rattle.std.specs.String.{string_bytes};
ghost use Rattle.lisp_script.specs.Answers.{GivesSites};
ghost use Rattle.lisp_script.specs.Fault.{Gives};
ghost use Rattle.lisp_script.specs.Words.{texts, words_of, node_of, server_of, router_of, number_in, key_in, address_in, prefix_in, bytes_in, doubt_in, load_fails_in, fate_in, records_in, some_records, database_in, mark_in, spaced};
ghost use Rattle.lisp_script.specs.declared.fault.ScriptWhat.TheVariants.{Memory};

use crate::fault::ScriptWhat;
use lisp_memory::{FallibleCopies, FallibleString, FallibleVec, Memory};
use lisp_nonces::Fate;
use lisp_records::{Addr, Bytes, Database, MapRecord, Prefix};
use lisp_sites::{Config, ConfigFault, Sites, sites_from_toml};
use lisp_texts::{addr_from_text, number_from_text, prefix_from_text, record_from_text};
use std::alloc::{AllocError, Allocator, Global};

/// The words of a line, which spaces separate.
pub(crate) fn words<A: Memory>(alloc: A, line: &str) -> Result<Vec<&str, A>, AllocError>
    ensures value { IfOk result (λ words. texts words.items ≡ words_of line.now) }
    ensures memory { OnErr result A.may_refuse }
    ensures asked { OnErr result (words_of line.now ≢ []) }
{
    let mut words = Vec::new(alloc);
    for word in line.split(' ') {
        if !word.is_empty() {
            words.try_push(word)?;
        }
    }
    Ok(words)
}

/// The Map-Server or router with a name, by its number.
#[tactic(auto, unfolding(crate::specs::Words::node_of))]
pub(crate) fn node<E: Allocator>(config: &Config<E>, word: &str) -> Result<usize, ScriptWhat>
    ensures { result ≡ node_of config.now word.now }
{
    config.number(word).ok_or(ScriptWhat::Name)
}

/// The Map-Server with a name.
#[tactic(auto, unfolding(crate::specs::Words::server_of))]
pub(crate) fn server<E: Allocator>(config: &Config<E>, word: &str) -> Result<usize, ScriptWhat>
    ensures { result ≡ server_of config.now word.now }
{
    config.server_number(word).ok_or(ScriptWhat::Name)
}

/// The router with a name, by its number.
#[tactic(auto, unfolding(crate::specs::Words::router_of))]
pub(crate) fn router<E: Allocator>(config: &Config<E>, word: &str) -> Result<usize, ScriptWhat>
    ensures { result ≡ router_of config.now word.now }
{
    config.router_number(word).ok_or(ScriptWhat::Name)
}

/// A decimal number.
pub(crate) fn number(word: &str) -> Result<u64, ScriptWhat>
    ensures { result ≡ number_in word.now }
{
    number_from_text(word).ok_or(ScriptWhat::Number)
}

/// A Key ID: a number of at most 255.
pub(crate) fn key(word: &str) -> Result<u8, ScriptWhat>
    ensures { result ≡ key_in word.now }
{
    let number = number(word)?;
    if number < 256 {
        Ok(number as u8)
    } else {
        Err(ScriptWhat::Number)
    }
}

/// An address.
pub(crate) fn address(word: &str) -> Result<Addr, ScriptWhat>
    ensures { result ≡ address_in word.now }
{
    addr_from_text(word).ok_or(ScriptWhat::Record)
}

/// An EID-Prefix.
pub(crate) fn prefix(word: &str) -> Result<Prefix, ScriptWhat>
    ensures { result ≡ prefix_in word.now }
{
    prefix_from_text(word).ok_or(ScriptWhat::Record)
}

/// The bytes that hexadecimal digits stand for; none for `-`.
pub(crate) fn bytes<A: Memory>(alloc: A, word: &str) -> Result<Bytes<A>, ScriptWhat>
    ensures { Gives A.may_refuse (λ bytes. bytes) result (bytes_in word.now) }
{
    if word == "-" {
        return Ok(Bytes::from_vec(Vec::new(alloc)));
    }
    let mut bytes = Vec::try_for_each(alloc, 0, &word.as_bytes()[..word.len() / 2])?;
    match hex::decode_to_slice(word, &mut bytes) {
        Ok(()) => Ok(Bytes::from_vec(bytes)),
        Err(_) => Err(ScriptWhat::Hex),
    }
}

/// What becomes of a save.
pub(crate) fn doubt(word: &str) -> Result<Fate, ScriptWhat>
    ensures { result ≡ doubt_in word.now }
{
    if word == "doubt" {
        Ok(Fate::Doubt)
    } else {
        Err(ScriptWhat::Word)
    }
}

/// What becomes of a load.
pub(crate) fn load_fails(word: &str) -> Result<Fate, ScriptWhat>
    ensures { result ≡ load_fails_in word.now }
{
    if word == "loadfails" {
        Ok(Fate::LoadFails)
    } else {
        Err(ScriptWhat::Word)
    }
}

/// What becomes of a load, or of a save.
pub(crate) fn fate(word: &str) -> Result<Fate, ScriptWhat>
    ensures { result ≡ fate_in word.now }
{
    match load_fails(word) {
        Ok(fate) => Ok(fate),
        Err(_) => doubt(word),
    }
}

/// The database of records, a word each, or of none where the only word is `empty`.
pub(crate) fn database<A: Memory + Copy>(
    alloc: A,
    words: &[&str],
) -> Result<Database<A>, ScriptWhat>
    ensures { Gives A.may_refuse (λ db. db) result (database_in (texts words.now)) }
{
    match *words {
        [word] if word == "empty" => some_records(alloc, &[]),
        _ => some_records(alloc, words),
    }
}

// The database of records, a word each.
fn some_records<A: Memory + Copy>(alloc: A, words: &[&str]) -> Result<Database<A>, ScriptWhat>
    ensures { Gives A.may_refuse (λ db. db) result (some_records (texts words.now)) }
{
    match Database::new(records(alloc, words)?) {
        Ok(db) => Ok(db),
        Err(_) => Err(ScriptWhat::Record),
    }
}

// Records, a word each.
fn records<A: Memory + Copy>(alloc: A, words: &[&str]) -> Result<Vec<MapRecord<A>, A>, ScriptWhat>
    ensures { Gives A.may_refuse (λ records. records.items) result (records_in (texts words.now)) }
{
    let mut records = Vec::new(alloc);
    for word in words {
        let Some(record) = record_from_text(alloc, word)? else {
            return Err(ScriptWhat::Record);
        };
        records.try_push(record)?;
    }
    Ok(records)
}

/// The word before sites.
pub(crate) fn mark(word: &str) -> Result<(), ScriptWhat>
    ensures { result ≡ mark_in word.now }
{
    if word == "---" {
        Ok(())
    } else {
        Err(ScriptWhat::Word)
    }
}

/// The sites that words tell, which are a line of TOML: as a configuration has them. `heap` serves the reading of TOML alone.
pub(crate) fn sites<A: Memory + Copy>(
    heap: Global,
    alloc: A,
    words: &[&str],
) -> Result<Sites<A>, ScriptWhat>
    ensures { GivesSites result (texts words.now) }
{
    let line = spaced(alloc, words)?;
    match sites_from_toml(heap, alloc, line.as_str()) {
        Ok(sites) => Ok(sites),
        Err(ConfigFault::OutOfMemory) => Err(ScriptWhat::Memory),
        Err(_) => Err(ScriptWhat::Record),
    }
}

// Words, a space behind each.
fn spaced<A: Memory>(alloc: A, words: &[&str]) -> Result<String<A>, AllocError>
    ensures text { IfOk result (λ line. string_bytes line ≡ spaced (texts words.now)) }
    ensures memory { OnErr result A.may_refuse }
{
    let mut line = String::new(alloc);
    for word in words {
        line.try_write(format_args!("{word} "))?;
    }
    Ok(line)
}
