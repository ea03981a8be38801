//! The words of a line, and which of them are names, numbers and keys.

ghost use Rattle.std.specs.Prelude.{◌≡◌, ℕ, List, IfOk, OnErr};
ghost use Rattle.std.specs.List.{list_all, list_any};
ghost use Rattle.std.specs.Str.{bytes_eq};
ghost use Rattle.std.specs.Char.{is_ascii_digit};
ghost use Rattle.lisp_json.specs.Told.{ToldValue, take_name, take_names};
ghost use Rattle.lisp_json.specs.Words.{texts, words_of, is_among, nameless, paired, numbered, number_keys, is_key, is_decimal, number_in};

use lisp_memory::{FallibleCopies, Memory};
use lisp_texts::number_from_text;
use std::alloc::AllocError;

/// Kinds of lines without a name behind them.
const NAMELESS: [&str; 8] = [
    "comes", "dropped", "fault", "goes", "lost", "nowhere", "record", "tick",
];

/// Kinds of lines with the names of two nodes behind them.
const PAIRED: [&str; 12] = [
    "accepted", "acks", "counted", "done", "due", "expired", "moved", "notice", "noticed",
    "resent", "sent", "silent",
];

/// Kinds of lines with a number of a refusal or a fault behind the names.
const NUMBERED: [&str; 2] = ["fault", "refused"];

/// Keys whose values are numbers.
const NUMBER_KEYS: [&str; 19] = [
    "age",
    "datagram",
    "fault",
    "key",
    "longest_save_ms",
    "nonces",
    "now",
    "part",
    "read",
    "record",
    "records",
    "replays",
    "requests",
    "rows",
    "sites",
    "slowest_reply_us",
    "standing_notices",
    "store",
    "times",
];

/// Keys whose values are texts.
const TEXT_KEYS: [&str; 9] = [
    "from", "latest", "nonce", "prefix", "resolve", "saved", "site", "to", "xtr",
];

/// The words of a line, which spaces divide.
pub(crate) fn words_of<A: Memory>(alloc: A, line: &str) -> Result<Vec<&str, A>, AllocError>
    ensures words { IfOk result (λ words. texts words.items ≡ words_of line.now) }
    ensures memory { OnErr result A.may_refuse }
{
    let mut words = Vec::new(alloc);
    for word in line.split(' ') {
        words.try_extend_from_slice(&[word])?;
    }
    Ok(words)
}

/// The words behind the names of a line of this kind.
pub(crate) fn behind_names<'w, 'a>(kind: &str, words: &'w [&'a str]) -> &'w [&'a str]
    ensures { texts result.now ≡ (take_names kind.now (texts words.now)).1 }
{
    if is_nameless(kind) {
        return words;
    }
    let behind = behind_name(words);
    if is_paired(kind) {
        behind_name(behind)
    } else {
        behind
    }
}

fn behind_name<'w, 'a>(words: &'w [&'a str]) -> &'w [&'a str]
    ensures { (name : List ℕ) (told : ToldValue)
        → texts result.now ≡ (take_name name (told, texts words.now)).1 }
{
    match words {
        [_, behind @ ..] => behind,
        [] => words,
    }
}

pub(crate) fn is_nameless(kind: &str) -> bool
    ensures { result ≡ is_among nameless kind.now }
{
    is_one_of(&NAMELESS, kind)
}

pub(crate) fn is_paired(kind: &str) -> bool
    ensures { result ≡ is_among paired kind.now }
{
    is_one_of(&PAIRED, kind)
}

fn is_numbered(kind: &str) -> bool
    ensures { result ≡ is_among numbered kind.now }
{
    is_one_of(&NUMBERED, kind)
}

pub(crate) fn has_number(key: &str) -> bool
    ensures { result ≡ is_among number_keys key.now }
{
    is_one_of(&NUMBER_KEYS, key)
}

pub(crate) fn is_key(word: &str) -> bool
    ensures { result ≡ is_key word.now }
{
    has_number(word) || is_one_of(&TEXT_KEYS, word)
}

/// Whether a word is one of these.
pub(crate) fn is_one_of(names: &[&str], word: &str) -> bool
    ensures { result ≡ list_any (λ name. bytes_eq word.now name.now) names.now }
{
    names.iter().any(|name| word == *name)
}

/// Whether a word is a number of at most 15 digits, without leading zeros.
pub(crate) fn is_decimal(word: &str) -> bool
    ensures { result ≡ is_decimal word.now }
{
    match word.as_bytes() {
        [] => false,
        [b'0', digits @ ..] => digits.is_empty(),
        [first, digits @ ..] => first.is_ascii_digit() && digits.len() < 15 && are_digits(digits),
    }
}

fn are_digits(text: &[u8]) -> bool
    ensures { result ≡ list_all is_ascii_digit text.now }
{
    text.iter().all(|c| c.is_ascii_digit())
}

/// The number of a refusal or a fault with which the words behind the names begin.
pub(crate) fn number_in(kind: &str, words: &[&str]) -> Option<u16>
    ensures { result ≡ number_in kind.now (texts words.now) }
{
    let [word, ..] = words else {
        return None;
    };
    if !is_numbered(kind) || !is_decimal(word) {
        return None;
    }
    match number_from_text(word) {
        Some(number) if number < 65_536 => Some(number as u16),
        _ => None,
    }
}
