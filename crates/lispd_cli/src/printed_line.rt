//! The numbers of a line that a node prints.

ghost use Rattle.std.specs.Prelude.{◌≡◌, ◌∷◌, [], true, drop, IfOk, OnErr, Some};
ghost use Rattle.std.specs.Option.{option_map, option_to_list};
ghost use Rattle.lisp_script.specs.Words.{texts};
ghost use Rattle.lispd_cli.specs.PrintedLine.{is_among, verbs, fault_of, is_source, is_kind, none_if, told_by, carried_by, numbered, of_verb, whole, from_verb, with_carried, numbers_of, both, read_as};

use lisp_memory::{FallibleVec, Memory};
use lisp_texts::{addr_from_text, number_from_text};
use std::alloc::AllocError;

/// The number of replays.
const REPLAY: u16 = 57;

/// The numbers of a line's words: that which it begins with, or that behind a whole line's name, then those of the faults that
/// it carries, as 30 in `store 30`. `None` where the words are no such line.
pub(crate) fn numbers_of<A: Memory + Copy>(
    alloc: A,
    words: &[&str],
) -> Result<Option<Vec<u16, A>>, AllocError>
    ensures numbers { IfOk result
        (λ found. option_map (λ numbers. numbers.items) found ≡ numbers_of (texts words.now)) }
    ensures memory { OnErr result A.may_refuse }
{
    match with_carried(alloc, numbered(words))? {
        Some(numbers) => Ok(Some(numbers)),
        None => with_carried(alloc, whole(from_verb(words))),
    }
}

// A line's number, and those of the faults that the words behind it carry.
fn with_carried<A: Memory>(
    alloc: A,
    line: Option<(u16, &[&str])>,
) -> Result<Option<Vec<u16, A>>, AllocError>
    ensures numbers { IfOk result
        (λ found. option_map (λ numbers. numbers.items) found
        ≡ with_carried (option_map (λ l. (l.0, texts l.1.now)) line.entry)) }
    ensures memory { OnErr result A.may_refuse }
{
    let Some((number, words)) = line else {
        return Ok(None);
    };
    let mut numbers = Vec::new(alloc);
    numbers.try_push(number)?;
    Ok(add_carried(&mut numbers, words)?.then_some(numbers))
}

// Adds the faults that the words behind a number carry; whether they are words of a line.
#[tactic(auto, unfolding(crate::specs::PrintedLine::carried_by))]
fn add_carried<A: Memory>(numbers: &mut Vec<u16, A>, words: &[&str]) -> Result<bool, AllocError>
    ensures numbers { IfOk result
        (λ read. read_as read numbers.new.items
        ≡ both (Some numbers.old.items) (carried_by (texts words.now))) }
    ensures memory { OnErr result A.may_refuse }
{
    let mut rest = words;
    while let [word, behind @ ..] = rest {
        if is_kind(word) {
            rest = behind;
            continue;
        }
        let [value, others @ ..] = behind else {
            return Ok(false);
        };
        if !add_told(numbers, word, value)? {
            return Ok(false);
        }
        rest = others;
    }
    Ok(true)
}

// Adds the fault that a word and the one behind it tell, if any; whether they are words of a line.
fn add_told<A: Memory>(
    numbers: &mut Vec<u16, A>,
    word: &str,
    value: &str,
) -> Result<bool, AllocError>
    ensures numbers { IfOk result
        (λ read. read_as read numbers.new.items
        ≡ both (Some numbers.old.items) (told_by word.now value.now)) }
    ensures memory { OnErr result A.may_refuse }
{
    match told_by(word, value) {
        Some(Some(number)) => numbers.try_push(number)?,
        Some(None) => {}
        None => return Ok(false),
    }
    Ok(true)
}

// The fault that a word and the one behind it tell, or none; `None` where they are no words of a line.
#[tactic(auto, using(crate::proofs::Numbers::differs))]
fn told_by(word: &str, value: &str) -> Option<Option<u16>>
    ensures { option_map option_to_list result ≡ told_by word.now value.now }
{
    match word {
        "fault" | "read" | "store" => Some(Some(fault_of(value)?)),
        "age" | "latest" | "line" | "record" | "saved" | "times" => {
            none_if(number_from_text(value).is_some())
        }
        "from" => none_if(is_source(value)),
        _ => None,
    }
}

fn none_if(is_value: bool) -> Option<Option<u16>>
    ensures { option_map option_to_list result ≡ none_if is_value }
{
    if is_value { Some(None) } else { None }
}

/// The number of a refusal or a fault that the word is: decimal, of 16 bits. `None` for any other word.
pub(crate) fn fault_of(word: &str) -> Option<u16>
    ensures { result ≡ fault_of word.now }
{
    match number_from_text(word) {
        Some(number) if number < 65_536 => Some(number as u16),
        _ => None,
    }
}

// Whether the word is where a datagram came from.
fn is_source(word: &str) -> bool
    ensures { result ≡ is_source word.now }
{
    word == "others" || addr_from_text(word).is_some()
}

// Whether the word is the kind of the system's error.
fn is_kind(word: &str) -> bool
    ensures { result ≡ is_kind word.now }
{
    matches!(word.as_bytes(), [b'A'..=b'Z', ..])
}

// The number that the words begin with, and those behind it.
fn numbered<'a>(words: &'a [&'a str]) -> Option<(u16, &'a [&'a str])>
    ensures { option_map (λ l. (l.0, texts l.1.now)) result ≡ numbered (texts words.now) }
{
    let [number, words @ ..] = words else {
        return None;
    };
    Some((fault_of(number)?, words))
}

// The number of a whole line, and the words behind it.
fn whole<'a>(words: &'a [&'a str]) -> Option<(u16, &'a [&'a str])>
    ensures { option_map (λ l. (l.0, texts l.1.now)) result ≡ whole (texts words.now) }
{
    match words {
        [verb, words @ ..] => of_verb(verb, words),
        [] => None,
    }
}

// The same of a line by its first word, and those behind it.
#[tactic(auto, using(crate::proofs::Numbers::differs))]
fn of_verb<'a>(verb: &str, words: &'a [&'a str]) -> Option<(u16, &'a [&'a str])>
    ensures { option_map (λ l. (l.0, texts l.1.now)) result ≡ of_verb verb.now (texts words.now) }
{
    match verb {
        "fault" => numbered(words),
        "refused" => numbered(behind_name(words)),
        "replays" => Some((REPLAY, behind_name(words))),
        _ => None,
    }
}

// The words of a line behind its node's name.
fn behind_name<'a>(words: &'a [&'a str]) -> &'a [&'a str]
    ensures { texts result.now ≡ drop 1 (texts words.now) }
{
    match words {
        [_, words @ ..] => words,
        [] => words,
    }
}

// The words without what a log puts in front of a line.
#[tactic(auto, unfolding(crate::specs::PrintedLine::from_verb))]
fn from_verb<'a>(words: &'a [&'a str]) -> &'a [&'a str]
    ensures { texts result.now ≡ from_verb (texts words.now) }
{
    let mut rest = words;
    while let [word, behind @ ..] = rest {
        if is_verb(word) {
            return rest;
        }
        rest = behind;
    }
    &[]
}

fn is_verb(word: &str) -> bool
    ensures { result ≡ is_among verbs word.now }
{
    matches!(word, "counts" | "fault" | "refused" | "replays")
}
