//! What `look` asks, and of whom.

ghost use Rattle.std.specs.Prelude.{◌≡◌, codes, Some, IfOk, IfSome};
ghost use Rattle.lisp_records.specs.Address.{family, max_len, prefix_around};
ghost use Rattle.lispd_cli.specs.Words.{eid_in, from_in, number_given, option_in, ReadsQuestion};

use crate::failure::Failure;
use crate::fault::{Misuse, ProgramFault};
use crate::words::{number_given, word};
use clap::ArgMatches;
use lisp_look::{Question, run_look};
use lisp_records::{Addr, Prefix};
use lisp_texts::{addr_from_text, prefix_from_text};
use std::io::Write;
use std::net::Net;
use std::random::RandomSource;
use std::time::Clock;

/// How many Map-Requests are sent where nobody says so, and the most of them.
const TRIES_LEFT_OUT: u64 = 3;

const MOST_TRIES: u64 = 100;

/// Asks a Map-Server as the words of `look` say, and prints the Map-Reply. Faults: 98, where a word has another form than it takes
/// (`Misuse`), and those of [`run_look`](lisp_look::run_look): 131, 92, 134, 97, 90, 91, 132, 88; 133, with the status 4, where
/// the Map-Reply is negative.
pub fn look_up<R: Net + Clock + RandomSource + AllocGlobal, W: Write>(
    rt: &R,
    words: &ArgMatches<'_>,
    writer: &mut W,
) -> Result<(), Failure> {
    let question = question(words).map_err(ProgramFault::Misused)?;
    Ok(run_look(rt, &question, writer).map_err(ProgramFault::Look)?)
}

// The words of `look`.
fn question(words: &ArgMatches<'_>) -> Result<Question, Misuse>
    ensures { IfOk result (λ read. ReadsQuestion words.now read) }
{
    let eid = eid_in(word(words, "EID")).ok_or(Misuse::Eid)?;
    let server = addr_from_text(word(words, "server")).ok_or(Misuse::Server)?;
    let from = from(words, &server)?;
    let tries = tries(words)?;
    Ok(Question {
        eid,
        server,
        from,
        tries,
    })
}

// The EID-Prefix that a text stands for: itself, or an address with the full mask length.
fn eid_in(text: &str) -> Option<Prefix>
    ensures { result ≡ eid_in text.now }
{
    if let Some(prefix) = prefix_from_text(text) {
        return Some(prefix);
    }
    let addr = addr_from_text(text)?;
    Some(whole(addr))
}

fn whole(addr: Addr) -> Prefix
    ensures { result ≡ prefix_around addr (max_len addr) }
{
    Prefix::new(addr, addr.family().max_mask_len()).unwrap()
}

// The ITR-RLOC, where one was given. Faults: `From`, `Family`.
fn from(words: &ArgMatches<'_>, server: &Addr) -> Result<Option<Addr>, Misuse>
    ensures from { IfOk result
        (λ from. from_in (option_in words.now (codes "from")) ≡ Some from) }
    ensures family { IfOk result
        (λ from. IfSome from (λ from. family from ≡ family server.now)) }
{
    let Some(text) = words.get_str("from") else {
        return Ok(None);
    };
    let from = addr_from_text(text).ok_or(Misuse::From)?;
    if from.family() != server.family() {
        return Err(Misuse::Family);
    }
    Ok(Some(from))
}

// How many Map-Requests are sent at most. Fault: `Tries`.
fn tries(words: &ArgMatches<'_>) -> Result<u32, Misuse>
    ensures { IfOk result
        (λ tries. number_given 3 1 100 (option_in words.now (codes "tries")) ≡ Some tries) }
{
    match number_given(words.get_str("tries"), TRIES_LEFT_OUT, 1, MOST_TRIES) {
        Some(tries) => Ok(tries as u32),
        None => Err(Misuse::Tries),
    }
}
