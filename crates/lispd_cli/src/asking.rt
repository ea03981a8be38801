//! What a node that runs is asked, and told to do.

ghost use Rattle.std.specs.Prelude.{◌≡◌};
ghost use Rattle.lispd_cli.specs.Asking.{advice_of, errand_of};

use crate::answers::{bad_line, behind_word, disallows, first_word, print_answer, print_objects};
use crate::command_line::{FOLDER, JSON, PROMETHEUS, QUESTION, RELOAD};
use crate::failure::Failure;
use crate::fault::{Misuse, ProgramFault};
use crate::reloading::reload_sites;
use crate::words::{is_given, word};
use clap::ArgMatches;
use lisp_files::whole;
use lisp_memory::FallibleString;
use lisp_refusals::{meaning, remedy};
use lisp_script::ScriptWhat;
use std::alloc::{AllocError, Global};
use std::io::{self, Write};
use std::net::Net;
use std::os::unix::net::UnixStream;
use std::rt::Files;
use std::time::Duration;

/// How long the next part of an answer may take, in seconds.
const PATIENCE: u64 = 10;

/// The number of a record that its site doesn't allow.
const NOT_ALLOWED: u16 = 55;

/// Whether a node is asked, or told what to do.
#[derive(Clone, Copy, PartialEq)]
pub enum Errand {
    /// It is asked.
    Ask,
    /// It is told.
    Tell,
}

/// Asks the node that runs over a folder, or tells it what to do, and prints its answer. Before it tells a router to register other
/// records it asks which of them the router's site doesn't allow; it warns of each on standard error, and doesn't tell it then, but
/// with `--force`. A Map-Server is told the sites of a configuration as `reload_sites` says. Faults: 80 where it is asked an order, or
/// told a question; 98 where `--json` comes with `--prometheus`; 99 where no node answers, or its answer is cut off; those of the line,
/// 80 to 86; what keeps the node from doing what it is told, 55 where a record isn't allowed, with the status 3; 88 where the answer
/// can't be written; 97.
pub fn ask_node<R: Input + Eprint + Files + Net + AllocGlobal, W: Write>(
    rt: &R,
    errand: Errand,
    words: &ArgMatches<'_>,
    writer: &mut W,
) -> Result<(), Failure> {
    let question = question(rt.alloc(), words).map_err(ProgramFault::from)?;
    if errand == Errand::Tell && first_word(question.as_str()) == RELOAD {
        return reload_sites(rt, words, writer);
    }
    ask(rt, errand, words, question.as_str(), writer).map_err(|fault| {
        let details = details(rt.alloc(), errand, fault);
        Failure { fault, details }
    })
}

fn ask<R: Eprint + Files + Net + AllocGlobal, W: Write>(
    rt: &R,
    errand: Errand,
    words: &ArgMatches<'_>,
    question: &str,
    writer: &mut W,
) -> Result<(), ProgramFault> {
    if is_given(words, JSON) && is_given(words, PROMETHEUS) {
        return Err(ProgramFault::Misused(Misuse::TwoForms));
    }
    if errand_of(question) != errand {
        return Err(bad_line(ScriptWhat::Word.number()));
    }
    let path = control_path(rt.alloc(), word(words, FOLDER))?;
    if errand == Errand::Tell && !is_given(words, "force") {
        check_change(rt, path.as_str(), question)?;
    }
    let answer = answer(rt, path.as_str(), question)?;
    if is_given(words, JSON) {
        print_objects(rt.alloc(), answer.as_str(), writer)
    } else {
        print_answer(errand, answer.as_str(), writer)
    }
}

/// The socket at which the node of a folder is asked.
pub(crate) fn control_path(alloc: Global, folder: &str) -> Result<String, AllocError> {
    String::try_format(alloc, format_args!("{folder}/control"))
}

// What is wrong with the question or the order, in words; `None` where the fault's own words say it, or there is no memory.
fn details(alloc: Global, errand: Errand, fault: ProgramFault) -> Option<String> {
    match fault {
        ProgramFault::Run(fault) => {
            let words = advice_of(errand, fault.number)?.words();
            String::try_from_str(alloc, words).ok()
        }
        ProgramFault::Refused(number) => refusal_words(alloc, number),
        _ => None,
    }
}

/// Why a node doesn't do what it is told, in words; `None` where there is no memory.
pub(crate) fn refusal_words(alloc: Global, number: u16) -> Option<String> {
    let (meaning, remedy) = (meaning(number)?, remedy(number)?);
    let words = format_args!("the node doesn't do it: {meaning}: {remedy}");
    String::try_format(alloc, words).ok()
}

// Warns of each record of an order to register other records that the router's site doesn't allow, and refuses the order then. Where
// the node doesn't answer which these are, it isn't told.
fn check_change<R: Eprint + Files + Net + AllocGlobal>(
    rt: &R,
    path: &str,
    order: &str,
) -> Result<(), ProgramFault> {
    if first_word(order) != "change" {
        return Ok(());
    }
    let records = behind_word(order);
    let question = String::try_format(rt.alloc(), format_args!("disallowed {records}"))?;
    let answer = answer(rt, path, question.as_str())?;
    check_allowed(rt, answer.as_str())
}

// Refuses what a node answers to `disallowed` where it says so of some records.
fn check_allowed<R: Eprint>(rt: &R, answer: &str) -> Result<(), ProgramFault> {
    let Some(lines) = whole(answer) else {
        return Err(ProgramFault::Unanswered);
    };
    if disallows(lines) {
        warn_of_records(rt, lines);
        return Err(ProgramFault::Refused(NOT_ALLOWED));
    }
    Ok(())
}

// Warns of each record that isn't allowed.
fn warn_of_records<R: Eprint>(rt: &R, answer: &str) {
    for line in answer.split('\n') {
        if let Some(prefix) = line.strip_prefix("record ") {
            let _ = eprintln!(rt;
                "warning: a Map-Server refuses {prefix} ({NOT_ALLOWED}), and with it the whole Map-Register; --force \
sends it all the same"
            );
        }
    }
}

// The words of the question, with a space between them.
fn question(alloc: Global, words: &ArgMatches<'_>) -> Result<String, AllocError> {
    let mut question = String::new(alloc);
    if let Some(words) = words.get_strs(QUESTION) {
        for word in words {
            if !question.is_empty() {
                question.try_push(' ')?;
            }
            question.try_write(word)?;
        }
    }
    if is_given(words, PROMETHEUS) {
        question.try_write(" --prometheus")?;
    }
    Ok(question)
}

// Whether a node is asked the question, or told it: by its first word.
#[tactic(auto, using(crate::proofs::Numbers::apart))]
fn errand_of(question: &str) -> Errand
    ensures { result ≡ errand_of question.now }
{
    match first_word(question) {
        "backup" | "change" | "notice" | "reload" | "rotate" => Errand::Tell,
        _ => Errand::Ask,
    }
}

/// What the node answers to a question at its socket, until it closes that.
pub(crate) fn answer<R: Files + Net + AllocGlobal>(
    rt: &R,
    path: &str,
    question: &str,
) -> Result<String, ProgramFault> {
    read_answer(rt, path, question).map_err(|_| ProgramFault::Unanswered)
}

fn read_answer<R: Files + Net + AllocGlobal>(
    rt: &R,
    path: &str,
    question: &str,
) -> io::Result<String> {
    let mut stream = connect(rt, path)?;
    writeln!(stream, "{question}")?;
    io::read_to_string(rt.alloc(), stream)
}

/// A node's socket, at which nothing takes for ever.
pub(crate) fn connect<R: Files + Net>(rt: &R, path: &str) -> io::Result<UnixStream> {
    let stream = UnixStream::connect(rt, path)?;
    let patience = Some(Duration::from_secs(PATIENCE));
    stream.set_read_timeout(patience)?;
    stream.set_write_timeout(patience)?;
    Ok(stream)
}

/// What an operator is advised of.
#[derive(Clone, Copy)]
enum Advice {
    /// Which questions there are.
    Questions,
    /// Which orders there are.
    Orders,
    /// How an address is written.
    Address,
    /// How records are written.
    Records,
}

impl Advice {
    // It, in words.
    const fn words(self) -> &'static str {
        match self {
            Advice::Questions => {
                "a Map-Server is asked hold, ask ADDRESS, routers, due or counts, and a router records, acks, due, counts or \
                 disallowed RECORD ..; an order is for `lispd tell`"
            }
            Advice::Orders => {
                "a Map-Server is told notice ROUTER, a router of its configuration, or reload CONFIG, and a router change RECORD .. or \
                 rotate KEY; each with --database backup FILE; a question is for `lispd ask`"
            }
            Advice::Address => {
                "an address is four numbers with dots, as 10.1.2.3, or all eight groups with colons, as \
                 2001:db8:1:0:0:0:0:5; `::` isn't read here"
            }
            Advice::Records => {
                "write records as 10.1.0.0/16=1440+192.0.2.1 or 2001:db8:1:0:0:0:0:0/48=1440+192.0.2.1, of different prefixes, \
                 or empty; all eight groups are written, since `::` isn't read here"
            }
        }
    }
}

// What a fault's number asks for that ended a question, or an order; `None` where the number's own remedy says it.
const fn advice_of(errand: Errand, number: u16) -> Option<Advice>
    ensures { result ≡ advice_of errand number }
{
    match (errand, number) {
        (Errand::Ask, 80..=82) => Some(Advice::Questions),
        (Errand::Tell, 80..=82) => Some(Advice::Orders),
        (Errand::Ask, 84) => Some(Advice::Address),
        (Errand::Tell, 84) => Some(Advice::Records),
        _ => None,
    }
}
