//! The subcommands that run no node, and ask none but where `check` is to.

use crate::capture::read_capture;
use crate::check::{accept, print_findings, read_checked};
use crate::command_line::{CONFIG, NUMBER, STRICT};
use crate::explanation::explain_line;
use crate::failure::Failure;
use crate::fault::ProgramFault;
use crate::options::setup;
use crate::reloading::compare_sites;
use crate::words::{is_given, word};
use clap::ArgMatches;
use lisp_answer::{AnswerSetup, answer};
use lisp_files::{STANDARD_INPUT, WatchedReader};
use lisp_refusals::explain_all;
use std::alloc::Global;
use std::io::{Read, Write};
use std::net::Net;
use std::rt::Files;

/// Runs `check`, `read` or `explain`, where the words name it; else `answer`, with the options that were given.
pub fn run_alone<R: Input + Eprint + Files + Net + AllocGlobal, W: Write>(
    rt: &R,
    named: Option<(&str, &ArgMatches<'_>)>,
    writer: &mut W,
) -> Result<(), Failure> {
    let Some((name, words)) = named else {
        return run_answer(rt, None, writer);
    };
    match name {
        "check" => check(rt, words, writer),
        "read" => read_capture(rt, words, writer),
        "explain" => Ok(explain_words(rt.alloc(), words, writer)?),
        _ => run_answer(rt, Some(words), writer),
    }
}

// `answer`: answers the line on standard input, with the options that were given.
fn run_answer<R: Input + AllocGlobal, W: Write>(
    rt: &R,
    matches: Option<&ArgMatches<'_>>,
    writer: &mut W,
) -> Result<(), Failure> {
    let alloc = rt.alloc();
    let setup = setup(alloc, matches).map_err(ProgramFault::Setup)?;
    let mut reader = WatchedReader::over(rt.reader());
    let answered = answer_from(alloc, &setup, &mut reader, writer);
    answered.map_err(|fault| Failure::of_input(alloc, fault, STANDARD_INPUT, reader.error()))
}

// As `answer`. It promises nothing, so that nothing need be proved of standard input.
fn answer_from<R: Read, W: Write>(
    alloc: Global,
    setup: &AnswerSetup,
    reader: &mut R,
    writer: &mut W,
) -> Result<(), ProgramFault> {
    answer(alloc, setup, reader, writer).map_err(ProgramFault::Answer)
}

// `check`: prints what was understood of a configuration, and its warnings; then what a node that runs would do with its sites.
fn check<R: Input + Eprint + Files + Net + AllocGlobal, W: Write>(
    rt: &R,
    words: &ArgMatches<'_>,
    writer: &mut W,
) -> Result<(), Failure> {
    let path = word(words, CONFIG);
    let checked = read_checked(rt, path)?;
    let has_warnings = print_findings(rt.alloc(), path, &checked, writer)?;
    accept(rt.alloc(), &checked, is_given(words, STRICT), has_warnings)?;
    match words.get_str("against") {
        Some(folder) => compare_sites(rt, folder, &checked, writer),
        None => Ok(()),
    }
}

// `explain`: explains each number of a line; with none, all numbers.
fn explain_words<W: Write>(
    alloc: Global,
    words: &ArgMatches<'_>,
    writer: &mut W,
) -> Result<(), ProgramFault> {
    match words.get_strs(NUMBER) {
        Some(line) => explain_line(alloc, line, writer),
        None => explain_all(writer).map_err(ProgramFault::Explain),
    }
}
