//! The program of a first answer: of `lispd` the subcommands `answer`, with its defaults, and `play`. It stands on few crates, so
//! that it is soon compiled.
//!
//! # Decisions
//!
//! - `make run` compiles all crates of its program where nothing is proved yet. Without command line library, database and
//!   pictures that takes a third of the time.
//! - Commands that the network doesn't take aren't reported here; `lispd play` reports them.
#![tactic(auto)]

mod fault;

use crate::fault::SmallFault;
use lisp_answer::{AnswerSetup, answer};
use lisp_player::play;
use lisp_script::PlayFault;
use std::alloc::Global;
use std::io::{self, BufReader, ErrorKind, Read, Write};
use std::process::ExitCode;
use std::rt::{Env, Files};
use std::{env, fs};

/// What is printed behind a fault of the words.
const TAKES: &str =
    "takes `answer` < LINE or `play` FILE; `make lispd` builds the program that has the rest";

fn main(rt: HostRuntime) -> ExitCode {
    match words(&rt) {
        Ok(words) => run(&rt, words.as_slice()),
        Err(fault) => report(&rt, &fault),
    }
}

// The words of the command line, the program's name first.
fn words<R: Env + AllocGlobal>(rt: &R) -> Result<Vec<String>, SmallFault> {
    match collect_words(rt) {
        Ok(words) => Ok(words),
        Err(error) if error.kind() == ErrorKind::OutOfMemory => Err(SmallFault::Memory),
        Err(_) => Err(SmallFault::Words),
    }
}

fn collect_words<R: Env + AllocGlobal>(rt: &R) -> io::Result<Vec<String>> {
    Ok(env::args(rt)?.collect(rt.alloc())?)
}

// Runs what the words ask for, and reports the fault that ended it.
fn run(rt: &HostRuntime, words: &[String]) -> ExitCode {
    match run_words(rt, words, &mut io::writer(rt)) {
        Ok(()) => ExitCode::SUCCESS,
        Err(fault) => report(rt, &fault),
    }
}

fn run_words<R: Input + Files + AllocGlobal, W: Write>(
    rt: &R,
    words: &[String],
    writer: &mut W,
) -> Result<(), SmallFault> {
    match words {
        [_] => run_answer(rt, writer),
        [_, name] if name.as_str() == "answer" => run_answer(rt, writer),
        [_, name, file] if name.as_str() == "play" => run_play(rt, file, writer),
        _ => Err(SmallFault::Words),
    }
}

fn run_answer<R: Input + AllocGlobal, W: Write>(rt: &R, writer: &mut W) -> Result<(), SmallFault> {
    let Ok(setup) = AnswerSetup::defaults(rt.alloc()) else {
        return Err(SmallFault::Memory);
    };
    answer_from(rt.alloc(), &setup, &mut rt.reader(), writer)
}

// As `answer`. It promises nothing, so that nothing need be proved of standard input.
fn answer_from<R: Read, W: Write>(
    alloc: Global,
    setup: &AnswerSetup,
    reader: &mut R,
    writer: &mut W,
) -> Result<(), SmallFault> {
    answer(alloc, setup, reader, writer)?;
    Ok(())
}

fn run_play<R: Files + AllocGlobal, W: Write>(
    rt: &R,
    name: &str,
    writer: &mut W,
) -> Result<(), SmallFault> {
    match fs::open(rt, name) {
        Ok(file) => play_file(rt.alloc(), file, writer),
        Err(_) => Err(SmallFault::File),
    }
}

fn play_file<R: Read + Drop, W: Write>(
    alloc: Global,
    file: R,
    writer: &mut W,
) -> Result<(), SmallFault> {
    match BufReader::new(alloc, file) {
        Ok(mut reader) => play_from(alloc, &mut reader, writer),
        Err(_) => Err(SmallFault::Play(PlayFault::OutOfMemory)),
    }
}

// As `play`, and promises nothing either.
fn play_from<R: Read, W: Write>(
    alloc: Global,
    reader: &mut R,
    writer: &mut W,
) -> Result<(), SmallFault> {
    play(alloc, alloc, reader, writer)?;
    Ok(())
}

// Prints the fault's number, and the line of a script or what the program takes. Returns the fault's exit status.
fn report<R: Eprint>(rt: &R, fault: &SmallFault) -> ExitCode {
    let number = fault.number();
    let _ = match fault.line() {
        Some(line) => eprintln!(rt; "lispd: fault {number} line {line}"),
        None => eprintln!(rt; "lispd: fault {number}"),
    };
    if *fault == SmallFault::Words {
        let _ = eprintln!(rt; "lispd: {TAKES}");
    }
    ExitCode::from(fault.status())
}
