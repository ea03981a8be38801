//! The program `lispd`: reads its words, runs the subcommand, and reports a fault on standard error.
#![tactic(auto)]

mod descriptors;

use clap::error::ErrorKind as WordsErrorKind;
use lispd::{
    AnswerFault, Failure, ProgramFault, SetupFault, command, report, run_subcommand, tells_words,
};
use std::env;
use std::io::{self, ErrorKind, IsTerminal};
use std::process::ExitCode;
use std::rt::Env;

/// Out of memory before a subcommand runs.
const OUT_OF_MEMORY: ProgramFault = ProgramFault::Setup(SetupFault::OutOfMemory);

/// The help or the version can't be written.
const UNWRITTEN: ProgramFault = ProgramFault::Answer(AnswerFault::Write);

/// The exit status for words that `clap` refuses.
const MISUSED: u8 = 2;

fn main(rt: HostRuntime) -> ExitCode {
    descriptors::open_closed(&rt);
    let is_terminal = rt.stderr().is_terminal();
    let words = match words(&rt) {
        Ok(words) => words,
        Err(fault) => return report(&rt, &Failure::from(fault), &[], is_terminal),
    };
    let words = words.as_slice();
    let Ok(command) = command(rt.alloc()) else {
        return report(&rt, &Failure::from(OUT_OF_MEMORY), words, is_terminal);
    };
    match command.try_get_matches_from(words) {
        Ok(matches) => match run_subcommand(&rt, &matches) {
            Ok(()) => ExitCode::SUCCESS,
            Err(failure) => report(&rt, &failure, words, is_terminal || tells_words(&matches)),
        },
        Err(error) => match print_words_error(&rt, &error) {
            Ok(status) => status,
            Err(failure) => report(&rt, &failure, words, is_terminal),
        },
    }
}

// The words of the command line, the program's name first.
fn words<R: Env + AllocGlobal>(rt: &R) -> Result<Vec<String>, ProgramFault> {
    match collect_words(rt) {
        Ok(words) => Ok(words),
        Err(error) if error.kind() == ErrorKind::OutOfMemory => Err(OUT_OF_MEMORY),
        Err(_) => Err(ProgramFault::Words),
    }
}

fn collect_words<R: Env + AllocGlobal>(rt: &R) -> io::Result<Vec<String>> {
    Ok(env::args(rt)?.collect(rt.alloc())?)
}

// Prints the help or the version that was asked for, or why `clap` refuses the words.
fn print_words_error<R: Print + Eprint + AllocGlobal>(
    rt: &R,
    error: &clap::Error,
) -> Result<ExitCode, Failure> {
    if error.kind() == WordsErrorKind::OutOfMemory {
        return Err(Failure::from(OUT_OF_MEMORY));
    }
    let printed = error.print(rt);
    if error.use_stderr() {
        return Ok(ExitCode::from(MISUSED));
    }
    match printed {
        Ok(()) => Ok(ExitCode::SUCCESS),
        Err(error) => Err(Failure::from(UNWRITTEN).with_output(rt.alloc(), Some(error))),
    }
}
