//! What is reported of a fault, on standard error.

use crate::failure::Failure;
use crate::fault::ProgramFault;
use crate::remedy::advice;
use lisp_refusals::remedy;
use lisp_script::PlayFault;
use std::fmt::{self, Display, Formatter, Write};
use std::process::ExitCode;

/// What is wrong, and what would be right, in words.
#[derive(Drop)]
pub struct InWords<'a>(pub &'a ProgramFault);

impl Display for InWords<'_> {
    fn fmt<W: Write>(&self, formatter: &mut Formatter<W>) -> fmt::Result {
        match self.0 {
            ProgramFault::Play(fault) => put_advice(fault, formatter),
            ProgramFault::Run(fault) => put_remedy(fault.number, formatter),
            fault => fault.fmt(formatter),
        }
    }
}

fn put_advice<W: Write>(fault: &PlayFault, formatter: &mut Formatter<W>) -> fmt::Result {
    match advice(fault) {
        Some(words) => write!(formatter, "{fault}: {words}"),
        None => fault.fmt(formatter),
    }
}

// `lispd check` says more of a fault of a configuration.
fn put_remedy<W: Write>(number: u16, formatter: &mut Formatter<W>) -> fmt::Result {
    formatter.write_str(remedy(number).unwrap_or(""))?;
    match number {
        20..=23 => formatter.write_str("; `lispd check` names the entry and the field"),
        _ => Ok(()),
    }
}

/// The words after the program's name: which subcommand, file and node. Characters that would begin
/// another line are escaped.
#[derive(Drop)]
struct Words<'a>(&'a [String]);

impl Display for Words<'_> {
    fn fmt<W: Write>(&self, formatter: &mut Formatter<W>) -> fmt::Result {
        if let [_, words @ ..] = self.0 {
            for word in words {
                write!(formatter, " {}", word.escape_debug())?;
            }
        }
        Ok(())
    }
}

/// Prints the fault's number, and the line of a script or a list; where it is asked for, also what was asked of the program and what is
/// wrong, in words. Returns the fault's exit status.
pub fn report<R: Eprint>(
    rt: &R,
    failure: &Failure,
    words: &[String],
    tells_words: bool,
) -> ExitCode {
    let fault = &failure.fault;
    let number = fault.number();
    let _ = match fault.line() {
        Some(line) => eprintln!(rt; "lispd: fault {number} line {line}"),
        None => eprintln!(rt; "lispd: fault {number}"),
    };
    if tells_words {
        explain(rt, failure, words);
    }
    ExitCode::from(fault.status())
}

// A fault of a file, a schedule or a node comes with the words that name them, before each line of what is known of it.
fn explain<R: Eprint>(rt: &R, failure: &Failure, words: &[String]) {
    let words = Words(match failure.fault {
        ProgramFault::File
        | ProgramFault::Play(_)
        | ProgramFault::Run(_)
        | ProgramFault::Reading(_)
        | ProgramFault::Warnings => words,
        _ => &[],
    });
    let Some(details) = &failure.details else {
        let _ = eprintln!(rt; "lispd{words}: {}", InWords(&failure.fault));
        return;
    };
    for line in details.split('\n') {
        let _ = eprintln!(rt; "lispd{words}: {line}");
    }
}
