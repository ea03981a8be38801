//! A Map-Server that runs is told the sites of a configuration, or is asked what that would do.

ghost use Rattle.std.specs.Prelude.{◌≡◌, true, false, OnOk};
ghost use Rattle.std.specs.Io.KnownBytes.{Appends};
ghost use Rattle.std.specs.Option.{option_map};
ghost use Rattle.lisp_script.specs.Words.{texts};
ghost use Rattle.lispd_cli.specs.Reloading.{config_in, compared_nodes, sites_message, is_gathered, restarts, is_row, leaving};

use crate::answers::{
    bad_line, behind_word, fault_in, first_line, first_word, print_answer, third_word,
};
use crate::asking::{Errand, answer, connect, control_path, refusal_words};
use crate::check::{Checked, accept, read_checked, tell_warnings};
use crate::command_line::{FOLDER, QUESTION, STRICT};
use crate::failure::Failure;
use crate::fault::ProgramFault;
use crate::parts::parts_of;
use crate::words::{is_given, word};
use clap::ArgMatches;
use lisp_answer::AnswerFault;
use lisp_files::{closed, whole};
use lisp_lines::nodes_text;
use lisp_memory::FallibleString;
use lisp_script::ScriptWhat;
use lisp_sites::Config;
use std::alloc::Global;
use std::io::{self, BufRead, BufReader, Read, Write};
use std::net::Net;
use std::rt::Files;

/// The number of a configuration whose nodes changed.
const OTHER_NODES: u16 = 142;

/// What is right where a node takes no such line.
const SERVERS_ALONE: &str =
    "a Map-Server alone is told reload CONFIG, by a lispd of its own version; a router is restarted, which \
loses nothing: its nonces are kept, and the Map-Servers keep its rows meanwhile";

/// Tells the Map-Server that runs over a folder the sites of the configuration that the words name, and prints what that would do, which
/// rows leave, and its answer. The configuration is checked first: its warnings go to standard error, and at a fault of it, where a table
/// is ignored (25), or with `--strict` where it has warnings (25), nothing is told. Nor is it where the nodes of the configuration aren't
/// those that the node runs with (142, with the status 3). Other faults: those of the line, 80 to 86; 99 where no node answers, or an
/// answer is cut off; what keeps the node from doing it, with the status 3; 88 where an answer can't be written; 97.
pub(crate) fn reload_sites<R: Input + Eprint + Files + Net + AllocGlobal, W: Write>(
    rt: &R,
    words: &ArgMatches<'_>,
    writer: &mut W,
) -> Result<(), Failure> {
    let Some(path) = config_word(words) else {
        return Err(failure(rt.alloc(), bad_line(ScriptWhat::Count.number())));
    };
    let checked = read_checked(rt, path)?;
    let has_warnings = tell_warnings(rt, path, &checked)?;
    accept(rt.alloc(), &checked, is_given(words, STRICT), has_warnings)?;
    let told = tell_sites(rt, word(words, FOLDER), &checked, writer);
    told.map_err(|fault| failure(rt.alloc(), fault))
}

/// Prints what telling the Map-Server that runs over a folder the sites of a configuration would do, and which rows would leave. Nothing
/// is told. Faults: as those of `reload_sites`.
pub(crate) fn compare_sites<R: Eprint + Files + Net + AllocGlobal, W: Write>(
    rt: &R,
    folder: &str,
    checked: &Checked,
    writer: &mut W,
) -> Result<(), Failure> {
    compared(rt, folder, checked, writer).map_err(|fault| failure(rt.alloc(), fault))?;
    Ok(())
}

// A fault of what was told, with what is wrong in words where the fault's own words don't say it.
fn failure(alloc: Global, fault: ProgramFault) -> Failure {
    let details = match fault {
        ProgramFault::Run(fault) if fault.number < ScriptWhat::Number.number() => {
            String::try_from_str(alloc, SERVERS_ALONE).ok()
        }
        ProgramFault::Refused(number) => refusal_words(alloc, number),
        _ => None,
    };
    Failure { fault, details }
}

// The file behind the word `reload`; `None` where none is given, or more words are.
fn config_word<'a>(words: &ArgMatches<'a>) -> Option<&'a str> {
    config_in(words.get_strs(QUESTION)?)
}

fn config_in<'a>(words: &[&'a str]) -> Option<&'a str>
    ensures { option_map (λ config. config.now) result ≡ config_in (texts words.now) }
{
    match words {
        [_, config] => Some(*config),
        _ => None,
    }
}

fn tell_sites<R: Eprint + Files + Net + AllocGlobal, W: Write>(
    rt: &R,
    folder: &str,
    checked: &Checked,
    writer: &mut W,
) -> Result<(), ProgramFault> {
    let path = compared(rt, folder, checked, writer)?;
    let answer = converse(rt, path.as_str(), checked, "reload")?;
    print_answer(Errand::Tell, answer.as_str(), writer)
}

// Prints what telling the sites would do. The path of the node's socket.
fn compared<R: Eprint + Files + Net + AllocGlobal, W: Write>(
    rt: &R,
    folder: &str,
    checked: &Checked,
    writer: &mut W,
) -> Result<String, ProgramFault> {
    let alloc = rt.alloc();
    let path = control_path(alloc, folder)?;
    check_nodes(rt, path.as_str(), checked.config())?;
    let answer = converse(rt, path.as_str(), checked, "compare")?;
    print_answer(Errand::Tell, answer.as_str(), writer)?;
    if restarts(answer.as_str()) {
        print_leaving(rt, path.as_str(), writer)?;
    }
    Ok(path)
}

// Refuses a configuration whose nodes aren't those that the node runs with.
fn check_nodes<R: Eprint + Files + Net + AllocGlobal>(
    rt: &R,
    path: &str,
    config: &Config,
) -> Result<(), ProgramFault> {
    let ours = closed(nodes_text(rt.alloc(), config)?)?;
    let answer = answer(rt, path, "nodes")?;
    let compared = compared_nodes(answer.as_str(), ours.as_str());
    if let Err(ProgramFault::Refused(_)) = compared {
        warn_of_nodes(rt, answer.as_str(), ours.as_str());
    }
    compared
}

// Whether an answer with the nodes that the node runs with is the one that the configuration's would be.
fn compared_nodes(answer: &str, ours: &str) -> Result<(), ProgramFault>
    ensures { result ≡ compared_nodes answer.now ours.now }
{
    let Some(lines) = whole(answer) else {
        return Err(ProgramFault::Unanswered);
    };
    if let Some(number) = fault_in(lines) {
        return Err(bad_line(number));
    }
    if answer == ours {
        Ok(())
    } else {
        Err(ProgramFault::Refused(OTHER_NODES))
    }
}

// Warns of the first node that isn't the same. The closing line stands for none.
fn warn_of_nodes<R: Eprint>(rt: &R, answer: &str, ours: &str) {
    for (theirs, own) in answer.split('\n').zip(ours.split('\n')) {
        if theirs != own {
            let (theirs, own) = (node_or_none(theirs), node_or_none(own));
            let _ = eprintln!(rt;
                "warning: the node runs with {theirs}, and the configuration has {own}"
            );
            return;
        }
    }
}

fn node_or_none(line: &str) -> &str {
    if line == "end" { "no more nodes" } else { line }
}

// Sends a node the sites of a configuration, then a line; what it answers to that, or to the sites if it didn't gather them.
fn converse<R: Files + Net + AllocGlobal>(
    rt: &R,
    path: &str,
    checked: &Checked,
    line: &str,
) -> Result<String, ProgramFault> {
    let parts = parts_of(rt.alloc(), checked.text(), checked.config().sites())?;
    connect_and_send(rt, path, parts.as_slice(), line).map_err(|_| ProgramFault::Unanswered)
}

fn connect_and_send<R: Files + Net + AllocGlobal>(
    rt: &R,
    path: &str,
    parts: &[String],
    line: &str,
) -> io::Result<String> {
    let mut stream = connect(rt, path)?;
    let mut reader = BufReader::new(rt.alloc(), stream.try_clone()?)?;
    if let Some(refusal) = send_parts(rt.alloc(), parts, &mut stream, &mut reader)? {
        return Ok(refusal);
    }
    writeln!(stream, "{line}")?;
    io::read_to_string(rt.alloc(), reader)
}

// Sends the parts one after another, until one isn't gathered; what is answered to that.
fn send_parts<W: Write, R: BufRead>(
    alloc: Global,
    parts: &[String],
    writer: &mut W,
    reader: &mut R,
) -> io::Result<Option<String>> {
    for part in parts {
        send_sites(part.as_str(), writer)?;
        let refusal = read_refusal(alloc, reader)?;
        if refusal.is_some() {
            return Ok(refusal);
        }
    }
    Ok(None)
}

fn send_sites<W: Write>(sites: &str, writer: &mut W) -> io::Result<()>
    ensures { OnOk result (Appends (W.contents writer.old) (W.contents writer.new)
        (sites_message sites.now)) }
{
    let count = sites.len();
    write!(writer, "sites {count}\n{sites}")
}

// Reads a line. `None` where it says that the sites are gathered; else it, and all behind it.
fn read_refusal<R: BufRead>(alloc: Global, reader: &mut R) -> io::Result<Option<String>> {
    let mut answer = String::new(alloc);
    reader.read_line(&mut answer)?;
    if is_gathered(answer.as_str()) {
        return Ok(None);
    }
    reader.read_to_string(&mut answer)?;
    Ok(Some(answer))
}

fn is_gathered(answer: &str) -> bool
    ensures { result ≡ is_gathered answer.now }
{
    first_word(answer) == "gathered"
}

// Whether an answer says that the Map-Server would restart, with no rows.
fn restarts(answer: &str) -> bool
    ensures { result ≡ restarts answer.now }
{
    third_word(behind_word(behind_word(first_line(answer)))) == "restarted"
}

// Prints each row that the Map-Server holds, as one that leaves.
fn print_leaving<R: Files + Net + AllocGlobal, W: Write>(
    rt: &R,
    path: &str,
    writer: &mut W,
) -> Result<(), ProgramFault> {
    let answer = answer(rt, path, "hold")?;
    print_rows(answer.as_str(), writer)
}

fn print_rows<W: Write>(answer: &str, writer: &mut W) -> Result<(), ProgramFault> {
    let Some(lines) = whole(answer) else {
        return Err(ProgramFault::Unanswered);
    };
    for line in lines.split('\n') {
        print_row(line, writer)?;
    }
    Ok(())
}

// Prints a line of an answer, where it is that of a row, as one that leaves.
fn print_row<W: Write>(line: &str, writer: &mut W) -> Result<(), ProgramFault>
    ensures row { is_row line.now ≡ true → OnOk result
        (Appends (W.contents writer.old) (W.contents writer.new) (leaving line.now)) }
    ensures other { is_row line.now ≡ false → writer.new ≡ writer.old }
{
    if first_word(line) != "row" {
        return Ok(());
    }
    let row = behind_word(line);
    writeln!(writer, "leaves {row}").map_err(|_| ProgramFault::Answer(AnswerFault::Write))
}
