//! What is made of the answer of a node that is asked, or told to do something.

ghost use Rattle.std.specs.Prelude.{◌≡◌, ◌∷◌, [], ◌++◌, IfErr, OnOk};
ghost use Rattle.std.specs.Io.KnownBytes.{Appends};
ghost use Rattle.lispd_cli.specs.Asking.{PrintsAnswer, PrintsLines, PrintsObjects, WritesObjects, bad_line, behind_word, disallows, fault_in, first_line, first_word, refusal_of, refused_in, third_word};
ghost use Rattle.lispd_cli.specs.declared.fault.ProgramFault.TheVariants.{Answer};
ghost use Rattle.lisp_answer.specs.declared.fault.AnswerFault.TheVariants as answers;

use crate::asking::Errand;
use crate::fault::ProgramFault;
use crate::printed_line::fault_of;
use lisp_answer::AnswerFault;
use lisp_files::whole;
use lisp_json::objects_of;
use lisp_memory::Memory;
use lisp_script::RunFault;
use lisp_texts::number_from_text;
use std::io::Write;

/// The number of a router that didn't start.
const NOT_STARTED: u16 = 76;

/// Prints an answer without the line that closes it. One that is cut off is none.
pub(crate) fn print_answer<W: Write>(
    errand: Errand,
    answer: &str,
    writer: &mut W,
) -> Result<(), ProgramFault>
    ensures { PrintsAnswer errand answer.now (W.contents writer.old)
        (W.contents writer.new) result }
{
    match whole(answer) {
        Some(lines) => print_lines(errand, lines, writer),
        None => Err(ProgramFault::Unanswered),
    }
}

// Prints the lines of an answer, unless they are the fault of the line that was asked. Those that say that the node doesn't do what it
// is told end the program.
fn print_lines<W: Write>(errand: Errand, lines: &str, writer: &mut W) -> Result<(), ProgramFault>
    ensures { PrintsLines errand lines.now (W.contents writer.old)
        (W.contents writer.new) result }
{
    if let Some(number) = fault_in(lines) {
        return Err(bad_line(number));
    }
    write_lines(lines, writer)?;
    match refusal_of(errand, lines) {
        Some(number) => Err(ProgramFault::Refused(number)),
        None => Ok(()),
    }
}

fn write_lines<W: Write>(lines: &str, writer: &mut W) -> Result<(), ProgramFault>
    ensures ok { OnOk result (Appends (W.contents writer.old) (W.contents writer.new)
        (lines.now ++ 10 ∷ [])) }
    ensures fault { IfErr result (λ fault. fault ≡ Answer answers.Write) }
{
    writeln!(writer, "{lines}").map_err(|_| ProgramFault::Answer(AnswerFault::Write))
}

// The number of the refusal or the fault that keeps a node from doing what it is told.
fn refusal_of(errand: Errand, lines: &str) -> Option<u16>
    ensures { result ≡ refusal_of errand lines.now }
{
    match errand {
        Errand::Ask => None,
        Errand::Tell => refused_in(lines),
    }
}

fn refused_in(lines: &str) -> Option<u16>
    ensures { result ≡ refused_in lines.now }
{
    match first_word(lines) {
        "fault" => fault_of(first_word(behind_word(lines))),
        "refused" => fault_of(third_word(lines)),
        "down" => Some(NOT_STARTED),
        _ => None,
    }
}

/// The fault of a line that is no question and no order, where an answer says so.
pub(crate) fn fault_in(lines: &str) -> Option<u16>
    ensures { result ≡ fault_in lines.now }
{
    let (word, number) = lines.split_once(' ')?;
    if word != "fault" {
        return None;
    }
    match number_from_text(number) {
        Some(number @ 80..=86) => Some(number as u16),
        _ => None,
    }
}

pub(crate) fn bad_line(number: u16) -> ProgramFault
    ensures { result ≡ bad_line number }
{
    ProgramFault::Run(RunFault { number, line: 0 })
}

/// Prints the lines of an answer as objects, without the line that closes it. One that is cut off is none.
pub(crate) fn print_objects<A: Memory + Copy, W: Write>(
    alloc: A,
    answer: &str,
    writer: &mut W,
) -> Result<(), ProgramFault>
    ensures { PrintsObjects A.may_refuse answer.now (W.contents writer.old)
        (W.contents writer.new) result }
{
    let Some(lines) = whole(answer) else {
        return Err(ProgramFault::Unanswered);
    };
    match fault_in(lines) {
        Some(number) => Err(bad_line(number)),
        None => write_objects(alloc, lines, writer),
    }
}

// Writes the objects of lines at once, so that none are written where memory is refused.
fn write_objects<A: Memory + Copy, W: Write>(
    alloc: A,
    lines: &str,
    writer: &mut W,
) -> Result<(), ProgramFault>
    ensures { WritesObjects A.may_refuse lines.now (W.contents writer.old)
        (W.contents writer.new) result }
{
    let objects = objects_of(alloc, lines)?;
    let written = writer.write_all(objects.as_slice());
    written.map_err(|_| ProgramFault::Answer(AnswerFault::Write))
}

/// Whether an answer says that some records aren't allowed.
pub(crate) fn disallows(answer: &str) -> bool
    ensures { result ≡ disallows answer.now }
{
    let head = first_line(answer);
    if first_word(head) != "disallowed" {
        return false;
    }
    match number_from_text(third_word(head)) {
        Some(number) => number > 0,
        None => false,
    }
}

pub(crate) fn first_line(answer: &str) -> &str
    ensures { result.now ≡ first_line answer.now }
{
    match answer.split_once('\n') {
        Some((line, _)) => line,
        None => answer,
    }
}

pub(crate) fn first_word(question: &str) -> &str
    ensures { result.now ≡ first_word question.now }
{
    match question.split_once(' ') {
        Some((first, _)) => first,
        None => question,
    }
}

pub(crate) fn behind_word(line: &str) -> &str
    ensures { result.now ≡ behind_word line.now }
{
    match line.split_once(' ') {
        Some((_, behind)) => behind,
        None => "",
    }
}

pub(crate) fn third_word(line: &str) -> &str
    ensures { result.now ≡ third_word line.now }
{
    first_word(behind_word(behind_word(line)))
}
