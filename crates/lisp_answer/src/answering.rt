//! The subcommand `answer`.

ghost use Rattle.std.specs.Prelude.{◌≢◌, Err, OnOk, IsErrOf};
ghost use Rattle.lisp_answer.specs.Line.{GivesAnswer, WritesAnswer, CutsAnswer, KeepsUnlessWrite};
ghost use Rattle.lisp_answer.specs.Input.{TakesLine, HasShortLine, HasLongLine};
ghost use Rattle.lisp_answer.specs.declared.fault.AnswerFault.{AnswerFault};

use crate::fault::AnswerFault;
use crate::input::{content, read_line};
use crate::line::words_for;
use crate::site::AnswerSetup;
use lisp_lines::{Unwritten, write_bytes};
use lisp_memory::{FallibleString, Memory};
use std::alloc::Allocator;
use std::io::{Read, Write};

/// Reads one line of hexadecimal digits, the bytes of a message, and writes one line: what a fresh
/// Map-Server with this setup answers. To a Map-Register that is the Map-Notify in lower case digits,
/// `accepted` where bit M is clear, or `refused` with the number of the refusal and what it carries. A
/// Map-Notify is `refused 61` (`Refused::NotMine`). A Map-Notify-Ack is `refused 60` (`Refused::NoNotice`),
/// since no unsolicited Map-Notify (notice) waits for it. A line that isn't hexadecimal is `refused 94`.
/// Out of memory in the server is `refused 58` (`Refused::OutOfMemory`), in its store `refused 59 store 32`
/// (`Refused::StoreSave` of `StoreFault::OutOfMemory`).
///
/// The line ends with a line feed, before which a carriage return is dropped, or with the input; it
/// has at most 1,048,576 bytes, its line feed among them, and nothing after it is read. Faults:
/// `Read` where a read fails or 2,097,152 reads are not enough, `TooLong`, `OutOfMemory` where memory
/// runs out for the site, the line or the text of its answer, `Write`. Only at `Write` may a part of
/// the answer have been written: a front of its line, but not the whole.
pub fn answer<A: Memory + Copy, B: Allocator, R: Read, W: Write>(
    alloc: A,
    setup: &AnswerSetup<B>,
    reader: &mut R,
    writer: &mut W,
) -> Result<(), AnswerFault>
    ensures ok { WritesAnswer result W.contents writer.old writer.new
        A.may_refuse setup.now R.remaining reader.old }
    ensures consumed { OnOk result (TakesLine (R.remaining reader.old) (R.remaining reader.new)) }
    ensures fits { OnOk result (HasShortLine (R.remaining reader.old)) }
    ensures too_long { IsErrOf result AnswerFault.TooLong → HasLongLine (R.remaining reader.old) }
    ensures err { KeepsUnlessWrite result (W.contents writer.old) (W.contents writer.new) }
    ensures front { CutsAnswer result W.contents writer.old writer.new
        A.may_refuse setup.now R.remaining reader.old }
{
    let line = answer_line(alloc, setup, reader)?;
    match write_bytes(line.as_bytes(), writer) {
        Ok(()) => Ok(()),
        Err(Unwritten) => Err(AnswerFault::Write),
    }
}

// Reads one line, and gives the line that answers it.
fn answer_line<A: Memory + Copy, B: Allocator, R: Read>(
    alloc: A,
    setup: &AnswerSetup<B>,
    reader: &mut R,
) -> Result<String<A>, AnswerFault>
    ensures line { GivesAnswer A.may_refuse setup.now (R.remaining reader.old) result }
    ensures consumed { OnOk result (TakesLine (R.remaining reader.old) (R.remaining reader.new)) }
    ensures fits { OnOk result (HasShortLine (R.remaining reader.old)) }
    ensures too_long { IsErrOf result AnswerFault.TooLong → HasLongLine (R.remaining reader.old) }
    ensures unwritten { result ≢ Err AnswerFault.Write }
{
    let sites = setup.sites(alloc)?;
    let line = read_line(alloc, reader)?;
    let mut text = words_for(alloc, sites, content(&line))?;
    text.try_push('\n')?;
    Ok(text)
}
