//! Writing a text, and the line of an event.

ghost use Rattle.std.specs.Prelude.{◌≡◌, IfErr, IsErrOf};
ghost use Rattle.lisp_lines.specs.Writing.{CutsLine, WritesLine};
ghost use Rattle.lisp_lines.specs.Output.{IsSilentAt, Writes, WritesFront};
ghost use Rattle.lisp_script.specs.PlayFault.{IsWritingFault};
ghost use Rattle.lisp_script.specs.declared.play_fault.PlayFault.TheVariants as faults;

use crate::datagram_place::DatagramPlace;
use crate::line::line_text;
use crate::output::{Unwritten, write_bytes};
use crate::wording::Wording;
use lisp_memory::Memory;
use lisp_model::Line;
use lisp_script::PlayFault;
use lisp_sites::Config;
use std::alloc::Allocator;
use std::io::Write;

/// Writes the line of an event, with its line feed, as a schedule prints it, by the names of a configuration; with the words `datagram D`
/// where the place is `Shown`. Faults: `OutOfMemory`, where nothing was written; `Write`, where a front of the line was,
/// but not the whole.
pub fn write_line<A: Memory, E: Allocator, W: Write>(
    alloc: A,
    config: &Config<E>,
    line: &Line,
    place: DatagramPlace,
    writer: &mut W,
) -> Result<(), PlayFault>
    ensures ok { WritesLine result W.contents writer.old writer.new config.now place line.now }
    ensures memory { IsSilentAt result PlayFault.OutOfMemory W.contents writer.old writer.new }
    ensures asked { IsErrOf result PlayFault.OutOfMemory → A.may_refuse }
    ensures front { CutsLine result W.contents writer.old writer.new config.now place line.now }
    ensures faults { IfErr result (λ fault. IsWritingFault fault) }
{
    let text = line_text(alloc, config, line, Wording::Schedule(place))?;
    write_text(&text, writer)
}

/// Writes a text; at `Write` a front of it went out, but not the whole.
pub fn write_text<W: Write>(text: &str, writer: &mut W) -> Result<(), PlayFault>
    ensures ok { Writes result W.contents writer.old writer.new text.now }
    ensures fault { IfErr result (λ f. f ≡ faults.Write) }
    ensures front { WritesFront result W.contents writer.old writer.new text.now }
{
    match write_bytes(text.as_bytes(), writer) {
        Ok(()) => Ok(()),
        Err(Unwritten) => Err(PlayFault::Write),
    }
}
