//! A look: asking, and printing what answers.

ghost use Rattle.std.specs.Prelude.{◌≡◌, IsErrOf, OnOk, IfErr};
ghost use Rattle.std.specs.Io.KnownBytes.{Appends};
ghost use Rattle.lisp_look.specs.Looking.{Looks};
ghost use Rattle.lisp_look.specs.declared.fault.LookFault.TheVariants.{OutOfMemory};
ghost use Rattle.lisp_look.specs.declared.fault.LookFault.TheVariants as faults;

use crate::asking::ask;
use crate::fault::LookFault;
use crate::look::Look;
use crate::outside::Outside;
use crate::positive::is_positive;
use crate::text::answer_text;
use lisp_memory::Memory;
use lisp_records::Addr;
use std::io::Write;

/// Asks a Map-Server for an EID-Prefix, at most `tries` times, and prints the Map-Reply that answers: whether that is positive. Faults:
/// `OutOfMemory`, `Send` and `Receive`, `Silent` where nothing came, and `Write`. At any other than `Write` nothing is printed.
pub fn look_for<O: Outside, A: Memory + Copy, W: Write>(
    alloc: A,
    outside: &mut O,
    look: &Look,
    server: &Addr,
    tries: u32,
    writer: &mut W,
) -> Result<bool, LookFault>
    ensures looks { Looks look.now server.now tries (O.seen outside.old) (O.seen outside.new)
        (W.contents writer.old) (W.contents writer.new) result }
    ensures memory { IsErrOf result OutOfMemory → A.may_refuse }
{
    let Some(answer) = ask(alloc, outside, look, server, tries)? else {
        return Err(LookFault::Silent);
    };
    let text = answer_text(alloc, &answer)?;
    print(&text, writer)?;
    Ok(is_positive(&look.eid, &answer.reply))
}

// Writes a text.
fn print<W: Write>(text: &str, writer: &mut W) -> Result<(), LookFault>
    ensures text { OnOk result (Appends (W.contents writer.old) (W.contents writer.new) text.now) }
    ensures fault { IfErr result (λ fault. fault ≡ faults.Write) }
{
    match writer.write_all(text.as_bytes()) {
        Ok(()) => Ok(()),
        Err(_) => Err(LookFault::Write),
    }
}
