//! What nodes print: each line at once, so that a pipe sees it.

ghost use Rattle.std.specs.Prelude.{IfErr};
ghost use Rattle.lisp_lines.specs.Front.{GivesText};
ghost use Rattle.lisp_lines.specs.Output.{Writes};
ghost use Rattle.lisp_udp.specs.Printing.{printed_text, failed_text, lost_text, IsPrintingFault};
ghost use Rattle.lisp_upkeep.specs.Printing.{WritesSome};

use lisp_lines::{Wording, line_text};
use lisp_memory::FallibleString;
use lisp_script::RunFault;
use lisp_sites::Config;
use lisp_turns::{Printed, SocketCall};
use lisp_upkeep::print;
use std::alloc::{AllocError, Global};
use std::io::Write;

/// Prints what a node with a name prints, by the names of its configuration; of a row that died and of Map-Requests nothing. Faults: 88, 97.
pub(crate) fn print_line<W: Write>(
    alloc: Global,
    config: &Config,
    name: &str,
    line: &Printed,
    writer: &mut W,
) -> Result<(), RunFault>
    ensures text { Writes result W.contents writer.old writer.new
        (printed_text config.now name.now line.now) }
    ensures some { WritesSome result W.contents writer.old writer.new
        (printed_text config.now name.now line.now) }
    ensures fault { IfErr result (λ fault. IsPrintingFault fault) }
{
    let text = printed_text(alloc, config, name, line)?;
    print(&text, writer)
}

/// Prints that a call of the socket of a node with a name failed. Faults: 88, 97.
pub(crate) fn print_failed<W: Write>(
    alloc: Global,
    name: &str,
    call: SocketCall,
    writer: &mut W,
) -> Result<(), RunFault>
    ensures text { Writes result W.contents writer.old writer.new (failed_text name.now call) }
    ensures some { WritesSome result W.contents writer.old writer.new (failed_text name.now call) }
    ensures fault { IfErr result (λ fault. IsPrintingFault fault) }
{
    let text = failed_text(alloc, name, call)?;
    print(&text, writer)
}

/// Prints that a datagram didn't arrive. Faults: 88, 97.
pub(crate) fn print_lost<W: Write>(
    alloc: Global,
    datagram: usize,
    writer: &mut W,
) -> Result<(), RunFault>
    ensures text { Writes result W.contents writer.old writer.new (lost_text datagram) }
    ensures some { WritesSome result W.contents writer.old writer.new (lost_text datagram) }
    ensures fault { IfErr result (λ fault. IsPrintingFault fault) }
{
    let text = lost_text(alloc, datagram)?;
    print(&text, writer)
}

fn printed_text(
    alloc: Global,
    config: &Config,
    name: &str,
    line: &Printed,
) -> Result<String, AllocError>
    ensures { GivesText result (printed_text config.now name.now line.now) }
{
    match line {
        Printed::Event(line) | Printed::Heard { line, .. } => {
            line_text(alloc, config, line, Wording::Node)
        }
        Printed::Expired { .. }
        | Printed::Asked { .. }
        | Printed::Unasked { .. }
        | Printed::OverBudget { .. } => Ok(String::new(alloc)),
        Printed::Failed(call) => failed_text(alloc, name, *call),
    }
}

fn failed_text(alloc: Global, name: &str, call: SocketCall) -> Result<String, AllocError>
    ensures { GivesText result (failed_text name.now call) }
{
    let number = call.number();
    String::try_format(alloc, format_args!("refused {name} {number}\n"))
}

fn lost_text(alloc: Global, datagram: usize) -> Result<String, AllocError>
    ensures { GivesText result (lost_text datagram) }
{
    String::try_format(alloc, format_args!("lost {datagram}\n"))
}
