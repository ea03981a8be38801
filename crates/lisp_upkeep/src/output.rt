//! What is printed: each text at once, so that a pipe sees it.

ghost use Rattle.std.specs.Prelude.{◌≡◌, IfErr};
ghost use Rattle.std.specs.Io.KnownBytes.{Keeps};
ghost use Rattle.lisp_lines.specs.Output.{Writes};
ghost use Rattle.lisp_script.specs.RunFault.{numbered};
ghost use Rattle.lisp_upkeep.specs.Printing.{WritesSome};

use lisp_lines::write_text;
use lisp_script::RunFault;
use std::io::Write;

/// Writes a text, which goes out at once. Fault: 88.
#[tactic(auto, using(crate::proofs::Written::flushed, crate::proofs::Written::flushed_some, crate::proofs::Written::front_of_it))]
pub fn print<W: Write>(text: &str, writer: &mut W) -> Result<(), RunFault>
    ensures text { Writes result W.contents writer.old writer.new text.now }
    ensures some { WritesSome result W.contents writer.old writer.new text.now }
    ensures fault { IfErr result (λ fault. fault ≡ numbered 88) }
{
    write_text(text, writer)?;
    flush(writer)
}

/// What was printed goes out. Fault: 88.
pub fn flush<W: Write>(writer: &mut W) -> Result<(), RunFault>
    ensures same { Keeps (W.contents writer.old) (W.contents writer.new) }
    ensures fault { IfErr result (λ fault. fault ≡ numbered 88) }
{
    match writer.flush() {
        Ok(()) => Ok(()),
        Err(_) => Err(RunFault::WRITE),
    }
}
