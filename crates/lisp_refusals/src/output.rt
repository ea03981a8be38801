//! Writing texts and numbers.

ghost use Rattle.std.specs.Prelude.{◌≡◌, IfErr};
ghost use Rattle.std.specs.Fmt.{decimal};
ghost use Rattle.lisp_refusals.specs.Table.{joined, Writes, mark_at};
ghost use Rattle.lisp_refusals.specs.declared.fault.ExplainFault.TheVariants as faults;

use crate::fault::ExplainFault;
use std::io::Write;

/// Writes texts, one after the other.
pub(crate) fn write_texts<W: Write>(texts: &[&str], writer: &mut W) -> Result<(), ExplainFault>
    ensures ok { Writes result W.contents writer.old writer.new (joined texts.now) }
    ensures fault { IfErr result (λ fault. fault ≡ faults.Write) }
{
    for text in texts {
        write_text(text, writer)?;
    }
    Ok(())
}

/// Writes a text.
pub(crate) fn write_text<W: Write>(text: &str, writer: &mut W) -> Result<(), ExplainFault>
    ensures ok { Writes result W.contents writer.old writer.new text.now }
    ensures fault { IfErr result (λ fault. fault ≡ faults.Write) }
{
    match writer.write_all(text.as_bytes()) {
        Ok(()) => Ok(()),
        Err(_) => Err(ExplainFault::Write),
    }
}

/// Writes a number in decimal digits.
pub(crate) fn write_number<W: Write>(number: u16, writer: &mut W) -> Result<(), ExplainFault>
    ensures ok { Writes result W.contents writer.old writer.new (decimal number) }
    ensures fault { IfErr result (λ fault. fault ≡ faults.Write) }
{
    match write!(writer, "{number}") {
        Ok(()) => Ok(()),
        Err(_) => Err(ExplainFault::Write),
    }
}

/// The mark, where the text is not empty.
#[tactic(auto, unfolding(crate::specs::Table::mark_at))]
pub(crate) fn mark_at(text: &str, mark: &'static str) -> &'static str
    ensures { result.now ≡ mark_at text.now mark.now }
{
    if text.is_empty() { "" } else { mark }
}
