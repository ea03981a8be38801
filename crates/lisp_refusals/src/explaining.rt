//! What is known of one number.

ghost use Rattle.std.specs.Prelude.{◌≡◌, ◌↔◌, ◌++◌, OnOk, IfErr, IsErrOf, false};
ghost use Rattle.std.specs.Fmt.{decimal};
ghost use Rattle.std.specs.Io.KnownBytes.{Keeps};
ghost use Rattle.lisp_refusals.specs.Table.{joined, Writes, has_row, is_in, explained, section_text, entry, row_text, Explains};
ghost use Rattle.lisp_refusals.specs.Numbers.{is_known};
ghost use Rattle.lisp_refusals.specs.declared.fault.ExplainFault.TheVariants.{Unknown};
ghost use Rattle.lisp_refusals.specs.declared.fault.ExplainFault.TheVariants as faults;

use crate::fault::ExplainFault;
use crate::output::{mark_at, write_number, write_texts};
use crate::row::{Row, Section};
use crate::table::sections;
use std::io::Write;

/// Whether a refusal or a fault has the number.
pub fn is_known(number: u16) -> bool
    ensures { result ≡ is_known number }
{
    is_in(&sections(), number)
}

/// Writes what is known of the number: for each row that has it the title of its section, what is printed behind the number,
/// its name and its meaning, the exit status where it has one, and what an operator does about it.
pub fn explain<W: Write>(number: u16, writer: &mut W) -> Result<(), ExplainFault>
    ensures ok { OnOk result (Explains number (W.contents writer.old) (W.contents writer.new)) }
    ensures unknown { IsErrOf result Unknown ↔ (is_known number ≡ false) }
    ensures kept { IsErrOf result Unknown → Keeps (W.contents writer.old) (W.contents writer.new) }
{
    if is_known(number) {
        explain_in(&sections(), number, writer)
    } else {
        Err(ExplainFault::Unknown)
    }
}

// Whether a row of any section has the number.
fn is_in(sections: &[Section], number: u16) -> bool
    ensures { result ≡ is_in number sections.now }
{
    sections.iter().any(|section| has_row(section, number))
}

// Whether a row of the section has the number.
pub(crate) fn has_row(section: &Section, number: u16) -> bool
    ensures { result ≡ has_row number section.now }
{
    section.rows.iter().any(|row| row.number == number)
}

// Writes the rows with the number.
fn explain_in<W: Write>(
    sections: &[Section],
    number: u16,
    writer: &mut W,
) -> Result<(), ExplainFault>
    ensures ok { Writes result W.contents writer.old writer.new (explained number sections.now) }
    ensures fault { IfErr result (λ fault. fault ≡ faults.Write) }
{
    for section in sections {
        explain_section(section, number, writer)?;
    }
    Ok(())
}

// Writes the rows of a section with the number.
fn explain_section<W: Write>(
    section: &Section,
    number: u16,
    writer: &mut W,
) -> Result<(), ExplainFault>
    ensures ok { Writes result W.contents writer.old writer.new (section_text number section.now) }
    ensures fault { IfErr result (λ fault. fault ≡ faults.Write) }
{
    for row in section.rows {
        explain_if(section, row, number, writer)?;
    }
    Ok(())
}

// Writes a row if it has the number.
fn explain_if<W: Write>(
    section: &Section,
    row: &Row,
    number: u16,
    writer: &mut W,
) -> Result<(), ExplainFault>
    ensures ok { Writes result W.contents writer.old writer.new (entry number section.now row.now) }
    ensures fault { IfErr result (λ fault. fault ≡ faults.Write) }
{
    if row.number == number {
        explain_row(section, row, writer)
    } else {
        Ok(())
    }
}

// Writes a row of a section.
#[tactic(auto, using(crate::proofs::Writing::appends_two))]
fn explain_row<W: Write>(section: &Section, row: &Row, writer: &mut W) -> Result<(), ExplainFault>
    ensures ok { Writes result W.contents writer.old writer.new (row_text section.now row.now) }
    ensures fault { IfErr result (λ fault. fault ≡ faults.Write) }
{
    write_number(row.number, writer)?;
    write_texts(&texts_behind_number(section, row), writer)
}

// What is printed of a row after its number.
#[tactic(auto, unfolding(crate::specs::Table::row_text))]
fn texts_behind_number(section: &Section, row: &Row) -> [&'static str; 13]
    ensures { decimal row.now.number ++ joined result ≡ row_text section.now row.now }
{
    [
        mark_at(row.carried, " "),
        row.carried,
        mark_at(row.name, ", "),
        row.name,
        " (",
        section.title,
        ")\n  meaning: ",
        row.meaning,
        mark_at(row.status, "\n  status: "),
        row.status,
        "\n  what to do: ",
        row.remedy,
        "\n",
    ]
}
