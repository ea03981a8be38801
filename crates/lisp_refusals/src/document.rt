//! The whole document.

ghost use Rattle.std.specs.Prelude.{◌≡◌, ◌++◌, OnOk, IfErr, codes};
ghost use Rattle.std.specs.Fmt.{decimal};
ghost use Rattle.lisp_refusals.specs.Table.{joined, Writes, WritesDocument, body, section_document, section_head, row_line};
ghost use Rattle.lisp_refusals.specs.declared.fault.ExplainFault.TheVariants as faults;

use crate::fault::ExplainFault;
use crate::output::{mark_at, write_number, write_text, write_texts};
use crate::row::{Row, Section};
use crate::table::{opening, sections};
use std::io::Write;

/// Writes the whole table in Markdown, as docs/REFUSALS.md has it.
pub fn explain_all<W: Write>(writer: &mut W) -> Result<(), ExplainFault>
    ensures ok { OnOk result (WritesDocument (W.contents writer.old) (W.contents writer.new)) }
    ensures fault { IfErr result (λ fault. fault ≡ faults.Write) }
{
    write_text(opening(), writer)?;
    write_sections(&sections(), writer)
}

fn write_sections<W: Write>(sections: &[Section], writer: &mut W) -> Result<(), ExplainFault>
    ensures ok { Writes result W.contents writer.old writer.new (body sections.now) }
    ensures fault { IfErr result (λ fault. fault ≡ faults.Write) }
{
    for section in sections {
        write_section(section, writer)?;
    }
    Ok(())
}

#[tactic(auto, using(crate::proofs::Writing::appends_more))]
fn write_section<W: Write>(section: &Section, writer: &mut W) -> Result<(), ExplainFault>
    ensures ok { Writes result W.contents writer.old writer.new (section_document section.now) }
    ensures fault { IfErr result (λ fault. fault ≡ faults.Write) }
{
    write_texts(&texts_before_rows(section), writer)?;
    for row in section.rows {
        write_row(row, writer)?;
    }
    Ok(())
}

// What stands before the rows of a section.
#[tactic(auto, unfolding(crate::specs::Table::section_head))]
fn texts_before_rows(section: &Section) -> [&'static str; 6]
    ensures { joined result ≡ section_head section.now }
{
    [
        "\n## ",
        section.title,
        "\n\n",
        section.introduction,
        "\n\n",
        section.header,
    ]
}

// Writes the line of a row.
#[tactic(auto, using(crate::proofs::Writing::appends_two))]
fn write_row<W: Write>(row: &Row, writer: &mut W) -> Result<(), ExplainFault>
    ensures ok { Writes result W.contents writer.old writer.new (row_line row.now) }
    ensures fault { IfErr result (λ fault. fault ≡ faults.Write) }
{
    write_text("| ", writer)?;
    write_number(row.number, writer)?;
    write_texts(&texts_behind_number(row), writer)
}

// What stands behind the number in the line of a row.
#[tactic(auto, unfolding(crate::specs::Table::row_line))]
fn texts_behind_number(row: &Row) -> [&'static str; 14]
    ensures { codes "| " ++ decimal row.now.number ++ joined result ≡ row_line row.now }
{
    [
        mark_at(row.carried, " `"),
        row.carried,
        mark_at(row.carried, "`"),
        " | ",
        mark_at(row.name, "`"),
        row.name,
        mark_at(row.name, "`"),
        " | ",
        row.meaning,
        " | ",
        row.status,
        mark_at(row.status, " | "),
        row.remedy,
        " |\n",
    ]
}
