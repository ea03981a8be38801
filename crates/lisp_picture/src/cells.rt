//! The lines of a picture that is text.

ghost use Rattle.std.specs.Prelude.{◌≡◌, ◌∷◌, [], ◌+◌, ◌≤◌, OnOk, OnErr, length};
ghost use Rattle.std.specs.String.{string_bytes};
ghost use Rattle.lisp_picture.specs.Markup.{Adds};
ghost use Rattle.lisp_picture.specs.Picture.{AddsLines, AddsNumbered, line_text, plain, plain_text};

use lisp_memory::{FallibleString, Memory};
use std::alloc::AllocError;

/// The characters of a line, each a byte, of at most 100.
#[derive(Clone, Copy)]
pub(crate) struct Cells {
    cells: [u8; 100],
}

impl Cells {
    /// How many characters a line has at most.
    pub(crate) const WIDTH: usize = 100;

    /// A line of spaces.
    pub(crate) fn blank() -> Cells {
        Cells { cells: [b' '; 100] }
    }

    /// Writes a character at a place, where the line has it.
    pub(crate) fn set(&mut self, place: usize, character: u8) {
        if let Some(cell) = self.cells.get_mut(place) {
            *cell = character;
        }
    }

    /// Writes characters from a place on, as far as the line goes; `?` for those that aren't of ASCII.
    pub(crate) fn write(&mut self, place: usize, words: &str) {
        for (offset, character) in words.chars().enumerate() {
            let character = u8::try_from(character).unwrap_or(b'?');
            self.set(place.saturating_add(offset), character);
        }
    }

    /// Writes a character at each place from one to another, which it leaves as it is.
    pub(crate) fn fill(&mut self, from: usize, to: usize, character: u8) {
        for place in from..to {
            self.set(place, character);
        }
    }
}

/// Appends lines, without the spaces at their ends.
pub(crate) fn put_lines<A: Memory>(text: &mut String<A>, lines: &[Cells]) -> Result<(), AllocError>
    ensures lines { OnOk result (AddsLines (string_bytes text.old) (string_bytes text.new)) }
    ensures memory { OnErr result A.may_refuse }
{
    for cells in lines {
        put_line(text, trimmed(&cells.cells))?;
    }
    Ok(())
}

/// Appends a line that begins with a number, and goes on with the characters behind it.
pub(crate) fn put_numbered<A: Memory + Copy>(
    alloc: A,
    text: &mut String<A>,
    number: usize,
    cells: &Cells,
) -> Result<(), AllocError>
    ensures line { OnOk result
        (AddsNumbered number (string_bytes text.old) (string_bytes text.new)) }
    ensures memory { OnErr result A.may_refuse }
{
    let digits = String::try_format(alloc, number)?;
    let digits = digits.as_str();
    text.try_write(digits)?;
    put_line(text, behind(trimmed(&cells.cells), digits.len()))?;
    Ok(())
}

// The characters of a line but for spaces at its end.
fn trimmed(cells: &[u8; 100]) -> &[u8]
    ensures short { length result.now ≤ 100 }
{
    let mut end = 0;
    for (place, cell) in cells.iter().enumerate() {
        if *cell != b' ' {
            end = place + 1;
        }
    }
    cells.split_at(end).0
}

// The characters behind so many.
fn behind(cells: &[u8], count: usize) -> &[u8]
    requires { length cells.now ≤ 100 }
    ensures short { count ≤ 100 → length result.now + count ≤ 100 }
{
    cells.get(count..).unwrap_or(&[])
}

// Appends characters, `?` for those that aren't printable, and a line feed.
#[tactic(auto, using(crate::proofs::Adding::steps))]
fn put_line<A: Memory>(text: &mut String<A>, cells: &[u8]) -> Result<(), AllocError>
    ensures text { Adds result text.old text.new (line_text cells.now) }
    ensures memory { OnErr result A.may_refuse }
{
    put_cells(text, cells)?;
    put_feed(text)
}

// Appends a line feed.
fn put_feed<A: Memory>(text: &mut String<A>) -> Result<(), AllocError>
    ensures text { Adds result text.old text.new (10 ∷ []) }
    ensures memory { OnErr result A.may_refuse }
{
    text.try_push('\n')
}

#[tactic(auto, using(crate::proofs::Adding::steps))]
fn put_cells<A: Memory>(text: &mut String<A>, cells: &[u8]) -> Result<(), AllocError>
    ensures text { Adds result text.old text.new (plain_text cells.now) }
    ensures memory { OnErr result A.may_refuse }
{
    let mut rest = cells;
    while let [cell, others @ ..] = rest {
        put_cell(text, *cell)?;
        rest = others;
    }
    Ok(())
}

fn put_cell<A: Memory>(text: &mut String<A>, cell: u8) -> Result<(), AllocError>
    ensures text { Adds result text.old text.new (plain cell ∷ []) }
    ensures memory { OnErr result A.may_refuse }
{
    text.try_push(char::from(plain(cell)))
}

// A character of ASCII that is printable: this one, or `?`.
fn plain(character: u8) -> u8
    ensures { result ≡ plain character }
{
    if 32 <= character && character < 127 {
        character
    } else {
        b'?'
    }
}
