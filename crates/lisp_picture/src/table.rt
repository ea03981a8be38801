//! Lines of words as a table.

ghost use Rattle.std.specs.Prelude.{OnErr};

use lisp_memory::{FallibleString, FallibleVec, Memory};
use std::alloc::AllocError;

/// The most lines of a table.
const MOST_LINES: usize = 9;

/// The lines of a text. Where the first is a heading, the words of each other are below those of the line before. Behind the ninth
/// line it is told how many there are more.
pub(crate) fn table<A: Memory + Copy>(
    alloc: A,
    text: &str,
    has_heading: bool,
) -> Result<Vec<String<A>, A>, AllocError>
    ensures memory { OnErr result A.may_refuse }
{
    let mut widths = Vec::new(alloc);
    if has_heading {
        for line in text.lines().take(MOST_LINES).skip(1) {
            widen(&mut widths, line)?;
        }
    }
    let mut lines = Vec::new(alloc);
    for (place, line) in text.lines().enumerate().take(MOST_LINES) {
        let line = if place == 0 {
            String::try_from_str(alloc, line)?
        } else {
            padded(alloc, line, &widths)?
        };
        lines.try_push(line)?;
    }
    let left = text.lines().count().saturating_sub(MOST_LINES);
    if left > 0 {
        lines.try_push(String::try_format(alloc, format_args!("and {left} more"))?)?;
    }
    Ok(lines)
}

// Widens columns so that the words of a line fit.
fn widen<A: Memory>(widths: &mut Vec<usize, A>, line: &str) -> Result<(), AllocError>
    ensures memory { OnErr result A.may_refuse }
{
    for (place, word) in line.split(' ').enumerate() {
        let width = word.len();
        match widths.get_mut(place) {
            Some(widest) => *widest = (*widest).max(width),
            None => widths.try_push(width)?,
        }
    }
    Ok(())
}

// The words of a line, each in its column.
fn padded<A: Memory>(alloc: A, line: &str, widths: &[usize]) -> Result<String<A>, AllocError>
    ensures memory { OnErr result A.may_refuse }
{
    let mut text = String::new(alloc);
    let mut gap = 0_usize;
    for (place, word) in line.split(' ').enumerate() {
        for _ in 0..gap {
            text.try_push(' ')?;
        }
        text.try_write(format_args!("{word}"))?;
        let width = widths.get(place).copied().unwrap_or(0);
        gap = width.saturating_sub(word.len()).saturating_add(1);
    }
    Ok(text)
}
