//! A picture as lines of text.

ghost use Rattle.std.specs.Prelude.{ℕ, List, [], IfOk, OnErr, OnOk, length};
ghost use Rattle.std.specs.String.{string_bytes};
ghost use Rattle.lisp_picture.specs.Picture.{AddsElement, AddsElements, AddsLines, IsPicture, texts_of};
ghost use Rattle.lisp_picture.specs.declared.drawing.Form.TheVariants.{Text};

use crate::cells::{Cells, put_lines, put_numbered};
use crate::rungs::Rungs;
use crate::sheet::kind_text;
use crate::story::{Story, story_of};
use crate::svg::first_line;
use crate::table::table;
use crate::wrap::Lines;
use lisp_lines::node_name;
use lisp_memory::{FallibleString, FallibleVec, Memory};
use lisp_player::{History, Outcome};
use lisp_script::Command;
use std::alloc::AllocError;

/// What each line of the title begins with, so that none looks like that of a command.
const TITLE_MARK: &str = "# ";

/// The picture of a schedule that was played as lines of text, for a terminal: at most 100 characters each, all of them of
/// ASCII and printable. Each command has its lines, in their order, of which the first begins with its number, from 1 on; its words
/// begin with the first of its lines as `play` prints them, broken where a line ends.
pub fn ladder_text<A: Memory + Copy>(
    alloc: A,
    title: &str,
    history: &History<A>,
) -> Result<String<A>, AllocError>
    ensures picture { IfOk result (λ text.
        IsPicture Text (texts_of history.now.outcomes.items) (string_bytes text)) }
    ensures lines { IfOk result (λ text. AddsLines [] (string_bytes text)) }
    ensures memory { OnErr result A.may_refuse }
{
    let story = story_of(alloc, history)?;
    let rungs = Rungs::new(&story.nodes);
    let heading = heading(alloc, title, history, &story, &rungs)?;
    let mut text = String::new(alloc);
    put_lines(&mut text, &heading)?;
    put_events(alloc, &mut text, history, &story, &rungs)?;
    Ok(text)
}

// The title, and the names of the nodes, each above its line.
fn heading<A: Memory + Copy>(
    alloc: A,
    title: &str,
    history: &History<A>,
    story: &Story<A>,
    rungs: &Rungs<'_>,
) -> Result<Vec<Cells, A>, AllocError>
    ensures memory { OnErr result A.may_refuse }
{
    let mut lines = Vec::new(alloc);
    add_wrapped(alloc, &mut lines, TITLE_MARK, title)?;
    for (place, node) in rungs.nodes.iter().enumerate() {
        let mut cells = rungs.cells(place);
        let kind = kind_text(alloc, &history.config, *node)?;
        let name = node_name(&history.config, *node);
        let words = String::try_format(alloc, format_args!("{name} ({kind})"))?;
        let last = Cells::WIDTH.saturating_sub(words.len());
        cells.write(rungs.at(place).min(last), &words);
        lines.try_push(cells)?;
    }
    let count = history.config.node_count();
    if count != rungs.nodes.len() {
        let idle = count.saturating_sub(story.nodes.len());
        let busy = story.nodes.len().saturating_sub(rungs.nodes.len());
        let words = format_args!("(nodes without a line: {idle} idle, {busy} busy)");
        add_wrapped(alloc, &mut lines, "", &String::try_format(alloc, words)?)?;
    }
    Ok(lines)
}

// Appends words in whole lines, each behind a mark.
fn add_wrapped<A: Memory + Copy>(
    alloc: A,
    lines: &mut Vec<Cells, A>,
    mark: &str,
    words: &str,
) -> Result<(), AllocError>
    ensures memory { OnErr result A.may_refuse }
{
    let mut wrapped = Lines::new(alloc, Cells::WIDTH.saturating_sub(mark.len()));
    wrapped.add(words)?;
    for line in wrapped.lines.iter() {
        let mut cells = Cells::blank();
        cells.write(0, mark);
        cells.write(mark.len(), line);
        lines.try_push(cells)?;
    }
    Ok(())
}

fn put_events<A: Memory + Copy>(
    alloc: A,
    text: &mut String<A>,
    history: &History<A>,
    story: &Story<A>,
    rungs: &Rungs<'_>,
) -> Result<(), AllocError>
    ensures elements { OnOk result (AddsElements Text (texts_of history.now.outcomes.items)
        (length history.now.outcomes.items) (string_bytes text.old) (string_bytes text.new)) }
    ensures lines { OnOk result (AddsLines (string_bytes text.old) (string_bytes text.new)) }
    ensures memory { OnErr result A.may_refuse }
{
    for (place, outcome) in history.outcomes.iter().enumerate() {
        let words = words(alloc, history, story, rungs.words_at(), place, outcome)?;
        let (first, others) = lines_of(alloc, story, rungs, place, &words)?;
        put_event(alloc, text, place + 1, &first, &others)?;
    }
    Ok(())
}

// Appends the lines of a command, of which the first has its number.
fn put_event<A: Memory + Copy>(
    alloc: A,
    text: &mut String<A>,
    number: usize,
    first: &Cells,
    others: &[Cells],
) -> Result<(), AllocError>
    ensures element { OnOk result ((words : List ℕ) →
        AddsElement Text number words (string_bytes text.old) (string_bytes text.new)) }
    ensures lines { OnOk result (AddsLines (string_bytes text.old) (string_bytes text.new)) }
    ensures memory { OnErr result A.may_refuse }
{
    put_numbered(alloc, text, number, first)?;
    put_lines(text, others)?;
    Ok(())
}

// The lines of a command: those of the nodes, in the first with what it did, and words behind them.
fn lines_of<A: Memory>(
    alloc: A,
    story: &Story<A>,
    rungs: &Rungs<'_>,
    place: usize,
    words: &[String<A>],
) -> Result<(Cells, Vec<Cells, A>), AllocError>
    ensures memory { OnErr result A.may_refuse }
{
    let at = rungs.words_at();
    let mut first = rungs.drawn(story, place);
    let mut others = Vec::new(alloc);
    for (offset, line) in words.iter().enumerate() {
        if offset == 0 {
            first.write(at, line);
        } else {
            let mut cells = rungs.cells(rungs.nodes.len());
            cells.write(at, line);
            others.try_push(cells)?;
        }
    }
    Ok((first, others))
}

// The words of a command, in lines from a place on: those of its first line, its other lines, and what they mean.
fn words<A: Memory + Copy>(
    alloc: A,
    history: &History<A>,
    story: &Story<A>,
    at: usize,
    place: usize,
    outcome: &Outcome<A>,
) -> Result<Vec<String<A>, A>, AllocError>
    ensures memory { OnErr result A.may_refuse }
{
    let mut lines = Lines::new(alloc, Cells::WIDTH.saturating_sub(at));
    lines.add(first_line(&outcome.text))?;
    let (Some(command), Some(row)) = (history.commands.get(place), story.rows.get(place)) else {
        return Ok(lines.lines);
    };
    let has_heading = matches!(command, Command::Hold(_));
    let table = table(alloc, &outcome.text, has_heading)?;
    for line in table.get(1..).unwrap_or(&[]) {
        lines.add(line)?;
    }
    lines.add_notes(history, row, place)?;
    Ok(lines.lines)
}
