//! A row of an image.

ghost use Rattle.std.specs.Prelude.{OnErr};

use crate::datagram::Datagram;
use crate::pen::Pen;
use crate::row::{Arrival, Row, Sign};
use crate::sheet::Sheet;
use crate::style;
use crate::table::table;
use crate::wrap::Lines;
use lisp_memory::Memory;
use lisp_nonces::Fate;
use lisp_player::{Outcome, fault_number};
use lisp_script::Command;
use std::alloc::{AllocError, Allocator};

/// How far it is from one line of words to the next, in pixels.
const LEADING: u64 = 16;

/// The least height of a row, in pixels.
const LEAST_HEIGHT: u64 = 40;

/// How many characters a line of words has at most, and one of a table.
const WIDTH: usize = 62;

const TABLE_WIDTH: usize = 80;

/// How far a datagram from outside is drawn, and one that never arrives, in pixels.
const STUB: u64 = 56;

/// How far from the line of a node an arrow ends, and its labels are, in pixels.
const TIP: u64 = 6;

const LABEL: u64 = 14;

/// How wide a character of a table is, in tenths of a pixel.
const CELL_TENTHS: u64 = 74;

/// A row of a sheet, with its middle at `y`.
#[derive(Clone, Copy)]
pub(crate) struct Spot<'s, A: Allocator> {
    pub(crate) sheet: &'s Sheet<'s, A>,
    pub(crate) row: &'s Row,
    pub(crate) y: u64,
}

/// Draws a row without words: its arrow, or its sign.
pub(crate) fn draw_brief<A: Memory + Copy>(
    pen: &mut Pen<A>,
    spot: &Spot<'_, A>,
) -> Result<(), AllocError>
    ensures memory { OnErr result A.may_refuse }
{
    let way = way_of(spot);
    if let Some(way) = way {
        pen.line(way.look, way.from, way.to)?;
    }
    if spot.row.now.is_some() {
        draw_moment(pen, spot)?;
    }
    draw_stub(pen, spot)?;
    match spot.row.sign {
        Some((_, Sign::Done)) if way.is_some() && spot.row.fate == Fate::Done => Ok(()),
        _ => draw_sign(pen, spot),
    }
}

/// Draws the row of the command with a place with all details; its height.
pub(crate) fn draw_whole<A: Memory + Copy>(
    pen: &mut Pen<A>,
    spot: &Spot<'_, A>,
    place: usize,
) -> Result<u64, AllocError>
    ensures memory { OnErr result A.may_refuse }
{
    let number = place.saturating_add(1);
    pen.text(style::NUMBER, (16, spot.y.saturating_add(4)), number)?;
    draw_clock(pen, spot)?;
    draw_way(pen, spot)?;
    draw_stub(pen, spot)?;
    draw_sign(pen, spot)?;
    draw_told(pen, spot, place)
}

// Draws what the command with a place printed; the height of its row.
fn draw_told<A: Memory + Copy>(
    pen: &mut Pen<A>,
    spot: &Spot<'_, A>,
    place: usize,
) -> Result<u64, AllocError>
    ensures memory { OnErr result A.may_refuse }
{
    let history = spot.sheet.history;
    let (Some(command), Some(outcome)) = (history.commands.get(place), history.outcomes.get(place))
    else {
        return Ok(LEAST_HEIGHT);
    };
    match spot.row.sign {
        Some((node, Sign::Asked)) if fault_number(&outcome.text).is_none() => {
            let at = (spot.sheet.x(node).unwrap_or(0), spot.y);
            draw_table(pen, command, outcome, at)
        }
        _ => draw_words(pen, spot, outcome, place),
    }
}

/// The way of what arrives.
#[derive(Clone, Copy)]
struct Way {
    look: &'static str,
    from: (u64, u64),
    to: (u64, u64),
    /// It comes from the right.
    is_leftward: bool,
}

// The way of what arrives at a row, where something does.
fn way_of<A: Memory + Copy>(spot: &Spot<'_, A>) -> Option<Way> {
    let Spot { sheet, row, y } = *spot;
    let end = row.sign.and_then(|(node, _)| sheet.x(node));
    let Arrival::Datagram(k) = row.arrival? else {
        return Some(way_from_outside(end?, y));
    };
    let datagram = sheet.story.datagrams.get(k)?;
    let start = sheet.x(datagram.from)?;
    let from = (start, *sheet.middles.get(datagram.sent)?);
    Some(match end {
        Some(x) if x == start => way_from_outside(x, y),
        Some(x) => way_to(from, x, y),
        None => Way {
            look: style::LOST,
            from,
            to: (start.saturating_add(STUB), y),
            is_leftward: false,
        },
    })
}

// The way of what comes from outside, or from the node itself.
fn way_from_outside(x: u64, y: u64) -> Way {
    Way {
        look: style::ARROW,
        from: (x.saturating_sub(STUB), y),
        to: (x.saturating_sub(TIP), y),
        is_leftward: false,
    }
}

// The way of a datagram to the line of a node.
fn way_to(from: (u64, u64), x: u64, y: u64) -> Way {
    let is_leftward = x < from.0;
    let tip = if is_leftward {
        x.saturating_add(TIP)
    } else {
        x.saturating_sub(TIP)
    };
    Way {
        look: style::ARROW,
        from,
        to: (tip, y),
        is_leftward,
    }
}

// Draws the arrow of what arrives, where something does, and beside its end what it is.
fn draw_way<A: Memory + Copy>(pen: &mut Pen<A>, spot: &Spot<'_, A>) -> Result<(), AllocError>
    ensures memory { OnErr result A.may_refuse }
{
    let Some(way) = way_of(spot) else {
        return Ok(());
    };
    pen.line(way.look, way.from, way.to)?;
    match spot.sheet.story.arrived(spot.row) {
        Some(datagram) => draw_label(pen, datagram, &way),
        None => {
            let (x, y) = way.from;
            pen.words(style::LABEL, (x, y.saturating_sub(6)), "outside")
        }
    }
}

// Writes what a datagram is, on the side of its end that it doesn't come from.
fn draw_label<A: Memory + Copy>(
    pen: &mut Pen<A>,
    datagram: &Datagram,
    way: &Way,
) -> Result<(), AllocError>
    ensures memory { OnErr result A.may_refuse }
{
    let (x, y) = way.to;
    let (look, x) = if way.is_leftward {
        (style::BEFORE, x.saturating_sub(TIP + LABEL))
    } else {
        (style::LABEL, x.saturating_add(TIP + LABEL))
    };
    let nonce = datagram.nonce;
    pen.words(look, (x, y.saturating_sub(2)), datagram.name)?;
    let below = (x, y.saturating_add(12));
    pen.text(look, below, format_args!("nonce {nonce}"))
}

// Draws the stub of a datagram that is sent at a row and never arrives.
fn draw_stub<A: Memory + Copy>(pen: &mut Pen<A>, spot: &Spot<'_, A>) -> Result<(), AllocError>
    ensures memory { OnErr result A.may_refuse }
{
    let (sheet, y) = (spot.sheet, spot.y);
    let Some(datagram) = sheet.story.lost(spot.row) else {
        return Ok(());
    };
    let Some(x) = sheet.x(datagram.from) else {
        return Ok(());
    };
    let end = if datagram.is_leftward() {
        x.saturating_sub(STUB)
    } else {
        x.saturating_add(STUB)
    };
    pen.line(style::LOST, (x, y), (end, y.saturating_add(14)))
}

// Draws what happened to a node, and that its store is in doubt or fails; at the left that the network didn't take the command.
fn draw_sign<A: Memory + Copy>(pen: &mut Pen<A>, spot: &Spot<'_, A>) -> Result<(), AllocError>
    ensures memory { OnErr result A.may_refuse }
{
    let (row, y) = (spot.row, spot.y);
    let Some((node, sign)) = row.sign else {
        if row.now.is_some() || row.arrival.is_some() {
            return Ok(());
        }
        return pen.sign("untaken", (56, y));
    };
    let Some(x) = spot.sheet.x(node) else {
        return Ok(());
    };
    if row.fate != Fate::Done {
        pen.sign("doubt", (x, y))?;
    }
    pen.sign(sign.drawing().0, (x, y))
}

// Draws a line across all nodes, and the moment, where time passed.
fn draw_clock<A: Memory + Copy>(pen: &mut Pen<A>, spot: &Spot<'_, A>) -> Result<(), AllocError>
    ensures memory { OnErr result A.may_refuse }
{
    let Some(now) = spot.row.now else {
        return Ok(());
    };
    draw_moment(pen, spot)?;
    let at = (48, spot.y.saturating_sub(5));
    pen.text(style::NOTE, at, format_args!("{now} ms"))
}

// Draws a line across all nodes.
fn draw_moment<A: Memory + Copy>(pen: &mut Pen<A>, spot: &Spot<'_, A>) -> Result<(), AllocError>
    ensures memory { OnErr result A.may_refuse }
{
    let end = spot.sheet.last_x().saturating_add(STUB);
    pen.line(style::CLOCK, (48, spot.y), (end, spot.y))
}

// Draws what was asked of a node as a table beside its line; the height of the row.
fn draw_table<A: Memory + Copy>(
    pen: &mut Pen<A>,
    command: &Command<A>,
    outcome: &Outcome<A>,
    at: (u64, u64),
) -> Result<u64, AllocError>
    ensures memory { OnErr result A.may_refuse }
{
    let has_heading = matches!(command, Command::Hold(_));
    let mut lines = Lines::new(pen.alloc, TABLE_WIDTH);
    for line in table(pen.alloc, &outcome.text, has_heading)?.iter() {
        lines.add(line)?;
    }
    let lines = lines.lines;
    let widest = lines.iter().map(|line| line.len()).max().unwrap_or(0) as u64;
    let height = LEADING.saturating_mul(lines.len() as u64).saturating_add(8);
    let (x, y) = (at.0.saturating_add(10), at.1.saturating_sub(12));
    let width = (widest.saturating_mul(CELL_TENTHS) / 10).saturating_add(16);
    pen.rectangle(style::TABLE, (x, y), (width, height))?;
    let first = (x.saturating_add(8), at.1.saturating_add(4));
    draw_lines(pen, style::CELL, first, &lines)?;
    Ok(height.saturating_add(18).max(LEAST_HEIGHT))
}

// Writes the lines of the command with a place, and below them what they mean; the height of the row.
fn draw_words<A: Memory + Copy>(
    pen: &mut Pen<A>,
    spot: &Spot<'_, A>,
    outcome: &Outcome<A>,
    place: usize,
) -> Result<u64, AllocError>
    ensures memory { OnErr result A.may_refuse }
{
    let Spot { sheet, row, y } = *spot;
    let mut lines = Lines::new(pen.alloc, WIDTH);
    for line in outcome.text.lines() {
        lines.add(line)?;
    }
    let mut notes = Lines::new(pen.alloc, WIDTH);
    notes.add_notes(sheet.history, row, place)?;
    let look = match row.sign {
        Some((_, Sign::Refused)) => style::REFUSAL,
        _ => style::NOTE,
    };
    let at = (sheet.words_x(), y.saturating_add(4));
    let below = draw_lines(pen, style::LINE, at, &lines.lines)?;
    let end = draw_lines(pen, look, below, &notes.lines)?;
    let height = end.1.saturating_sub(at.1);
    Ok(height.saturating_add(14).max(LEAST_HEIGHT))
}

// Writes lines from a place on; the place below the last.
fn draw_lines<A: Memory + Copy>(
    pen: &mut Pen<A>,
    look: &'static str,
    at: (u64, u64),
    lines: &[String<A>],
) -> Result<(u64, u64), AllocError>
    ensures memory { OnErr result A.may_refuse }
{
    let (x, mut y) = at;
    for line in lines {
        pen.words(look, (x, y), line)?;
        y = y.saturating_add(LEADING);
    }
    Ok((x, y))
}
