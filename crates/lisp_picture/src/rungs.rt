//! The lines of nodes in a picture that is text.

use crate::cells::Cells;
use crate::datagram::Datagram;
use crate::row::{Arrival, Row};
use crate::story::Story;
use lisp_nonces::Fate;
use std::alloc::Allocator;

/// The most nodes that have a line.
const MOST_NODES: usize = 8;

/// Where the line of the first node is, in characters.
const LEFT: usize = 9;

/// How far the lines of nodes are apart at most, in characters; and all of them together.
const MOST_STEP: usize = 12;

const MOST_ROOM: usize = 42;

/// How far behind the last line of a node words begin, in characters.
const WORDS_GAP: usize = 6;

/// Where words begin at most.
const MOST_WORDS_AT: usize = LEFT + MOST_ROOM + WORDS_GAP;

/// How long the arrow of what comes from outside is, and that of a datagram that never arrives, in characters.
const STUB: usize = 3;

/// The lines of the first few nodes that something happens to.
#[derive(Clone, Copy)]
pub(crate) struct Rungs<'a> {
    pub(crate) nodes: &'a [usize],
    step: usize,
}

impl<'a> Rungs<'a> {
    /// The lines of nodes.
    pub(crate) fn new(nodes: &'a [usize]) -> Rungs<'a> {
        let nodes = nodes.get(..MOST_NODES).unwrap_or(nodes);
        let gaps = nodes.len().saturating_sub(1).max(1);
        Rungs {
            nodes,
            step: (MOST_ROOM / gaps).min(MOST_STEP),
        }
    }

    /// Where the line of the node with a place is.
    pub(crate) fn at(&self, place: usize) -> usize {
        LEFT.saturating_add(self.step.saturating_mul(place))
    }

    /// Where words begin.
    pub(crate) fn words_at(&self) -> usize {
        self.at(self.nodes.len().saturating_sub(1))
            .saturating_add(WORDS_GAP)
            .min(MOST_WORDS_AT)
    }

    /// The lines of the first so many nodes.
    pub(crate) fn cells(&self, count: usize) -> Cells {
        let mut cells = Cells::blank();
        for place in 0..count {
            cells.set(self.at(place), b'|');
        }
        cells
    }

    /// The lines of the nodes, and what a command did.
    pub(crate) fn drawn<A: Allocator>(&self, story: &Story<A>, place: usize) -> Cells {
        let mut cells = self.cells(self.nodes.len());
        let Some(row) = story.rows.get(place) else {
            return cells;
        };
        if row.now.is_some() {
            self.draw_clock(&mut cells);
        }
        let end = row.sign.and_then(|(node, _)| self.place(node));
        self.draw_arrival(&mut cells, story, row, end);
        self.draw_lost(&mut cells, story, row);
        if let (Some(at), Some((_, sign))) = (end, row.sign) {
            cells.set(at, sign.drawing().1);
            if row.fate != Fate::Done {
                cells.set(self.beside(story, row, at), b'?');
            }
        }
        cells
    }

    // Draws the arrow of what arrives.
    fn draw_arrival<A: Allocator>(
        &self,
        cells: &mut Cells,
        story: &Story<A>,
        row: &Row,
        end: Option<usize>,
    ) {
        match row.arrival {
            Some(Arrival::Outside) => self.draw_outside(cells, end),
            Some(Arrival::Datagram(k)) => {
                if let Some(datagram) = story.datagrams.get(k) {
                    self.draw_arrow(cells, datagram, k, row, end);
                }
            }
            None => {}
        }
    }

    // Draws the stub of what is sent and never arrives, towards where it is for, or away from there where something arrives.
    fn draw_lost<A: Allocator>(&self, cells: &mut Cells, story: &Story<A>, row: &Row) {
        let Some(datagram) = story.lost(row) else {
            return;
        };
        let Some(from) = self.place(datagram.from) else {
            return;
        };
        if datagram.is_leftward() == row.arrival.is_some() {
            draw_rightward(cells, from, b'x');
        } else {
            cells.fill(from.saturating_sub(STUB), from, b'-');
            cells.set(from.saturating_sub(STUB), b'x');
        }
    }

    // The place beside the line of a node on the side that nothing arrives from.
    fn beside<A: Allocator>(&self, story: &Story<A>, row: &Row, at: usize) -> usize {
        match story
            .arrived(row)
            .and_then(|datagram| self.place(datagram.from))
        {
            Some(from) if at < from => at.saturating_sub(1),
            _ => at.saturating_add(1),
        }
    }

    // Where the line of a node is, where it has one.
    fn place(&self, node: usize) -> Option<usize> {
        let place = self.nodes.iter().position(|other| *other == node)?;
        Some(self.at(place))
    }

    // Draws the line of a moment, between those of the nodes.
    fn draw_clock(&self, cells: &mut Cells) {
        let last = self.at(self.nodes.len().saturating_sub(1));
        cells.fill(LEFT.saturating_add(1), last, b'.');
        for place in 0..self.nodes.len() {
            cells.set(self.at(place), b'|');
        }
    }

    // Draws the arrow of bytes from outside.
    fn draw_outside(&self, cells: &mut Cells, end: Option<usize>) {
        if let Some(at) = end {
            cells.fill(at.saturating_sub(STUB), at, b'-');
            cells.set(at.saturating_sub(1), b'>');
        }
    }

    // Draws the arrow of a datagram, with its number. A node without a line is beyond the last one.
    fn draw_arrow(
        &self,
        cells: &mut Cells,
        datagram: &Datagram,
        k: usize,
        row: &Row,
        end: Option<usize>,
    ) {
        match (self.place(datagram.from), end) {
            (Some(from), Some(to)) if from == to => self.draw_outside(cells, end),
            (Some(from), Some(to)) => {
                draw_between(cells, from, to);
                write_number(cells, from.min(to), from.max(to), k);
            }
            (Some(from), None) if row.sign.is_none() => draw_rightward(cells, from, b'x'),
            (Some(from), None) => draw_rightward(cells, from, b'>'),
            (None, Some(to)) => {
                cells.fill(to.saturating_add(1), to.saturating_add(STUB), b'-');
                cells.set(to.saturating_add(1), b'<');
            }
            (None, None) => {}
        }
    }
}

// Draws an arrow from the line of a node to that of another.
fn draw_between(cells: &mut Cells, from: usize, to: usize) {
    if from < to {
        cells.fill(from.saturating_add(1), to, b'-');
        cells.set(to.saturating_sub(1), b'>');
    } else {
        cells.fill(to.saturating_add(1), from, b'-');
        cells.set(to.saturating_add(1), b'<');
    }
}

// Draws a short line to the right, which ends in a character.
fn draw_rightward(cells: &mut Cells, from: usize, end: u8) {
    cells.fill(from.saturating_add(1), from.saturating_add(STUB), b'-');
    cells.set(from.saturating_add(STUB), end);
}

// Writes the number of a datagram in the middle of its arrow, where that has room for it.
fn write_number(cells: &mut Cells, from: usize, to: usize, k: usize) {
    let mut rest = k;
    let mut place = from.saturating_add(to) / 2;
    for _ in 0..Cells::WIDTH {
        if place <= from.saturating_add(1) {
            return;
        }
        cells.set(place, b'0' + (rest % 10) as u8);
        rest /= 10;
        if rest == 0 {
            return;
        }
        place -= 1;
    }
}
