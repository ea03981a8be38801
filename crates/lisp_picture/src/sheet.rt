//! The sheet of an image. Places and sizes are in pixels, from its upper left corner.

ghost use Rattle.std.specs.Prelude.{OnErr};

use crate::datagram::Datagram;
use crate::pen::Pen;
use crate::row::{Row, Sign};
use crate::sheet_row::{Spot, draw_brief, draw_whole};
use crate::story::Story;
use crate::style;
use crate::wrap::Lines;
use lisp_lines::node_name;
use lisp_memory::{FallibleString, FallibleVec, Memory};
use lisp_player::History;
use lisp_sites::{Config, ConfigNode};
use lisp_texts::addr_to_text;
use std::alloc::{AllocError, Allocator};

/// The most commands that are drawn with all details.
const MOST_DETAILED: usize = 600;

/// Where words begin.
const MARGIN: u64 = 16;

/// Where labels begin at the left of the first node's line.
const LEFT: u64 = 60;

/// How far the lines of two nodes are apart at least.
const LEAST_SPACING: u64 = 170;

/// How far the boxes of two nodes' names are apart.
const HEAD_GAP: u64 = 20;

/// How much room one character takes of a node's name or address, and of the title.
const CHARACTER: u64 = 7;

const TITLE_CHARACTER: u64 = 10;

/// How wide the part is that words stand in, behind the lines of the nodes.
const WORDS_WIDTH: u64 = 480;

/// How much room labels have whose nonces have at most eight digits, and others.
const ROOM: u64 = 130;

const WIDE_ROOM: u64 = 190;

/// The first nonce with nine digits.
const LONG_NONCE: u64 = 100_000_000;

/// Where a node's line is broken, above and below where the node started again.
const BREAK: u64 = 5;

/// A sheet that rows are drawn on, with a line for each node that something happens to, in their order, side by side.
#[derive(Drop)]
pub(crate) struct Sheet<'a, A: Allocator> {
    alloc: A,
    pub(crate) history: &'a History<A>,
    pub(crate) story: &'a Story<A>,
    // How far two lines are apart, and how much room labels have beside the first and the last.
    spacing: u64,
    room: u64,
    /// What belongs to no command.
    pub(crate) frame: Pen<A>,
    /// Where the middle of each row is.
    pub(crate) middles: Vec<u64, A>,
    // Where the line of each node goes on, below its last break.
    starts: Vec<u64, A>,
    // Where the next row begins.
    y: u64,
}

impl<'a, A: Memory + Copy> Sheet<'a, A> {
    /// A sheet with its title, what it leaves out, and the names of its nodes.
    pub(crate) fn new(
        alloc: A,
        title: &str,
        history: &'a History<A>,
        story: &'a Story<A>,
    ) -> Result<Sheet<'a, A>, AllocError>
        ensures memory { OnErr result A.may_refuse }
    {
        let mut sheet = Sheet {
            alloc,
            history,
            story,
            spacing: spacing(alloc, history, &story.nodes)?,
            room: room(&story.datagrams),
            frame: Pen::new(alloc),
            middles: Vec::new(alloc),
            starts: Vec::new(alloc),
            y: 10,
        };
        sheet.draw_title(title)?;
        sheet.draw_left_out()?;
        sheet.draw_heads()?;
        Ok(sheet)
    }

    /// How wide the sheet is.
    pub(crate) fn width(&self) -> u64 {
        self.words_x().saturating_add(WORDS_WIDTH)
    }

    /// Where the line of a node is; `None` where it has none.
    pub(crate) fn x(&self, node: usize) -> Option<u64> {
        Some(self.x_at(self.place(node)?))
    }

    /// Where words begin, behind all lines.
    pub(crate) fn words_x(&self) -> u64 {
        self.last_x().saturating_add(self.room).saturating_add(LEFT)
    }

    /// Where the last line is.
    pub(crate) fn last_x(&self) -> u64 {
        self.x_at(self.story.nodes.len().saturating_sub(1))
    }

    // Where the line with a place is.
    fn x_at(&self, place: usize) -> u64 {
        LEFT.saturating_add(self.room)
            .saturating_add(self.spacing.saturating_mul(place as u64))
    }

    // The place of a node among those that have a line.
    fn place(&self, node: usize) -> Option<usize> {
        self.story.nodes.iter().position(|other| *other == node)
    }

    fn draw_title(&mut self, title: &str) -> Result<(), AllocError>
        ensures memory { OnErr result A.may_refuse }
    {
        let characters = self.width().saturating_sub(2 * MARGIN) / TITLE_CHARACTER;
        let mut lines = Lines::new(self.alloc, characters as usize);
        lines.add(title)?;
        for line in lines.lines.iter() {
            self.y = self.y.saturating_add(22);
            self.frame.words(style::TITLE, (MARGIN, self.y), line)?;
        }
        Ok(())
    }

    fn is_brief(&self) -> bool {
        MOST_DETAILED < self.history.commands.len()
    }

    // Writes what the sheet leaves out: the words of many commands, and nodes that nothing happens to.
    fn draw_left_out(&mut self) -> Result<(), AllocError>
        ensures memory { OnErr result A.may_refuse }
    {
        if self.is_brief() {
            let count = self.history.commands.len();
            let words = String::try_format(
                self.alloc,
                format_args!(
                    "{count} commands, without words: open the image by itself, and point at one to read its line."
                ),
            )?;
            self.note(&words)?;
        }
        let count = self.history.config.node_count();
        match count.saturating_sub(self.story.nodes.len()) {
            0 => Ok(()),
            1 => self.note("One more node, to which nothing happens, has no line."),
            idle => {
                let words = format_args!(
                    "{idle} more nodes, to which nothing happens, have no line."
                );
                self.note(&String::try_format(self.alloc, words)?)
            }
        }
    }

    fn note(&mut self, words: &str) -> Result<(), AllocError>
        ensures memory { OnErr result A.may_refuse }
    {
        self.y = self.y.saturating_add(20);
        self.frame.words(style::NOTE, (MARGIN, self.y), words)
    }

    fn draw_heads(&mut self) -> Result<(), AllocError>
        ensures memory { OnErr result A.may_refuse }
    {
        let story = self.story;
        let top = self.y.saturating_add(16);
        self.y = top.saturating_add(44);
        for (place, node) in story.nodes.iter().enumerate() {
            self.draw_head(self.x_at(place), *node, top)?;
            self.starts.try_push(self.y)?;
        }
        Ok(())
    }

    // Draws the box with the name of a node, its kind and its address, above its line.
    fn draw_head(&mut self, x: u64, node: usize, y: u64) -> Result<(), AllocError>
        ensures memory { OnErr result A.may_refuse }
    {
        let config = &self.history.config;
        let width = self.spacing.saturating_sub(HEAD_GAP);
        let corner = (x.saturating_sub(width / 2), y);
        self.frame.rectangle(style::HEAD, corner, (width, 40))?;
        let name_at = (x, y.saturating_add(17));
        self.frame
            .words(style::NAME, name_at, node_name(config, node))?;
        let kind = kind_text(self.alloc, config, node)?;
        let kind_at = (x, y.saturating_add(33));
        self.frame.words(style::KIND, kind_at, &kind)
    }

    /// The shapes of the command with a place, below those of the one before.
    pub(crate) fn draw_row(&mut self, place: usize) -> Result<String<A>, AllocError>
        ensures memory { OnErr result A.may_refuse }
    {
        let story = self.story;
        let mut pen = Pen::new(self.alloc);
        let Some(row) = story.rows.get(place) else {
            return Ok(pen.text);
        };
        let is_brief = self.is_brief();
        let y = self.y.saturating_add(if is_brief { 4 } else { 20 });
        self.middles.try_push(y)?;
        let spot = Spot {
            sheet: self,
            row,
            y,
        };
        let height = if is_brief {
            draw_brief(&mut pen, &spot)?;
            8
        } else {
            draw_whole(&mut pen, &spot, place)?
        };
        self.break_line(row, y)?;
        self.y = self.y.saturating_add(height);
        Ok(pen.text)
    }

    // Breaks the line of a node that starts again.
    fn break_line(&mut self, row: &Row, y: u64) -> Result<(), AllocError>
        ensures memory { OnErr result A.may_refuse }
    {
        let Some((node, Sign::Started)) = row.sign else {
            return Ok(());
        };
        let Some(place) = self.place(node) else {
            return Ok(());
        };
        self.draw_node(place, y.saturating_sub(BREAK))?;
        if let Some(start) = self.starts.get_mut(place) {
            *start = y.saturating_add(BREAK);
        }
        Ok(())
    }

    // Draws the line of a node from its last break on.
    fn draw_node(&mut self, place: usize, to: u64) -> Result<(), AllocError>
        ensures memory { OnErr result A.may_refuse }
    {
        let x = self.x_at(place);
        let from = self.starts.get(place).copied().unwrap_or(to);
        self.frame.line(style::NODE, (x, from), (x, to))
    }

    /// Ends the lines of the nodes below the rows; how high the sheet is.
    pub(crate) fn end(&mut self) -> Result<u64, AllocError>
        ensures memory { OnErr result A.may_refuse }
    {
        let y = self.y.saturating_add(8);
        for place in 0..self.story.nodes.len() {
            self.draw_node(place, y)?;
        }
        Ok(y.saturating_add(16))
    }
}

// How far the lines of two nodes are apart: so far that the names and addresses of nodes have room.
fn spacing<A: Memory + Copy>(
    alloc: A,
    history: &History<A>,
    nodes: &[usize],
) -> Result<u64, AllocError>
    ensures memory { OnErr result A.may_refuse }
{
    let mut spacing = LEAST_SPACING;
    for node in nodes {
        let name = node_name(&history.config, *node).len();
        let kind = kind_text(alloc, &history.config, *node)?.len();
        let longest = name.max(kind) as u64;
        spacing = spacing.max(longest.saturating_mul(CHARACTER).saturating_add(30));
    }
    Ok(spacing)
}

// How much room the labels of datagrams take.
fn room(datagrams: &[Datagram]) -> u64 {
    if datagrams.iter().any(|sent| LONG_NONCE <= sent.nonce) {
        WIDE_ROOM
    } else {
        ROOM
    }
}

/// What a node is, and its address.
pub(crate) fn kind_text<A: Memory + Copy>(
    alloc: A,
    config: &Config<A>,
    node: usize,
) -> Result<String<A>, AllocError>
    ensures memory { OnErr result A.may_refuse }
{
    let Some(node) = config.node(node) else {
        return Ok(String::new(alloc));
    };
    let address = addr_to_text(alloc, node.address())?;
    let kind = match node {
        ConfigNode::Server(_) => "Map-Server",
        ConfigNode::Router(_) => "router",
    };
    String::try_format(alloc, format_args!("{kind} {address}"))
}
