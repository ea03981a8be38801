//! Drawing shapes. Places and sizes are in pixels, from the upper left corner of the sheet.

ghost use Rattle.std.specs.Prelude.{OnErr};

use crate::escape::put_escaped;
use lisp_memory::{FallibleString, Memory};
use std::alloc::{AllocError, Allocator};
use std::fmt::Display;

/// Shapes that are drawn together, as they are written in an image. The look of each is a constant of the module `style`.
#[derive(Drop)]
pub(crate) struct Pen<A: Allocator> {
    pub(crate) alloc: A,
    pub(crate) text: String<A>,
}

impl<A: Memory + Copy> Pen<A> {
    /// No shapes.
    pub(crate) fn new(alloc: A) -> Pen<A> {
        Pen {
            alloc,
            text: String::new(alloc),
        }
    }

    /// Draws a line from a place to another.
    pub(crate) fn line(
        &mut self,
        look: &'static str,
        from: (u64, u64),
        to: (u64, u64),
    ) -> Result<(), AllocError>
        ensures memory { OnErr result A.may_refuse }
    {
        let (x1, y1) = from;
        let (x2, y2) = to;
        self.text.try_write(format_args!(
            "<line {look} x1=\"{x1}\" y1=\"{y1}\" x2=\"{x2}\" y2=\"{y2}\"/>"
        ))
    }

    /// Draws a sign, by its name in the style.
    pub(crate) fn sign(&mut self, name: &'static str, at: (u64, u64)) -> Result<(), AllocError>
        ensures memory { OnErr result A.may_refuse }
    {
        let (x, y) = at;
        self.text.try_write(format_args!("<use href=\"#{name}\" x=\"{x}\" y=\"{y}\"/>"))
    }

    /// Draws a rectangle, by its upper left corner, its width and its height.
    pub(crate) fn rectangle(
        &mut self,
        look: &'static str,
        at: (u64, u64),
        size: (u64, u64),
    ) -> Result<(), AllocError>
        ensures memory { OnErr result A.may_refuse }
    {
        let (x, y) = at;
        let (width, height) = size;
        self.text.try_write(format_args!(
            "<rect {look} x=\"{x}\" y=\"{y}\" width=\"{width}\" height=\"{height}\"/>"
        ))
    }

    /// Writes words, which begin at a place.
    pub(crate) fn words(
        &mut self,
        look: &str,
        at: (u64, u64),
        words: &str,
    ) -> Result<(), AllocError>
        ensures memory { OnErr result A.may_refuse }
    {
        let (x, y) = at;
        self.text
            .try_write(format_args!("<text {look} x=\"{x}\" y=\"{y}\">"))?;
        put_escaped(&mut self.text, words)?;
        self.text.try_write("</text>")
    }

    /// The same with what a value is as a text.
    pub(crate) fn text<D: Display + Drop>(
        &mut self,
        look: &str,
        at: (u64, u64),
        value: D,
    ) -> Result<(), AllocError>
        ensures memory { OnErr result A.may_refuse }
    {
        let words = String::try_format(self.alloc, value)?;
        self.words(look, at, &words)
    }
}
