//! Words in lines of a width.

ghost use Rattle.std.specs.Prelude.{OnErr};

use lisp_memory::{FallibleString, FallibleVec, Memory};
use std::alloc::{AllocError, Allocator};
use std::fmt::Display;
use std::mem;

/// Lines that grow by words, each of at most so many characters.
#[derive(Drop)]
pub(crate) struct Lines<A: Allocator> {
    pub(crate) alloc: A,
    width: usize,
    /// The lines that are ended.
    pub(crate) lines: Vec<String<A>, A>,
    // The line that isn't, and how many characters it has.
    last: String<A>,
    filled: usize,
}

impl<A: Memory + Copy> Lines<A> {
    /// No lines of a width, which is at least 1.
    pub(crate) fn new(alloc: A, width: usize) -> Lines<A> {
        Lines {
            alloc,
            width,
            lines: Vec::new(alloc),
            last: String::new(alloc),
            filled: 0,
        }
    }

    /// Appends the words of a text, which spaces separate, from a new line on. A word that is wider than a line is broken.
    pub(crate) fn add(&mut self, text: &str) -> Result<(), AllocError>
        ensures memory { OnErr result A.may_refuse }
    {
        for word in text.split(' ') {
            self.add_word(word)?;
        }
        self.end()
    }

    /// The same with what a value is as a text.
    pub(crate) fn add_text<D: Display + Drop>(&mut self, value: D) -> Result<(), AllocError>
        ensures memory { OnErr result A.may_refuse }
    {
        let text = String::try_format(self.alloc, value)?;
        self.add(&text)
    }

    fn add_word(&mut self, word: &str) -> Result<(), AllocError>
        ensures memory { OnErr result A.may_refuse }
    {
        self.part(word.chars().count().saturating_add(1))?;
        for character in word.chars() {
            self.add_character(character)?;
        }
        Ok(())
    }

    // Parts a word that needs so many characters from the one before it, by a space or a new line.
    fn part(&mut self, needed: usize) -> Result<(), AllocError>
        ensures memory { OnErr result A.may_refuse }
    {
        if self.filled == 0 {
            return Ok(());
        }
        if self.filled.saturating_add(needed) <= self.width {
            return self.add_character(' ');
        }
        self.end()
    }

    fn add_character(&mut self, character: char) -> Result<(), AllocError>
        ensures memory { OnErr result A.may_refuse }
    {
        if self.width <= self.filled {
            self.end()?;
        }
        self.filled = self.filled.saturating_add(1);
        self.last.try_push(character)
    }

    // Ends a line.
    fn end(&mut self) -> Result<(), AllocError>
        ensures memory { OnErr result A.may_refuse }
    {
        let line = mem::replace(&mut self.last, String::new(self.alloc));
        self.filled = 0;
        self.lines.try_push(line)?;
        Ok(())
    }
}
