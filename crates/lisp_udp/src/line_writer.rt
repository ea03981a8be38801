//! A node's lines on a writer.

ghost use Rattle.std.specs.Prelude.{◌≡◌, Ok, Err};
ghost use Rattle.std.specs.Option.{MatchOption, is_some};

use crate::output::print_line;
use crate::printer::Printer;
use lisp_log::Replay;
use lisp_script::RunFault;
use lisp_sites::Config;
use lisp_turns::Printed;
use std::alloc::Global;
use std::io::{ErrorKind, Write};

/// A writer of the lines of the node with a name, each at once, so that a pipe sees it. Behind a line that couldn't be written
/// there is no other.
#[derive(Drop)]
pub struct LineWriter<'a, W> {
    alloc: Global,
    config: &'a Config,
    name: &'a str,
    writer: &'a mut W,
    // Why a line couldn't be written.
    fault: Option<RunFault>,
}

impl<'a, W: Write> LineWriter<'a, W> {
    pub fn new(
        alloc: Global,
        config: &'a Config,
        name: &'a str,
        writer: &'a mut W,
    ) -> LineWriter<'a, W> {
        LineWriter {
            alloc,
            config,
            name,
            writer,
            fault: None,
        }
    }

    /// Why a line couldn't be written, where one couldn't. Faults: 88, 97.
    pub fn end(self) -> Result<(), RunFault>
        ensures { MatchOption self.entry.fault (result ≡ Ok tt) (λ fault. result ≡ Err fault) }
    {
        match self.fault {
            Some(fault) => Err(fault),
            None => Ok(()),
        }
    }
}

impl<W: Write> Printer for LineWriter<'_, W> {
    ghost cut = { λ l. is_some l.fault };

    fn pass(&mut self, _now: u64) {}

    fn print(&mut self, line: &Printed, _failure: Option<ErrorKind>, _now: u64) {
        if self.is_cut() {
            return;
        }
        if let Err(fault) = print_line(self.alloc, self.config, self.name, line, self.writer) {
            self.fault = Some(fault);
        }
    }

    fn replays(&self) -> &[Replay] {
        &[]
    }

    fn is_cut(&self) -> bool {
        self.fault.is_some()
    }
}
