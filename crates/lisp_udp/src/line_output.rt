//! Standard output, in the form of a node's lines.

ghost use Rattle.std.specs.Prelude.{None};

use crate::object_output::ObjectOutput;
use crate::standard_output::StandardOutput;
use lisp_log::Sink;
use std::alloc::Global;
use std::fs::{File, Files};
use std::time::Clock;

/// In which form a node that runs without an end prints its lines.
#[derive(Clone, Copy, Debug, PartialEq, Eq)]
pub enum LineForm {
    /// Words, as in a schedule.
    Words,
    /// Each a JSON object, with the time at which it is written and a severity.
    Objects,
}

/// Standard output, which takes lines in one of their forms.
#[derive(Drop)]
pub(crate) enum LineOutput<'a, R> {
    Words(StandardOutput),
    Objects(ObjectOutput<'a, R, StandardOutput, Global>),
}

impl<'a, R: Files<File = File> + Clock + AllocGlobal> LineOutput<'a, R> {
    /// That of the process.
    pub(crate) fn open(rt: &'a R, form: LineForm) -> LineOutput<'a, R> {
        let output = StandardOutput::open(rt);
        match form {
            LineForm::Words => LineOutput::Words(output),
            LineForm::Objects => LineOutput::Objects(ObjectOutput::new(rt, rt.alloc(), output)),
        }
    }
}

impl<R: Clock> Sink for LineOutput<'_, R> {
    ghost taken = { λ _. None };

    fn take(&mut self, bytes: &[u8]) -> usize {
        match self {
            LineOutput::Words(output) => output.take(bytes),
            LineOutput::Objects(output) => output.take(bytes),
        }
    }
}
