//! The log of a node that runs without an end.

ghost use Rattle.std.specs.Prelude.{◌≡◌, ◌≤◌, None, false, IfOk};
ghost use Rattle.lisp_log.specs.Log.{begins};
ghost use Rattle.lisp_log.specs.Text.{device_of};
ghost use Rattle.lisp_records.specs.Moment.{max_moment};
ghost use Rattle.lisp_udp.specs.Journal.{PassesAndPours, TellsAndPours};

use crate::line_output::{LineForm, LineOutput};
use crate::printer::Printer;
use lisp_log::{Device, Log, Replay, device_of};
use lisp_memory::{FallibleString, Memory};
use lisp_script::RunFault;
use lisp_sites::Config;
use lisp_turns::Printed;
use std::alloc::Global;
use std::cell::Cell;
use std::fs::{File, Files};
use std::io::ErrorKind;
use std::time::Clock;

/// The log of a node, written to standard output. Lines that can't be written wait, or are dropped, so that none cuts it.
#[derive(Drop)]
pub struct Journal<'a, R> {
    alloc: Global,
    log: Log<'a>,
    output: LineOutput<'a, R>,
    // The kind of the last error of the store's device.
    store_failure: &'a Cell<Option<ErrorKind>>,
}

impl<'a, R: Files<File = File> + Clock + AllocGlobal> Journal<'a, R> {
    /// That of the node with a name, which registers with the Map-Servers of these numbers, and whose store keeps so many pairs. It
    /// begins at a moment, in ms, and writes nothing yet. Fault: 97.
    pub fn open(
        rt: &'a R,
        config: &'a Config,
        name: &'a str,
        servers: &[usize],
        pairs: usize,
        now: u64,
        form: LineForm,
        store_failure: &'a Cell<Option<ErrorKind>>,
    ) -> Result<Journal<'a, R>, RunFault>
        ensures { IfOk result (λ journal. journal.log
            ≡ begins config.now name.now servers.now pairs now) }
    {
        Ok(Journal {
            alloc: rt.alloc(),
            log: Log::start(rt.alloc(), config, name, servers, pairs, now)?,
            output: LineOutput::open(rt, form),
            store_failure,
        })
    }
}

impl<R> Journal<'_, R> {
    // The kind of the error that a line tells, in a word.
    fn cause(&self, line: &Printed, socket_failure: Option<ErrorKind>) -> Option<String>
        ensures { device_of line.now ≡ None → result ≡ None }
    {
        let kind = match device_of(line)? {
            Device::Store => self.store_failure.get()?,
            Device::Socket => socket_failure?,
        };
        String::try_format(self.alloc, format_args!("{kind:?}")).ok()
    }
}

impl<R: Clock> Printer for Journal<'_, R> {
    ghost cut = { λ _. false };

    fn pass(&mut self, now: u64)
        requires { now ≤ max_moment }
        ensures log { PassesAndPours ⟦<Global as Memory>⟧.may_refuse self.old.log self.new.log now }
        ensures cut { ⟦<Self as Printer>⟧.cut self.new ≡ ⟦<Self as Printer>⟧.cut self.old }
    {
        self.log.pass(now);
        self.log.pour(&mut self.output);
    }

    fn print(&mut self, line: &Printed, failure: Option<ErrorKind>, now: u64)
        ensures { TellsAndPours
            ⟦<Global as Memory>⟧.may_refuse self.old.log self.new.log line.now now }
    {
        let cause = self.cause(line, failure);
        let cause = cause.as_ref().map(|word| word.as_str());
        self.log.tell(line, cause, now);
        self.log.pour(&mut self.output);
    }

    fn replays(&self) -> &[Replay]
        ensures { result.now ≡ self.now.log.replays }
    {
        self.log.replays()
    }

    fn is_cut(&self) -> bool {
        false
    }
}
