//! What a node that runs has outside: the system's socket and clock, and where its lines go.

ghost use Rattle.std.specs.Prelude.{◌≡◌, None, IfOk, IfSome, IsTrue, false, length};
ghost use Rattle.lisp_database_store.specs.Groups.{SomeIsDone};
ghost use Rattle.lisp_records.specs.Router.{router_cmp};
ghost use Rattle.lisp_sites.specs.Numbers.{IsNode};
ghost use Rattle.lisp_statistics.specs.Hearing.{heard_in};
ghost use Rattle.lisp_statistics.specs.Kind.{kind_of};
ghost use Rattle.lisp_statistics.specs.LastRefusals.{RefusesLine, refused_from};
ghost use Rattle.lisp_statistics.specs.SiteRefusals.{refusal_in};
ghost use Rattle.lisp_statistics.specs.Statistics.{Begins, Counts, HearsLine};
ghost use Rattle.lisp_turns.specs.Outside.{Commits, Logs, LogsLine};
ghost use Rattle.lisp_udp.specs.Inbox.{keeps_apart};
ghost use Rattle.lisp_udp.specs.Moments.{moment_of};

use lisp_control_socket::ControlSocket;
use lisp_database_store::{SharedDatabase, SystemTable};
use lisp_mapping::Datagram;
use lisp_memory::Memory;
use lisp_model::{Line, WorldFault};
use lisp_records::Addr;
use lisp_script::RunFault;
use lisp_sites::Config;
use lisp_statistics::{LineKind, SiteRefusal, Statistics};
use lisp_turns::{
    Clock, Commit, Control, Endpoint, Lines, NodeCore, Order, Outside, Printed, Received, Request,
    Requests,
};
use lisp_udp::{PacedMailbox, Printer, SaveTimes, Stopwatch, us_between};
use std::alloc::Global;
use std::net::Net;
use std::time::Instant;

/// A node's socket, its clock, where its lines go, and where it is asked. Of what the system makes of their calls nothing is known.
#[derive(Drop)]
pub(crate) struct Devices<'a, R, T, P> {
    rt: &'a R,
    paced: PacedMailbox<'a, R>,
    // What a turn's nonces are committed to; None where each save is committed by itself.
    database: Option<&'a SharedDatabase<'a, T>>,
    // None where it couldn't be opened.
    control: Option<ControlSocket<'a>>,
    // When the last Map-Request was taken.
    asked_at: Option<Instant>,
    stopwatch: Stopwatch,
    // Whether the clock was read, for the node's start.
    is_read: bool,
    statistics: Statistics,
    saves: &'a SaveTimes<'a, R>,
    printer: P,
}

impl<'a, R: Net + std::time::Clock + AllocGlobal, T: SystemTable, P: Printer + Drop> Devices<
    'a,
    R,
    T,
    P,
> {
    /// Those of the node with a number, whose turns take groups of so many datagrams and are committed to the `database`, where there is one;
    /// the node starts now. Faults: 92, 97.
    pub(crate) fn open(
        rt: &'a R,
        config: &Config,
        number: usize,
        places: u8,
        database: Option<&'a SharedDatabase<'a, T>>,
        control: Option<ControlSocket<'a>>,
        saves: &'a SaveTimes<'a, R>,
        printer: P,
    ) -> Result<Devices<'a, R, T, P>, RunFault>
        requires { IsNode config.now number }
        ensures counts { IfOk result (λ devices. Begins config.now.routers
            (moment_of devices.stopwatch.last) devices.statistics) }
    {
        let Begun {
            paced,
            stopwatch,
            statistics,
        } = Begun::open(rt, config, number, places)?;
        Ok(Devices {
            rt,
            paced,
            database,
            control,
            asked_at: None,
            stopwatch,
            is_read: false,
            statistics,
            saves,
            printer,
        })
    }

    /// Where the lines went.
    pub(crate) fn into_printer(self) -> P {
        self.printer
    }
}

// What of a node's devices has to be opened: its socket and its clock, and what it counts from now on.
#[derive(Drop)]
struct Begun<'a, R> {
    paced: PacedMailbox<'a, R>,
    stopwatch: Stopwatch,
    statistics: Statistics,
}

impl<'a, R: Net + std::time::Clock + AllocGlobal> Begun<'a, R> {
    fn open(rt: &'a R, config: &Config, number: usize, places: u8) -> Result<Begun<'a, R>, RunFault>
        requires { IsNode config.now number }
        ensures { IfOk result (λ begun. Begins config.now.routers
            (moment_of begun.stopwatch.last) begun.statistics) }
    {
        let paced = PacedMailbox::open(rt, config, number, places)?;
        let stopwatch = Stopwatch::start(rt)?;
        let statistics = Statistics::start(rt.alloc(), config.routers(), stopwatch.told())?;
        Ok(Begun {
            paced,
            stopwatch,
            statistics,
        })
    }
}

impl<R, T, P> Devices<'_, R, T, P> {
    // Whether somebody is connected to its control socket, or was lately.
    fn is_busy(&self) -> bool {
        match &self.control {
            Some(control) => control.is_busy(self.stopwatch.told()),
            None => false,
        }
    }
}

impl<R, T, P: Printer> Outside for Devices<'_, R, T, P> {
    ghost seen = { λ d. record { log = None; moment = moment_of d.stopwatch.last; is_cut = P.cut d.printer; is_asked = keeps_apart d.paced.mailbox.inbox } };
}

impl<R: std::time::Clock, T: SystemTable, P: Printer> Endpoint for Devices<'_, R, T, P> {
    fn receive(&mut self, buffer: &mut [u8]) -> Received {
        if self.is_busy() {
            return self.paced.receive_paced(buffer);
        }
        self.paced.receive(buffer)
    }

    fn poll(&mut self, buffer: &mut [u8]) -> Received {
        self.paced.mailbox.poll(buffer)
    }

    fn send(&mut self, to: &Addr, message: &[u8]) -> bool {
        self.paced.mailbox.send(to, message)
    }
}

impl<R: std::time::Clock, T, P: Printer> Requests for Devices<'_, R, T, P> {
    fn next_request(&mut self, buffer: &mut [u8]) -> Option<Request> {
        let request = self.paced.mailbox.next_request(buffer)?;
        self.statistics.note_request();
        self.asked_at = Instant::now(self.rt).ok();
        Some(request)
    }

    /// From the address of the node, UDP port 4342. The time since the Map-Request was taken is noted.
    fn reply(&mut self, datagram: &Datagram) -> bool {
        let is_taken = self
            .paced
            .mailbox
            .send_to(&datagram.to, datagram.port, &datagram.bytes);
        let now = Instant::now(self.rt).ok();
        self.statistics
            .note_reply(us_between(self.asked_at, now).unwrap_or(0));
        is_taken
    }
}

impl<R: std::time::Clock, T: SystemTable, P: Printer> Commit for Devices<'_, R, T, P> {
    /// Does nothing where each save is committed by itself. A commit of a group is timed as a save.
    fn commit(&mut self) -> bool
        ensures logs { Logs (⟦<Self as Outside>⟧.seen self.old) (⟦<Self as Outside>⟧.seen self.new)
            (Commits result) }
        ensures group { IfSome self.old.database
            (λ database. IsTrue result → SomeIsDone T.Table.means) }
    {
        let Some(database) = self.database else {
            return true;
        };
        let begun = self.saves.begin();
        let is_done = database.commit();
        self.saves.end(begun);
        is_done
    }
}

impl<R: std::time::Clock, T, P: Printer> Control for Devices<'_, R, T, P> {
    fn listen(&mut self) -> Option<Order> {
        if !self.paced.may_answer() {
            return None;
        }
        let now = self.stopwatch.told();
        self.control.as_mut()?.listen(now)
    }

    fn answer(&mut self, core: NodeCore<'_>, now: u64, outcome: Option<Result<Line, WorldFault>>) {
        self.statistics.note_save(self.saves.longest());
        if !self.paced.may_answer() {
            return;
        }
        let Some(control) = &mut self.control else {
            return;
        };
        if control.is_connected() {
            let begun = Instant::now(self.rt).ok();
            let runs = self.printer.replays();
            control.answer(core, &self.statistics, runs, now, outcome);
            self.paced.answered(begun);
        }
    }
}

impl<R: std::time::Clock, T, P: Printer> Clock for Devices<'_, R, T, P> {
    /// The first reading is for the node's start, and the printer isn't told of it: no line goes out where the node doesn't start.
    fn now(&mut self) -> u64 {
        let now = self.stopwatch.now(self.rt);
        if !self.is_read {
            self.is_read = true;
            return now;
        }
        self.printer.pass(now);
        now
    }

    fn wait(&mut self, ms: u64) {
        self.paced.wait(ms);
    }
}

impl<R, T, P: Printer> Lines for Devices<'_, R, T, P> {
    fn print(&mut self, line: &Printed)
        ensures logs { LogsLine (⟦<Self as Outside>⟧.seen self.old)
            (⟦<Self as Outside>⟧.seen self.new) line.now }
        ensures counts { Counts ⟦<LineKind as Ord>⟧.cmp ⟦<Global as Memory>⟧.may_refuse
            self.old.statistics.tallies self.new.statistics.tallies (kind_of line.now) }
        ensures refuses { Counts ⟦<SiteRefusal as Ord>⟧.cmp ⟦<Global as Memory>⟧.may_refuse
            self.old.statistics.by_site self.new.statistics.by_site (refusal_in line.now) }
        ensures last_refusals { RefusesLine self.old.statistics.last_refusals.by_address
            self.new.statistics.last_refusals.by_address (refused_from line.now) }
        ensures hears { HearsLine router_cmp
            ⟦<Global as Memory>⟧.may_refuse self.old.statistics self.new.statistics
            (heard_in line.now (moment_of self.old.stopwatch.last)) }
    {
        let now = self.stopwatch.told();
        self.statistics.tell(line, now);
        self.printer.print(line, self.paced.mailbox.failure(), now);
    }

    fn is_cut(&self) -> bool {
        self.printer.is_cut()
    }
}
