//! The datagrams of a node that answers its user between them.

ghost use Rattle.std.specs.Prelude.{◌≡◌, IfOk};
ghost use Rattle.lisp_sites.specs.Numbers.{IsNode};
ghost use Rattle.lisp_udp.specs.Inbox.{answers_requests, IsInto, keeps_apart};

use crate::mailbox::Mailbox;
use crate::pace::Pace;
use crate::stopwatch::us_between;
use lisp_script::RunFault;
use lisp_sites::Config;
use lisp_turns::Received;
use std::net::Net;
use std::thread;
use std::time::{Clock, Duration, Instant};

/// How long a turn of a node waits for a datagram, in ms.
const RECEIVE_TIMEOUT_MS: u64 = 100;

/// How long it waits, while somebody asks, for a datagram that is to follow soon: the system rounds it up to some ms.
const BUSY_TIMEOUT_MS: u64 = 1;

/// How long it rests, while somebody asks, where none is: in us.
const BUSY_REST_US: u64 = 200;

const US_PER_MS: u64 = 1_000;

/// The datagrams of a node, and what it owes since it answered its user. Of what the system makes of its calls nothing is known.
#[derive(Drop)]
pub struct PacedMailbox<'a, R> {
    rt: &'a R,
    /// The datagrams.
    pub mailbox: Mailbox,
    pace: Pace,
    // Since when it takes the datagrams of this turn, while somebody asks; its answer left out.
    works_since: Option<Instant>,
}

impl<'a, R: Net + Clock + AllocGlobal> PacedMailbox<'a, R> {
    /// Those of the node with a number, whose turns take groups of so many. Faults: 97, 92.
    pub fn open(
        rt: &'a R,
        config: &Config,
        number: usize,
        places: u8,
    ) -> Result<PacedMailbox<'a, R>, RunFault>
        requires { IsNode config.now number }
        ensures { IfOk result (λ paced. keeps_apart paced.mailbox.inbox
            ≡ answers_requests config.now number) }
    {
        Ok(PacedMailbox {
            rt,
            mailbox: Mailbox::open(rt, config, number, places, RECEIVE_TIMEOUT_MS)?,
            pace: Pace::start(),
            works_since: None,
        })
    }
}

impl<R: Clock> PacedMailbox<'_, R> {
    /// The next datagram of a turn while nobody asks, taken into `buffer`.
    pub fn receive(&mut self, buffer: &mut [u8]) -> Received
        ensures same { keeps_apart self.new.mailbox.inbox ≡ keeps_apart self.old.mailbox.inbox }
        ensures into { IsInto (keeps_apart self.old.mailbox.inbox) buffer.old buffer.new result }
    {
        self.pace = Pace::start();
        self.works_since = None;
        self.mailbox.receive(Some(RECEIVE_TIMEOUT_MS), buffer)
    }

    /// The next datagram while somebody asks. The time of the last turn's work, and of a rest, is taken off what the node owes.
    pub fn receive_paced(&mut self, buffer: &mut [u8]) -> Received
        ensures same { keeps_apart self.new.mailbox.inbox ≡ keeps_apart self.old.mailbox.inbox }
        ensures into { IsInto (keeps_apart self.old.mailbox.inbox) buffer.old buffer.new result }
    {
        let mut begun = Instant::now(self.rt).ok();
        self.pace
            .work(us_between(self.works_since.take(), begun).unwrap_or(0));
        let mut received = self.mailbox.receive(None, buffer);
        if received == Received::Nothing && !self.mailbox.is_asked() {
            received = self.rest(buffer);
            begun = self.rested(begun);
        }
        if self.has_work(received) {
            self.pace.hear();
            self.works_since = begun;
        }
        received
    }

    // No datagram waits while somebody asks: waits for one that follows soon, or rests.
    fn rest(&mut self, buffer: &mut [u8]) -> Received
        ensures same { keeps_apart self.new.mailbox.inbox ≡ keeps_apart self.old.mailbox.inbox }
        ensures into { IsInto (keeps_apart self.old.mailbox.inbox) buffer.old buffer.new result }
    {
        if self.pace.awaits_next() {
            return self.mailbox.receive(Some(BUSY_TIMEOUT_MS), buffer);
        }
        let _ = thread::sleep(self.rt, Duration::from_micros(BUSY_REST_US));
        Received::Nothing
    }

    // It rested since a moment; what moment it is now.
    fn rested(&mut self, begun: Option<Instant>) -> Option<Instant>
        ensures { self.new.mailbox ≡ self.old.mailbox }
    {
        let rested = Instant::now(self.rt).ok();
        self.pace
            .rest(us_between(begun, rested).unwrap_or(BUSY_REST_US));
        rested
    }

    // Whether this turn has a datagram or a Map-Request.
    fn has_work(&self, received: Received) -> bool {
        match received {
            Received::Datagram { .. } => true,
            _ => self.mailbox.is_asked(),
        }
    }

    /// Waits so many ms.
    pub fn wait(&mut self, ms: u64)
        ensures { self.new.mailbox ≡ self.old.mailbox }
    {
        let _ = thread::sleep(self.rt, Duration::from_millis(ms));
        self.pace.rest(ms.saturating_mul(US_PER_MS));
    }

    /// Whether the node answers its user in this turn.
    pub fn may_answer(&self) -> bool {
        self.pace.may_answer()
    }

    /// It answered its user, since a moment.
    pub fn answered(&mut self, begun: Option<Instant>)
        ensures { self.new.mailbox ≡ self.old.mailbox }
    {
        let ended = Instant::now(self.rt).ok();
        self.pace.answer(us_between(begun, ended).unwrap_or(0));
        if self.works_since.is_some() {
            self.works_since = ended;
        }
    }
}
