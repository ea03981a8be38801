//! The datagrams of a node that wait to be heard or answered.

ghost use Rattle.std.specs.Prelude.{◌≡◌, ◌≤◌, [], length, IfOk, IfSome, OnErr};
ghost use Rattle.lisp_sites.specs.Numbers.{IsNode};
ghost use Rattle.lisp_udp.specs.Inbox.{answers_requests, first_sources, Grows, HearsFirst, HearsGrown, IsInto, KeepsRest, SharesAsked, heard_kind, keeps_apart, leaves_requests, sources_after, TakesAsked, TakesHeard};

use crate::entry::entry_at;
use crate::socket::NodeSocket;
use lisp_memory::Memory;
use lisp_queue::{Incoming, Kind, Queue};
use lisp_sites::Config;
use lisp_turns::{Received, Request};
use std::alloc::{AllocError, Global};

/// The most datagrams that are taken from a socket at once, as a turn begins.
const MOST_AT_FIRST: usize = 2_048;

/// The datagrams of a node that wait, in the order in which its turns take them.
#[derive(Drop)]
pub struct Inbox {
    // Those that its core hears.
    heard: Queue,
    // Map-Requests; None where the node answers none, so that its core hears them as any datagram.
    asked: Option<Queue>,
}

/// What waits for the node with a number, whose turns hear so many datagrams at most. `None` where it takes each from the socket
/// as it comes: one a turn, and none apart.
pub fn inbox_at(
    alloc: Global,
    config: &Config,
    number: usize,
    places: u8,
) -> Result<Option<Inbox>, AllocError>
    requires { IsNode config.now number }
    ensures apart { IfOk result (λ inbox. keeps_apart inbox ≡ answers_requests config.now number) }
    ensures memory { OnErr result ⟦<Global as Memory>⟧.may_refuse }
{
    let is_asked = !entry_at(config, number).resolve.is_empty();
    if places == 1 && !is_asked {
        return Ok(None);
    }
    Ok(Some(Inbox::new(alloc, places, is_asked)?))
}

impl Inbox {
    // For turns that hear so many datagrams at most, and where `is_asked` answer as many Map-Requests. Takes all memory but that of the
    // datagrams' bytes.
    fn new(alloc: Global, places: u8, is_asked: bool) -> Result<Inbox, AllocError>
        ensures heard { IfOk result (λ i. i.heard
            ≡ record { kind = heard_kind is_asked; waiting = []; taken = []; places = places }) }
        ensures memory { OnErr result ⟦<Global as Memory>⟧.may_refuse }
    {
        if !is_asked {
            return Ok(Inbox {
                heard: Queue::new(alloc, Kind::All, places)?,
                asked: None,
            });
        }
        Ok(Inbox {
            heard: Queue::new(alloc, Kind::Others, places)?,
            asked: Some(Queue::new(alloc, Kind::Requests, places)?),
        })
    }

    /// A turn begins: the first datagram that its core hears, taken into `buffer`. Where nothing waits, the socket waits for a datagram.
    /// What waits in the socket by then waits here.
    pub fn receive(&mut self, socket: &mut NodeSocket, buffer: &mut [u8]) -> Received
        ensures takes { HearsFirst self.old.heard self.new.heard buffer.new result }
        ensures shares { self.new.heard.taken ≡ first_sources self.old.heard result }
        ensures rest { KeepsRest self.old.heard self.new.heard }
        ensures into { IsInto (leaves_requests self.old.heard.kind) buffer.old buffer.new result }
    {
        self.begin();
        let is_failed = self.fill(socket, buffer);
        let is_asked = self.is_asked();
        match self.poll(buffer) {
            Received::Nothing if is_failed => Received::Failed,
            Received::Nothing if !is_asked => self.wait(socket, buffer),
            received => received,
        }
    }

    /// The next datagram of the turn, taken into `buffer`; `Nothing` where none waits here.
    pub fn poll(&mut self, buffer: &mut [u8]) -> Received
        ensures takes { TakesHeard self.old.heard self.new.heard buffer.new result }
        ensures shares { self.new.heard.taken ≡ sources_after self.old.heard result }
        ensures rest { KeepsRest self.old.heard self.new.heard }
        ensures into { IsInto (leaves_requests self.old.heard.kind) buffer.old buffer.new result }
    {
        // Nothing more is taken from the socket: the turn read its clock since `receive`, and what it hears was sent before.
        match self.heard.next_into(buffer) {
            Some(Incoming { from, count, .. }) => Received::Datagram { from, count },
            None => Received::Nothing,
        }
    }

    /// The next Map-Request of the turn, taken into `buffer`, if one waits.
    pub fn next_request(&mut self, buffer: &mut [u8]) -> Option<Request>
        ensures takes { TakesAsked self.old.asked self.new.asked buffer.new result }
        ensures shares { SharesAsked self.old.asked self.new.asked result }
        ensures heard { self.new.heard ≡ self.old.heard }
        ensures within { IfSome result (λ request. request.count ≤ length buffer.new) }
        ensures room { length buffer.new ≡ length buffer.old }
    {
        let Incoming { from, port, count } = self.asked.as_mut()?.next_into(buffer)?;
        Some(Request { from, port, count })
    }

    /// Whether a Map-Request waits.
    pub fn is_asked(&self) -> bool {
        match &self.asked {
            Some(asked) => !asked.is_empty(),
            None => false,
        }
    }

    // A turn took nothing yet.
    fn begin(&mut self)
        ensures { self.new.heard ≡ record self.old.heard { taken = [] } }
    {
        self.heard.begin();
        if let Some(asked) = &mut self.asked {
            asked.begin();
        }
    }

    // What waits in the socket waits here then, as far as there is room. Whether the socket failed.
    fn fill(&mut self, socket: &mut NodeSocket, buffer: &mut [u8]) -> bool
        ensures grows { Grows self.old.heard self.new.heard }
        ensures shares { self.new.heard.taken ≡ self.old.heard.taken }
        ensures rest { KeepsRest self.old.heard self.new.heard }
        ensures room { length buffer.new ≡ length buffer.old }
    {
        for _ in 0..MOST_AT_FIRST {
            match socket.take(buffer, None) {
                Ok(Some(incoming)) => self.offer(&incoming, buffer),
                Ok(None) => return false,
                Err(_) => return true,
            }
        }
        false
    }

    // A datagram in a buffer waits where it belongs, if there is room.
    fn offer(&mut self, incoming: &Incoming, buffer: &[u8])
        requires { incoming.now.count ≤ length buffer.now }
        ensures grows { Grows self.old.heard self.new.heard }
        ensures shares { self.new.heard.taken ≡ self.old.heard.taken }
        ensures rest { KeepsRest self.old.heard self.new.heard }
    {
        let bytes = &buffer[..incoming.count];
        self.heard.offer(incoming.from, incoming.port, bytes);
        if let Some(asked) = &mut self.asked {
            asked.offer(incoming.from, incoming.port, bytes);
        }
    }

    // Where nothing waits, the next datagram that comes to the socket, in its time limit; what waits there by then waits here.
    fn wait(&mut self, socket: &mut NodeSocket, buffer: &mut [u8]) -> Received
        requires { self.old.heard.waiting ≡ [] }
        ensures takes { HearsGrown self.old.heard self.new.heard buffer.new result }
        ensures shares { self.new.heard.taken ≡ sources_after self.old.heard result }
        ensures rest { KeepsRest self.old.heard self.new.heard }
        ensures into { IsInto (leaves_requests self.old.heard.kind) buffer.old buffer.new result }
    {
        match socket.take_in_time(buffer) {
            Ok(Some(incoming)) => {
                self.offer(&incoming, buffer);
                self.fill(socket, buffer);
                self.poll(buffer)
            }
            Ok(None) => Received::Nothing,
            Err(_) => Received::Failed,
        }
    }
}
