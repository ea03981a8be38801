//! The datagrams of a node: its socket, and those that wait to be heard or answered.

ghost use Rattle.std.specs.Prelude.{◌≡◌, ◌≤◌, IfOk, IfSome, length};
ghost use Rattle.lisp_sites.specs.Numbers.{IsNode};
ghost use Rattle.lisp_udp.specs.Inbox.{answers_requests, IsInto, keeps_apart};

use crate::entry::entry_at;
use crate::inbox::{Inbox, inbox_at};
use crate::socket::NodeSocket;
use lisp_records::Addr;
use lisp_script::RunFault;
use lisp_sites::Config;
use lisp_turns::{Endpoint, Received, Request};
use std::io::ErrorKind;
use std::net::Net;

/// The socket of a node, and what waits of its datagrams.
#[derive(Drop)]
pub struct Mailbox {
    socket: NodeSocket,
    // None where each datagram is taken from the socket as it comes.
    inbox: Option<Inbox>,
}

impl Mailbox {
    /// That of the node with a number, whose turns take groups of so many datagrams, and whose socket waits so many ms for one. Faults: 97,
    /// 92.
    pub fn open<R: Net + AllocGlobal>(
        rt: &R,
        config: &Config,
        number: usize,
        places: u8,
        timeout_ms: u64,
    ) -> Result<Mailbox, RunFault>
        requires { IsNode config.now number }
        ensures { IfOk result (λ mailbox. keeps_apart mailbox.inbox
            ≡ answers_requests config.now number) }
    {
        let inbox = inbox_at(rt.alloc(), config, number, places)?;
        let socket = NodeSocket::bind(rt, entry_at(config, number).address, timeout_ms)?;
        Ok(Mailbox { socket, inbox })
    }

    /// Whether a Map-Request waits.
    pub fn is_asked(&self) -> bool {
        match &self.inbox {
            Some(inbox) => inbox.is_asked(),
            None => false,
        }
    }

    /// The next datagram that comes in so many ms, taken into `buffer`; with `None`, that waits already.
    pub fn receive(&mut self, ms: Option<u64>, buffer: &mut [u8]) -> Received
        ensures same { keeps_apart self.new.inbox ≡ keeps_apart self.old.inbox }
        ensures into { IsInto (keeps_apart self.old.inbox) buffer.old buffer.new result }
    {
        self.socket.set_receive_ms(ms);
        match &mut self.inbox {
            None => self.socket.receive(buffer),
            Some(inbox) => inbox.receive(&mut self.socket, buffer),
        }
    }

    /// The next datagram of a turn that waits already, taken into `buffer`.
    pub fn poll(&mut self, buffer: &mut [u8]) -> Received
        ensures same { keeps_apart self.new.inbox ≡ keeps_apart self.old.inbox }
        ensures into { IsInto (keeps_apart self.old.inbox) buffer.old buffer.new result }
    {
        match &mut self.inbox {
            None => self.socket.poll(buffer),
            Some(inbox) => inbox.poll(buffer),
        }
    }

    /// The next Map-Request of a turn, taken into `buffer`, if one waits.
    pub fn next_request(&mut self, buffer: &mut [u8]) -> Option<Request>
        ensures same { keeps_apart self.new.inbox ≡ keeps_apart self.old.inbox }
        ensures within { IfSome result (λ request. request.count ≤ length buffer.new) }
        ensures room { length buffer.new ≡ length buffer.old }
    {
        self.inbox.as_mut()?.next_request(buffer)
    }

    /// Sends a message to an address, UDP port 4342; whether the system took it.
    pub fn send(&mut self, to: &Addr, message: &[u8]) -> bool
        ensures { keeps_apart self.new.inbox ≡ keeps_apart self.old.inbox }
    {
        self.socket.send(to, message)
    }

    /// Sends a message to a UDP port of an address; whether the system took it.
    pub fn send_to(&mut self, to: &Addr, port: u16, message: &[u8]) -> bool
        ensures { keeps_apart self.new.inbox ≡ keeps_apart self.old.inbox }
    {
        self.socket.send_to(to, port, message)
    }

    /// The kind of the last error of a call of the socket that failed.
    pub fn failure(&self) -> Option<ErrorKind> {
        self.socket.failure()
    }
}
