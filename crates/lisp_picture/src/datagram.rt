//! The datagrams that are sent.

use crate::row::sign_of_line;
use lisp_model::{Event, Line};
use lisp_records::Addr;
use lisp_script::Command;
use lisp_sites::Config;
use std::alloc::Allocator;

/// What an unsolicited Map-Notify is called.
const NOTICE: &str = "notice";

/// A datagram that a node sent.
#[derive(Clone, Copy)]
pub(crate) struct Datagram {
    /// What its message is called (RFC 9301 sections 5.6, 5.7 and 8.2).
    pub(crate) name: &'static str,
    pub(crate) nonce: u64,
    /// The node that sent it.
    pub(crate) from: usize,
    /// The node that it is for; `None` where the configuration doesn't have it.
    pub(crate) to: Option<usize>,
    /// The place of the command that it was sent at, from 0 on.
    pub(crate) sent: usize,
    /// Whether it arrives, ever.
    pub(crate) arrives: bool,
}

impl Datagram {
    /// Whether it is for a node at the left of its sender.
    pub(crate) fn is_leftward(&self) -> bool {
        match self.to {
            Some(node) => node < self.from,
            None => false,
        }
    }
}

/// The datagram that was sent with the line of the command with a place, where one was.
pub(crate) fn datagram_of<E: Allocator>(
    config: &Config<E>,
    command: &Command<E>,
    line: &Line,
    place: usize,
    before: &[Datagram],
) -> Option<Datagram> {
    let to = match line {
        Line::Accepted { .. } => source(config, command, before),
        _ => named_node(line),
    };
    Some(Datagram {
        name: name_of(line)?,
        nonce: nonce_of(line, before),
        from: sign_of_line(line)?.0,
        to,
        sent: place,
        arrives: false,
    })
}

// What the message of a datagram that was sent with a line is called.
fn name_of(line: &Line) -> Option<&'static str> {
    match line {
        Line::Sent { .. } => Some("Map-Register"),
        Line::Accepted { datagram, .. } => datagram.is_some().then_some("Map-Notify"),
        Line::Notice { .. } | Line::Resent { .. } => Some(NOTICE),
        Line::Noticed { .. } => Some("Map-Notify-Ack"),
        _ => None,
    }
}

// The nonce of a message that was sent with a line.
fn nonce_of(line: &Line, before: &[Datagram]) -> u64 {
    match line {
        Line::Sent { nonce, .. }
        | Line::Accepted { nonce, .. }
        | Line::Notice { nonce, .. }
        | Line::Noticed { nonce, .. } => *nonce,
        Line::Resent { server, router, .. } => standing_nonce(before, *server, *router),
        _ => 0,
    }
}

// The node that a line names as the one that a message is for.
fn named_node(line: &Line) -> Option<usize> {
    match line {
        Line::Sent { server, .. } | Line::Noticed { server, .. } => Some(*server),
        Line::Notice { router, .. } | Line::Resent { router, .. } => Some(*router),
        _ => None,
    }
}

// The nonce of the notice that a Map-Server sent a router last; 0 where it sent none.
fn standing_nonce(datagrams: &[Datagram], server: usize, router: usize) -> u64 {
    let mut nonce = 0;
    for datagram in datagrams {
        if datagram.name == NOTICE && datagram.from == server && datagram.to == Some(router) {
            nonce = datagram.nonce;
        }
    }
    nonce
}

// The node that the bytes come from which a command lets arrive, by their source address.
fn source<E: Allocator>(
    config: &Config<E>,
    command: &Command<E>,
    before: &[Datagram],
) -> Option<usize> {
    match command {
        Command::Act(Event::Deliver { k, .. }) => Some(before.get(*k)?.from),
        Command::Act(Event::Junk { from, .. }) => node_at(config, from),
        _ => None,
    }
}

// The node with an address.
fn node_at<E: Allocator>(config: &Config<E>, address: &Addr) -> Option<usize> {
    let servers = config.servers();
    let routers = config.routers();
    if let Some(place) = servers.iter().position(|server| server.address == *address) {
        return Some(place);
    }
    let place = routers
        .iter()
        .position(|router| router.address == *address)?;
    servers.len().checked_add(place)
}
