//! What a command did, as a picture shows it.

use lisp_model::{Event, Line};
use lisp_nonces::Fate;
use lisp_script::Command;
use std::alloc::Allocator;

/// What happened to a node.
#[derive(Clone, Copy)]
pub(crate) enum Sign {
    /// It sent a message, took one, or does now what it was told.
    Done,
    /// It refused.
    Refused,
    /// It started again.
    Started,
    /// It is down.
    Down,
    /// It was asked.
    Asked,
}

impl Sign {
    /// The name of its drawing in an image, and the character that stands for it in a line of text.
    pub(crate) const fn drawing(self) -> (&'static str, u8) {
        match self {
            Sign::Done => ("done", b'o'),
            Sign::Refused => ("refused", b'X'),
            Sign::Started => ("started", b'='),
            Sign::Down => ("down", b'!'),
            Sign::Asked => ("asked", b'#'),
        }
    }
}

/// Where from bytes arrive.
#[derive(Clone, Copy)]
pub(crate) enum Arrival {
    /// A datagram that a node sent, by its number.
    Datagram(usize),
    /// Bytes from outside.
    Outside,
}

/// What a command did.
#[derive(Clone, Copy)]
pub(crate) struct Row {
    /// The node that something happened to, and what; `None` where it happened to none.
    pub(crate) sign: Option<(usize, Sign)>,
    /// The bytes that arrived, where some did.
    pub(crate) arrival: Option<Arrival>,
    /// The datagram that was sent, by its number.
    pub(crate) sends: Option<usize>,
    /// The moment, in ms, where time passed.
    pub(crate) now: Option<u64>,
    /// What became of the store's calls.
    pub(crate) fate: Fate,
}

/// What a command did, by the line of its event, where it is one that was taken.
pub(crate) fn row_of<A: Allocator>(command: &Command<A>, line: Option<&Line>) -> Row {
    Row {
        sign: sign_of(command, line),
        arrival: arrival_of(command, line),
        sends: sends(line),
        now: match line {
            Some(Line::Ticked { now, .. }) => Some(*now),
            _ => None,
        },
        fate: fate(command),
    }
}

fn sign_of<A: Allocator>(command: &Command<A>, line: Option<&Line>) -> Option<(usize, Sign)> {
    match command {
        Command::Act(_) => sign_of_line(line?),
        Command::Hold(node)
        | Command::Acks(node)
        | Command::Due(node)
        | Command::Ask { server: node, .. }
        | Command::Request { server: node, .. } => Some((*node, Sign::Asked)),
    }
}

/// What happened to a node, by the line of an event: to the one that sent a message, where one was sent.
pub(crate) fn sign_of_line(line: &Line) -> Option<(usize, Sign)> {
    match line {
        Line::Changed { router: node, .. }
        | Line::Sent { router: node, .. }
        | Line::Accepted { server: node, .. }
        | Line::Done { server: node, .. }
        | Line::Counted { router: node, .. }
        | Line::Noticed { router: node, .. }
        | Line::Rotated { router: node, .. }
        | Line::Notice { server: node, .. }
        | Line::Resent { server: node, .. }
        | Line::Reloaded { server: node, .. } => Some((*node, Sign::Done)),
        Line::Restarted { node }
        | Line::Emptied { router: node, .. }
        | Line::Renewed { server: node, .. } => Some((*node, Sign::Started)),
        Line::Down { router } => Some((*router, Sign::Down)),
        Line::Refused { node, .. } => Some((*node, Sign::Refused)),
        Line::Nowhere { .. } | Line::Ticked { .. } => None,
    }
}

fn arrival_of<A: Allocator>(command: &Command<A>, line: Option<&Line>) -> Option<Arrival> {
    line?;
    match command {
        Command::Act(Event::Deliver { k, .. }) => Some(Arrival::Datagram(*k)),
        Command::Act(Event::Junk { .. }) => Some(Arrival::Outside),
        _ => None,
    }
}

fn sends(line: Option<&Line>) -> Option<usize> {
    match line? {
        Line::Sent { datagram, .. }
        | Line::Noticed { datagram, .. }
        | Line::Notice { datagram, .. }
        | Line::Resent { datagram, .. } => Some(*datagram),
        Line::Accepted { datagram, .. } => *datagram,
        _ => None,
    }
}

fn fate<A: Allocator>(command: &Command<A>) -> Fate {
    match command {
        Command::Act(
            Event::Send { fate, .. }
            | Event::Deliver { fate, .. }
            | Event::Rotate { fate, .. }
            | Event::Notice { fate, .. },
        ) => *fate,
        _ => Fate::Done,
    }
}
