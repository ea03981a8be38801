//! What a node did of itself, or made of a datagram.

ghost use Rattle.std.specs.Prelude.{◌≡◌, ◌↔◌, IsTrue};
ghost use Rattle.lisp_turns.specs.Act.{line_act};
ghost use Rattle.lisp_turns.specs.Due.{IsRefused};
ghost use Rattle.lisp_turns.specs.Serving.{answer_act};

use lisp_model::Line;
use lisp_records::{Addr, Bytes};
use std::marker::Model;

/// The line of an event, with 0 for the number of its datagram, and the message that goes out, to an address.
#[derive(Debug, Drop)]
pub struct Act {
    /// The line.
    pub line: Line,
    /// The message, where there is one.
    pub message: Option<(Addr, Bytes)>,
}

impl Model for Act {
    ghost use Rattle.lisp_turns.specs.Act.{ActValue};

    ghost Value = { ActValue };

    ghost view = { λ a. record { line = a.line; message = a.message } };
}

impl Act {
    /// The node was given bytes that came from an address, and its answer, if there is one, goes back there.
    pub(crate) fn answer(line: Line, from: Addr, reply: Option<Bytes>) -> Act
        ensures { result ≡ answer_act line from reply }
    {
        let message = match reply {
            Some(bytes) => Some((from, bytes)),
            None => None,
        };
        Act { line, message }
    }

    /// A line alone.
    pub(crate) fn line(line: Line) -> Act
        ensures { result ≡ line_act line }
    {
        Act {
            line,
            message: None,
        }
    }

    /// Whether the node refused.
    pub(crate) fn is_refused(&self) -> bool
        ensures { IsTrue result ↔ IsRefused self.now.line }
    {
        matches!(self.line, Line::Refused { .. })
    }
}
