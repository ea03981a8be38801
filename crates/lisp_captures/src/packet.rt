//! The packets of a capture.

ghost use Rattle.std.specs.Prelude.{◌≡◌};
ghost use Rattle.lisp_captures.specs.Value.{packet_value};
ghost use Rattle.lisp_captures.specs.Capture.{packet_of, frame_seen};

use crate::datagram::{Datagram, Unread};
use crate::frame::Frame;

/// A packet of a capture.
#[derive(Clone, Copy, Debug, PartialEq, Eq)]
pub struct Packet<'a> {
    /// Its number in the capture, from 1 on.
    pub number: u64,
    /// When it was captured, in whole microseconds since 1970; `None` in a Simple Packet Block of pcapng, and where 64 bits
    /// don't hold it.
    pub at: Option<u64>,
    /// The UDP datagram that it carries, or why none is read.
    pub content: Result<Datagram<'a>, Unread>,
}

impl<'a> Packet<'a> {
    /// The packet of a number, by its frame or why it has none.
    pub(crate) fn new(number: u64, frame: Result<Frame<'a>, Unread>) -> Packet<'a>
        ensures { packet_value result ≡ packet_of number (frame_seen frame.entry) }
    {
        match frame {
            Ok(frame) => Packet {
                number,
                at: frame.at,
                content: frame.content(),
            },
            Err(why) => Packet {
                number,
                at: None,
                content: Err(why),
            },
        }
    }
}
