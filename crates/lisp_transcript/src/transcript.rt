//! The lines of a capture, one after the other.

ghost use Rattle.std.specs.Prelude.{◌≡◌, IfOk, IfSome, OnErr};
ghost use Rattle.lisp_captures.specs.Header.{header_at};
ghost use Rattle.lisp_records.specs.Result.{Reads};
ghost use Rattle.lisp_transcript.specs.Line.{Fewer, GivesLine, begun, lines_of, opened, since};

use crate::line::line_text;
use lisp_captures::{Capture, CaptureFault};
use lisp_memory::Memory;
use lisp_policy::Sites;
use std::alloc::{AllocError, Allocator, Global};
use std::marker::Model;

/// The lines of a capture that are still to come.
#[derive(Debug, Drop)]
pub struct Transcript<'a, A: Allocator = Global> {
    capture: Capture<'a, A>,
    // When its first packet with a time was captured, once that came.
    start: Option<u64>,
}

impl<'a, A: Allocator> Model for Transcript<'a, A> {
    ghost use Rattle.lisp_captures.specs.Capture.{packets_of};
    ghost use Rattle.lisp_transcript.specs.Line.{TranscriptValue};

    ghost Value = { TranscriptValue };

    ghost view = { λ t. record { packets = packets_of t.capture; start = t.start } };
}

impl<'a, A: Memory + Copy> Transcript<'a, A> {
    /// The lines of the capture that a file's bytes are. Takes no memory.
    pub fn open(alloc: A, bytes: &'a [u8]) -> Result<Transcript<'a, A>, CaptureFault>
        ensures { Reads (λ t. t) result (opened (header_at bytes.now)) }
    {
        let capture = Capture::open(alloc, bytes)?;
        Ok(Transcript {
            capture,
            start: None,
        })
    }

    /// The line of the next packet, as `line_text` has it, by the secrets of sites, and so empty where the packet is of something else;
    /// `None` after the last packet. Out of memory, the line of a packet may be lost.
    #[tactic(auto, using(crate::proofs::Lines::shorter))]
    pub fn next_line<B: Allocator>(
        &mut self,
        alloc: A,
        sites: &Sites<B>,
    ) -> Result<Option<String<A>>, AllocError>
        ensures line { IfOk result
            (GivesLine (lines_of sites.now self.old) (lines_of sites.now self.new)) }
        ensures fewer { IfOk result
            (λ line. IfSome line (λ _. Fewer self.old.packets self.new.packets)) }
        ensures memory { OnErr result A.may_refuse }
    {
        let Some(packet) = self.capture.next()? else {
            return Ok(None);
        };
        self.start = begun(self.start, packet.at);
        let text = line_text(alloc, sites, since(self.start, packet.at), &packet)?;
        Ok(Some(text))
    }
}

/// When the capture began: at its first packet that has a time.
pub(crate) fn begun(start: Option<u64>, at: Option<u64>) -> Option<u64>
    ensures { result ≡ begun start at }
{
    match start {
        Some(start) => Some(start),
        None => at,
    }
}

/// How long after that a packet was captured.
pub(crate) fn since(start: Option<u64>, at: Option<u64>) -> Option<u64>
    ensures { result ≡ since start at }
{
    match (start, at) {
        (Some(start), Some(at)) => Some(at.saturating_sub(start)),
        (_, _) => None,
    }
}
