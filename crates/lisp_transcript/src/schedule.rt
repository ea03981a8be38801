//! The schedule of a capture, entry by entry.

ghost use Rattle.std.specs.Prelude.{◌≡◌, IfOk, IfSome, OnErr};
ghost use Rattle.lisp_captures.specs.Header.{header_at};
ghost use Rattle.lisp_captures.specs.Value.{content_value};
ghost use Rattle.lisp_records.specs.Result.{Reads};
ghost use Rattle.lisp_transcript.specs.Line.{Fewer, GivesLine};
ghost use Rattle.lisp_transcript.specs.Schedule.{entries_of, in_ms, later, passed, schedule_opened};

use crate::entry::entry_text;
use crate::line::is_control;
use crate::transcript::{begun, since};
use lisp_captures::{Capture, CaptureFault, Datagram, Unread};
use lisp_memory::Memory;
use lisp_sites::Config;
use std::alloc::{AllocError, Allocator, Global};
use std::marker::Model;

/// The entries of a capture's schedule that are still to come: what its datagrams are to the nodes of a configuration.
#[derive(Debug, Drop)]
pub struct Schedule<'a, A: Allocator = Global> {
    capture: Capture<'a, A>,
    // When its first packet with a time was captured, once that came.
    start: Option<u64>,
    // How many ms passed from then to the last datagram.
    ms: u64,
}

impl<'a, A: Allocator> Model for Schedule<'a, A> {
    ghost use Rattle.lisp_captures.specs.Capture.{packets_of};
    ghost use Rattle.lisp_transcript.specs.Schedule.{ScheduleValue};

    ghost Value = { ScheduleValue };

    ghost view = { λ s. record { packets = packets_of s.capture; start = s.start; ms = s.ms } };
}

impl<'a, A: Memory + Copy> Schedule<'a, A> {
    /// The schedule of the capture that a file's bytes are. Takes no memory.
    pub fn open(alloc: A, bytes: &'a [u8]) -> Result<Schedule<'a, A>, CaptureFault>
        ensures { Reads (λ s. s) result (schedule_opened (header_at bytes.now)) }
    {
        let capture = Capture::open(alloc, bytes)?;
        Ok(Schedule {
            capture,
            start: None,
            ms: 0,
        })
    }

    /// What the next packet is in the schedule; `None` after the last. A datagram to a node of the configuration is a comment with its
    /// number, `tick` with the whole ms since the datagram before where there are some, and `junk` with the node, from where it came, and
    /// its bytes. One to no node, and a packet that isn't read, are a comment. What else the capture has is nothing. Out of memory, an entry
    /// may be lost.
    #[tactic(auto, using(crate::proofs::Lines::shorter))]
    pub fn next_entry<B: Allocator>(
        &mut self,
        alloc: A,
        config: &Config<B>,
    ) -> Result<Option<String<A>>, AllocError>
        ensures entry { IfOk result
            (GivesLine (entries_of config.now self.old) (entries_of config.now self.new)) }
        ensures fewer { IfOk result
            (λ entry. IfSome entry (λ _. Fewer self.old.packets self.new.packets)) }
        ensures memory { OnErr result A.may_refuse }
    {
        let Some(packet) = self.capture.next()? else {
            return Ok(None);
        };
        self.start = begun(self.start, packet.at);
        let now = in_ms(since(self.start, packet.at));
        let text = entry_text(alloc, config, self.ms, now, &packet)?;
        self.ms = passed(self.ms, now, &packet.content);
        Ok(Some(text))
    }
}

// Whole ms of microseconds.
fn in_ms(us: Option<u64>) -> u64
    ensures { result ≡ in_ms us }
{
    match us {
        Some(us) => us / 1_000,
        None => 0,
    }
}

// How many ms have passed behind a packet.
fn passed(ms: u64, now: u64, content: &Result<Datagram<'_>, Unread>) -> u64
    ensures { result ≡ passed ms now (content_value content.now) }
{
    match content {
        Ok(datagram) => {
            if is_control(datagram) {
                later(ms, now)
            } else {
                ms
            }
        }
        Err(_) => ms,
    }
}

// The later of two times.
fn later(ms: u64, now: u64) -> u64
    ensures { result ≡ later ms now }
{
    if ms < now { now } else { ms }
}
