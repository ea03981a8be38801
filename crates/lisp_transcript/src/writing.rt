//! Writing the lines of a capture, or its schedule.

ghost use Rattle.std.specs.Prelude.{◌≡◌, IfErr, IsErrOf, OnOk};
ghost use Rattle.std.specs.Io.KnownBytes.{Appends};
ghost use Rattle.lisp_transcript.specs.Writing.{WritesLines, WritesSchedule, title};
ghost use Rattle.lisp_transcript.specs.Schedule.{entries_of};
ghost use Rattle.lisp_transcript.specs.declared.writing.WriteFault.TheVariants as faults;

use crate::schedule::Schedule;
use crate::transcript::Transcript;
use lisp_memory::Memory;
use lisp_policy::Sites;
use lisp_sites::Config;
use std::alloc::{AllocError, Allocator};
use std::io::Write;
use thiserror::Error;

// The first line of a schedule.
const TITLE: &str =
    "# What a capture brought to the nodes of this configuration, by lispd read. Packets have their numbers there.\n";

/// Why a capture isn't written out.
#[derive(Clone, Copy, Debug, PartialEq, Eq, Error)]
pub enum WriteFault {
    /// Out of memory for a line.
    #[error("out of memory: free some and try again")]
    OutOfMemory,
    /// The writer failed.
    #[error("standard output can't be written: check where the output goes")]
    Write,
}

impl From<AllocError> for WriteFault {
    ghost from_gives = { λ _ fault. fault ≡ faults.OutOfMemory };

    fn from(_error: AllocError) -> WriteFault {
        WriteFault::OutOfMemory
    }
}

/// Writes the lines of a capture that are still to come, by the secrets of sites. At a fault a front of them went out.
#[tactic(auto, using(crate::proofs::Written::steps))]
pub fn write_lines<A: Memory + Copy, B: Allocator, W: Write>(
    alloc: A,
    sites: &Sites<B>,
    transcript: &mut Transcript<'_, A>,
    writer: &mut W,
) -> Result<(), WriteFault>
    ensures lines { WritesLines result W.contents writer.old writer.new sites.now transcript.old }
    ensures memory { IsErrOf result faults.OutOfMemory → A.may_refuse }
{
    while let Some(line) = transcript.next_line(alloc, sites)? {
        print(line.as_str(), writer)?;
    }
    Ok(())
}

/// Writes a capture as a schedule for a configuration: a comment, and the entries that are still to come. At a fault a
/// front of them went out.
#[tactic(auto, using(crate::proofs::Written::both), unfolding(crate::specs::Writing::title))]
pub fn write_schedule<A: Memory + Copy, B: Allocator, W: Write>(
    alloc: A,
    config: &Config<B>,
    schedule: &mut Schedule<'_, A>,
    writer: &mut W,
) -> Result<(), WriteFault>
    ensures schedule { WritesSchedule result W.contents writer.old writer.new config.now
        schedule.old }
    ensures memory { IsErrOf result faults.OutOfMemory → A.may_refuse }
{
    print(TITLE, writer)?;
    write_entries(alloc, config, schedule, writer)
}

// Writes the entries of a schedule that are still to come.
#[tactic(auto, using(crate::proofs::Written::steps))]
fn write_entries<A: Memory + Copy, B: Allocator, W: Write>(
    alloc: A,
    config: &Config<B>,
    schedule: &mut Schedule<'_, A>,
    writer: &mut W,
) -> Result<(), WriteFault>
    ensures entries { OnOk result (Appends (W.contents writer.old) (W.contents writer.new)
        (entries_of config.now schedule.old)) }
    ensures memory { IsErrOf result faults.OutOfMemory → A.may_refuse }
{
    while let Some(entry) = schedule.next_entry(alloc, config)? {
        print(entry.as_str(), writer)?;
    }
    Ok(())
}

// Writes a text.
fn print<W: Write>(text: &str, writer: &mut W) -> Result<(), WriteFault>
    ensures text { OnOk result (Appends (W.contents writer.old) (W.contents writer.new) text.now) }
    ensures fault { IfErr result (λ fault. fault ≡ faults.Write) }
{
    match writer.write_all(text.as_bytes()) {
        Ok(()) => Ok(()),
        Err(_) => Err(WriteFault::Write),
    }
}
