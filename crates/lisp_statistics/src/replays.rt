//! The runs of Map-Registers that a Map-Server refuses as replays.

ghost use Rattle.std.specs.Prelude.{◌≡◌, OnErr};
ghost use Rattle.std.specs.List.{flat_map};
ghost use Rattle.lisp_lines.specs.Front.{Adds};
ghost use Rattle.lisp_log.specs.Text.{replay_text};
ghost use Rattle.lisp_statistics.specs.Replays.{replay_count, run_text};

use lisp_log::{Replay, replay_text};
use lisp_memory::{FallibleString, Memory};
use std::alloc::AllocError;

/// How many of these runs are three minutes long, and go on at a moment, in ms.
pub fn count_replays(runs: &[Replay], now: u64) -> u64
    ensures { result ≡ replay_count now runs.now }
{
    runs.iter().filter(|run| run.lasts(now)).count() as u64
}

/// Appends a line for each of these runs of the Map-Server with a name, as at a moment, in ms: the one
/// by which the Map-Server tells it. Out of memory, it may leave a part of them.
pub(crate) fn put_replays<A: Memory + Copy>(
    alloc: A,
    text: &mut String<A>,
    name: &str,
    runs: &[Replay],
    now: u64,
) -> Result<(), AllocError>
    ensures text { Adds result text.old text.new (flat_map (run_text name.now now) runs.now) }
    ensures memory { OnErr result A.may_refuse }
{
    for run in runs {
        let line = replay_text(alloc, name, run, now)?;
        text.try_write(line.as_str())?;
    }
    Ok(())
}
