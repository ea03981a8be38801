//! What no crash leaves of a log.

ghost use Rattle.std.specs.Prelude.{◌↔◌, ◌⊎◌, ◌+◌, ◌<◌, ◌≤◌, ℕ, length, IsTrue};
ghost use Rattle.sqlite_wal.specs.Format.{IsSigned};
ghost use Rattle.sqlite_wal.specs.Recovery.{header, frame_at};
ghost use Rattle.lisp_database_log.specs.Log.{AreTwoEnds, Commits, GoesOn, IsDamaged, IsFront, LosesTwo, page_bytes};

use crate::frame::{commits, frame_count, goes_on};
use crate::header::{HEADER_BYTES, header, is_broken, is_signed};

/// Whether the bytes of a log are what no crash leaves: a header that says it is whole, and isn't; or, behind the front that SQLite
/// reads, the ends of two transactions of this log in frames that go on from each other, where a crash leaves a part of one. Pages have
/// 4,096 bytes. Damage behind which no two such ends stand, as in the last transaction, isn't told from a crash.
pub fn is_damaged(log: &[u8]) -> bool
    ensures { IsTrue result ↔ IsDamaged log.now }
{
    is_broken(log) || loses_two(log, front(log))
}

// How many frames SQLite may read.
fn front(log: &[u8]) -> usize
    ensures { IsFront log.now result }
{
    if log.len() < HEADER_BYTES || !is_signed(header(log)) {
        return 0;
    }
    going_on(log)
}

// The first frame that doesn't go on from the one before.
fn going_on(log: &[u8]) -> usize
    ensures before { (i : ℕ) → i < result → GoesOn log.now i }
    ensures ends { GoesOn log.now result → ⊥ }
{
    let count = frame_count(log);
    for number in 0..count {
        if !goes_on(log, number) {
            return number;
        }
    }
    count
}

// Whether the ends of two transactions are behind the front, in frames that go on from each other.
fn loses_two(log: &[u8], front: usize) -> bool
    ensures { IsTrue result ↔ LosesTwo log.now front }
{
    let mut has_end = false;
    for number in front..frame_count(log) {
        if is_second(log, number, has_end) {
            return true;
        }
        has_end = leads_on(log, number, has_end);
    }
    false
}

// Whether the frame with a number ends a second transaction, where an end before it goes on to it.
fn is_second(log: &[u8], number: usize, has_end: bool) -> bool
    requires { frame_at page_bytes number + (24 + page_bytes) ≤ length log.now }
    ensures { IsTrue result ↔ (IsTrue has_end × GoesOn log.now number × Commits log.now number) }
{
    has_end && goes_on(log, number) && commits(log, number)
}

// Whether an end goes on behind the frame with a number: its own, or one before it that goes on to it.
fn leads_on(log: &[u8], number: usize, has_end: bool) -> bool
    requires { frame_at page_bytes number + (24 + page_bytes) ≤ length log.now }
    ensures { IsTrue result ↔ (Commits log.now number ⊎ (IsTrue has_end × GoesOn log.now number)) }
{
    commits(log, number) || (has_end && goes_on(log, number))
}
