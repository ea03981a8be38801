//! The frames of a log.

ghost use Rattle.std.specs.Prelude.{◌≡◌, ◌↔◌, ◌+◌, ◌<◌, ◌≤◌, length, IsTrue};
ghost use Rattle.sqlite_wal.specs.Format.{part, be32, is_big, content, frame_sum, IsFrame};
ghost use Rattle.sqlite_wal.specs.Recovery.{header, frame, frame_at, sum_before};
ghost use Rattle.lisp_database_log.specs.Log.{Commits, GoesOn, page_bytes};

use crate::bytes::{number, part, stored_sum};
use crate::header::{HEADER_BYTES, header, is_big};
use sqlite_wal::checksum_of;

/// The bytes of a frame's header, and of a frame.
const FRAME_HEADER_BYTES: usize = 24;

const FRAME_BYTES: usize = FRAME_HEADER_BYTES + 4_096;

/// How many whole frames a log has.
pub(crate) fn frame_count(log: &[u8]) -> usize
    ensures { (i : _) → i < result ↔ (frame_at page_bytes i + (24 + page_bytes) ≤ length log.now) }
{
    log.len().saturating_sub(HEADER_BYTES) / FRAME_BYTES
}

/// The frame with a number, from 0 on.
#[tactic(auto, unfolding(sqlite_wal::specs::Recovery::frames_len))]
pub(crate) fn frame(log: &[u8], number: usize) -> &[u8]
    requires { frame_at page_bytes number + (24 + page_bytes) ≤ length log.now }
    ensures frame { result.now ≡ frame page_bytes log.now number }
    ensures length { length result.now ≡ 24 + page_bytes }
{
    part(log, HEADER_BYTES + number * FRAME_BYTES, FRAME_BYTES)
}

/// Whether the frame with a number goes on from the one before.
pub(crate) fn goes_on(log: &[u8], number: usize) -> bool
    requires { frame_at page_bytes number + (24 + page_bytes) ≤ length log.now }
    ensures { IsTrue result ↔ GoesOn log.now number }
{
    passes(header(log), sum_before(log, number), frame(log, number))
}

/// Whether the frame with a number ends a transaction of this log.
pub(crate) fn commits(log: &[u8], number: usize) -> bool
    requires { frame_at page_bytes number + (24 + page_bytes) ≤ length log.now }
    ensures { IsTrue result ↔ Commits log.now number }
{
    let frame = frame(log, number);
    has_salt(header(log), frame) && size(frame) != 0
}

// The checksum that a frame goes on from: that of the frame before, and of the first one that of the header.
fn sum_before(log: &[u8], number: usize) -> (u32, u32)
    requires { frame_at page_bytes number + (24 + page_bytes) ≤ length log.now }
    ensures { result ≡ sum_before page_bytes log.now number }
{
    match number.checked_sub(1) {
        Some(before) => stored_sum(frame(log, before), 16),
        None => stored_sum(header(log), 24),
    }
}

// Whether a frame is one of the log with this header, and its checksum goes on from the one before.
fn passes(header: &[u8], before: (u32, u32), frame: &[u8]) -> bool
    requires header { length header.now ≡ 32 }
    requires frame { length frame.now ≡ 24 + page_bytes }
    ensures { IsTrue result ↔ IsFrame header.now before frame.now }
{
    has_salt(header, frame)
        && number(frame, 0) != 0
        && sum_of(header, before, frame) == stored_sum(frame, 16)
}

// Whether a frame has the salt of a header.
fn has_salt(header: &[u8], frame: &[u8]) -> bool
    requires header { length header.now ≡ 32 }
    requires frame { length frame.now ≡ 24 + page_bytes }
    ensures { IsTrue result ↔ (part frame.now 8 8 ≡ part header.now 16 8) }
{
    part(frame, 8, 8) == part(header, 16, 8)
}

// The size of the database after a frame that ends a transaction; 0 in any other.
fn size(frame: &[u8]) -> u32
    requires { length frame.now ≡ 24 + page_bytes }
    ensures { result ≡ be32 frame.now 4 }
{
    number(frame, 4)
}

// The checksum of a frame, behind that of the one before.
fn sum_of(header: &[u8], before: (u32, u32), frame: &[u8]) -> (u32, u32)
    requires header { length header.now ≡ 32 }
    requires frame { length frame.now ≡ 24 + page_bytes }
    ensures { result ≡ frame_sum (is_big header.now) before frame.now }
{
    let is_big = is_big(header);
    let front = checksum_of(is_big, before, part(frame, 0, 8));
    checksum_of(is_big, front, content(frame))
}

// The page of a frame.
fn content(frame: &[u8]) -> &[u8]
    requires { length frame.now ≡ 24 + page_bytes }
    ensures { result.now ≡ content frame.now }
{
    &frame[FRAME_HEADER_BYTES..]
}
