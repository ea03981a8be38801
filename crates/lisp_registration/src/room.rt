//! What is looked at before a Map-Server or a router is asked: an address, room in a buffer, and a time.

ghost use Rattle.std.specs.Prelude.{◌≡◌, ◌≤◌, IfOk};
ghost use Rattle.lisp_records.specs.Moment.{max_moment};
ghost use Rattle.lisp_registration.specs.Handle.{in_time, ready, source_of};

use crate::address::PlainAddress;
use crate::fault::HandleFault;
use crate::items::Says;
use lisp_records::{Addr, MAX_MOMENT};

/// The most bytes of a message that a Map-Server or a router makes: 16,384 of its records, 32 before them, and 24 behind
/// those of a Map-Register, its xTR-ID and Site-ID.
pub(crate) const MESSAGE_ROOM: usize = 16_440;

/// Whether a message can be made at a time, in ms. Faults: `Room` where the buffer has no room for every message, `Clock`.
pub(crate) fn ready(buffer: &[u8], now: u64) -> Result<(), HandleFault>
    ensures value { result ≡ ready buffer.now now }
    ensures in_time { IfOk result (λ _. now ≤ max_moment) }
{
    if buffer.len() < MESSAGE_ROOM {
        return Err(HandleFault::Room);
    }
    in_time(now)
}

/// Where a datagram came from. Faults: `Field` where that is no address, `Room` where the buffer has less room than the datagram
/// has bytes.
pub(crate) fn source(from: &PlainAddress, bytes: &[u8], buffer: &[u8]) -> Result<Addr, HandleFault>
    ensures { result ≡ source_of from.now bytes.now buffer.now }
{
    let Some(from) = from.said() else {
        return Err(HandleFault::Field);
    };
    if bytes.len() > buffer.len() {
        return Err(HandleFault::Room);
    }
    Ok(from)
}

/// Whether a time, in ms, is one that a core is asked at. Fault: `Clock`.
pub(crate) fn in_time(now: u64) -> Result<(), HandleFault>
    ensures value { result ≡ in_time now }
    ensures in_time { IfOk result (λ _. now ≤ max_moment) }
{
    if now > MAX_MOMENT {
        return Err(HandleFault::Clock);
    }
    Ok(())
}
