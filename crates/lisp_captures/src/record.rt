//! The header and the records of a pcap file (draft-ietf-opsawg-pcap sections 4 and 5).

ghost use Rattle.std.specs.Prelude.{◌≡◌, ◌<◌, ◌≤◌, length, IfOk};
ghost use Rattle.lisp_records.specs.Result.{Reads};
ghost use Rattle.lisp_captures.specs.Value.{frame_value};
ghost use Rattle.lisp_captures.specs.Record.{record_at, ticks_at};

use crate::datagram::Unread;
use crate::frame::Frame;
use crate::interface::{Interface, MICROSECONDS};
use crate::moment::moment;
use crate::numbers::{ByteOrder, u32_at};

// The bytes of a record before its packet, and where the fields among them stand.
const HEAD_LEN: usize = 16;

const SECONDS_AT: usize = 0;

const FRACTION_AT: usize = 4;

const CAPTURED_AT: usize = 8;

const ORIGINAL_AT: usize = 12;

/// The frame of the record that the bytes begin with, and the bytes after it.
#[tactic(auto, unfolding(crate::specs::Record::record_at))]
pub(crate) fn read_record(
    order: ByteOrder,
    interface: Interface,
    bytes: &[u8],
) -> Result<(Frame<'_>, &[u8]), Unread>
    ensures read { Reads (λ x. (frame_value x.0, x.1.now)) result
        (record_at order interface bytes.now) }
    ensures shorter { IfOk result (λ x. length x.1.now < length bytes.now) }
{
    if bytes.len() < HEAD_LEN {
        return Err(Unread::Truncated);
    }
    let (_, body) = bytes.split_at(HEAD_LEN);
    let captured = u32_at(order, bytes, CAPTURED_AT);
    if captured as usize > body.len() {
        return Err(Unread::Truncated);
    }
    let (data, rest) = body.split_at(captured as usize);
    let frame = Frame {
        link: interface.link,
        at: moment(
            interface.resolution,
            ticks(order, interface.resolution, bytes),
        ),
        is_cut: captured < u32_at(order, bytes, ORIGINAL_AT),
        bytes: data,
    };
    Ok((frame, rest))
}

// The ticks of a record: seconds, and microseconds or nanoseconds.
fn ticks(order: ByteOrder, resolution: u8, bytes: &[u8]) -> u64
    requires { 8 ≤ length bytes.now }
    ensures { result ≡ ticks_at order resolution bytes.now }
{
    let seconds = u64::from(u32_at(order, bytes, SECONDS_AT));
    let fraction = u64::from(u32_at(order, bytes, FRACTION_AT));
    let per_second = if resolution == MICROSECONDS {
        1_000_000
    } else {
        1_000_000_000
    };
    seconds * per_second + fraction
}
