//! The header of a log.

ghost use Rattle.std.specs.Prelude.{◌≡◌, ◌↔◌, ◌≤◌, length, IsTrue};
ghost use Rattle.sqlite_wal.specs.Format.{is_big, IsSigned};
ghost use Rattle.sqlite_wal.specs.Recovery.{header};
ghost use Rattle.lisp_database_log.specs.Log.{IsBroken};

use crate::bytes::{part, stored_sum};
use sqlite_wal::checksum_of;

/// The bytes of a header.
pub(crate) const HEADER_BYTES: usize = 32;

/// The first byte, which is written last.
const FIRST: u8 = 0x37;

/// Whether the header of a log says that it is whole, and isn't.
pub(crate) fn is_broken(log: &[u8]) -> bool
    ensures { IsTrue result ↔ IsBroken log.now }
{
    log.len() >= HEADER_BYTES && log[0] == FIRST && !is_signed(header(log))
}

/// The header of a log.
pub(crate) fn header(log: &[u8]) -> &[u8]
    requires { 32 ≤ length log.now }
    ensures header { result.now ≡ header log.now }
    ensures length { length result.now ≡ 32 }
{
    part(log, 0, HEADER_BYTES)
}

/// Whether a header has its checksum.
pub(crate) fn is_signed(header: &[u8]) -> bool
    requires { length header.now ≡ 32 }
    ensures { IsTrue result ↔ IsSigned header.now }
{
    if header[0] != FIRST || header[1] != 0x7f || header[2] != 0x06 {
        return false;
    }
    if header[3] != 0x82 && header[3] != 0x83 {
        return false;
    }
    checksum_of(is_big(header), (0, 0), part(header, 0, 24)) == stored_sum(header, 24)
}

/// Whether the checksums of a log take its numbers with the highest byte first.
pub(crate) fn is_big(header: &[u8]) -> bool
    requires { length header.now ≡ 32 }
    ensures { result ≡ is_big header.now }
{
    header[3] == 0x83
}
