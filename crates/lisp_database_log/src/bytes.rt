//! Parts of a log, and its numbers.

ghost use Rattle.std.specs.Prelude.{◌≡◌, ◌+◌, ◌≤◌, length};
ghost use Rattle.sqlite_wal.specs.Format.{part, be32, stored_sum};

/// So many bytes from a place on.
#[tactic(auto, unfolding(sqlite_wal::specs::Format::part))]
pub(crate) fn part(bytes: &[u8], at: usize, count: usize) -> &[u8]
    requires { at + count ≤ length bytes.now }
    ensures part { result.now ≡ part bytes.now at count }
    ensures length { length result.now ≡ count }
{
    &bytes[at..at + count]
}

/// Four bytes as a number, the highest first.
#[tactic(auto, unfolding(sqlite_wal::specs::Format::be32))]
pub(crate) fn number(bytes: &[u8], at: usize) -> u32
    requires { at + 4 ≤ length bytes.now }
    ensures { result ≡ be32 bytes.now at }
{
    bytes[at] as u32 * 0x100_0000
        + bytes[at + 1] as u32 * 0x1_0000
        + bytes[at + 2] as u32 * 0x100
        + bytes[at + 3] as u32
}

/// The checksum that stands at a place.
pub(crate) fn stored_sum(bytes: &[u8], at: usize) -> (u32, u32)
    requires { at + 8 ≤ length bytes.now }
    ensures { result ≡ stored_sum bytes.now at }
{
    (number(bytes, at), number(bytes, at + 4))
}
