//! The checksum of the Internet protocols (RFC 791 section 3.1, RFC 768, RFC 8200 section 8.1).

ghost use Rattle.std.specs.Prelude.{◌≡◌, ◌<◌, ◌≤◌, length};
ghost use Rattle.lisp_requests.specs.Checksum.{plus, words, sum_from, sum_of, pseudo_end, pseudo_header, udp_sum, checksum_of, udp_checksum_of};

use lisp_records::Addr;

/// All 16 bits ones: the sum of what carries its checksum.
pub(crate) const ALL_ONES: u16 = 0xffff;

// The protocol number of UDP.
pub(crate) const UDP: u8 = 17;

/// The one's complement sum of two words: a carry out of 16 bits is added in again.
fn plus(a: u16, b: u16) -> u16
    ensures { result ≡ plus a b }
{
    let total = u32::from(a) + u32::from(b);
    (total % 0x10000 + total / 0x10000) as u16
}

/// The one's complement sum of a number and of bytes, as words of 16 bits.
#[tactic(auto, using(crate::proofs::Sums::word_more))]
pub(crate) fn sum_from(start: u16, bytes: &[u8]) -> u16
    ensures { result ≡ sum_from start (words bytes.now) }
{
    let mut sum = start;
    let mut rest = bytes;
    for _ in 0..bytes.len() / 2 {
        let Some((word, after)) = rest.split_first_chunk::<2>() else {
            break;
        };
        sum = plus(sum, u16::from_be_bytes(*word));
        rest = after;
    }
    last_word(sum, rest)
}

// With the byte that an odd number of them leaves.
#[tactic(auto, unfolding(crate::specs::Checksum::words, crate::specs::Checksum::sum_from))]
fn last_word(sum: u16, rest: &[u8]) -> u16
    requires { length rest.now < 2 }
    ensures { result ≡ sum_from sum (words rest.now) }
{
    match rest {
        [high, ..] => plus(sum, u16::from_be_bytes([*high, 0])),
        [] => sum,
    }
}

/// The one's complement sum of a UDP datagram behind its pseudo-header.
pub(crate) fn udp_sum(source: Addr, destination: Addr, datagram: &[u8]) -> u16
    requires { length datagram.now < 65536 }
    ensures { result ≡ udp_sum source destination datagram.now }
{
    sum_from(
        pseudo_sum(source, destination, datagram.len() as u16),
        datagram,
    )
}

/// The one's complement sum of the pseudo-header of a UDP datagram of so many bytes.
#[tactic(auto, using(crate::proofs::Sums::sum_addresses))]
pub(crate) fn pseudo_sum(source: Addr, destination: Addr, len: u16) -> u16
    ensures { result ≡ sum_of (pseudo_header source destination len) }
{
    let sum = sum_from(sum_from(0, source.octets()), destination.octets());
    end_sum(sum, source, len)
}

// With what follows the addresses.
fn end_sum(sum: u16, source: Addr, len: u16) -> u16
    ensures { result ≡ sum_from sum (words (pseudo_end source len)) }
{
    let [l0, l1, l2, l3] = u32::from(len).to_be_bytes();
    match source {
        Addr::V4(_) => sum_from(sum, &[0, UDP, l2, l3]),
        Addr::V6(_) => sum_from(sum, &[l0, l1, l2, l3, 0, 0, 0, UDP]),
    }
}

/// The checksum of a UDP datagram that sums to this without it: never 0, which says that there is none.
pub(crate) fn udp_checksum(sum: u16) -> u16
    ensures { result ≡ udp_checksum_of sum }
{
    if sum == ALL_ONES {
        ALL_ONES
    } else {
        ALL_ONES - sum
    }
}
