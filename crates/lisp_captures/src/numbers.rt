//! Numbers among bytes, in either byte order.

ghost use Rattle.std.specs.Prelude.{◌≡◌, ◌+◌, ◌≤◌, length, take, drop};
ghost use Rattle.lisp_records.specs.declared.address.Addr.TheVariants.{V4, V6};
ghost use Rattle.lisp_records.specs.Reading.{number_at};
ghost use Rattle.lisp_captures.specs.Numbers.{u16_at, u32_at};

use lisp_records::Addr;

/// The order of the bytes of a capture's own numbers: that of the machine which wrote it.
#[derive(Clone, Copy, Debug, PartialEq, Eq)]
pub enum ByteOrder {
    Little,
    Big,
}

/// Two bytes from a place on, as a number.
pub(crate) fn u16_at(order: ByteOrder, bytes: &[u8], at: usize) -> u16
    requires { at + 2 ≤ length bytes.now }
    ensures { result ≡ u16_at order bytes.now at }
{
    let two = [bytes[at], bytes[at + 1]];
    match order {
        ByteOrder::Little => u16::from_le_bytes(two),
        ByteOrder::Big => u16::from_be_bytes(two),
    }
}

/// Four bytes from a place on, as a number.
pub(crate) fn u32_at(order: ByteOrder, bytes: &[u8], at: usize) -> u32
    requires { at + 4 ≤ length bytes.now }
    ensures { result ≡ u32_at order bytes.now at }
{
    let four = [bytes[at], bytes[at + 1], bytes[at + 2], bytes[at + 3]];
    match order {
        ByteOrder::Little => u32::from_le_bytes(four),
        ByteOrder::Big => u32::from_be_bytes(four),
    }
}

/// Two bytes from a place on, as a number in network byte order.
pub(crate) fn number_at(bytes: &[u8], at: usize) -> u16
    requires { at + 2 ≤ length bytes.now }
    ensures { result ≡ number_at bytes.now at }
{
    u16::from_be_bytes([bytes[at], bytes[at + 1]])
}

/// The IPv4 address that begins at a byte.
pub(crate) fn ipv4_addr(bytes: &[u8], at: usize) -> Addr
    requires { at + 4 ≤ length bytes.now }
    ensures { result ≡ V4 (take 4 (drop at bytes.now)) }
{
    let (_, rest) = bytes.split_at(at);
    let (octets, _) = rest.split_first_chunk::<4>().unwrap();
    Addr::V4(*octets)
}

/// The IPv6 address that begins at a byte.
pub(crate) fn ipv6_addr(bytes: &[u8], at: usize) -> Addr
    requires { at + 16 ≤ length bytes.now }
    ensures { result ≡ V6 (take 16 (drop at bytes.now)) }
{
    let (_, rest) = bytes.split_at(at);
    let (octets, _) = rest.split_first_chunk::<16>().unwrap();
    Addr::V6(*octets)
}
