//! The texts of addresses and prefixes.

ghost use Rattle.std.specs.Prelude.{◌≡◌, ◌<◌, ◌==◌, ◌++◌, IfSome, IfOk, OnErr, OnOk, position, string_bytes};
ghost use Rattle.std.specs.Option.{option_map};
ghost use Rattle.lisp_memory.specs.Appending.{StringGrowsBy};
ghost use Rattle.lisp_records.specs.Address.{PrefixValue, IsPrefix, IsWhole};
ghost use Rattle.lisp_texts.specs.Text.{IsAddressText, IsPrefixText};
ghost use Rattle.lisp_texts.specs.Reading.{four_texts, cut, quarters_of, byte_of, digit_of, group_of, v4_of, v6_of, address_of, prefix_of};
ghost use Rattle.lisp_texts.specs.Written.{hex_text, v4_text, v6_text, addr_text, prefix_text};

use crate::number::byte_from_text;
use lisp_memory::{FallibleString, Memory};
use lisp_records::{Addr, Prefix};
use std::alloc::AllocError;

/// The address that a text spells, or `None`:
///
/// ```text
/// IPv4  four numbers from 0 to 255, joined by dots, without leading zeros: 10.1.0.255
/// IPv6  eight groups of one to four hexadecimal digits, joined by colons: 2001:DB8:0:0:0:0:0:1
/// ```
///
/// There is no `::`, no sign and no space.
pub fn addr_from_text(text: &str) -> Option<Addr>
    ensures found { IfSome result (λ a. IsAddressText text.now a) }
    ensures only { (a : Addr) → IsAddressText text.now a → result ≡ Some a }
    ensures exact { result ≡ address_of text.now }
{
    address(text)
}

/// The prefix that a text spells, or `None`: an address as for [`addr_from_text`], `/`, and the
/// mask length, at most 32 or 128, without leading zeros: `10.1.0.0/16`. Bits past the mask may
/// be set in the text and are cleared in the prefix.
pub fn prefix_from_text(text: &str) -> Option<Prefix>
    ensures found { IfSome result (λ b. IsPrefixText text.now b) }
    ensures only { (b : PrefixValue) → IsPrefixText text.now b → result ≡ Some b }
    ensures exact { result ≡ prefix_of text.now }
{
    prefix(text)
}

/// The text of an address: for IPv4 four decimal numbers joined by dots, for IPv6 eight groups of
/// four lower case hexadecimal digits joined by colons.
pub fn addr_to_text<A: Memory>(alloc: A, addr: &Addr) -> Result<String<A>, AllocError>
    ensures text { IfOk result (λ t. string_bytes t ≡ addr_text addr.now) }
    ensures memory { OnErr result A.may_refuse }

    // Every address of the program has this text, so that what is written is read again.
    ensures known { IsWhole addr.now }
{
    // For the proof alone: `octets` says that the address is whole.
    let _octets = addr.octets();
    let mut text = String::new(alloc);
    put_addr(&mut text, *addr)?;
    Ok(text)
}

/// The text of a prefix: its address as for [`addr_to_text`], `/`, and the mask length.
pub fn prefix_to_text<A: Memory>(alloc: A, prefix: &Prefix) -> Result<String<A>, AllocError>
    ensures text { IfOk result (λ t. string_bytes t ≡ prefix_text prefix.now) }
    ensures memory { OnErr result A.may_refuse }

    // Every prefix of the program has this text, so that what is written is read again.
    ensures known { IsWhole prefix.now.addr }
    ensures block { IsPrefix prefix.now }
{
    let mut text = String::new(alloc);
    put_prefix(&mut text, *prefix)?;
    Ok(text)
}

// A prefix of either family.
#[tactic(auto, unfolding(crate::specs::Reading::prefix_of))]
fn prefix(text: &str) -> Option<Prefix>
    ensures { result ≡ prefix_of text.now }
{
    let (addr, mask_len) = parted(text, '/')?;
    Prefix::new(address(addr)?, byte(mask_len)?)
}

// An address of either family.
#[tactic(auto, unfolding(crate::specs::Reading::address_of))]
fn address(text: &str) -> Option<Addr>
    ensures { result ≡ address_of text.now }
{
    match v4(text) {
        Some(octets) => Some(Addr::V4(octets)),
        None => v6(text.as_bytes()).map(Addr::V6),
    }
}

// The octets of an IPv4 address.
#[tactic(auto, unfolding(crate::specs::Reading::v4_of))]
fn v4(text: &str) -> Option<[u8; 4]>
    ensures { result ≡ v4_of text.now }
{
    let (first, second, third, fourth) = quarters(text, '.')?;
    Some([byte(first)?, byte(second)?, byte(third)?, byte(fourth)?])
}

// A number from 0 to 255 in decimal, without leading zeros.
#[tactic(auto, unfolding(crate::specs::Reading::byte_of))]
fn byte(text: &str) -> Option<u8>
    ensures { result ≡ byte_of text.now }
{
    match text.as_bytes() {
        [b'0', _, ..] => None,
        _ => byte_from_text(text),
    }
}

// The octets of an IPv6 address.
fn v6(text: &[u8]) -> Option<[u8; 16]>
    ensures { result ≡ v6_of text.now }
{
    let mut octets = [0; 16];
    let mut rest = text;
    for at in 0..7 {
        let (digits, behind) = cut(rest, b':')?;
        [octets[2 * at], octets[2 * at + 1]] = group(digits)?.to_be_bytes();
        rest = behind;
    }
    [octets[14], octets[15]] = group(rest)?.to_be_bytes();
    Some(octets)
}

// The number that one to four hexadecimal digits stand for.
#[tactic(auto, unfolding(crate::specs::Reading::group_of))]
fn group(text: &[u8]) -> Option<u16>
    ensures { result ≡ group_of text.now }
{
    if text.is_empty() || text.len() > 4 {
        return None;
    }
    let mut value = 0;
    for digit in text {
        value = value * 16 + u16::from(hex_digit(*digit)?);
    }
    Some(value)
}

// The value of a hexadecimal digit, in either letter case.
fn hex_digit(digit: u8) -> Option<u8>
    ensures { result ≡ digit_of digit }
{
    match digit {
        b'0'..=b'9' => Some(digit - b'0'),
        b'A'..=b'F' => Some(digit - b'A' + 10),
        b'a'..=b'f' => Some(digit - b'a' + 10),
        _ => None,
    }
}

// The parts before and after the first mark.
#[tactic(auto, unfolding(crate::specs::Reading::cut))]
fn cut(text: &[u8], mark: u8) -> Option<(&[u8], &[u8])>
    ensures { option_map (λ p. (p.0.now, p.1.now)) result ≡ cut mark text.now }
{
    let place = place_of(text, mark)?;
    Some((&text[..place], &text[place + 1..]))
}

// The place of the first mark.
fn place_of(text: &[u8], mark: u8) -> Option<usize>
    ensures { result ≡ position (λ byte. byte == mark) text.now }
{
    text.iter().position(|byte| *byte == mark)
}

/// The four parts that the first three marks part.
#[tactic(auto, unfolding(crate::specs::Reading::quarters_of))]
pub(crate) fn quarters(text: &str, mark: char) -> Option<(&str, &str, &str, &str)>
    requires { mark < 128 }
    ensures { option_map (λ q. four_texts q) result ≡ quarters_of mark text.now }
{
    let (first, rest) = parted(text, mark)?;
    let (second, rest) = parted(rest, mark)?;
    let (third, fourth) = parted(rest, mark)?;
    Some((first, second, third, fourth))
}

/// The parts before and after the first mark.
#[tactic(auto, unfolding(crate::specs::Reading::cut))]
pub(crate) fn parted(text: &str, mark: char) -> Option<(&str, &str)>
    requires { mark < 128 }
    ensures { option_map (λ p. (p.0.now, p.1.now)) result ≡ cut mark text.now }
{
    text.split_once(mark)
}

/// Appends the text of a prefix. Out of memory, it may leave a part of it.
pub(crate) fn put_prefix<A: Memory>(text: &mut String<A>, prefix: Prefix) -> Result<(), AllocError>
    ensures text { OnOk result (StringGrowsBy text.old text.new (prefix_text prefix)) }
    ensures memory { OnErr result A.may_refuse }
    ensures known { IsWhole prefix.addr }
    ensures block { IsPrefix prefix }
{
    let mask_len = prefix.mask_len();
    put_addr(text, prefix.addr())?;
    text.try_write(format_args!("/{mask_len}"))
}

/// Appends the text of an address. Out of memory, it may leave a part of it.
pub(crate) fn put_addr<A: Memory>(text: &mut String<A>, addr: Addr) -> Result<(), AllocError>
    ensures text { OnOk result (StringGrowsBy text.old text.new (addr_text addr)) }
    ensures memory { OnErr result A.may_refuse }
{
    match addr {
        Addr::V4(octets) => put_v4(text, octets),
        Addr::V6(octets) => put_v6(text, octets),
    }
}

// Appends four decimal numbers, joined by dots.
fn put_v4<A: Memory>(text: &mut String<A>, octets: [u8; 4]) -> Result<(), AllocError>
    ensures text { OnOk result (StringGrowsBy text.old text.new (v4_text octets)) }
    ensures memory { OnErr result A.may_refuse }
{
    let [a, b, c, d] = octets;
    text.try_write(format_args!("{a}.{b}.{c}.{d}"))
}

// Appends eight groups, joined by colons.
fn put_v6<A: Memory>(text: &mut String<A>, octets: [u8; 16]) -> Result<(), AllocError>
    ensures text { OnOk result (StringGrowsBy text.old text.new (v6_text octets)) }
    ensures memory { OnErr result A.may_refuse }
{
    put_group(text, octets[0], octets[1])?;
    for at in 1..8 {
        text.try_push(':')?;
        put_group(text, octets[2 * at], octets[2 * at + 1])?;
    }
    Ok(())
}

// Appends the four digits of a group.
fn put_group<A: Memory>(text: &mut String<A>, high: u8, low: u8) -> Result<(), AllocError>
    ensures text { OnOk result (StringGrowsBy text.old text.new (hex_text high ++ hex_text low)) }
    ensures memory { OnErr result A.may_refuse }
{
    text.try_write(format_args!("{high:02x}{low:02x}"))
}
