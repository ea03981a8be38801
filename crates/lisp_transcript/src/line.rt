//! The line of a packet.

ghost use Rattle.std.specs.Prelude.{◌≡◌, ◌++◌, codes, IfOk, OnOk, OnErr, string_bytes};
ghost use Rattle.std.specs.Option.{option_map};
ghost use Rattle.lisp_captures.specs.Value.{content_value, datagram_value, packet_value};
ghost use Rattle.lisp_memory.specs.Appending.{StringGrowsBy};
ghost use Rattle.lisp_transcript.specs.Line.{content_text, datagram_text, front_text, is_control, line_text, route_text, unread_text, unread_words, why_text};

use crate::pieces::put_time;
use crate::reading::put_message;
use lisp_captures::{Datagram, Packet, Unread};
use lisp_memory::{FallibleString, Memory};
use lisp_policy::Sites;
use lisp_texts::addr_to_text;
use std::alloc::{AllocError, Allocator};

// The UDP port of the LISP control plane (RFC 9301 section 5).
const CONTROL_PORT: u16 = 4342;

/// The line of a packet, with its line feed, that was captured so many microseconds after the first one, by the secrets of sites: its number,
/// its time in seconds (`-` where it isn't known), from whom to whom, and what is told of the message. Empty where it is none to or from
/// UDP port 4342.
///
/// ```text
/// 1 0.000000 192.0.2.1 > 192.0.2.2 map-register site .. xtr .. key 1 nonce 5 proxy tag checks records 1 10.1.0.0/16=1440+192.0.2.1/..
/// 2 0.001200 192.0.2.2 > 192.0.2.1 map-notify key 1 nonce 5 tag checks site 0000000000000001 records 1 10.1.0.0/16=..
/// 3 0.500000 192.0.2.9 > 192.0.2.2 can't be read: read 11 at byte 13
/// 4 0.600000 can't be read: an IP fragment
/// ```
pub fn line_text<A: Memory + Copy, B: Allocator>(
    alloc: A,
    sites: &Sites<B>,
    time: Option<u64>,
    packet: &Packet<'_>,
) -> Result<String<A>, AllocError>
    ensures text { IfOk result (λ text. string_bytes text ≡
        line_text sites.now time (packet_value packet.now)) }
    ensures memory { OnErr result A.may_refuse }
{
    let mut text = String::new(alloc);
    put_content(
        alloc,
        &mut text,
        sites,
        packet.number,
        time,
        &packet.content,
    )?;
    Ok(text)
}

// Appends the line of a packet's content. Out of memory, it may leave a part of it.
fn put_content<A: Memory + Copy, B: Allocator>(
    alloc: A,
    text: &mut String<A>,
    sites: &Sites<B>,
    number: u64,
    time: Option<u64>,
    content: &Result<Datagram<'_>, Unread>,
) -> Result<(), AllocError>
    ensures text { OnOk result (StringGrowsBy text.old text.new
        (content_text sites.now number time (content_value content.now))) }
    ensures memory { OnErr result A.may_refuse }
{
    match content {
        Ok(datagram) => {
            if is_control(datagram) {
                return put_datagram(alloc, text, sites, number, time, datagram);
            }
            Ok(())
        }
        Err(why) => put_unread(text, number, time, *why),
    }
}

/// Whether a datagram is to or from the port of the LISP control plane.
pub(crate) fn is_control(datagram: &Datagram<'_>) -> bool
    ensures { result ≡ is_control (datagram_value datagram.now) }
{
    datagram.source_port == CONTROL_PORT || datagram.destination_port == CONTROL_PORT
}

// Appends the line of a datagram. Out of memory, it may leave a part of it.
#[tactic(auto, using(crate::proofs::Appends::steps), unfolding(crate::specs::Line::datagram_text))]
fn put_datagram<A: Memory + Copy, B: Allocator>(
    alloc: A,
    text: &mut String<A>,
    sites: &Sites<B>,
    number: u64,
    time: Option<u64>,
    datagram: &Datagram<'_>,
) -> Result<(), AllocError>
    ensures text { OnOk result (StringGrowsBy text.old text.new
        (datagram_text sites.now number time (datagram_value datagram.now))) }
    ensures memory { OnErr result A.may_refuse }
{
    put_front(text, number, time)?;
    put_route(alloc, text, datagram)?;
    put_message(alloc, text, sites, datagram.payload)?;
    text.try_write("\n")
}

// Appends a packet's number and time. Out of memory, it may leave a part of them.
#[tactic(auto, using(crate::proofs::Appends::steps), unfolding(crate::specs::Line::front_text))]
fn put_front<A: Memory>(
    text: &mut String<A>,
    number: u64,
    time: Option<u64>,
) -> Result<(), AllocError>
    ensures text { OnOk result (StringGrowsBy text.old text.new (front_text number time)) }
    ensures memory { OnErr result A.may_refuse }
{
    text.try_write(format_args!("{number} "))?;
    put_time(text, time)
}

// Appends from whom to whom a datagram is. Out of memory, it may leave a part of it.
#[tactic(auto, unfolding(crate::specs::Line::route_text))]
fn put_route<A: Memory + Copy>(
    alloc: A,
    text: &mut String<A>,
    datagram: &Datagram<'_>,
) -> Result<(), AllocError>
    ensures text { OnOk result
        (StringGrowsBy text.old text.new (route_text (datagram_value datagram.now))) }
    ensures memory { OnErr result A.may_refuse }
{
    let source = addr_to_text(alloc, &datagram.source)?;
    let destination = addr_to_text(alloc, &datagram.destination)?;
    text.try_write(format_args!(" {source} > {destination} "))
}

/// Why a packet's datagram isn't read; `None` where it is no UDP over IP.
pub(crate) fn unread_words(why: Unread) -> Option<&'static str>
    ensures { option_map (λ words. words.now) result ≡ unread_words why }
{
    match why {
        Unread::Cut => Some("less was captured than was sent"),
        Unread::Damaged => Some("a header says what can't be"),
        Unread::Fragment => Some("an IP fragment"),
        Unread::Other => None,
        Unread::Truncated => Some("the capture ends in it"),
        Unread::Lost => Some("it can't be found, nor what follows"),
    }
}

// Appends why a packet's datagram isn't read. Out of memory, it may leave a part of it.
fn put_unread<A: Memory>(
    text: &mut String<A>,
    number: u64,
    time: Option<u64>,
    why: Unread,
) -> Result<(), AllocError>
    ensures text { OnOk result
        (StringGrowsBy text.old text.new (unread_text number time (unread_words why))) }
    ensures memory { OnErr result A.may_refuse }
{
    match unread_words(why) {
        Some(words) => put_why(text, number, time, words),
        None => Ok(()),
    }
}

// Appends the line of a packet that isn't read. Out of memory, it may leave a part of it.
#[tactic(auto, using(crate::proofs::Appends::steps), unfolding(crate::specs::Line::why_text))]
fn put_why<A: Memory>(
    text: &mut String<A>,
    number: u64,
    time: Option<u64>,
    why: &str,
) -> Result<(), AllocError>
    ensures text { OnOk result (StringGrowsBy text.old text.new (why_text number time why.now)) }
    ensures memory { OnErr result A.may_refuse }
{
    put_front(text, number, time)?;
    text.try_write(format_args!(" can't be read: {why}\n"))
}
