//! What a packet is in a schedule.

ghost use Rattle.std.specs.Prelude.{◌≡◌, IfOk, OnOk, OnErr, string_bytes};
ghost use Rattle.std.specs.List.{find};
ghost use Rattle.std.specs.Option.{option_map};
ghost use Rattle.lisp_captures.specs.Value.{content_value, datagram_value, packet_value};
ghost use Rattle.lisp_memory.specs.Appending.{StringGrowsBy};
ghost use Rattle.lisp_records.specs.Address.{addr_eq};
ghost use Rattle.lisp_transcript.specs.Schedule.{bytes_word, content_entry, entry_text, junk_text, node_at, nowhere_text, packet_text, tick_text, to_node_text, unread_entry};

use crate::line::{is_control, unread_words};
use crate::pieces::put_hex;
use lisp_captures::{Datagram, Packet, Unread};
use lisp_memory::{FallibleString, Memory};
use lisp_records::Addr;
use lisp_sites::{Config, RouterEntry, ServerEntry};
use lisp_texts::addr_to_text;
use std::alloc::{AllocError, Allocator};

/// What a packet is in a schedule, where `ms` ms had passed and `now` have at it.
pub(crate) fn entry_text<A: Memory + Copy, B: Allocator>(
    alloc: A,
    config: &Config<B>,
    ms: u64,
    now: u64,
    packet: &Packet<'_>,
) -> Result<String<A>, AllocError>
    ensures text { IfOk result (λ text. string_bytes text ≡
        entry_text config.now ms now (packet_value packet.now)) }
    ensures memory { OnErr result A.may_refuse }
{
    let mut text = String::new(alloc);
    let passes = now.saturating_sub(ms);
    put_content(
        alloc,
        &mut text,
        config,
        passes,
        packet.number,
        &packet.content,
    )?;
    Ok(text)
}

// Appends what a packet's content is. Out of memory, it may leave a part of it.
fn put_content<A: Memory + Copy, B: Allocator>(
    alloc: A,
    text: &mut String<A>,
    config: &Config<B>,
    ms: u64,
    number: u64,
    content: &Result<Datagram<'_>, Unread>,
) -> Result<(), AllocError>
    ensures text { OnOk result (StringGrowsBy text.old text.new
        (content_entry config.now ms number (content_value content.now))) }
    ensures memory { OnErr result A.may_refuse }
{
    match content {
        Ok(datagram) => {
            if is_control(datagram) {
                let node = node_at(config, &datagram.destination);
                return put_to_node(alloc, text, node, ms, number, datagram);
            }
            Ok(())
        }
        Err(why) => put_unread(text, number, unread_words(*why)),
    }
}

// The name of the node with an address, of a Map-Server or else of a router.
fn node_at<'a, B: Allocator>(config: &'a Config<B>, addr: &Addr) -> Option<&'a str>
    ensures { option_map (λ name. name.now) result ≡ node_at config.now addr.now }
{
    match server_at(config.servers(), addr) {
        Some(server) => Some(server.name.as_str()),
        None => match router_at(config.routers(), addr) {
            Some(router) => Some(router.name.as_str()),
            None => None,
        },
    }
}

fn server_at<'a, B: Allocator>(
    servers: &'a [ServerEntry<B>],
    addr: &Addr,
) -> Option<&'a ServerEntry<B>>
    ensures { option_map (λ s. s.now) result ≡ find (λ s. addr_eq s.address addr.now) servers.now }
{
    servers.iter().find(|server| is_server_at(server, addr))
}

fn is_server_at<B: Allocator>(server: &ServerEntry<B>, addr: &Addr) -> bool
    ensures { result ≡ addr_eq server.now.address addr.now }
{
    server.address == *addr
}

fn router_at<'a, B: Allocator>(
    routers: &'a [RouterEntry<B>],
    addr: &Addr,
) -> Option<&'a RouterEntry<B>>
    ensures { option_map (λ r. r.now) result ≡ find (λ r. addr_eq r.address addr.now) routers.now }
{
    routers.iter().find(|router| is_router_at(router, addr))
}

fn is_router_at<B: Allocator>(router: &RouterEntry<B>, addr: &Addr) -> bool
    ensures { result ≡ addr_eq router.now.address addr.now }
{
    router.address == *addr
}

// Appends a datagram to a node, if it is to one. Out of memory, it may leave a part of it.
#[tactic(auto, using(crate::proofs::Appends::steps))]
fn put_to_node<A: Memory + Copy>(
    alloc: A,
    text: &mut String<A>,
    node: Option<&str>,
    ms: u64,
    number: u64,
    datagram: &Datagram<'_>,
) -> Result<(), AllocError>
    ensures text { OnOk result (StringGrowsBy text.old text.new
        (to_node_text (option_map (λ n. n.now) node.entry) ms number
        (datagram_value datagram.now))) }
    ensures memory { OnErr result A.may_refuse }
{
    match node {
        Some(name) => {
            put_packet(text, number)?;
            put_tick(text, ms)?;
            put_junk(alloc, text, name, datagram)
        }
        None => {
            put_tick(text, ms)?;
            put_nowhere(alloc, text, number, &datagram.destination)
        }
    }
}

// Appends the number of a packet, as a comment. Out of memory, it may leave a part of it.
#[tactic(auto, unfolding(crate::specs::Schedule::packet_text))]
fn put_packet<A: Memory>(text: &mut String<A>, number: u64) -> Result<(), AllocError>
    ensures text { OnOk result (StringGrowsBy text.old text.new (packet_text number)) }
    ensures memory { OnErr result A.may_refuse }
{
    text.try_write(format_args!("# packet {number}\n"))
}

// Appends that no node has an address. Out of memory, it may leave a part of it.
#[tactic(auto, unfolding(crate::specs::Schedule::nowhere_text))]
fn put_nowhere<A: Memory + Copy>(
    alloc: A,
    text: &mut String<A>,
    number: u64,
    addr: &Addr,
) -> Result<(), AllocError>
    ensures text { OnOk result (StringGrowsBy text.old text.new (nowhere_text number addr.now)) }
    ensures memory { OnErr result A.may_refuse }
{
    let addr = addr_to_text(alloc, addr)?;
    text.try_write(format_args!(
        "# packet {number} left out: no node of the configuration has the address {addr}\n"
    ))
}

// Appends the time that passes, where some does. Out of memory, it may leave a part of it.
#[tactic(auto, unfolding(crate::specs::Schedule::tick_text))]
fn put_tick<A: Memory>(text: &mut String<A>, ms: u64) -> Result<(), AllocError>
    ensures text { OnOk result (StringGrowsBy text.old text.new (tick_text ms)) }
    ensures memory { OnErr result A.may_refuse }
{
    if ms == 0 {
        return Ok(());
    }
    text.try_write(format_args!("tick {ms}\n"))
}

// Appends the command for a datagram to a node. Out of memory, it may leave a part of it.
#[tactic(auto, using(crate::proofs::Appends::steps), unfolding(crate::specs::Schedule::junk_text))]
fn put_junk<A: Memory + Copy>(
    alloc: A,
    text: &mut String<A>,
    name: &str,
    datagram: &Datagram<'_>,
) -> Result<(), AllocError>
    ensures text { OnOk result
        (StringGrowsBy text.old text.new (junk_text name.now (datagram_value datagram.now))) }
    ensures memory { OnErr result A.may_refuse }
{
    let from = addr_to_text(alloc, &datagram.source)?;
    text.try_write(format_args!("junk {name} {from} "))?;
    put_bytes(text, datagram.payload)?;
    text.try_write("\n")
}

// Appends bytes as a word of a schedule. Out of memory, it may leave a part of it.
fn put_bytes<A: Memory>(text: &mut String<A>, bytes: &[u8]) -> Result<(), AllocError>
    ensures text { OnOk result (StringGrowsBy text.old text.new (bytes_word bytes.now)) }
    ensures memory { OnErr result A.may_refuse }
{
    match bytes {
        [] => text.try_write("-"),
        [_, ..] => put_hex(text, bytes),
    }
}

// Appends what isn't read. Out of memory, it may leave a part of it.
#[tactic(auto, unfolding(crate::specs::Schedule::left_out_text))]
fn put_unread<A: Memory>(
    text: &mut String<A>,
    number: u64,
    why: Option<&'static str>,
) -> Result<(), AllocError>
    ensures text { OnOk result (StringGrowsBy text.old text.new
        (unread_entry number (option_map (λ w. w.now) why.entry))) }
    ensures memory { OnErr result A.may_refuse }
{
    match why {
        Some(why) => text.try_write(format_args!("# packet {number} left out: {why}\n")),
        None => Ok(()),
    }
}
