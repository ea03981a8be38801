//! The text of the line of each event.

ghost use Rattle.std.specs.Prelude.{◌≡◌, ◌++◌, codes, OnErr};
ghost use Rattle.lisp_lines.specs.Front.{Adds, AddsFront, GivesText};
ghost use Rattle.lisp_lines.specs.Line.{pair_text, key_text, keyed_text, datagram_text, part_text, line_words, line_text};
ghost use Rattle.lisp_lines.specs.Name.{node_name, router_word};
ghost use Rattle.lisp_lines.specs.Parts.{verb, nodes_text, refusal_text, details_text, datagram_of, part_of};

use crate::append::put_number;
use crate::carried::put_carried;
use crate::datagram_place::DatagramPlace;
use crate::name::{node_name, put_router_word};
use crate::wording::Wording;
use lisp_memory::{FallibleString, Memory};
use lisp_model::{Line, Refusal};
use lisp_records::RouterId;
use lisp_sites::Config;
use std::alloc::{AllocError, Allocator};

/// The line of an event, with its line feed, by the names of the configuration; in this wording.
/// A node that the configuration doesn't have is `other`.
pub fn line_text<A: Memory, E: Allocator>(
    alloc: A,
    config: &Config<E>,
    line: &Line,
    wording: Wording,
) -> Result<String<A>, AllocError>
    ensures text { GivesText result (line_text config.now wording line.now) }
    ensures memory { OnErr result A.may_refuse }
{
    let mut text = String::new(alloc);
    put_line(&mut text, config, line, wording)?;
    text.try_push('\n')?;
    Ok(text)
}

// Appends the words of a line: its verb, its nodes, what else it tells, the place of its datagram, and the part of a
// database. Out of memory, it may leave a front of them.
#[tactic(auto, using(crate::proofs::Parts::steps))]
fn put_line<A: Memory, E: Allocator>(
    text: &mut String<A>,
    config: &Config<E>,
    line: &Line,
    wording: Wording,
) -> Result<(), AllocError>
    ensures text { Adds result text.old text.new (line_words config.now wording line.now) }
    ensures memory { OnErr result A.may_refuse }
{
    text.try_write(verb(line))?;
    put_nodes(text, config, wording, line)?;
    put_details(text, line)?;
    put_datagram(text, wording, datagram(line))?;
    put_part(text, part(line))
}

// The first word of a line.
fn verb(line: &Line) -> &'static str
    ensures { result.now ≡ verb line.now }
{
    match line {
        Line::Changed { .. } => "change",
        Line::Sent { .. } => "sent",
        Line::Accepted { .. } => "accepted",
        Line::Done { .. } => "done",
        Line::Counted { .. } => "counted",
        Line::Noticed { .. } => "noticed",
        Line::Nowhere { .. } => "nowhere",
        Line::Ticked { .. } => "tick",
        Line::Restarted { .. } => "restarted",
        Line::Rotated { .. } => "rotated",
        Line::Emptied { .. } => "emptied",
        Line::Notice { .. } => "notice",
        Line::Resent { .. } => "resent",
        Line::Reloaded { .. } | Line::Renewed { .. } => "reloaded",
        Line::Down { .. } => "down",
        Line::Refused { .. } => "refused",
    }
}

// Appends the nodes of a line, each after a space. Out of memory, it may leave a part of them.
fn put_nodes<A: Memory, E: Allocator>(
    text: &mut String<A>,
    config: &Config<E>,
    wording: Wording,
    line: &Line,
) -> Result<(), AllocError>
    ensures text { Adds result text.old text.new (nodes_text config.now wording line.now) }
    ensures memory { OnErr result A.may_refuse }
{
    match *line {
        Line::Changed { router: node, .. }
        | Line::Restarted { node }
        | Line::Rotated { router: node, .. }
        | Line::Emptied { router: node, .. }
        | Line::Reloaded { server: node, .. }
        | Line::Renewed { server: node, .. }
        | Line::Down { router: node }
        | Line::Refused { node, .. } => put_node(text, node_name(config, node)),
        Line::Sent { router, server, .. }
        | Line::Counted { router, server, .. }
        | Line::Noticed { router, server, .. } => {
            put_pair(text, node_name(config, router), node_name(config, server))
        }
        Line::Notice { server, router, .. } | Line::Resent { server, router, .. } => {
            put_pair(text, node_name(config, server), node_name(config, router))
        }
        Line::Accepted {
            server,
            ref router,
            ..
        }
        | Line::Done {
            server,
            ref router,
            ..
        } => put_heard(text, config, wording, server, router),
        Line::Nowhere { .. } | Line::Ticked { .. } => Ok(()),
    }
}

// Appends what a line tells besides its nodes and its datagram. Out of memory, it may leave a part of it.
fn put_details<A: Memory>(text: &mut String<A>, line: &Line) -> Result<(), AllocError>
    ensures text { Adds result text.old text.new (details_text line.now) }
    ensures memory { OnErr result A.may_refuse }
{
    match line {
        Line::Changed { records, .. } => put_number(text, " records ", *records as u64),
        Line::Sent { key, nonce, .. }
        | Line::Accepted { key, nonce, .. }
        | Line::Counted { key, nonce, .. }
        | Line::Notice { key, nonce, .. } => put_keyed(text, *key, *nonce),
        Line::Done { nonce, .. } | Line::Noticed { nonce, .. } => put_number(
            text, " nonce ", *nonce,
        ),
        Line::Nowhere { datagram } => text.try_write(format_args!(" {datagram}")),
        Line::Ticked { ms, now } => text.try_write(format_args!(" {ms} now {now}")),
        Line::Rotated { key, .. } | Line::Emptied { key, .. } => put_key(text, *key),
        Line::Reloaded { sites, .. } => text.try_write(format_args!(" sites {sites} kept")),
        Line::Renewed { sites, .. } => text.try_write(format_args!(" sites {sites} restarted")),
        Line::Refused { what, .. } => put_refusal(text, what),
        Line::Restarted { .. } | Line::Resent { .. } | Line::Down { .. } => Ok(()),
    }
}

// The datagram of a line whose place may be shown.
fn datagram(line: &Line) -> Option<usize>
    ensures { result ≡ datagram_of line.now }
{
    match line {
        Line::Sent { datagram, .. }
        | Line::Noticed { datagram, .. }
        | Line::Notice { datagram, .. }
        | Line::Resent { datagram, .. } => Some(*datagram),
        Line::Accepted { datagram, .. } => *datagram,
        _ => None,
    }
}

// The part of a router's database that a line is about; 0 of other lines.
fn part(line: &Line) -> usize
    ensures { result ≡ part_of line.now }
{
    match line {
        Line::Sent { part, .. } | Line::Counted { part, .. } => *part,
        _ => 0,
    }
}

// Appends the place of a datagram, where there is one and it is shown. Out of memory, it may leave a part of it.
fn put_datagram<A: Memory>(
    text: &mut String<A>,
    wording: Wording,
    datagram: Option<usize>,
) -> Result<(), AllocError>
    ensures text { Adds result text.old text.new (datagram_text wording datagram) }
    ensures memory { OnErr result A.may_refuse }
{
    match (wording, datagram) {
        (Wording::Schedule(DatagramPlace::Shown), Some(datagram)) => {
            put_number(text, " datagram ", datagram as u64)
        }
        _ => Ok(()),
    }
}

// Appends a refusal: its number, and what it carries. Out of memory, it may leave a part of it.
#[tactic(auto, using(crate::proofs::Appends::steps))]
fn put_refusal<A: Memory>(text: &mut String<A>, refusal: &Refusal) -> Result<(), AllocError>
    ensures text { Adds result text.old text.new (refusal_text refusal.now) }
    ensures memory { OnErr result A.may_refuse }
{
    let number = refusal.number();
    text.try_write(format_args!(" {number}"))?;
    put_carried(text, refusal)
}

// Appends the name of a node after a space. Out of memory, it may leave a part of it.
fn put_node<A: Memory>(text: &mut String<A>, name: &str) -> Result<(), AllocError>
    ensures text { Adds result text.old text.new (codes " " ++ name.now) }
    ensures memory { OnErr result A.may_refuse }
{
    text.try_write(format_args!(" {name}"))
}

// Appends the names of two nodes, each after a space. Out of memory, it may leave a part of them.
fn put_pair<A: Memory>(text: &mut String<A>, one: &str, other: &str) -> Result<(), AllocError>
    ensures text { Adds result text.old text.new (codes " " ++ pair_text one.now other.now) }
    ensures memory { OnErr result A.may_refuse }
{
    text.try_write(format_args!(" {one} {other}"))
}

// Appends the names of a Map-Server and of a router that it heard, each after a space. Out of memory, it may leave a part of them.
#[tactic(auto, using(crate::proofs::Appends::steps))]
fn put_heard<A: Memory, E: Allocator>(
    text: &mut String<A>,
    config: &Config<E>,
    wording: Wording,
    server: usize,
    router: &RouterId,
) -> Result<(), AllocError>
    ensures text { Adds result text.old text.new (codes " " ++ pair_text
        (node_name config.now server) (router_word config.now wording router.now)) }
    ensures memory { OnErr result A.may_refuse }
{
    let server = node_name(config, server);
    text.try_write(format_args!(" {server} "))?;
    put_router_word(text, config, wording, router)
}

// Appends a Key ID. Out of memory, it leaves a front of it.
fn put_key<A: Memory>(text: &mut String<A>, key: u8) -> Result<(), AllocError>
    ensures text { Adds result text.old text.new (key_text key) }
    ensures front { AddsFront result text.old text.new (key_text key) }
    ensures memory { OnErr result A.may_refuse }
{
    put_number(text, " key ", u64::from(key))
}

/// Appends the part of a database, where it isn't the first. Out of memory, it leaves a front of it.
pub(crate) fn put_part<A: Memory>(text: &mut String<A>, part: usize) -> Result<(), AllocError>
    ensures text { Adds result text.old text.new (part_text part) }
    ensures front { AddsFront result text.old text.new (part_text part) }
    ensures memory { OnErr result A.may_refuse }
{
    if part == 0 {
        return Ok(());
    }
    put_number(text, " part ", part as u64)
}

/// Appends a Key ID and a nonce. Out of memory, it leaves a front of them.
#[tactic(auto, using(crate::proofs::Appends::steps))]
pub(crate) fn put_keyed<A: Memory>(
    text: &mut String<A>,
    key: u8,
    nonce: u64,
) -> Result<(), AllocError>
    ensures text { Adds result text.old text.new (keyed_text key nonce) }
    ensures front { AddsFront result text.old text.new (keyed_text key nonce) }
    ensures memory { OnErr result A.may_refuse }
{
    put_key(text, key)?;
    put_number(text, " nonce ", nonce)
}
