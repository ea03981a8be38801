//! The text of what is asked of a node.

ghost use Rattle.std.specs.Prelude.{◌++◌, ◌∷◌, [], codes, OnErr};
ghost use Rattle.std.specs.Fmt.{decimal};
ghost use Rattle.lisp_lines.specs.Front.{Adds, AddsFront, GivesText};
ghost use Rattle.lisp_lines.specs.Query.{row_text, hold_head, hold_text, counted_words, ack_line, ack_of_part, ack_text, answer_words, ask_text, due_text, due_server, due_router};
ghost use Rattle.lisp_lines.specs.Line.{pair_text};
ghost use Rattle.lisp_lines.specs.Name.{router_word};
ghost use Rattle.lisp_texts.specs.Written.{addr_text};

use crate::append::put_words;
use crate::line::{put_keyed, put_part};
use crate::name::{node_name, put_router_word};
use crate::wording::Wording;
use lisp_lookup::Answer;
use lisp_memory::{FallibleString, Memory};
use lisp_records::{Addr, RouterId, Row};
use lisp_sites::Config;
use lisp_texts::{addr_to_text, record_to_text};
use std::alloc::{AllocError, Allocator};

/// What is said where nobody is due.
const NONE: &str = "none";

/// The rows that a Map-Server holds at a moment, in ms: a line with their number, then one for each.
pub fn hold_text<A: Memory + Copy, E: Allocator, F: Allocator>(
    alloc: A,
    config: &Config<E>,
    wording: Wording,
    server: usize,
    now: u64,
    rows: &[Row<F>],
) -> Result<String<A>, AllocError>
    ensures text { GivesText result (hold_text config.now wording server now rows.now) }
    ensures memory { OnErr result A.may_refuse }
{
    let mut text = hold_head(alloc, node_name(config, server), rows.len())?;
    for row in rows {
        put_row(alloc, &mut text, config, wording, now, row)?;
    }
    Ok(text)
}

// The line before the rows of a Map-Server: how many they are.
fn hold_head<A: Memory>(alloc: A, server: &str, rows: usize) -> Result<String<A>, AllocError>
    ensures text { GivesText result (hold_head server.now rows) }
    ensures memory { OnErr result A.may_refuse }
{
    String::try_format(alloc, format_args!("hold {server} {rows}\n"))
}

/// Appends the line of a row at a moment, in ms. Out of memory, it may leave a front of it.
pub fn put_row<A: Memory + Copy, E: Allocator, F: Allocator>(
    alloc: A,
    text: &mut String<A>,
    config: &Config<E>,
    wording: Wording,
    now: u64,
    row: &Row<F>,
) -> Result<(), AllocError>
    ensures text { Adds result text.old text.new (row_text config.now wording now row.now) }
    ensures memory { OnErr result A.may_refuse }
{
    let record = record_to_text(alloc, &row.mapping)?;
    let (key, nonce) = (row.key, row.nonce);
    let age = now.saturating_sub(row.accepted);
    text.try_write("row ")?;
    put_router_word(text, config, wording, &row.router)?;
    text.try_write(format_args!(" {record} key {key} nonce {nonce} age {age}\n"))
}

/// Appends a line for each part that a router counted last from a Map-Server, from 0 on: its Key ID and nonce; for the
/// first part also where nothing was counted. Out of memory, it leaves a front of them.
pub fn put_acks<A: Memory, E: Allocator>(
    text: &mut String<A>,
    config: &Config<E>,
    router: usize,
    server: usize,
    counted: &[Option<(u8, u64)>],
) -> Result<(), AllocError>
    ensures text { Adds result text.old text.new (ack_text config.now router server counted.now) }
    ensures front { AddsFront result text.old text.new
        (ack_text config.now router server counted.now) }
    ensures memory { OnErr result A.may_refuse }
{
    for (part, pair) in counted.iter().enumerate() {
        put_ack(text, config, router, server, part, *pair)?;
    }
    Ok(())
}

// Appends the line of a part, if it has one: of the first always, of another one where something was counted. Out of
// memory, it leaves a front of it.
fn put_ack<A: Memory, E: Allocator>(
    text: &mut String<A>,
    config: &Config<E>,
    router: usize,
    server: usize,
    part: usize,
    counted: Option<(u8, u64)>,
) -> Result<(), AllocError>
    ensures text { Adds result text.old text.new
        (ack_of_part config.now router server part counted) }
    ensures front { AddsFront result text.old text.new
        (ack_of_part config.now router server part counted) }
    ensures memory { OnErr result A.may_refuse }
{
    if part == 0 || counted.is_some() {
        put_ack_line(text, config, router, server, part, counted)
    } else {
        Ok(())
    }
}

// Appends the line of what was counted of a part. Out of memory, it leaves a front of it.
fn put_ack_line<A: Memory, E: Allocator>(
    text: &mut String<A>,
    config: &Config<E>,
    router: usize,
    server: usize,
    part: usize,
    counted: Option<(u8, u64)>,
) -> Result<(), AllocError>
    ensures text { Adds result text.old text.new (ack_line config.now router server part counted) }
    ensures front { AddsFront result text.old text.new
        (ack_line config.now router server part counted) }
    ensures memory { OnErr result A.may_refuse }
{
    let (router, server) = (node_name(config, router), node_name(config, server));
    put_words(text, "acks ")?;
    put_pair(text, router, server)?;
    put_part(text, part)?;
    put_counted(text, counted)?;
    put_words(text, "\n")
}

// Appends the names of two nodes.
#[tactic(auto, using(crate::proofs::Appends::steps))]
fn put_pair<A: Memory>(text: &mut String<A>, one: &str, other: &str) -> Result<(), AllocError>
    ensures text { Adds result text.old text.new (pair_text one.now other.now) }
    ensures front { AddsFront result text.old text.new (pair_text one.now other.now) }
    ensures memory { OnErr result A.may_refuse }
{
    put_words(text, one)?;
    put_words(text, " ")?;
    put_words(text, other)
}

// Appends a Key ID and a nonce that were counted, or that there are none.
fn put_counted<A: Memory>(
    text: &mut String<A>,
    counted: Option<(u8, u64)>,
) -> Result<(), AllocError>
    ensures text { Adds result text.old text.new (counted_words counted) }
    ensures front { AddsFront result text.old text.new (counted_words counted) }
    ensures memory { OnErr result A.may_refuse }
{
    match counted {
        Some((key, nonce)) => put_keyed(text, key, nonce),
        None => put_words(text, " none"),
    }
}

/// Who answers for an address at a Map-Server.
pub fn ask_text<A: Memory + Copy, E: Allocator, F: Allocator>(
    alloc: A,
    config: &Config<E>,
    server: usize,
    addr: &Addr,
    answer: &Answer<'_, F>,
) -> Result<String<A>, AllocError>
    ensures text { GivesText result (ask_text config.now server addr.now answer.now) }
    ensures memory { OnErr result A.may_refuse }
{
    let server = node_name(config, server);
    let addr = addr_to_text(alloc, addr)?;
    let answer = answer_text(alloc, answer)?;
    String::try_format(alloc, format_args!("ask {server} {addr} {answer}\n"))
}

// Who answers.
fn answer_text<A: Memory + Copy, F: Allocator>(
    alloc: A,
    answer: &Answer<'_, F>,
) -> Result<String<A>, AllocError>
    ensures text { GivesText result (answer_words answer.now) }
    ensures memory { OnErr result A.may_refuse }
{
    match answer {
        Answer::NoSite => String::try_from_str(alloc, "nosite 15"),
        Answer::NotRegistered => String::try_from_str(alloc, "unregistered 1"),
        Answer::Reply(entry) => {
            let record = record_to_text(alloc, entry)?;
            String::try_format(alloc, format_args!("reply {record}"))
        }
        Answer::Forward(addr) => {
            let addr = addr_to_text(alloc, addr)?;
            String::try_format(alloc, format_args!("forward {addr}"))
        }
    }
}

/// Which Map-Server is due to a router, and of which part of its database.
pub fn due_server_text<A: Memory, E: Allocator>(
    alloc: A,
    config: &Config<E>,
    router: usize,
    due: Option<(usize, usize)>,
) -> Result<String<A>, AllocError>
    ensures text { GivesText result (due_text config.now router (due_server config.now due)) }
    ensures memory { OnErr result A.may_refuse }
{
    let router = node_name(config, router);
    match due {
        Some((server, 0)) => due_text(alloc, router, node_name(config, server)),
        Some((server, part)) => due_part_text(alloc, router, node_name(config, server), part),
        None => due_text(alloc, router, NONE),
    }
}

/// To which router a notice of a Map-Server is due.
pub fn due_router_text<A: Memory, E: Allocator>(
    alloc: A,
    config: &Config<E>,
    wording: Wording,
    server: usize,
    router: Option<RouterId>,
) -> Result<String<A>, AllocError>
    ensures text { GivesText result
        (due_text config.now server (due_router config.now wording router)) }
    ensures memory { OnErr result A.may_refuse }
{
    let server = node_name(config, server);
    match router {
        Some(router) => due_known_text(alloc, config, wording, server, &router),
        None => due_text(alloc, server, NONE),
    }
}

// The router to which a notice is due.
#[tactic(auto, using(crate::proofs::Appends::steps))]
fn due_known_text<A: Memory, E: Allocator>(
    alloc: A,
    config: &Config<E>,
    wording: Wording,
    server: &str,
    router: &RouterId,
) -> Result<String<A>, AllocError>
    ensures text { GivesText result (codes "due " ++ pair_text
        server.now (router_word config.now wording router.now) ++ 10 ∷ []) }
    ensures memory { OnErr result A.may_refuse }
{
    let mut text = String::try_format(alloc, format_args!("due {server} "))?;
    put_router_word(&mut text, config, wording, router)?;
    text.try_write("\n")?;
    Ok(text)
}

// Who is due to a node.
fn due_text<A: Memory>(alloc: A, node: &str, whom: &str) -> Result<String<A>, AllocError>
    ensures text { GivesText result (codes "due " ++ pair_text node.now whom.now ++ 10 ∷ []) }
    ensures memory { OnErr result A.may_refuse }
{
    String::try_format(alloc, format_args!("due {node} {whom}\n"))
}

// Which Map-Server is due to a router, of a part that isn't the first.
fn due_part_text<A: Memory>(
    alloc: A,
    router: &str,
    server: &str,
    part: usize,
) -> Result<String<A>, AllocError>
    ensures text { GivesText result
        (codes "due " ++ pair_text router.now
        (server.now ++ codes " part " ++ decimal part) ++ 10 ∷ []) }
    ensures memory { OnErr result A.may_refuse }
{
    String::try_format(alloc, format_args!("due {router} {server} part {part}\n"))
}
