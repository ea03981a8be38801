//! The text of what a Map-Server sends for an EID-Prefix that a Map-Request asks for.

ghost use Rattle.lisp_lines.specs.Front.{Adds, GivesText};
ghost use Rattle.lisp_lines.specs.Records.{record_line};
ghost use Rattle.lisp_lines.specs.Reply.{to_text, negative_words, reply_words, records_of, request_head, request_text};
ghost use Rattle.std.specs.List.{flat_map};
ghost use Rattle.std.specs.Prelude.{OnErr};

use crate::name::node_name;
use crate::records::put_entries;
use lisp_memory::{FallibleString, Memory};
use lisp_records::{Addr, Prefix};
use lisp_replies::Reply;
use lisp_sites::Config;
use lisp_texts::{addr_to_text, prefix_to_text};
use std::alloc::{AllocError, Allocator};

/// What a Map-Server sends for an EID-Prefix to an ITR with this ITR-RLOC, where one is named: a line, and one for each record of a
/// Map-Reply.
pub fn request_text<A: Memory + Copy, E: Allocator, F: Allocator>(
    alloc: A,
    config: &Config<E>,
    server: usize,
    asked: &Prefix,
    from: Option<Addr>,
    reply: &Reply<F>,
) -> Result<String<A>, AllocError>
    ensures text { GivesText result
        (request_text config.now server asked.now from reply.now) }
    ensures memory { OnErr result A.may_refuse }
{
    let words = reply_words(alloc, from, reply)?;
    let mut text = request_head(alloc, node_name(config, server), asked, &words)?;
    put_records(alloc, &mut text, reply)?;
    Ok(text)
}

// The line before the records.
fn request_head<A: Memory + Copy>(
    alloc: A,
    server: &str,
    asked: &Prefix,
    words: &str,
) -> Result<String<A>, AllocError>
    ensures text { GivesText result (request_head server.now asked.now words.now) }
    ensures memory { OnErr result A.may_refuse }
{
    let asked = prefix_to_text(alloc, asked)?;
    String::try_format(alloc, format_args!("request {server} {asked} {words}\n"))
}

// What is sent.
fn reply_words<A: Memory + Copy, F: Allocator>(
    alloc: A,
    from: Option<Addr>,
    reply: &Reply<F>,
) -> Result<String<A>, AllocError>
    ensures text { GivesText result (reply_words from reply.now) }
    ensures memory { OnErr result A.may_refuse }
{
    match reply {
        Reply::Records(records) => {
            let count = records.as_slice().len();
            let to = to_words(alloc, from)?;
            String::try_format(alloc, format_args!("reply {count}{to}"))
        }
        Reply::Negative(hole) => negative_words(alloc, from, &hole.eid, hole.ttl),
        Reply::Forward(to) => {
            let to = addr_to_text(alloc, to)?;
            String::try_format(alloc, format_args!("forwarded {to}"))
        }
        Reply::Silent => String::try_from_str(alloc, "silent starting"),
    }
}

// A negative Map-Reply, which may be kept for some minutes.
fn negative_words<A: Memory + Copy>(
    alloc: A,
    from: Option<Addr>,
    eid: &Prefix,
    ttl: u32,
) -> Result<String<A>, AllocError>
    ensures text { GivesText result (negative_words from eid.now ttl) }
    ensures memory { OnErr result A.may_refuse }
{
    let eid = prefix_to_text(alloc, eid)?;
    let to = to_words(alloc, from)?;
    String::try_format(alloc, format_args!("negative {eid} {ttl}{to}"))
}

// Where a Map-Reply goes.
fn to_words<A: Memory + Copy>(alloc: A, from: Option<Addr>) -> Result<String<A>, AllocError>
    ensures text { GivesText result (to_text from) }
    ensures memory { OnErr result A.may_refuse }
{
    match from {
        Some(rloc) => {
            let rloc = addr_to_text(alloc, &rloc)?;
            String::try_format(alloc, format_args!(" to {rloc}"))
        }
        None => Ok(String::new(alloc)),
    }
}

// Appends the lines of the records of a Map-Reply. Out of memory, it may leave a part of them.
fn put_records<A: Memory + Copy, F: Allocator>(
    alloc: A,
    text: &mut String<A>,
    reply: &Reply<F>,
) -> Result<(), AllocError>
    ensures text { Adds result text.old text.new
        (flat_map record_line (records_of reply.now)) }
    ensures memory { OnErr result A.may_refuse }
{
    match reply {
        Reply::Records(records) => put_entries(alloc, text, records.as_slice()),
        _ => Ok(()),
    }
}
