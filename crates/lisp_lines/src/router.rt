//! What a router is asked.

ghost use Rattle.std.specs.Prelude.{◌≡◌, IfOk, OnErr};
ghost use Rattle.std.specs.String.{string_bytes};
ghost use Rattle.lisp_lines.specs.Router.{ListsCounts, TellsRouter, due_in};

use crate::query::{due_server_text, put_acks};
use crate::records::records_text;
use lisp_etr::Etr;
use lisp_memory::Memory;
use lisp_sites::Config;
use std::alloc::{AllocError, Allocator};

/// What a router is asked.
#[derive(Clone, Copy, Debug, PartialEq, Eq)]
pub enum RouterQuestion {
    /// What it counted last of each part from each of its Map-Servers.
    Acks,
    /// Which Map-Server is due, and of which part of its database.
    Due,
    /// Which records it registers.
    Records,
}

/// The lines that answer a question to the router with a number, which registers with the Map-Servers with these numbers, by its core
/// at a moment, in ms. Takes memory of `alloc`.
pub fn router_answer<A: Memory + Copy, E: Allocator>(
    alloc: A,
    config: &Config<E>,
    number: usize,
    servers: &[usize],
    core: &Etr<A>,
    question: RouterQuestion,
    now: u64,
) -> Result<String<A>, AllocError>
    ensures told { IfOk result
        (λ text. TellsRouter config.now number servers.now core.now question now
        (string_bytes text)) }
    ensures memory { OnErr result A.may_refuse }
{
    match question {
        RouterQuestion::Acks => counts(alloc, config, number, servers, core),
        RouterQuestion::Due => due_server_text(alloc, config, number, due(servers, core, now)),
        RouterQuestion::Records => records_text(alloc, config, number, core.database().records()),
    }
}

// The first of these Map-Servers that is due at a moment, and the first part that is due there.
fn due<A: Memory + Copy>(servers: &[usize], core: &Etr<A>, now: u64) -> Option<(usize, usize)>
    ensures { result ≡ due_in core.now servers.now now }
{
    let (place, part) = core.due(now)?;
    let server = servers.get(place)?;
    Some((*server, part))
}

// The lines of these Map-Servers: what the router counted last of each part from it.
fn counts<A: Memory + Copy, E: Allocator>(
    alloc: A,
    config: &Config<E>,
    number: usize,
    servers: &[usize],
    core: &Etr<A>,
) -> Result<String<A>, AllocError>
    ensures told { IfOk result
        (λ text. ListsCounts config.now number servers.now core.now (string_bytes text)) }
    ensures memory { OnErr result A.may_refuse }
{
    let mut text = String::new(alloc);
    for (place, server) in servers.iter().enumerate() {
        put_acks(&mut text, config, number, *server, core.acked(place))?;
    }
    Ok(text)
}
