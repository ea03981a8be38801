//! What a Map-Server is asked.

ghost use Rattle.std.specs.Prelude.{IfOk, OnErr};
ghost use Rattle.std.specs.String.{string_bytes};
ghost use Rattle.lisp_lines.specs.Server.{TellsHeld, TellsAnswer, TellsDueRouter, TellsServer};

use crate::query::{ask_text, due_router_text, hold_text};
use crate::wording::Wording;
use lisp_memory::Memory;
use lisp_records::Addr;
use lisp_server::Server;
use lisp_sites::Config;
use std::alloc::{AllocError, Allocator};

/// What a Map-Server is asked.
#[derive(Clone, Copy, Debug, PartialEq, Eq)]
pub enum ServerQuestion {
    /// Which rows it holds.
    Hold,
    /// Who answers for an address.
    Ask(Addr),
    /// To which router a notice is due.
    Due,
}

/// The lines that answer a question to the Map-Server with a number, by its core at a moment, in ms, in this wording. Takes
/// memory of `alloc`.
pub fn server_answer<A: Memory + Copy, E: Allocator>(
    alloc: A,
    config: &Config<E>,
    wording: Wording,
    number: usize,
    core: &Server<A>,
    question: ServerQuestion,
    now: u64,
) -> Result<String<A>, AllocError>
    ensures told { IfOk result
        (λ text. TellsServer A config.now wording number core.now question now (string_bytes text)) }
    ensures memory { OnErr result A.may_refuse }
{
    match question {
        ServerQuestion::Hold => held(alloc, config, wording, number, core, now),
        ServerQuestion::Ask(addr) => answer(alloc, config, number, core, addr, now),
        ServerQuestion::Due => due_router_text(
            alloc,
            config,
            wording,
            number,
            core.due_notices(now),
        ),
    }
}

// Which rows it holds.
fn held<A: Memory + Copy, E: Allocator>(
    alloc: A,
    config: &Config<E>,
    wording: Wording,
    number: usize,
    core: &Server<A>,
    now: u64,
) -> Result<String<A>, AllocError>
    ensures told { IfOk result
        (λ text. TellsHeld config.now wording number core.now now (string_bytes text)) }
    ensures memory { OnErr result A.may_refuse }
{
    let rows = core.held(now)?;
    hold_text(alloc, config, wording, number, now, &rows)
}

// Who answers for an address.
fn answer<A: Memory + Copy, E: Allocator>(
    alloc: A,
    config: &Config<E>,
    number: usize,
    core: &Server<A>,
    addr: Addr,
    now: u64,
) -> Result<String<A>, AllocError>
    ensures told { IfOk result
        (λ text. TellsAnswer A config.now number core.now addr now (string_bytes text)) }
    ensures memory { OnErr result A.may_refuse }
{
    let answer = core.answer(&addr, now);
    ask_text(alloc, config, number, &addr, &answer)
}
