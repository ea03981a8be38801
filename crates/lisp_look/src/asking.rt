//! Asking a Map-Server, and awaiting what answers.

ghost use Rattle.std.specs.Prelude.{◌≡◌, IsErrOf};
ghost use Rattle.lisp_look.specs.Asking.{Asks, AsksFirst, Awaits, heard_in, outcome_of};
ghost use Rattle.lisp_look.specs.Look.{datagram_of};
ghost use Rattle.lisp_look.specs.declared.fault.LookFault.TheVariants.{OutOfMemory};

use crate::answer::Answer;
use crate::fault::LookFault;
use crate::look::{Look, answers, datagram_of};
use crate::outside::{Outside, Received};
use lisp_memory::Memory;
use lisp_records::Addr;
use std::alloc::Allocator;

/// The UDP port of LISP control messages (RFC 9301 section 5).
const CONTROL_PORT: u16 = 4342;

/// The most bytes of a datagram.
const MOST_BYTES: usize = 65_535;

/// How long a Map-Reply is awaited before the Map-Request is sent again, in ms.
const PATIENCE_MS: u64 = 1_000;

/// Sends the Encapsulated Map-Request of a look to a Map-Server, at most `tries` times, a second each, until a Map-Reply with its nonce
/// comes from anywhere; `None` where none does. Faults: `OutOfMemory`, `Send`, `Receive`.
pub fn ask<O: Outside, A: Memory + Copy>(
    alloc: A,
    outside: &mut O,
    look: &Look,
    server: &Addr,
    tries: u32,
) -> Result<Option<Answer<A>>, LookFault>
    ensures asks { AsksFirst look.now server.now tries
        (O.seen outside.old) (O.seen outside.new) (outcome_of result) }
    ensures memory { IsErrOf result OutOfMemory → A.may_refuse }
{
    let started = outside.now();
    let datagram = datagram_of(alloc, look)?;
    let mut buffer = [0; MOST_BYTES];
    for _ in 0..tries {
        let answer = ask_once(
            alloc,
            outside,
            look,
            server,
            &datagram,
            started,
            &mut buffer,
        )?;
        if answer.is_some() {
            return Ok(answer);
        }
    }
    Ok(None)
}

// Sends it once, and awaits what answers it for a second.
fn ask_once<O: Outside, A: Memory + Copy>(
    alloc: A,
    outside: &mut O,
    look: &Look,
    server: &Addr,
    datagram: &[u8],
    started: u64,
    buffer: &mut [u8],
) -> Result<Option<Answer<A>>, LookFault>
    requires { datagram.now ≡ datagram_of look.now }
    ensures asks { Asks look.now server.now started 1
        (O.seen outside.old) (O.seen outside.new) (outcome_of result) }
    ensures memory { IsErrOf result OutOfMemory → A.may_refuse }
{
    if !outside.send(server, CONTROL_PORT, datagram) {
        return Err(LookFault::Send);
    }
    let until = outside.now().saturating_add(PATIENCE_MS);
    await_answer(alloc, outside, look, started, until, buffer)
}

// Awaits what answers it until a moment, in ms.
fn await_answer<O: Outside, A: Memory + Copy>(
    alloc: A,
    outside: &mut O,
    look: &Look,
    started: u64,
    until: u64,
    buffer: &mut [u8],
) -> Result<Option<Answer<A>>, LookFault>
    ensures awaits { Awaits look.now started
        (O.seen outside.old) (O.seen outside.new) (outcome_of result) }
    ensures memory { IsErrOf result OutOfMemory → A.may_refuse }
{
    for _ in 0..u64::MAX {
        match hear(alloc, outside, look, started, until, buffer)? {
            Heard::Answered(answer) => return Ok(Some(answer)),
            Heard::Other => {}
            Heard::Nothing => break,
        }
    }
    Ok(None)
}

/// What came of waiting once.
#[derive(Debug, Drop)]
pub(crate) enum Heard<A: Allocator> {
    /// A Map-Reply that answers the look.
    Answered(Answer<A>),
    /// Another datagram.
    Other,
    /// Nothing until the moment.
    Nothing,
}

// Waits for one datagram until a moment, in ms.
fn hear<O: Outside, A: Memory + Copy>(
    alloc: A,
    outside: &mut O,
    look: &Look,
    started: u64,
    until: u64,
    buffer: &mut [u8],
) -> Result<Heard<A>, LookFault>
    ensures awaits { Awaits look.now started
        (O.seen outside.old) (O.seen outside.new) (heard_in result) }
    ensures memory { IsErrOf result OutOfMemory → A.may_refuse }
{
    let now = outside.now();
    if now >= until {
        return Ok(Heard::Nothing);
    }
    match outside.receive(buffer, until - now) {
        Received::Nothing => Ok(Heard::Nothing),
        Received::Failed => Err(LookFault::Receive),
        Received::Datagram { from, count } => {
            let Some(reply) = answers(alloc, look, &buffer[..count])? else {
                return Ok(Heard::Other);
            };
            let ms = outside.now().saturating_sub(started);
            Ok(Heard::Answered(Answer { from, ms, reply }))
        }
    }
}
