//! A look of the program, over the system's socket and clock.

ghost use Rattle.std.specs.Prelude.{◌≡◌, IfOk, IfSome};
ghost use Rattle.lisp_records.specs.Address.{family};

use crate::fault::LookFault;
use crate::look::Look;
use crate::looking::look_for;
use crate::socket::{LookSocket, route_to};
use lisp_records::{Addr, Prefix};
use std::io::Write;
use std::net::Net;
use std::random::RandomSource;
use std::time::Clock;

/// What is asked, and of whom.
#[derive(Debug, Drop)]
pub struct Question {
    /// The EID-Prefix that is asked for.
    pub eid: Prefix,
    /// The address of the Map-Server.
    pub server: Addr,
    /// The ITR-RLOC, of the same family; `None` where it is the address from which the system reaches the Map-Server.
    pub from: Option<Addr>,
    /// How many Map-Requests are sent at most.
    pub tries: u32,
}

/// Asks a Map-Server, and prints the Map-Reply that answers (`look_for`). Faults: `NoItrRloc`, `Bind`, `NoNonce`, those of `look_for`, and
/// `Negative` where the Map-Reply isn't positive.
pub fn run_look<R: Net + Clock + RandomSource + AllocGlobal, W: Write>(
    rt: &R,
    question: &Question,
    writer: &mut W,
) -> Result<(), LookFault>
    requires { IfSome question.now.from (λ from. family from ≡ family question.now.server) }
{
    let from = itr_rloc(rt, question)?;
    let (mut socket, port) = LookSocket::bind(rt, &from)?;
    let asked = Look {
        eid: question.eid,
        from,
        port,
        nonce: nonce(rt)?,
    };
    let positive = look_for(
        rt.alloc(),
        &mut socket,
        &asked,
        &question.server,
        question.tries,
        writer,
    )?;
    if positive {
        Ok(())
    } else {
        Err(LookFault::Negative)
    }
}

// The ITR-RLOC: that which is named, else the address from which the system reaches the Map-Server, else the Map-Server's own where
// that is of the loopback. It is of the family of the Map-Server, which replies to no other.
fn itr_rloc<R: Net>(rt: &R, question: &Question) -> Result<Addr, LookFault>
    requires { IfSome question.now.from (λ from. family from ≡ family question.now.server) }
    ensures { IfOk result (λ from. family from ≡ family question.now.server) }
{
    if let Some(from) = question.from {
        return Ok(from);
    }
    match route_to(rt, &question.server) {
        Some(from) if from.family() == question.server.family() => Ok(from),
        _ if is_loopback(&question.server) => Ok(question.server),
        _ => Err(LookFault::NoItrRloc),
    }
}

// Whether an address is of the loopback: 127.0.0.0/8, or ::1.
fn is_loopback(addr: &Addr) -> bool {
    match addr {
        Addr::V4(octets) => octets[0] == 127,
        Addr::V6(octets) => u128::from_be_bytes(*octets) == 1,
    }
}

// A nonce, of 64 random bits.
fn nonce<R: RandomSource>(rt: &R) -> Result<u64, LookFault> {
    let mut bytes = [0; 8];
    match rt.fill_bytes(&mut bytes) {
        Ok(()) => Ok(u64::from_be_bytes(bytes)),
        Err(_) => Err(LookFault::NoNonce),
    }
}
