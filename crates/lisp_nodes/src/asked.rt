//! What a node that was asked for a message, or given another key, another database or other sites, makes of it: the event's
//! line, and the message, if any.

ghost use Rattle.std.specs.Prelude.{◌≡◌, IfOk, IfSome, IsSome};
ghost use Rattle.lisp_messages.specs.Head.{head_at};
ghost use Rattle.lisp_model.specs.declared.line.Line.TheVariants as lines;
ghost use Rattle.lisp_refinement.specs.Events.{reload_line};
ghost use Rattle.lisp_nodes.specs.Asked.{SaysSent, SaysNotice, said_resent, said_changed, asked_rotate_line};

use lisp_etr::{RotateFault, SendFault};
use lisp_messages::Head;
use lisp_model::{Line, Refusal};
use lisp_records::{Addr, Bytes};
use lisp_server::NoticeFault;
use std::alloc::Allocator;

/// What a router with a number made of being asked for a Map-Register of a part to a Map-Server, which is the datagram with
/// the number (RFC 9301 section 5.6): its line, and the message. Where it is down its line is `Down`.
pub fn sent<A: Allocator>(
    router: usize,
    server: usize,
    part: usize,
    datagram: usize,
    answer: Option<Result<Bytes<A>, SendFault>>,
) -> (Line, Option<Bytes<A>>)
    requires { IfSome answer (λ sent. IfOk sent (λ bytes. IsSome (head_at bytes))) }
    ensures { SaysSent router server part datagram answer result }
{
    match answer {
        Some(Ok(message)) => {
            let Head { key_id, nonce } = Head::read(message.as_slice()).unwrap();
            let line = Line::Sent {
                router,
                server,
                part,
                key: key_id,
                nonce,
                datagram,
            };
            (line, Some(message))
        }
        Some(Err(fault)) => (refused(router, Refusal::Send(fault)), None),
        None => (Line::Down { router }, None),
    }
}

/// What a Map-Server with a number made of being asked for a notice to a router, which is the datagram with the number
/// (section 5.7): its line, and the message with the address that it goes to.
pub fn noticed<A: Allocator>(
    server: usize,
    router: usize,
    datagram: usize,
    answer: Result<(Addr, Bytes<A>), NoticeFault>,
) -> (Line, Option<(Addr, Bytes<A>)>)
    requires { IfOk answer (λ sent. IsSome (head_at sent.1)) }
    ensures { SaysNotice server router datagram answer result }
{
    match answer {
        Ok((to, message)) => {
            let head = Head::read(message.as_slice()).unwrap();
            let line = Line::Notice {
                server,
                router,
                key: head.key_id,
                nonce: head.nonce,
                datagram,
            };
            (line, Some((to, message)))
        }
        Err(fault) => (refused(server, Refusal::Notice(fault)), None),
    }
}

/// The same of a notice that it was asked to send again.
pub fn resent<A: Allocator>(
    server: usize,
    router: usize,
    datagram: usize,
    answer: Result<(Addr, Bytes<A>), NoticeFault>,
) -> (Line, Option<(Addr, Bytes<A>)>)
    ensures { result ≡ said_resent server router datagram answer }
{
    match answer {
        Ok(message) => (
            Line::Resent {
                server,
                router,
                datagram,
            },
            Some(message),
        ),
        Err(fault) => (refused(server, Refusal::Notice(fault)), None),
    }
}

/// The line of a router with a number that was given another database, of so many records, and took it where it is up.
pub fn changed(router: usize, records: usize, is_up: bool) -> Line
    ensures { result ≡ said_changed router records is_up }
{
    if is_up {
        Line::Changed { router, records }
    } else {
        Line::Down { router }
    }
}

/// The line of a Map-Server with a number that took other sites, so many, and went on with what it holds or started anew.
pub fn reloaded(server: usize, goes_on: bool, sites: usize) -> Line
    ensures { result ≡ reload_line server goes_on sites }
{
    if goes_on {
        Line::Reloaded { server, sites }
    } else {
        Line::Renewed { server, sites }
    }
}

/// The line of a router with a number that was asked to go over to a key. Where it is down its line is `Down`.
pub fn rotated(router: usize, key: u8, answer: Option<Result<(), RotateFault>>) -> Line
    ensures { result ≡ asked_rotate_line router key answer }
{
    match answer {
        Some(Ok(())) => Line::Rotated { router, key },
        Some(Err(fault)) => refused(router, Refusal::Rotate(fault)),
        None => Line::Down { router },
    }
}

// The line of a node that refused.
fn refused(node: usize, what: Refusal) -> Line
    ensures { result ≡ lines.Refused node what }
{
    Line::Refused { node, what }
}
