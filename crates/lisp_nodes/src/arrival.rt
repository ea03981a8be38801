//! Bytes arrive at a node: the event's line, and what the node answers, if anything.

ghost use Rattle.std.specs.Prelude.{◌≡◌, ◌<◌, ◌+◌, ◌++◌, length};
ghost use Rattle.std.specs.Vec.{vec_len, vec_capacity};
ghost use Rattle.lisp_records.specs.declared.address.Addr.{Addr};
ghost use Rattle.lisp_model.specs.Memory.{MayTell};
ghost use Rattle.lisp_refinement.specs.Events.{server_line, server_number, replies, router_line, acknowledges, datagram_to};
ghost use Rattle.lisp_nodes.specs.Asked.{datagram_of};
ghost use Rattle.lisp_nodes.specs.Hearing.{NodesHear, ServerHears, OneRouterHears};

use crate::datagram::{Datagram, post};
use crate::router_node::RouterNode;
use crate::server_node::ServerNode;
use lisp_admission::Refused;
use lisp_etr::{NotifyFault, Seen};
use lisp_memory::Memory;
use lisp_model::{Line, Refusal};
use lisp_nonces::{Fate, WorldStore};
use lisp_records::{Addr, Bytes};
use lisp_server::Took;
use std::alloc::Allocator;

/// How bytes arrive at a node.
#[derive(Clone, Copy)]
pub struct Arrival {
    /// What is to become of the calls of the node's store.
    pub fate: Fate,
    /// The address that they come from.
    pub from: Addr,
    /// The moment, in ms.
    pub now: u64,
    /// The number of the datagram that is sent next.
    pub next: usize,
}

/// A node of a network, by its number, is given bytes: the line of that event, and the message that it answers, if any,
/// which is the datagram with the number `next`. Map-Servers are numbered first, then routers. The other nodes are left
/// unchanged, and so is a router that is down: its line is `Down`. The line is `Refused` where the node refuses the bytes.
pub fn hear<S: WorldStore, A: Memory + Copy>(
    servers: &mut [ServerNode<S, A>],
    routers: &mut [RouterNode<S, A>],
    node: usize,
    how: Arrival,
    bytes: &[u8],
) -> (Line, Option<Bytes<A>>)
    requires { node < length servers.old + length routers.old }
    ensures hears { NodesHear A servers.old servers.new routers.old routers.new node how bytes.now
        result }
    ensures tells { MayTell A.may_refuse S.may_refuse result.0 }
{
    if node >= servers.len() {
        return router_hears(&mut routers[node - servers.len()], node, how, bytes);
    }
    server_hears(&mut servers[node], node, how, bytes)
}

/// A Map-Server with a number is given bytes: the line of that event, and the Map-Notify that it answers, if any.
pub fn server_hears<S: WorldStore, A: Memory + Copy>(
    server: &mut ServerNode<S, A>,
    node: usize,
    how: Arrival,
    bytes: &[u8],
) -> (Line, Option<Bytes<A>>)
    ensures hears { ServerHears A server.old server.new node how bytes.now result }
    ensures tells { MayTell A.may_refuse S.may_refuse result.0 }
{
    let answer = server.receive(how.fate, how.from, bytes, how.now);
    (server_line(node, how.next, &answer), server_reply(answer))
}

/// A router with a number is given bytes: the line of that event, and the Map-Notify-Ack that it answers, if any. Where it
/// is down its line is `Down`, and it answers nothing.
pub fn router_hears<S: WorldStore, A: Memory + Copy>(
    router: &mut RouterNode<S, A>,
    node: usize,
    how: Arrival,
    bytes: &[u8],
) -> (Line, Option<Bytes<A>>)
    ensures hears { OneRouterHears A router.old router.new node how bytes.now result }
    ensures tells { MayTell A.may_refuse S.may_refuse result.0 }
{
    let Some(answer) = router.receive(how.fate, how.from, bytes, how.now) else {
        return (Line::Down { router: node }, None);
    };
    let (servers, key) = router.registers_with();
    (
        router_line(node, how.next, servers, key, &answer),
        router_reply(answer),
    )
}

/// The answer of a node, if it gave one, goes to the end of the datagrams that were sent, which have room for it; the
/// others are left unchanged. Takes no memory.
pub fn post_reply<A: Memory>(
    bag: &mut Vec<Datagram<A>, A>,
    from: Addr,
    to: Addr,
    reply: Option<Bytes<A>>,
)
    requires { vec_len bag.old < vec_capacity bag.old }
    ensures { bag.new.items ≡ bag.old.items ++ datagram_to from to reply }
{
    if let Some(bytes) = reply {
        post(bag, Datagram { from, to, bytes });
    }
}

/// A message of a node, if it made one, goes to the end of the datagrams that were sent, which have room for it; the others
/// are left unchanged. Takes no memory.
pub fn post_to<A: Memory>(
    bag: &mut Vec<Datagram<A>, A>,
    from: Addr,
    message: Option<(Addr, Bytes<A>)>,
)
    requires { vec_len bag.old < vec_capacity bag.old }
    ensures { bag.new.items ≡ bag.old.items ++ datagram_of from message }
{
    if let Some((to, bytes)) = message {
        post(bag, Datagram { from, to, bytes });
    }
}

// The line of a Map-Server's answer; a reply is the datagram with the number.
fn server_line<A: Allocator>(
    server: usize,
    datagram: usize,
    answer: &Result<Took<A>, Refused>,
) -> Line
    ensures { result ≡ server_line server datagram answer.now }
{
    match answer {
        Ok(
            Took::Accepted {
                router,
                key,
                nonce,
                reply,
            },
        ) => Line::Accepted {
            server,
            router: *router,
            key: *key,
            nonce: *nonce,
            datagram: match reply {
                Some(_) => Some(datagram),
                None => None,
            },
        },
        Ok(Took::NoticeDone { router, nonce }) => Line::Done {
            server,
            router: *router,
            nonce: *nonce,
        },
        Err(why) => Line::Refused {
            node: server,
            what: Refusal::Receive(*why),
        },
    }
}

// The reply of a Map-Server.
fn server_reply<A: Allocator>(answer: Result<Took<A>, Refused>) -> Option<Bytes<A>>
    ensures { (from to : Addr) → replies from to answer ≡ datagram_to from to result }
{
    match answer {
        Ok(took) => took.into_reply(),
        Err(_) => None,
    }
}

// The line of a router's answer, by the numbers of its Map-Servers and its Key ID; a Map-Notify-Ack is the
// datagram with the number.
fn router_line<A: Allocator>(
    router: usize,
    datagram: usize,
    servers: &[usize],
    key: u8,
    answer: &Result<Seen<A>, NotifyFault>,
) -> Line
    ensures { result ≡ router_line router datagram servers.now key answer.now }
{
    match answer {
        Ok(
            Seen::Counted {
                server,
                part,
                nonce,
            },
        ) => Line::Counted {
            router,
            server: number(servers, *server),
            part: *part,
            key,
            nonce: *nonce,
        },
        Ok(Seen::Notice { server, nonce, .. }) => Line::Noticed {
            router,
            server: number(servers, *server),
            nonce: *nonce,
            datagram,
        },
        Err(fault) => Line::Refused {
            node: router,
            what: Refusal::Notify(*fault),
        },
    }
}

// The number of the Map-Server at a place of a router's list.
fn number(servers: &[usize], place: usize) -> usize
    ensures { result ≡ server_number servers.now place }
{
    servers.get(place).copied().unwrap_or(0)
}

// The Map-Notify-Ack of a router.
fn router_reply<A: Allocator>(answer: Result<Seen<A>, NotifyFault>) -> Option<Bytes<A>>
    ensures { (from to : Addr) → acknowledges from to answer ≡ datagram_to from to result }
{
    match answer {
        Ok(Seen::Notice { answer, .. }) => Some(answer),
        _ => None,
    }
}
