//! The datagrams of a network, over a socket for each node.

ghost use Rattle.std.specs.Prelude.{◌≡◌, ◌↔◌, ◌++◌, ◌∷◌, [], None, false, IsTrue, IfOk, IfSome, OnOk, OnErr};
ghost use Rattle.lisp_turns.specs.Outside.{Receives, Reception, FitsBuffer, reception};
ghost use Rattle.lisp_sites.specs.Numbers.{IsNode};
ghost use Rattle.lisp_udp.specs.Arrivals.{IsArrival, IsArrivalOf};
ghost use Rattle.lisp_udp.specs.Printing.{WritesTold, CutsTold};
ghost use Rattle.lisp_udp.specs.Sockets.{SocketValue, IsSocketAt, AreSockets, IsNowhere, IsPlaceOf, Asks, ArrivesAt, SendsAt, TellsArrival, SendsOne};

use crate::entry::{NodeEntry, entry_at};
use crate::output::{print_failed, print_lost};
use crate::socket::NodeSocket;
use lisp_memory::FallibleVec;
use lisp_records::Addr;
use lisp_script::RunFault;
use lisp_sites::Config;
use lisp_turns::{Endpoint, Received, SocketCall};
use lisp_world::Datagram;
use std::alloc::Global;
use std::io::Write;
use std::marker::Model;
use std::net::Net;

/// How long a delivery waits for its datagram, in ms.
const RECEIVE_TIMEOUT_MS: u64 = 1_000;

/// The most bytes of a datagram.
const MOST_BYTES: usize = 65_535;

/// The socket of a node, with the node's name and address.
#[derive(Drop)]
pub(crate) struct NamedSocket<'a, E: Endpoint> {
    name: &'a str,
    address: Addr,
    socket: E,
}

impl<'a, E: Endpoint> Model for NamedSocket<'a, E> {
    ghost use Rattle.std.specs.Coded.{codes};
    ghost use Rattle.lisp_server.specs.LastNonces.{nonces_code};
    ghost use Rattle.lisp_udp.specs.Sockets.{SocketValue};

    ghost Value = { SocketValue };

    ghost coded = { Prim.hlevel (codes, nonces_code) };

    ghost view = { λ s. record { name = s.name.now; address = s.address; seen = E.seen s.socket } };
}

/// A socket for each node, Map-Servers first.
#[derive(Drop)]
pub(crate) struct Sockets<'a, E: Endpoint> {
    sockets: Vec<NamedSocket<'a, E>>,
}

impl<'a> Sockets<'a, NodeSocket> {
    /// A socket at the address of each node. Faults: 92, 97.
    pub(crate) fn bind<R: Net + AllocGlobal>(
        rt: &R,
        config: &'a Config,
    ) -> Result<Sockets<'a, NodeSocket>, RunFault>
        ensures { IfOk result (λ sockets. AreSockets config.now sockets.sockets.items) }
    {
        let mut sockets = Sockets {
            sockets: Vec::new(rt.alloc()),
        };
        for number in 0..config.node_count() {
            sockets.add(rt, config, number)?;
        }
        Ok(sockets)
    }

    // A socket at the address of the node with a number, too. Faults: 92, 97.
    fn add<R: Net>(&mut self, rt: &R, config: &'a Config, number: usize) -> Result<(), RunFault>
        requires { IsNode config.now number }
        ensures { OnOk result ((s : SocketValue) × IsSocketAt config.now number s
            × (self.new.sockets.items ≡ self.old.sockets.items ++ s ∷ [])) }
    {
        let NodeEntry { name, address, .. } = entry_at(config, number);
        let socket = NodeSocket::bind(rt, address, RECEIVE_TIMEOUT_MS)?;
        let address = *address;
        self.sockets.try_push(NamedSocket {
            name,
            address,
            socket,
        })?;
        Ok(())
    }
}

impl<E: Endpoint> Sockets<'_, E> {
    /// Whether the next datagram at the node that datagram k was sent to is datagram k, byte for byte, or it was sent to no
    /// node. Else it prints that datagram k is lost, or that the socket failed. Faults: 88, 97.
    pub(crate) fn arrives<W: Write>(
        &mut self,
        alloc: Global,
        k: usize,
        datagram: &Datagram,
        writer: &mut W,
    ) -> Result<bool, RunFault>
        ensures told { IfOk result
            (λ arrived. WritesTold W.contents writer.old writer.new
            (TellsArrival self.old.sockets.items self.new.sockets.items k datagram.now arrived)) }
        ensures cut { OnErr result
            (CutsTold W.contents writer.old writer.new
            (TellsArrival self.old.sockets.items self.new.sockets.items k datagram.now false)) }
    {
        let Some(at) = self.place_of(&datagram.to) else {
            return Ok(true);
        };
        arrives_at(alloc, &mut self.sockets[at], k, datagram, writer)
    }

    /// Sends a datagram from its node, where it goes to one; prints that the socket failed, where it did. Faults: 88, 97.
    pub(crate) fn send<W: Write>(
        &mut self,
        alloc: Global,
        datagram: &Datagram,
        writer: &mut W,
    ) -> Result<(), RunFault>
        ensures told { OnOk result
            (WritesTold W.contents writer.old writer.new
            (SendsOne self.old.sockets.items self.new.sockets.items datagram.now)) }
        ensures cut { OnErr result
            (CutsTold W.contents writer.old writer.new
            (SendsOne self.old.sockets.items self.new.sockets.items datagram.now)) }
    {
        let Some(_) = self.place_of(&datagram.to) else {
            return Ok(());
        };
        let Some(from) = self.place_of(&datagram.from) else {
            return Ok(());
        };
        send_from(alloc, &mut self.sockets[from], datagram, writer)
    }

    // The place of the socket at an address.
    fn place_of(&self, address: &Addr) -> Option<usize>
        ensures found { IfSome result (λ at. IsPlaceOf self.now.sockets.items address.now at) }
        ensures none { result ≡ None → IsNowhere self.now.sockets.items address.now }
    {
        for at in 0..self.sockets.len() {
            if is_at(&self.sockets[at], address) {
                return Some(at);
            }
        }
        None
    }
}

fn is_at<E: Endpoint>(socket: &NamedSocket<'_, E>, address: &Addr) -> bool
    ensures { IsTrue result ↔ (socket.now.address ≡ address.now) }
{
    socket.address == *address
}

/// What came of waiting for a datagram.
#[derive(Clone, Copy)]
enum Arrival {
    // It came, byte for byte.
    Arrived,
    // Something else came, or nothing.
    Lost,
    // The socket failed.
    Failed,
}

// Whether the next datagram at a socket is this one; else it prints what came of it. Faults: 88, 97.
fn arrives_at<E: Endpoint, W: Write>(
    alloc: Global,
    socket: &mut NamedSocket<'_, E>,
    k: usize,
    datagram: &Datagram,
    writer: &mut W,
) -> Result<bool, RunFault>
    ensures told { IfOk result
        (λ arrived. WritesTold W.contents writer.old writer.new
        (ArrivesAt socket.old socket.new k datagram.now.bytes arrived)) }
    ensures cut { OnErr result
        (CutsTold W.contents writer.old writer.new
        (ArrivesAt socket.old socket.new k datagram.now.bytes false)) }
{
    match next_is(socket, datagram) {
        Arrival::Arrived => return Ok(true),
        Arrival::Lost => print_lost(alloc, k, writer)?,
        Arrival::Failed => print_failed(alloc, socket.name, SocketCall::Receive, writer)?,
    }
    Ok(false)
}

// Whether the next datagram at a socket is this one.
fn next_is<E: Endpoint>(socket: &mut NamedSocket<'_, E>, datagram: &Datagram) -> Arrival
    ensures { (reception : Reception) × Asks socket.old socket.new (Receives reception)
        × IsArrival datagram.now.bytes reception result }
{
    let mut buffer = [0; MOST_BYTES];
    let received = socket.socket.receive(&mut buffer);
    arrival_in(&buffer, received, datagram)
}

// What came, in a buffer.
fn arrival_in(buffer: &[u8], received: Received, datagram: &Datagram) -> Arrival
    requires { FitsBuffer received buffer.now }
    ensures { IsArrival datagram.now.bytes (reception received buffer.now) result }
{
    match received {
        Received::Datagram { count, .. } => compared(&buffer[..count], datagram),
        Received::Nothing => Arrival::Lost,
        Received::Failed => Arrival::Failed,
    }
}

fn compared(received: &[u8], datagram: &Datagram) -> Arrival
    ensures { IsArrivalOf datagram.now.bytes received.now result }
{
    if received == datagram.bytes.as_slice() {
        Arrival::Arrived
    } else {
        Arrival::Lost
    }
}

// Sends a datagram from a socket; prints that it failed, where it did. Faults: 88, 97.
fn send_from<E: Endpoint, W: Write>(
    alloc: Global,
    socket: &mut NamedSocket<'_, E>,
    datagram: &Datagram,
    writer: &mut W,
) -> Result<(), RunFault>
    ensures told { OnOk result
        (WritesTold W.contents writer.old writer.new (SendsAt socket.old socket.new datagram.now)) }
    ensures cut { OnErr result
        (CutsTold W.contents writer.old writer.new (SendsAt socket.old socket.new datagram.now)) }
{
    if socket.socket.send(&datagram.to, datagram.bytes.as_slice()) {
        return Ok(());
    }
    print_failed(alloc, socket.name, SocketCall::Send, writer)
}
