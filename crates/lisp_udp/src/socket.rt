//! The UDP socket of a node: one of the devices, whose calls are the system's.

ghost use Rattle.std.specs.Prelude.{◌≡◌, ◌≤◌, ℕ, List, None, false, length, IfOk, IfSome};
ghost use Rattle.lisp_turns.specs.Outside.{FitsBuffer};

use lisp_queue::Incoming;
use lisp_records::Addr;
use lisp_script::RunFault;
use lisp_turns::{Endpoint, Outside, Received};
use std::io::{self, ErrorKind};
use std::net::{IpAddr, Ipv4Addr, Ipv6Addr, Net, SocketAddr, UdpSocket};
use std::time::Duration;

/// The UDP port of LISP control messages (RFC 9301 section 5).
const PORT: u16 = 4342;

/// A socket at a node's address. Of what the system makes of its calls nothing is known.
#[derive(Drop)]
pub struct NodeSocket {
    socket: UdpSocket,
    // Whether its calls wait, a receive for so many ms.
    waits: bool,
    timeout_ms: u64,
    // For how many ms a receive is to wait; `None` where it takes only what waits already.
    receive_ms: Option<u64>,
    // The kind of the last failure.
    failure: Option<ErrorKind>,
}

impl NodeSocket {
    /// A socket at the address, UDP port 4342, which waits so many ms for a datagram. Fault: 92.
    pub fn bind<R: Net>(rt: &R, address: &Addr, timeout_ms: u64) -> Result<NodeSocket, RunFault> {
        let Ok(socket) = UdpSocket::bind(rt, at(address, PORT)) else {
            return Err(RunFault::BIND);
        };
        match socket.set_read_timeout(Some(Duration::from_millis(timeout_ms))) {
            Ok(()) => Ok(NodeSocket {
                socket,
                waits: true,
                timeout_ms,
                receive_ms: Some(timeout_ms),
                failure: None,
            }),
            Err(_) => Err(RunFault::BIND),
        }
    }

    /// For how many ms a receive waits from now on; with `None` it takes only what waits already.
    pub fn set_receive_ms(&mut self, receive_ms: Option<u64>) {
        self.receive_ms = receive_ms;
    }

    /// The kind of the last error of a call that failed.
    pub fn failure(&self) -> Option<ErrorKind> {
        self.failure
    }

    /// Sends a message to a UDP port of an address; whether the system took it.
    pub fn send_to(&mut self, to: &Addr, port: u16, message: &[u8]) -> bool {
        match self.try_send(to, port, message) {
            Ok(_) => true,
            Err(error) => {
                self.failure = Some(error.kind());
                false
            }
        }
    }

    /// The next datagram that comes in the time of a receive, taken into `buffer`, if one does. Where the socket fails, the kind of
    /// the error.
    pub fn take_in_time(&mut self, buffer: &mut [u8]) -> Result<Option<Incoming>, ErrorKind>
        ensures within { IfOk result (λ next.
            IfSome next (λ incoming. incoming.count ≤ length buffer.new)) }
        ensures room { length buffer.new ≡ length buffer.old }
    {
        self.take(buffer, self.receive_ms)
    }

    /// The next datagram that comes in so many ms, taken into `buffer`, if one does; with `None`, that waits already. Where the socket
    /// fails, the kind of the error.
    pub fn take(
        &mut self,
        buffer: &mut [u8],
        ms: Option<u64>,
    ) -> Result<Option<Incoming>, ErrorKind>
        ensures within { IfOk result (λ next.
            IfSome next (λ incoming. incoming.count ≤ length buffer.new)) }
        ensures room { length buffer.new ≡ length buffer.old }
    {
        match self.try_next(buffer, ms) {
            Ok((count, from)) => Ok(Some(Incoming {
                from: address_of(&from),
                port: from.port(),
                count,
            })),
            Err(error) => match error.kind() {
                ErrorKind::WouldBlock | ErrorKind::TimedOut | ErrorKind::Interrupted => Ok(None),
                kind => {
                    self.failure = Some(kind);
                    Err(kind)
                }
            },
        }
    }

    fn try_next(&mut self, buffer: &mut [u8], ms: Option<u64>) -> io::Result<(usize, SocketAddr)>
        ensures within { IfOk result (λ next. next.0 ≤ length buffer.new) }
        ensures room { length buffer.new ≡ length buffer.old }
    {
        self.set_waits(ms.is_some())?;
        if let Some(ms) = ms {
            self.set_timeout(ms)?;
        }
        self.socket.recv_from(buffer)
    }

    fn try_send(&mut self, to: &Addr, port: u16, message: &[u8]) -> io::Result<usize> {
        self.set_waits(true)?;
        self.socket.send_to(message, at(to, port))
    }

    fn set_waits(&mut self, waits: bool) -> io::Result<()> {
        if self.waits != waits {
            self.socket.set_nonblocking(!waits)?;
            self.waits = waits;
        }
        Ok(())
    }

    fn set_timeout(&mut self, ms: u64) -> io::Result<()> {
        if self.timeout_ms != ms {
            self.socket
                .set_read_timeout(Some(Duration::from_millis(ms)))?;
            self.timeout_ms = ms;
        }
        Ok(())
    }
}

impl Outside for NodeSocket {
    ghost seen = { λ _. record { log = None; moment = 0; is_cut = false; is_asked = false } };
}

impl Endpoint for NodeSocket {
    fn receive(&mut self, buffer: &mut [u8]) -> Received {
        received(self.take_in_time(buffer))
    }

    fn poll(&mut self, buffer: &mut [u8]) -> Received {
        received(self.take(buffer, None))
    }

    /// To UDP port 4342 of the address.
    fn send(&mut self, to: &Addr, message: &[u8]) -> bool {
        self.send_to(to, PORT, message)
    }
}

// What came of waiting for a datagram.
fn received(taken: Result<Option<Incoming>, ErrorKind>) -> Received
    ensures { (buffer : List ℕ)
        → IfOk taken (λ next. IfSome next (λ incoming. incoming.count ≤ length buffer))
        → FitsBuffer result buffer }
{
    match taken {
        Ok(Some(Incoming { from, count, .. })) => Received::Datagram { from, count },
        Ok(None) => Received::Nothing,
        Err(_) => Received::Failed,
    }
}

// The UDP port of an address.
fn at(address: &Addr, port: u16) -> SocketAddr {
    let ip = match address {
        Addr::V4(octets) => IpAddr::V4(Ipv4Addr::from_octets(*octets)),
        Addr::V6(octets) => IpAddr::V6(Ipv6Addr::from_octets(*octets)),
    };
    SocketAddr::new(ip, port)
}

fn address_of(socket: &SocketAddr) -> Addr {
    match socket.ip() {
        IpAddr::V4(ip) => Addr::V4(ip.octets()),
        IpAddr::V6(ip) => Addr::V6(ip.octets()),
    }
}
