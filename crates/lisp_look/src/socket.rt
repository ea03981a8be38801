//! The UDP socket and the clock of a look, whose calls are the system's.

ghost use Rattle.std.specs.Prelude.{◌≡◌, ◌≤◌, None, length, IfOk};

use crate::fault::LookFault;
use crate::outside::{Outside, Received};
use lisp_records::Addr;
use std::io::{self, ErrorKind};
use std::net::{IpAddr, Ipv4Addr, Ipv6Addr, Net, SocketAddr, UdpSocket};
use std::time::{Clock, Duration, Instant};

/// The UDP port of LISP control messages (RFC 9301 section 5).
const CONTROL_PORT: u16 = 4342;

/// Any free port.
const ANY_PORT: u16 = 0;

/// A socket at an ITR-RLOC, and a clock. Of what the system makes of their calls nothing is known.
#[derive(Drop)]
pub(crate) struct LookSocket<'a, R: Clock> {
    rt: &'a R,
    socket: UdpSocket,
    start: Instant,
    // The last moment that was read, in ms.
    last: u64,
}

impl<'a, R: Clock + Net> LookSocket<'a, R> {
    /// A socket at an ITR-RLOC, and its port, which the system chooses. It is 0 ms now. Fault: `Bind`.
    pub(crate) fn bind(rt: &'a R, from: &Addr) -> Result<(LookSocket<'a, R>, u16), LookFault> {
        match try_bind(rt, from) {
            Ok((socket, port, start)) => Ok((
                LookSocket {
                    rt,
                    socket,
                    start,
                    last: 0,
                },
                port,
            )),
            Err(_) => Err(LookFault::Bind),
        }
    }
}

fn try_bind<R: Clock + Net>(rt: &R, from: &Addr) -> io::Result<(UdpSocket, u16, Instant)> {
    let socket = UdpSocket::bind(rt, at(from, ANY_PORT))?;
    let port = socket.local_addr()?.port();
    let start = Instant::now(rt)?;
    Ok((socket, port, start))
}

impl<R: Clock> LookSocket<'_, R> {
    fn try_receive(&mut self, buffer: &mut [u8], ms: u64) -> io::Result<(usize, SocketAddr)>
        ensures within { IfOk result (λ next. next.0 ≤ length buffer.new) }
        ensures room { length buffer.new ≡ length buffer.old }
    {
        self.socket
            .set_read_timeout(Some(Duration::from_millis(ms)))?;
        self.socket.recv_from(buffer)
    }
}

impl<R: Clock> Outside for LookSocket<'_, R> {
    ghost seen = { λ _. None };

    fn send(&mut self, to: &Addr, port: u16, bytes: &[u8]) -> bool {
        self.socket.send_to(bytes, at(to, port)).is_ok()
    }

    fn receive(&mut self, buffer: &mut [u8], ms: u64) -> Received {
        match self.try_receive(buffer, ms) {
            Ok((count, from)) => Received::Datagram {
                from: address_of(&from),
                count,
            },
            Err(error) => match error.kind() {
                ErrorKind::WouldBlock | ErrorKind::TimedOut | ErrorKind::Interrupted => {
                    Received::Nothing
                }
                _ => Received::Failed,
            },
        }
    }

    /// The ms since the socket was bound; where the clock can't be read, or went back, what was read last.
    fn now(&mut self) -> u64 {
        if let Ok(passed) = self.start.elapsed(self.rt) {
            let passed = u64::try_from(passed.as_millis()).unwrap_or(u64::MAX);
            self.last = self.last.max(passed);
        }
        self.last
    }
}

/// The address from which the system reaches another one; `None` where it has no route. Nothing is sent.
pub(crate) fn route_to<R: Net>(rt: &R, to: &Addr) -> Option<Addr> {
    match try_route(rt, to) {
        Ok(local) => Some(address_of(&local)),
        Err(_) => None,
    }
}

fn try_route<R: Net>(rt: &R, to: &Addr) -> io::Result<SocketAddr> {
    let any = match to {
        Addr::V4(_) => Addr::V4([0; 4]),
        Addr::V6(_) => Addr::V6([0; 16]),
    };
    let socket = UdpSocket::bind(rt, at(&any, ANY_PORT))?;
    socket.connect(at(to, CONTROL_PORT))?;
    socket.local_addr()
}

fn at(address: &Addr, port: u16) -> SocketAddr {
    let ip = match address {
        Addr::V4(octets) => IpAddr::V4(Ipv4Addr::from_octets(*octets)),
        Addr::V6(octets) => IpAddr::V6(Ipv6Addr::from_octets(*octets)),
    };
    SocketAddr::new(ip, port)
}

fn address_of(socket: &SocketAddr) -> Addr {
    match socket.ip() {
        IpAddr::V4(ip) => Addr::V4(ip.octets()),
        IpAddr::V6(ip) => Addr::V6(ip.octets()),
    }
}
