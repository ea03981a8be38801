//! What a look has outside: a socket and a clock. A look is proved over any that keep these contracts.

ghost use Rattle.std.specs.Prelude.{◌≡◌, length};
ghost use Rattle.lisp_look.specs.Outside.{Log, Logs, Sends, Receives, Reads, reception, FitsBuffer};

use lisp_records::Addr;

/// What came of waiting for a datagram.
#[derive(Clone, Copy, Debug, PartialEq, Eq)]
pub enum Received {
    /// A datagram.
    Datagram {
        /// The address that it comes from.
        from: Addr,
        /// How many bytes it has.
        count: usize,
    },
    /// None came in time.
    Nothing,
    /// The socket failed.
    Failed,
}

/// A UDP socket and a clock, of which all that was asked may be known, in one log: so its order is known too.
pub trait Outside {
    ghost seen: { Self → Log };

    /// Sends bytes to an address and a UDP port; whether the socket took them.
    fn send(&mut self, to: &Addr, port: u16, bytes: &[u8]) -> bool
        ensures { Logs (seen self.old) (seen self.new) (Sends to.now port bytes.now result) };

    /// The next datagram, taken into `buffer`; `Nothing` where none comes in so many ms.
    fn receive(&mut self, buffer: &mut [u8], ms: u64) -> Received
        ensures asked { Logs (seen self.old) (seen self.new)
            (Receives ms (reception result buffer.new)) }
        ensures within { FitsBuffer result buffer.new }
        ensures room { length buffer.new ≡ length buffer.old };

    /// The time, in ms.
    fn now(&mut self) -> u64
        ensures { Logs (seen self.old) (seen self.new) (Reads result) };
}
