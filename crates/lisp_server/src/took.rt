//! What a Map-Server made of a message that it didn't refuse.

ghost use Rattle.std.specs.Prelude.{◌≡◌};
ghost use Rattle.lisp_server.specs.Took.{reply_in};

use lisp_records::{Bytes, RouterId};
use std::alloc::{Allocator, Global};

/// A message that a Map-Server received and didn't refuse.
#[derive(Debug, Drop)]
pub enum Took<A: Allocator = Global> {
    /// A Map-Register was accepted.
    Accepted {
        /// The router that sent it.
        router: RouterId,
        /// The Key ID that it was authenticated under.
        key: u8,
        /// Its nonce.
        nonce: u64,
        /// The Map-Notify for its source, where bit M asks for one (RFC 9301 section 5.7).
        reply: Option<Bytes<A>>,
    },
    /// A Map-Notify-Ack ended an unsolicited Map-Notify (notice).
    NoticeDone {
        /// The router that the notice was sent to.
        router: RouterId,
        /// The nonce of the notice.
        nonce: u64,
    },
}

impl<A: Allocator> Took<A> {
    /// The Map-Notify that answers the message, where there is one. Takes no memory.
    pub fn into_reply(self) -> Option<Bytes<A>>
        ensures { result ≡ reply_in self }
    {
        match self {
            Took::Accepted { reply, .. } => reply,
            Took::NoticeDone { .. } => None,
        }
    }
}
