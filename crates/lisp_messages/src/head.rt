//! The Key ID and the nonce, which stand in the same place of each message.

ghost use Rattle.std.specs.Prelude.{◌≡◌};
ghost use Rattle.lisp_messages.specs.Head.{head_at};

use crate::reading::{HEAD_LEN, KEY_ID_AT, read_nonce};

/// The Key ID and the nonce of a message (RFC 9301 sections 5.6 and 5.7).
#[derive(Clone, Copy, Debug, PartialEq, Eq)]
pub struct Head {
    /// The Key ID.
    pub key_id: u8,
    /// The nonce.
    pub nonce: u64,
}

impl Head {
    /// The Key ID, byte 12, and the nonce, bytes 4 to 11, of a message, whether it is authentic or not; `None`
    /// where the bytes are fewer than the 32 before the records. Takes no memory.
    #[tactic(auto, unfolding(crate::specs::Head::head_at))]
    pub fn read(bytes: &[u8]) -> Option<Head>
        ensures { result ≡ head_at bytes.now }
    {
        if bytes.len() < HEAD_LEN {
            return None;
        }
        Some(Head {
            key_id: bytes[KEY_ID_AT],
            nonce: read_nonce(bytes),
        })
    }
}
