//! The configuration of a router.

ghost use Rattle.std.specs.Prelude.{◌≡◌};
ghost use Rattle.lisp_etr.specs.Config.{sent_pair, sent_pair_under, with_key};

use crate::servers::Servers;
use lisp_hmac::Key;
use lisp_nonces::{Pair, PairKind};
use lisp_records::RouterId;
use std::alloc::{Allocator, Global};
use std::marker::Model;

/// The configuration of a router, given before it starts.
#[derive(Drop)]
pub struct EtrConfig<A: Allocator = Global> {
    /// Its site and xTR-ID.
    pub me: RouterId,
    /// The Key ID that it registers under.
    pub key_id: u8,
    /// The pre-shared secret of that Key ID, made ready for tags.
    pub key: Key,
    /// The Map-Servers that it registers with; their numbers are their places, from 0 on.
    pub servers: Servers<A>,
    /// P: the Map-Servers are to answer Map-Requests for it.
    pub proxy: bool,
    /// T: its registrations time out by the TTL of their records.
    pub use_ttl: bool,
    /// How many nonces one save serves: 1 to 1,024. 0 counts as 1, and more than 1,024 as 1,024.
    pub nonce_block: u16,
}

impl<A: Allocator> Model for EtrConfig<A> {
    ghost use Rattle.lisp_etr.specs.Config.{EtrConfigValue};

    ghost Value = { EtrConfigValue };

    ghost view = { λ c. record { me = c.me; key_id = c.key_id; secret = c.key; servers = c.servers; proxy = c.proxy; use_ttl = c.use_ttl; nonce_block = c.nonce_block } };
}

impl<A: Allocator> EtrConfig<A> {
    /// What its nonces are kept for. Takes no memory.
    pub fn pair(&self) -> Pair
        ensures { result ≡ sent_pair self.now }
    {
        self.pair_under(self.key_id)
    }

    /// What its nonces under a key are kept for. Takes no memory.
    pub fn pair_under(&self, key_id: u8) -> Pair
        ensures { result ≡ sent_pair_under self.now key_id }
    {
        Pair {
            kind: PairKind::Sent,
            router: self.me,
            key: key_id,
        }
    }

    /// Registers under this key from now on.
    pub(crate) fn set_key(&mut self, key_id: u8, key: Key)
        ensures { self.new ≡ with_key self.old key_id key }
    {
        self.key_id = key_id;
        self.key = key;
    }
}
