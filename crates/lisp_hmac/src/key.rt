//! A secret made ready for tags.

ghost use Rattle.std.specs.Prelude.{◌≡◌, ◌+◌, ◌++◌, ◌≤◌, length};
ghost use Rattle.sha2.specs.Sha256.{sha256};
ghost use Rattle.lisp_hmac.specs.Tag.{block_key, hmac, without_tag, xored};

use crate::block::{INNER_PAD, OUTER_PAD, block_of, xored_with};
use crate::secret::Secret;
use crate::tag::TAG_LEN;
use sha2::{Digest, Sha256};
use std::marker::Model;

/// A secret of any length, made ready for tags: the states of both digests after the padded key
/// (RFC 2104 section 4), by which tags can be made, and nothing else: none of the secret's bytes,
/// since a hasher keeps none of a whole block. A clause sees the secret. It has no `Debug`, so that no
/// text shows it.
#[derive(Drop)]
pub struct Key {
    inner: Sha256,
    outer: Sha256,
    secret: Secret,
}

// No field but the two states takes room.
const _: () = prove!(size_of::<Key>() == 2 * size_of::<Sha256>());

impl Model for Key {
    ghost use Rattle.std.specs.Prelude.{ℕ, List};
    ghost use Rattle.sha2.specs.Hashers.{Holds256};
    ghost use Rattle.lisp_hmac.specs.Tag.{block_key, xored};

    ghost Value = { List ℕ };

    ghost view = { λ k. k.secret.bytes };

    ghost invariant = { λ k. Holds256 k.inner (xored (block_key k.secret.bytes) 0x36) × Holds256 k.outer (xored (block_key k.secret.bytes) 0x5c) };
}

impl Key {
    /// The key of a secret, which may have any length; takes no memory.
    pub fn new(secret: &[u8]) -> Key
        ensures { result ≡ secret.now }
    {
        let block = block_of(secret);
        Key {
            inner: Sha256::new_with_prefix(xored_with(block, INNER_PAD)),
            outer: Sha256::new_with_prefix(xored_with(block, OUTER_PAD)),
            secret: Secret::of(secret),
        }
    }

    /// An equal key; takes no memory.
    pub fn copy(&self) -> Key
        ensures { result ≡ self.now }
    {
        Key {
            inner: copied(&self.inner),
            outer: copied(&self.outer),
            secret: self.secret.copy(),
        }
    }

    // HMAC-SHA-256 of the message under the key (RFC 2104).
    #[tactic(auto, unfolding(crate::specs::Tag::hmac))]
    pub(crate) fn hmac(&self, message: &[u8]) -> [u8; 32]
        ensures { result ≡ hmac self.now message.now }
    {
        let mut inner = copied(&self.inner);
        inner.update(message);
        self.outer_digest(inner.finalize())
    }

    // HMAC-SHA-256 of the message with its Authentication Data, from `field_at` on, taken as zeros.
    #[tactic(auto, unfolding(crate::specs::Tag::hmac))]
    pub(crate) fn hmac_without_tag(&self, message: &[u8], field_at: usize) -> [u8; 32]
        requires { field_at + TAG_LEN ≤ length message.now }
        ensures { result ≡ hmac self.now (without_tag message.now field_at) }
    {
        let mut inner = copied(&self.inner);
        inner.update(&message[..field_at]);
        inner.update([0; TAG_LEN]);
        inner.update(&message[field_at + TAG_LEN..]);
        self.outer_digest(inner.finalize())
    }

    // The outer digest over the inner one.
    fn outer_digest(&self, inner_digest: [u8; 32]) -> [u8; 32]
        ensures { result ≡ sha256 (xored (block_key self.now) 0x5c ++ inner_digest) }
    {
        let mut outer = copied(&self.outer);
        outer.update(inner_digest);
        outer.finalize()
    }
}

// An equal hasher.
fn copied(hasher: &Sha256) -> Sha256
    ensures { result ≡ hasher.now }
{
    hasher.clone().unwrap()
}
