//! Authentication of a message: the tag in its Authentication Data.

ghost use Rattle.std.specs.Prelude.{◌≡◌, ◌≤◌, ◌↔◌, length, vec_len, IsTrue};
ghost use Rattle.lisp_messages.specs.Authentic.{IsAuthentic, is_authentic, with_tag};

use crate::reading::{AUTH_AT, HEAD_LEN};
use lisp_hmac::{Key, TAG_LEN};
use std::alloc::Allocator;

/// Whether the Authentication Data of a message is its tag under a secret, over the whole payload (RFC 9301
/// section 5.6). False where there are no 32 bytes. For one message alone: many are told by `authentic_under`.
pub fn authentic(bytes: &[u8], secret: &[u8]) -> bool
    ensures authentic { IsTrue result ↔ IsAuthentic bytes.now secret.now }
    ensures test { result ≡ is_authentic bytes.now secret.now }
{
    authentic_under(bytes, &Key::new(secret))
}

/// As `authentic`, under a key that was made ready.
pub fn authentic_under(bytes: &[u8], key: &Key) -> bool
    ensures authentic { IsTrue result ↔ IsAuthentic bytes.now key.now }
    ensures test { result ≡ is_authentic bytes.now key.now }
{
    bytes.len() >= HEAD_LEN && key.checks(bytes, AUTH_AT)
}

/// Puts the tag of a message under the key into its Authentication Data (RFC 9301 section 5.6).
pub fn sign(message: &mut [u8], key: &Key)
    requires { 32 ≤ length message.old }
    ensures { message.new ≡ with_tag key.now message.old }
{
    let tag = key.tag128(message, AUTH_AT);
    message[AUTH_AT..AUTH_AT + TAG_LEN].copy_from_slice(&tag);
}

/// As `sign`, where the message was written.
pub(crate) fn sign_written<A: Allocator>(message: &mut Vec<u8, A>, key: &Key)
    requires { 32 ≤ vec_len message.old }
    ensures { message.new.items ≡ with_tag key.now message.old.items }
{
    sign(message, key);
}
