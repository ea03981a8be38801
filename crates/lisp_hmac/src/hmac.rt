//! The keyed hash of one message under a secret.

ghost use Rattle.std.specs.Prelude.{◌≡◌};
ghost use Rattle.lisp_hmac.specs.Tag.{hmac};

use crate::key::Key;

/// HMAC-SHA-256 of the message under the key, which may have any length (RFC 2104).
pub fn hmac_sha256(key: &[u8], message: &[u8]) -> [u8; 32]
    ensures { result ≡ hmac key.now message.now }
{
    Key::new(key).hmac(message)
}
