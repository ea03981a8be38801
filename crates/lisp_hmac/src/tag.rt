//! The tag of a message: 128 bits of its HMAC, with the tag's own place taken as zeros.

ghost use Rattle.std.specs.Prelude.{◌≡◌, ◌+◌, ◌≤◌, ◌↔◌, length, IsTrue};
ghost use Rattle.lisp_hmac.specs.Tag.{tag, HasTag};

use crate::key::Key;

/// The bytes of a tag: HMAC-SHA-256-128 keeps 128 of the 256 bits (RFC 4868 section 2.3).
pub const TAG_LEN: usize = 16;

impl Key {
    /// The tag of `message` under the key: the first 16 bytes of HMAC-SHA-256 over the message with
    /// its 16 bytes from `field_at` on taken as zeros (RFC 9301 section 5.6).
    #[tactic(auto, unfolding(crate::specs::Tag::tag))]
    pub fn tag128(&self, message: &[u8], field_at: usize) -> [u8; 16]
        requires { field_at + TAG_LEN ≤ length message.now }
        ensures { result ≡ tag self.now message.now field_at }
    {
        let digest = self.hmac_without_tag(message, field_at);
        let mut tag = [0; TAG_LEN];
        tag.copy_from_slice(&digest[..TAG_LEN]);
        tag
    }

    /// Whether the 16 bytes of `message` from `field_at` on are its tag under the key.
    pub fn checks(&self, message: &[u8], field_at: usize) -> bool
        requires { field_at + TAG_LEN ≤ length message.now }
        ensures { IsTrue result ↔ HasTag self.now message.now field_at }
    {
        &message[field_at..field_at + TAG_LEN] == self.tag128(message, field_at).as_slice()
    }
}

/// The tag of `message` under a secret of any length, as [`Key::tag128`]; for one message alone.
pub fn tag128(secret: &[u8], message: &[u8], field_at: usize) -> [u8; 16]
    requires { field_at + TAG_LEN ≤ length message.now }
    ensures { result ≡ tag secret.now message.now field_at }
{
    Key::new(secret).tag128(message, field_at)
}

/// Whether the 16 bytes of `message` from `field_at` on are its tag under a secret of any length, as
/// [`Key::checks`]; for one message alone.
pub fn checks(secret: &[u8], message: &[u8], field_at: usize) -> bool
    requires { field_at + TAG_LEN ≤ length message.now }
    ensures { IsTrue result ↔ HasTag secret.now message.now field_at }
{
    Key::new(secret).checks(message, field_at)
}
