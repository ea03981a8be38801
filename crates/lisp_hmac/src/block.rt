//! The key as one block of the hash, and its pads.

ghost use Rattle.std.specs.Prelude.{◌≡◌, ◌≤◌, length};
ghost use Rattle.lisp_hmac.specs.Tag.{padded, block_key, xored};

use sha2::{Digest, Sha256};

/// The block of SHA-256, in bytes.
const BLOCK_LEN: usize = 64;

/// The inner pad's byte (RFC 2104 section 2).
pub(crate) const INNER_PAD: u8 = 0x36;

/// The outer pad's byte (RFC 2104 section 2).
pub(crate) const OUTER_PAD: u8 = 0x5c;

// The key as one block.
pub(crate) fn block_of(key: &[u8]) -> [u8; BLOCK_LEN]
    ensures { result ≡ block_key key.now }
{
    if key.len() > BLOCK_LEN {
        zero_padded(&Sha256::digest(key))
    } else {
        zero_padded(key)
    }
}

fn zero_padded(bytes: &[u8]) -> [u8; BLOCK_LEN]
    requires { length bytes.now ≤ BLOCK_LEN }
    ensures { result ≡ padded bytes.now }
{
    let mut block = [0; BLOCK_LEN];
    block[..bytes.len()].copy_from_slice(bytes);
    block
}

pub(crate) fn xored_with(mut block: [u8; BLOCK_LEN], pad: u8) -> [u8; BLOCK_LEN]
    ensures { result ≡ xored block pad }
{
    for byte in block.iter_mut() {
        *byte ^= pad;
    }
    block
}
