//! The texts of Site-IDs, xTR-IDs and secrets.

ghost use Rattle.std.specs.Prelude.{◌≡◌, IfOk, OnErr};
ghost use Rattle.lisp_texts.specs.Form.{site_id_of, xtr_of, secret_text_of};

use hex::FromHex;
use lisp_memory::{FallibleCopies, Memory};
use lisp_records::Bytes;
use std::alloc::AllocError;

/// The most bytes of a secret.
pub const MAX_SECRET: usize = 256;

/// The Site-ID that 16 hexadecimal digits stand for, in either letter case; `None` for any other
/// text.
pub fn site_id_from_text(text: &str) -> Option<u64>
    ensures { result ≡ site_id_of text.now }
{
    match <[u8; 8]>::from_hex(text) {
        Ok(bytes) => Some(u64::from_be_bytes(bytes)),
        Err(_) => None,
    }
}

/// The xTR-ID that 32 hexadecimal digits stand for, in either letter case; `None` for any other text.
pub fn xtr_from_text(text: &str) -> Option<[u8; 16]>
    ensures { result ≡ xtr_of text.now }
{
    <[u8; 16]>::from_hex(text).ok()
}

/// The secret of 1 to 256 bytes that hexadecimal digits stand for, in either letter case; `None` for
/// any other text. It lies in memory of `alloc`; out of memory only if that may be refused.
pub fn secret_from_text<A: Memory>(alloc: A, text: &str) -> Result<Option<Bytes<A>>, AllocError>
    ensures ok { IfOk result (λ secret. secret ≡ secret_text_of text.now) }
    ensures memory { OnErr result A.may_refuse }
{
    let mut bytes = Vec::try_for_each(alloc, 0, &text.as_bytes()[..text.len() / 2])?;
    match hex::decode_to_slice(text, &mut bytes) {
        Ok(()) if bytes.is_empty() || bytes.len() > MAX_SECRET => Ok(None),
        Ok(()) => Ok(Some(Bytes::from_vec(bytes))),
        Err(_) => Ok(None),
    }
}
