//! A pair and its nonce as the columns of a row.

ghost use Rattle.std.specs.Prelude.{◌≡◌, ◌*◌, IfSome, length};
ghost use Rattle.std.specs.Int.{w64, to_be_bytes};
ghost use Rattle.std.specs.Str.{IsUtf8};
ghost use Rattle.hex.specs.Hex.{encode_lower};
ghost use Rattle.lisp_store.specs.NonceText.{last_digits};
ghost use Rattle.lisp_store.specs.PairName.{IsPair, AreBytes};
ghost use Rattle.lisp_database.specs.Columns.{kind_word, FindsNonce};

use lisp_nonces::{Pair, PairKind};
use lisp_store::nonce_text;

/// What the types of a pair's parts promise.
pub fn known(pair: Pair)
    ensures { IsPair pair }
{
    let Pair { router, key, .. } = pair;
    known_bytes(&router.xtr);
    let (_site, _key) = (router.site, key);
}

// Of a slice that is passed in, a proof learns that each element is a byte.
#[tactic(auto, using(crate::proofs::Keys::bytes_pass))]
fn known_bytes(bytes: &[u8])
    ensures { AreBytes bytes.now }
{}

/// The word for which nonces a pair has: `sent`, `received` or `notice`.
pub fn kind_word(kind: PairKind) -> &'static str
    ensures { result.now ≡ kind_word kind }
{
    match kind {
        PairKind::Sent => "sent",
        PairKind::Received => "received",
        PairKind::Notice => "notice",
    }
}

/// The kind of pairs whose word this is; `None` where it is none's.
pub fn kind_from_word(word: &str) -> Option<PairKind>
    ensures { IfSome result (λ kind. word.now ≡ kind_word kind) }
{
    match word {
        "sent" => Some(PairKind::Sent),
        "received" => Some(PairKind::Received),
        "notice" => Some(PairKind::Notice),
        _ => None,
    }
}

/// A Site-ID in 16 lower case hexadecimal digits, as a configuration has it.
pub fn site_digits(site: u64) -> [u8; 16]
    ensures text { IsUtf8 result }
    ensures digits { result ≡ encode_lower (to_be_bytes w64 site) }
{
    let mut digits = [0; 16];
    put_digits(&mut digits, &site.to_be_bytes());
    digits
}

/// An xTR-ID in 32 lower case hexadecimal digits, as a configuration has it.
pub fn xtr_digits(xtr: [u8; 16]) -> [u8; 32]
    ensures text { IsUtf8 result }
    ensures digits { result ≡ encode_lower xtr }
{
    let mut digits = [0; 32];
    put_digits(&mut digits, &xtr);
    digits
}

/// The Site-ID of 16 lower case hexadecimal digits; `None` where a text is none's.
pub fn site_from_digits(digits: &str) -> Option<u64>
    ensures { IfSome result (λ site. digits.now ≡ encode_lower (to_be_bytes w64 site)) }
{
    let mut bytes = [0; 8];
    hex::decode_to_slice(digits, &mut bytes).ok()?;
    let site = u64::from_be_bytes(bytes);
    (digits.as_bytes() == site_digits(site).as_slice()).then_some(site)
}

/// The xTR-ID of 32 lower case hexadecimal digits; `None` where a text is none's.
pub fn xtr_from_digits(digits: &str) -> Option<[u8; 16]>
    ensures { IfSome result (λ xtr. digits.now ≡ encode_lower xtr) }
{
    let mut xtr = [0; 16];
    hex::decode_to_slice(digits, &mut xtr).ok()?;
    (digits.as_bytes() == xtr_digits(xtr).as_slice()).then_some(xtr)
}

/// A nonce in 20 decimal digits, with leading zeros: so their texts are ordered as nonces are.
pub fn nonce_digits(nonce: u64) -> [u8; 20]
    ensures text { IsUtf8 result }
    ensures digits { result ≡ last_digits 20 nonce }
{
    let mut digits = [0; 20];
    digits.copy_from_slice(&nonce_text(nonce)[6..26]);
    digits
}

/// The nonce of 20 decimal digits; `None` where a text is no nonce's.
pub fn nonce_from_digits(digits: &str) -> Option<u64>
    ensures text { IfSome result (λ nonce. digits.now ≡ last_digits 20 nonce) }
    ensures only { FindsNonce digits.now result }
{
    let Ok(nonce) = digits.parse() else {
        return None;
    };
    (digits.as_bytes() == nonce_digits(nonce).as_slice()).then_some(nonce)
}

// Writes the hexadecimal digits of bytes over a text that has room for just them.
fn put_digits(digits: &mut [u8], bytes: &[u8])
    requires { length digits.old ≡ 2 * length bytes.now }
    ensures text { IsUtf8 digits.new }
    ensures digits { digits.new ≡ encode_lower bytes.now }
{
    hex::encode_to_slice(bytes, digits).unwrap();
}
