//! The name of a pair's file.

ghost use Rattle.std.specs.Prelude.{◌≡◌, ◌↔◌, ℕ, ◌+◌, ◌-◌, ◌*◌, ◌^◌, min, List, [], ◌∷◌, ◌++◌, length, Some, IsTrue};
ghost use Rattle.std.specs.Str.{IsUtf8};
ghost use Rattle.hex.specs.Hex.{IsBytes, encode_lower};
ghost use Rattle.lisp_store.specs.PairName.{IsPair, AreBytes, kind_letter, kind_of_letter, pair_name, pair_of_name, HasFormOfName, ReadsPair};

use lisp_nonces::{Pair, PairKind};
use lisp_records::RouterId;
use std::fs::{self, Files};
use std::io::{self, ErrorKind};

/// The bytes of a name.
const LENGTH: usize = 60;

/// What a name ends with.
const END: &[u8] = b".nonce";

/// The name of a pair's file, `K-SITE-XTR-KEY.nonce`, where K is `s` (sent), `r` (received) or `n` (notice), and Site-ID,
/// xTR-ID and Key ID are 16, 32 and 2 lower case hexadecimal digits.
pub fn pair_name(pair: &Pair) -> [u8; 60]
    ensures name { result ≡ pair_name pair.now }
    ensures text { IsUtf8 result }
    ensures pair { IsPair pair.now }
{
    known(*pair);
    let mut name = [0; 60];
    let (front, rest) = name.split_at_mut(2);
    let (site, rest) = rest.split_at_mut(17);
    let (xtr, key) = rest.split_at_mut(33);
    front.copy_from_slice(&[letter(pair.kind), b'-']);
    put_part(site, &pair.router.site.to_be_bytes(), b"-");
    put_part(xtr, &pair.router.xtr, b"-");
    put_part(key, &[pair.key], b".nonce");
    name
}

/// The pair whose file has this name, `None` where it is no pair's.
pub fn pair_from_name(name: &str) -> Option<Pair>
    ensures { result ≡ pair_of_name name.now }
{
    if !is_name(name) {
        return None;
    }
    let text = name.as_bytes();
    let pair = pair_in(text)?;
    (pair_name(&pair).as_slice() == text).then_some(pair)
}

/// How many pairs a folder of the system keeps nonces for: how many names of its files have the form of a pair's.
pub fn count_pairs<R: Files + AllocGlobal + Clone + Drop>(rt: &R, dir: &str) -> io::Result<usize> {
    let mut count = 0;
    for entry in fs::read_dir(rt, dir)? {
        match entry {
            Ok(entry) => count = count_with(count, entry.file_name()),
            // A name that is no text is no pair's.
            Err(error) if error.kind() == ErrorKind::InvalidFilename => {}
            Err(error) => return Err(error),
        }
    }
    Ok(count)
}

// The count behind a name: one more where it has the form of a pair's.
fn count_with(count: usize, name: &str) -> usize
    ensures some { HasFormOfName name.now → result ≡ min (count + 1) (2 ^ 64 - 1) }
    ensures none { ¬ (HasFormOfName name.now) → result ≡ count }
{
    if is_name(name) {
        count.saturating_add(1)
    } else {
        count
    }
}

// Whether a name has the form of a pair's.
fn is_name(name: &str) -> bool
    ensures { IsTrue result ↔ HasFormOfName name.now }
{
    name.len() == LENGTH && name.as_bytes().ends_with(END)
}

// What the types of a pair's parts promise.
fn known(pair: Pair)
    ensures { IsPair pair }
{
    let Pair { router, key, .. } = pair;
    known_bytes(&router.xtr);
    let (_site, _key) = (router.site, key);
}

// Of a slice that is passed in, a proof learns that each element is a byte.
#[tactic(auto, using(crate::proofs::PairNames::bytes_pass))]
fn known_bytes(bytes: &[u8])
    ensures { AreBytes bytes.now }
{}

// Which nonces, in a letter.
fn letter(kind: PairKind) -> u8
    ensures { result ∷ [] ≡ kind_letter kind }
{
    match kind {
        PairKind::Sent => b's',
        PairKind::Received => b'r',
        PairKind::Notice => b'n',
    }
}

// The pair whose parts stand where those of a name do, if they are digits.
fn pair_in(text: &[u8]) -> Option<Pair>
    requires { length text.now ≡ 60 }
    ensures { ReadsPair text.now result }
{
    let site = bytes_of(&text[2..18])?;
    let xtr = bytes_of(&text[19..51])?;
    let [key]: [u8; 1] = bytes_of(&text[52..54])?;
    Some(Pair {
        kind: kind_of_letter(&text[0..1]),
        router: RouterId {
            site: u64::from_be_bytes(site),
            xtr,
        },
        key,
    })
}

// Which nonces a letter means; `Sent` where it means none.
fn kind_of_letter(letter: &[u8]) -> PairKind
    ensures { result ≡ kind_of_letter letter.now }
{
    if letter == b"r".as_slice() {
        PairKind::Received
    } else if letter == b"n".as_slice() {
        PairKind::Notice
    } else {
        PairKind::Sent
    }
}

// The bytes that so many digits are of, if they are.
fn bytes_of<const N: usize>(digits: &[u8]) -> Option<[u8; N]>
    ensures { (bytes : List ℕ) → length bytes ≡ N → IsBytes bytes → digits.now ≡ encode_lower bytes
        → result ≡ Some bytes }
{
    let mut bytes = [0; N];
    match hex::decode_to_slice(digits, &mut bytes) {
        Ok(()) => Some(bytes),
        Err(_) => None,
    }
}

// Writes the digits of bytes, and what comes after them, over a text that has room for just that.
fn put_part(text: &mut [u8], bytes: &[u8], after: &[u8])
    requires { length text.old ≡ 2 * length bytes.now + length after.now }
    ensures { text.new ≡ encode_lower bytes.now ++ after.now }
{
    let (digits, rest) = text.split_at_mut(2 * bytes.len());
    hex::encode_to_slice(bytes, digits).unwrap();
    rest.copy_from_slice(after);
}
