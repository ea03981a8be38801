//! The line of a nonce.

ghost use Rattle.std.specs.Prelude.{◌≡◌, ◌++◌, codes, length, ◌*◌, IfOk, OnErr, OnOk};
ghost use Rattle.std.specs.Int.{w64, to_be_bytes};
ghost use Rattle.std.specs.Option.{option_map};
ghost use Rattle.std.specs.Str.{IsUtf8};
ghost use Rattle.hex.specs.Hex.{encode_lower};
ghost use Rattle.lisp_memory.specs.Appending.{StringGrowsBy};
ghost use Rattle.lisp_store.specs.PairName.{AreBytes};
ghost use Rattle.lisp_texts.specs.Reading.{cut, number_below};
ghost use Rattle.lisp_upkeep.specs.AcceptedNonce.{IsAccepted};
ghost use Rattle.lisp_upkeep.specs.Line.{word_text, identity_text, router_words, line_text, parts_of, nonce_of};

use crate::accepted_nonce::AcceptedNonce;
use lisp_memory::{FallibleString, Memory};
use lisp_records::RouterId;
use lisp_texts::{number_from_text, site_id_from_text, xtr_from_text};
use std::alloc::AllocError;

/// What became of a nonce.
#[derive(Clone, Copy, Debug, PartialEq, Eq)]
pub enum LineWord {
    /// It is kept.
    Kept,
    /// It was kept, and is no longer.
    Forgotten,
}

/// Appends the line of a nonce without its line feed: `WORD SITE XTR key K nonce N`, where WORD is `kept` or `forgotten`, Site-ID and
/// xTR-ID are 16 and 32 lower case hexadecimal digits, and Key ID and nonce are in decimal. Out of memory, it may leave a part of it.
pub fn put_line<A: Memory>(
    text: &mut String<A>,
    word: LineWord,
    nonce: &AcceptedNonce,
) -> Result<(), AllocError>
    ensures text { OnOk result (StringGrowsBy text.old text.new (line_text word nonce.now)) }
    ensures memory { OnErr result A.may_refuse }

    // Every nonce of the program has this line, so that what is written is read again.
    ensures known { IsAccepted nonce.now }
{
    known(*nonce);
    let AcceptedNonce { router, key, nonce } = *nonce;
    put_router(text, word, &router)?;
    text.try_write(format_args!(" key {key} nonce {nonce}"))
}

// What the types of a nonce's parts promise.
fn known(nonce: AcceptedNonce)
    ensures { IsAccepted nonce }
{
    let AcceptedNonce { router, key, nonce } = nonce;
    known_bytes(&router.xtr);
    let (_site, _key, _nonce) = (router.site, key, nonce);
}

// Of a slice that is passed in, a proof learns that each element is a byte.
#[tactic(auto, using(lisp_store::proofs::PairNames::bytes_pass))]
fn known_bytes(bytes: &[u8])
    ensures { AreBytes bytes.now }
{}

/// The nonce whose line, without its line feed, a text is; `None` where it is no line `kept ..`.
pub fn nonce_from_line<A: Memory>(alloc: A, line: &str) -> Result<Option<AcceptedNonce>, AllocError>
    ensures found { IfOk result (λ nonce. nonce ≡ nonce_of line.now) }
    ensures memory { OnErr result A.may_refuse }
{
    let Some(nonce) = nonce_in(line) else {
        return Ok(None);
    };
    let mut again = String::new(alloc);
    put_line(&mut again, LineWord::Kept, &nonce)?;
    Ok((again.as_str() == line).then_some(nonce))
}

// Appends a word, and the Site-ID and the xTR-ID of a router.
fn put_router<A: Memory>(
    text: &mut String<A>,
    word: LineWord,
    router: &RouterId,
) -> Result<(), AllocError>
    ensures text { OnOk result (StringGrowsBy text.old text.new
        (router_words word router.now)) }
    ensures memory { OnErr result A.may_refuse }
{
    let word = word_of(word);
    text.try_write(format_args!("{word} "))?;
    put_identity(text, router)
}

/// Appends the Site-ID and the xTR-ID of a router: 16 and 32 lower case hexadecimal digits, with a space between. Out of memory, it
/// may leave a part of it.
pub fn put_identity<A: Memory>(text: &mut String<A>, router: &RouterId) -> Result<(), AllocError>
    ensures text { OnOk result (StringGrowsBy text.old text.new (identity_text router.now)) }
    ensures memory { OnErr result A.may_refuse }
{
    put_digits(text, &router.site.to_be_bytes(), &mut [0; 16])?;
    text.try_push(' ')?;
    put_digits(text, &router.xtr, &mut [0; 32])
}

fn word_of(word: LineWord) -> &'static str
    ensures { result.now ≡ word_text word }
{
    match word {
        LineWord::Kept => "kept",
        LineWord::Forgotten => "forgotten",
    }
}

// Appends bytes as lower case hexadecimal digits, for which there is just this room.
fn put_digits<A: Memory>(
    text: &mut String<A>,
    bytes: &[u8],
    digits: &mut [u8],
) -> Result<(), AllocError>
    requires { length digits.old ≡ 2 * length bytes.now }
    ensures text { OnOk result (StringGrowsBy text.old text.new (encode_lower bytes.now)) }
    ensures memory { OnErr result A.may_refuse }
{
    write_digits(digits, bytes);
    text.try_write(str::from_utf8(digits).unwrap())
}

// Writes the hexadecimal digits of bytes over a text that has room for just them.
fn write_digits(digits: &mut [u8], bytes: &[u8])
    requires { length digits.old ≡ 2 * length bytes.now }
    ensures text { IsUtf8 digits.new }
    ensures digits { digits.new ≡ encode_lower bytes.now }
{
    hex::encode_to_slice(bytes, digits).unwrap();
}

// The nonce whose parts the words of a text are.
#[tactic(auto, unfolding(crate::specs::Line::parts_of))]
fn nonce_in(text: &str) -> Option<AcceptedNonce>
    ensures { result ≡ parts_of text.now }
{
    let (_, rest) = word_and_rest(text)?;
    let (site, rest) = word_and_rest(rest)?;
    let (xtr, rest) = word_and_rest(rest)?;
    let (_, rest) = word_and_rest(rest)?;
    let (key, rest) = word_and_rest(rest)?;
    let (_, nonce) = word_and_rest(rest)?;
    let router = RouterId {
        site: site_id_from_text(site)?,
        xtr: xtr_from_text(xtr)?,
    };
    Some(AcceptedNonce {
        router,
        key: key_from_text(key)?,
        nonce: number_from_text(nonce)?,
    })
}

// The parts before and after the first space.
#[tactic(auto, unfolding(lisp_texts::specs::Reading::cut))]
fn word_and_rest(text: &str) -> Option<(&str, &str)>
    ensures { option_map (λ p. (p.0.now, p.1.now)) result ≡ cut 32 text.now }
{
    text.split_once(' ')
}

// The Key ID that decimal digits stand for.
#[tactic(auto, unfolding(lisp_texts::specs::Reading::number_below))]
fn key_from_text(text: &str) -> Option<u8>
    ensures { result ≡ number_below 256 text.now }
{
    u8::try_from(number_from_text(text)?).ok()
}
