//! The lines of what a store keeps: of each nonce, of each file that is damaged, and of how many there are.

ghost use Rattle.std.specs.Prelude.{◌≡◌, OnErr, OnOk};
ghost use Rattle.lisp_lines.specs.Front.{GivesText};
ghost use Rattle.lisp_memory.specs.Appending.{StringGrowsBy};
ghost use Rattle.lisp_upkeep.specs.StoreLines.{store_word, kind_text, kind_words, kept_text, damage_text, damaged_text, sum_text};

use crate::line::put_identity;
use lisp_memory::{FallibleString, Memory};
use lisp_nonces::{Pair, PairKind};
use lisp_store::{Damage, DamagedFile, KeptNonce, pair_name};
use std::alloc::AllocError;
use std::str;

/// What is said of a nonce that a store keeps.
#[derive(Clone, Copy, Debug, PartialEq, Eq)]
pub(crate) enum StoreWord {
    /// It was found there.
    Found,
    /// It is kept in the place of a lower one.
    Raised,
}

/// The line of a nonce of any kind, with its line feed: `WORD KIND SITE XTR key K nonce N`, where WORD is `found` or `raised`, KIND is
/// `sent`, `received` or `notice`, Site-ID and xTR-ID are 16 and 32 lower case hexadecimal digits, and Key ID and nonce are in decimal.
pub(crate) fn kept_line<A: Memory>(
    alloc: A,
    word: StoreWord,
    kept: &KeptNonce,
) -> Result<String<A>, AllocError>
    ensures text { GivesText result (kept_text word kept.now) }
    ensures memory { OnErr result A.may_refuse }
{
    let KeptNonce { pair, nonce } = *kept;
    let Pair { kind, router, key } = pair;
    let mut text = String::new(alloc);
    put_kind(&mut text, word, kind)?;
    put_identity(&mut text, &router)?;
    text.try_write(format_args!(" key {key} nonce {nonce}\n"))?;
    Ok(text)
}

// Appends the words before the router.
fn put_kind<A: Memory>(
    text: &mut String<A>,
    word: StoreWord,
    kind: PairKind,
) -> Result<(), AllocError>
    ensures text { OnOk result (StringGrowsBy text.old text.new (kind_words word kind)) }
    ensures memory { OnErr result A.may_refuse }
{
    let (word, kind) = (word_of(word), word_of_kind(kind));
    text.try_write(format_args!("{word} {kind} "))
}

fn word_of(word: StoreWord) -> &'static str
    ensures { result.now ≡ store_word word }
{
    match word {
        StoreWord::Found => "found",
        StoreWord::Raised => "raised",
    }
}

fn word_of_kind(kind: PairKind) -> &'static str
    ensures { result.now ≡ kind_text kind }
{
    match kind {
        PairKind::Sent => "sent",
        PairKind::Received => "received",
        PairKind::Notice => "notice",
    }
}

/// The line of a damaged file, with its line feed: `damaged FILE WHY`, where WHY is `content` of a file with other bytes than
/// the text of a nonce, `no-file`, `denied` or `unread`.
pub(crate) fn damaged_line<A: Memory>(alloc: A, file: &DamagedFile) -> Result<String<A>, AllocError>
    ensures text { GivesText result (damaged_text file.now) }
    ensures memory { OnErr result A.may_refuse }
{
    let DamagedFile { pair, damage } = *file;
    let name = pair_name(&pair);
    let (name, why) = (str::from_utf8(&name).unwrap(), word_of_damage(damage));
    String::try_format(alloc, format_args!("damaged {name} {why}\n"))
}

fn word_of_damage(damage: Damage) -> &'static str
    ensures { result.now ≡ damage_text damage }
{
    match damage {
        Damage::Content => "content",
        Damage::NoFile => "no-file",
        Damage::Denied => "denied",
        Damage::Unread => "unread",
    }
}

/// How many nonces a store keeps, and how many of its files are damaged, with a line feed: `store NAME nonces N damaged M`.
pub(crate) fn sum_line<A: Memory>(
    alloc: A,
    name: &str,
    nonces: usize,
    damaged: usize,
) -> Result<String<A>, AllocError>
    ensures text { GivesText result (sum_text name.now nonces damaged) }
    ensures memory { OnErr result A.may_refuse }
{
    String::try_format(
        alloc,
        format_args!("store {name} nonces {nonces} damaged {damaged}\n"),
    )
}
