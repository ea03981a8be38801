//! A refusal in words.

ghost use Rattle.std.specs.Prelude.{◌≡◌, IfOk, OnErr};
ghost use Rattle.std.specs.String.{string_bytes};
ghost use Rattle.lisp_answer.specs.Words.{refusal_words};

use lisp_lines::put_carried;
use lisp_memory::{FallibleString, Memory};
use lisp_model::Refusal;
use lisp_server::Refused;
use std::alloc::AllocError;

/// The refusal in words: `refused`, its number, and what it carries, as [`put_carried`] writes it.
pub(crate) fn words_of_refused<A: Memory>(
    alloc: A,
    refused: Refused,
) -> Result<String<A>, AllocError>
    ensures words { IfOk result (λ words. string_bytes words ≡ refusal_words refused) }
    ensures memory { OnErr result A.may_refuse }
{
    let number = refused.number();
    let mut words = String::try_format(alloc, format_args!("refused {number}"))?;
    put_carried(&mut words, &Refusal::Receive(refused))?;
    Ok(words)
}
