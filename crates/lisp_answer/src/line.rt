//! The line that answers a line of hexadecimal digits.

ghost use Rattle.std.specs.Prelude.{◌≡◌, IfOk};
ghost use Rattle.std.specs.String.{string_bytes};
ghost use Rattle.lisp_answer.specs.Line.{answer_words, GivesWords, IsNotHexadecimal};

use crate::fresh::respond;
use crate::words::words_of_refused;
use hex::FromHexError;
use lisp_memory::{FallibleString, Memory};
use lisp_policy::Sites;
use lisp_records::Bytes;
use lisp_server::Refused;
use std::alloc::AllocError;

/// The number of a line that isn't hexadecimal.
const NOT_HEXADECIMAL: u16 = 94;

/// The words that answer a line of digits: the Map-Notify in lower case digits, `accepted`, or the
/// refusal; `refused 94` where the line isn't hexadecimal.
pub(crate) fn words_for<A: Memory + Copy>(
    alloc: A,
    sites: Sites<A>,
    digits: &[u8],
) -> Result<String<A>, AllocError>
    ensures { GivesWords A.may_refuse sites digits.now result }
{
    match hex::decode(alloc, digits) {
        Ok(bytes) => words_of(alloc, respond(alloc, sites, &bytes)),
        Err(fault) => words_of_fault(alloc, fault),
    }
}

// The words for a line that can't be decoded: it isn't hexadecimal, unless memory ran out.
fn words_of_fault<A: Memory>(alloc: A, fault: FromHexError) -> Result<String<A>, AllocError>
    ensures { IfOk result (λ words. IsNotHexadecimal fault (string_bytes words)) }
{
    match fault {
        FromHexError::OutOfMemory => Err(AllocError),
        _ => String::try_format(alloc, format_args!("refused {NOT_HEXADECIMAL}")),
    }
}

fn words_of<A: Memory>(
    alloc: A,
    answer: Result<Option<Bytes<A>>, Refused>,
) -> Result<String<A>, AllocError>
    ensures { IfOk result (λ words. string_bytes words ≡ answer_words answer) }
{
    match answer {
        Ok(Some(notify)) => hex::encode(alloc, notify.as_slice()),
        Ok(None) => String::try_from_str(alloc, "accepted"),
        Err(refused) => words_of_refused(alloc, refused),
    }
}
