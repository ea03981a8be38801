//! The line that closes each answer of a node that is asked.

ghost use Rattle.std.specs.Prelude.{◌≡◌, IfOk, OnErr};
ghost use Rattle.std.specs.Option.{option_map};
ghost use Rattle.std.specs.String.{string_bytes};
ghost use Rattle.lisp_files.specs.Closing.{closed, whole};

use lisp_memory::{FallibleString, Memory};
use std::alloc::{AllocError, Global};

/// The line that closes an answer. No line of an answer's text is it: their first words are others.
const CLOSING: &str = "end\n";

/// The answer of a node with a text, whole lines: they, and the line that closes them.
pub fn closed(text: String) -> Result<String, AllocError>
    ensures answer { IfOk result (λ answer. string_bytes answer ≡ closed (string_bytes text)) }
    ensures memory { OnErr result ⟦<Global as Memory>⟧.may_refuse }
{
    let mut answer = text;
    answer.try_write(CLOSING)?;
    Ok(answer)
}

/// The lines of an answer, up to the last one's line feed. `None` where the answer is cut off: it has no closing line, or no line
/// before that.
pub fn whole(answer: &str) -> Option<&str>
    ensures { option_map (λ lines. lines.now) result ≡ whole answer.now }
{
    answer.strip_suffix(CLOSING)?.strip_suffix('\n')
}
