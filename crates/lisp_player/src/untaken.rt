//! Commands that a network doesn't take.

ghost use Rattle.std.specs.Prelude.{◌≡◌, ◌==◌, ◌++◌, OnOk, OnErr};
ghost use Rattle.std.specs.List.{before_first};
ghost use Rattle.lisp_player.specs.Untaken.{fault_number, untaken_at};

use lisp_memory::{FallibleVec, Memory};
use lisp_texts::number_from_text;
use std::alloc::AllocError;

/// A command that a network didn't take.
#[derive(Clone, Copy, Debug, PartialEq, Eq)]
pub struct Untaken {
    /// The line of the script that it stands on, from 1 on.
    pub line: usize,
    /// The number of what keeps the network from taking it: its text is `fault` and this number.
    pub number: u64,
}

/// The number of the fault that the text of a command is; `None` of any other text.
pub fn fault_number(text: &str) -> Option<u64>
    ensures { result ≡ fault_number text.now }
{
    let (word, rest) = text.split_once(' ')?;
    if word != "fault" {
        return None;
    }
    number_from_text(first_line(rest))
}

fn first_line(text: &str) -> &str
    ensures { result.now ≡ before_first (λ b. b == 10) text.now }
{
    match text.split_once('\n') {
        Some((line, _)) => line,
        None => text,
    }
}

/// Appends a command with a line and a text, where the text is a fault.
pub(crate) fn add_untaken<A: Memory>(
    untaken: &mut Vec<Untaken, A>,
    line: Option<usize>,
    text: &str,
) -> Result<(), AllocError>
    ensures adds { OnOk result (untaken.new.items ≡ untaken.old.items ++ untaken_at line text.now) }
    ensures memory { OnErr result A.may_refuse }
{
    if let (Some(line), Some(number)) = (line, fault_number(text)) {
        untaken.try_push(Untaken { line, number })?;
    }
    Ok(())
}
