//! On which lines of a script its commands stand.

ghost use Rattle.std.specs.Prelude.{◌≡◌, ◌++◌, IfOk, OnOk, OnErr};
ghost use Rattle.lisp_script.specs.CommandLines.{AsManyAsCommands, AsManyAsOrders, command_lines, has_command, has_words, numbered, schedule_lines};

use crate::parts::parted;
use crate::script::is_comment;
use lisp_memory::{FallibleVec, Memory};
use std::alloc::AllocError;
use std::str;

/// The lines of the script of an input, a schedule, that have a command: counted from 1 on, right after the line `---`. An
/// input that isn't UTF-8, or has no script, has none. Where it is read as a schedule there are as many as commands.
pub fn schedule_lines<A: Memory>(alloc: A, input: &[u8]) -> Result<Vec<usize, A>, AllocError>
    ensures lines { IfOk result (λ numbers. numbers.items ≡ schedule_lines input.now) }
    ensures counts { IfOk result (λ numbers. AsManyAsOrders input.now numbers.items) }
    ensures memory { OnErr result A.may_refuse }
{
    let Ok(text) = str::from_utf8(input) else {
        return Ok(Vec::new(alloc));
    };
    match parted(text) {
        Some((_, script)) => command_lines(alloc, script),
        None => Ok(Vec::new(alloc)),
    }
}

/// The lines of a script that have a command, by their numbers, from 1 on, in their order: those that `parse_script` doesn't
/// skip. Where it reads the script there are as many as commands.
pub fn command_lines<A: Memory>(alloc: A, text: &str) -> Result<Vec<usize, A>, AllocError>
    ensures lines { IfOk result (λ numbers. numbers.items ≡ command_lines text.now) }
    ensures counts { IfOk result (λ numbers. AsManyAsCommands text.now numbers.items) }
    ensures memory { OnErr result A.may_refuse }
{
    let mut numbers = Vec::new(alloc);
    for (place, line) in text.lines().enumerate() {
        add_line(&mut numbers, place + 1, line)?;
    }
    Ok(numbers)
}

// Appends the number of a line that has a command.
#[tactic(auto, using(crate::proofs::Commands::steps))]
fn add_line<A: Memory>(
    numbers: &mut Vec<usize, A>,
    number: usize,
    line: &str,
) -> Result<(), AllocError>
    ensures adds { OnOk result (numbers.new.items ≡ numbers.old.items ++ numbered number line.now) }
    ensures memory { OnErr result A.may_refuse }
{
    if has_command(line) {
        numbers.try_push(number)?;
    }
    Ok(())
}

fn has_command(line: &str) -> bool
    ensures { result ≡ has_command line.now }
{
    !is_comment(line) && has_words(line)
}

fn has_words(line: &str) -> bool
    ensures { result ≡ has_words line.now }
{
    for word in line.split(' ') {
        if !word.is_empty() {
            return true;
        }
    }
    false
}
