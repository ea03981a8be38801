//! Scripts.

ghost use Rattle.std.specs.Prelude.{◌≡◌, ◌≢◌, [], Err, IfOk, IfErr};
ghost use Rattle.lisp_script.specs.Words.{texts};
ghost use Rattle.lisp_script.specs.Spelling.{is_comment, at_line, HasWords};
ghost use Rattle.lisp_script.specs.Answers.{AddsLine, AddsWords, IsScript, IsFirstFault, RunsOutWhereItMay, RunsOutWithinReach};

use crate::command::Command;
use crate::fault::{ScriptFault, ScriptWhat};
use crate::spelling::command;
use crate::words::words;
use lisp_memory::{FallibleVec, Memory};
use lisp_sites::Config;
use std::alloc::{Allocator, Global};

/// The commands of a script, by the names of a configuration: a line each, whose words are separated by spaces. Lines end
/// with a line feed; a carriage return before it is dropped. Blank lines, and lines that begin with `#`, are skipped.
///
/// The first faulty line is the fault, with its number, from 1 on; `Memory` where memory runs out in a line, which then
/// has words, and before which no line is faulty. Where no line is a `reload`, memory runs out only where that of `alloc` may be
/// refused. `heap` serves the reading of TOML, that of sites, alone.
pub fn parse_script<A: Memory + Copy, E: Allocator>(
    heap: Global,
    alloc: A,
    config: &Config<E>,
    text: &str,
) -> Result<Vec<Command<A>, A>, ScriptFault>
    ensures commands { IfOk result (λ commands. IsScript config.now text.now commands.items) }
    ensures fault { IfErr result (λ fault. IsFirstFault config.now text.now fault) }
    ensures memory { IfErr result (λ fault. RunsOutWhereItMay A.may_refuse text.now fault) }
    ensures reached { IfErr result (λ fault. RunsOutWithinReach config.now text.now fault) }
{
    let mut commands = Vec::new(alloc);
    for (place, line) in text.lines().enumerate() {
        at_line(
            place + 1,
            read_line(heap, alloc, config, line, &mut commands),
        )?;
    }
    Ok(commands)
}

// Appends the command of a line, where it has one.
#[tactic(auto, using(crate::proofs::Commands::steps))]
fn read_line<A: Memory + Copy, E: Allocator>(
    heap: Global,
    alloc: A,
    config: &Config<E>,
    line: &str,
    commands: &mut Vec<Command<A>, A>,
) -> Result<(), ScriptWhat>
    ensures gives { AddsLine A.may_refuse config.now line.now commands.old commands.new result }
    ensures asked { result ≡ Err ScriptWhat.Memory → HasWords line.now }
{
    if is_comment(line) {
        return Ok(());
    }
    let words = words(alloc, line)?;
    read_words(heap, alloc, config, &words, commands)
}

// Appends the command of a line's words, where it has one.
fn read_words<A: Memory + Copy, E: Allocator>(
    heap: Global,
    alloc: A,
    config: &Config<E>,
    words: &[&str],
    commands: &mut Vec<Command<A>, A>,
) -> Result<(), ScriptWhat>
    ensures gives { AddsWords A.may_refuse config.now words.now commands.old commands.new result }
    ensures asked { result ≡ Err ScriptWhat.Memory → texts words.now ≢ [] }
{
    let [word, words @ ..] = words else {
        return Ok(());
    };
    commands.try_push(command(heap, alloc, config, word, words)?)?;
    Ok(())
}

/// Whether a line is a comment.
pub(crate) fn is_comment(line: &str) -> bool
    ensures { result ≡ is_comment line.now }
{
    matches!(line.as_bytes(), [b'#', ..])
}

// What a line gave; a fault with the line's number.
fn at_line<X: Drop>(line: usize, read: Result<X, ScriptWhat>) -> Result<X, ScriptFault>
    ensures { result ≡ at_line line read }
{
    match read {
        Ok(value) => Ok(value),
        Err(what) => Err(ScriptFault { line, what }),
    }
}
