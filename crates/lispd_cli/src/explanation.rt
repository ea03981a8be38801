//! What `explain` is asked for: the numbers of a line that a node printed.

ghost use Rattle.std.specs.Prelude.{◌≡◌, ◌≢◌, ◌∷◌, ◌++◌, string_bytes, IfErr, IfOk, IsErrOf, None, OnErr, OnOk};
ghost use Rattle.std.specs.List.{list_all};
ghost use Rattle.std.specs.Option.{option_map, IsSome};
ghost use Rattle.lisp_refusals.specs.Numbers.{is_known};
ghost use Rattle.lisp_script.specs.Words.{texts, words_of};
ghost use Rattle.lispd_cli.specs.PrintedLine.{given, explained_of, ExplainsEach, ExplainsLine, out_of_memory, unknown, unwritten};

use crate::fault::ProgramFault;
use crate::printed_line::numbers_of;
use lisp_memory::{FallibleString, FallibleVec, Memory};
use lisp_refusals::{ExplainFault, explain, is_known};
use std::alloc::{AllocError, Global};
use std::io::Write;

/// Explains each number of a line that a node printed, in the order of the line: whole, as `refused s1 56 store 30 from 192.0.2.1`,
/// also with what a log puts in front of it, or from its number on, as `56 store 30`. Faults: `ExplainFault::Unknown` (98) where the
/// words are no such line, or a number of it is that of nothing; `SetupFault::OutOfMemory` (97): nothing was written;
/// `ExplainFault::Write` (88).
pub(crate) fn explain_line<W: Write>(
    alloc: Global,
    words: &[&str],
    writer: &mut W,
) -> Result<(), ProgramFault>
    ensures ok { OnOk result
        (ExplainsLine (texts words.now) (W.contents writer.old) (W.contents writer.new)) }
    ensures unknown { IsErrOf result unknown → explained_of (texts words.now) ≡ None }
    ensures write { IsErrOf result unwritten → IsSome (explained_of (texts words.now)) }
    ensures memory { IsErrOf result out_of_memory → ⟦<Global as Memory>⟧.may_refuse }
    ensures kept { IfErr result (λ fault. fault ≢ unwritten → writer.new ≡ writer.old) }
{
    match explained_of(alloc, words)? {
        Some(numbers) => explain_each(&numbers, writer),
        None => Err(ProgramFault::Explain(ExplainFault::Unknown)),
    }
}

// The numbers that are explained of the words; `None` where one is that of nothing, or they are no line.
fn explained_of(alloc: Global, words: &[&str]) -> Result<Option<Vec<u16>>, AllocError>
    ensures numbers { IfOk result
        (λ found. option_map (λ numbers. numbers.items) found ≡ explained_of (texts words.now)) }
    ensures memory { OnErr result ⟦<Global as Memory>⟧.may_refuse }
{
    let line = line_of(alloc, words)?;
    let words = words_of(alloc, line.as_str())?;
    let Some(numbers) = numbers_of(alloc, &words)? else {
        return Ok(None);
    };
    Ok(are_known(&numbers).then_some(numbers))
}

fn are_known(numbers: &[u16]) -> bool
    ensures { result ≡ list_all is_known numbers.now }
{
    numbers.iter().all(|number| is_known(*number))
}

// Writes the explanations of known numbers, one after the other: then only writing fails.
#[tactic(auto, unfolding(crate::specs::PrintedLine::ExplainsEach))]
fn explain_each<W: Write>(numbers: &[u16], writer: &mut W) -> Result<(), ProgramFault>
    ensures ok { OnOk result
        (ExplainsEach numbers.now (W.contents writer.old) (W.contents writer.new)) }
    ensures fault { IfErr result (λ fault. fault ≡ unwritten) }
{
    let mut rest = numbers;
    while let [number, others @ ..] = rest {
        if explain(*number, writer).is_err() {
            return Err(ProgramFault::Explain(ExplainFault::Write));
        }
        rest = others;
    }
    Ok(())
}

// Words that are given, as one line.
#[tactic(auto, using(crate::proofs::Numbers::steps))]
fn line_of<A: Memory>(alloc: A, words: &[&str]) -> Result<String<A>, AllocError>
    ensures line { IfOk result (λ line. string_bytes line ≡ given (texts words.now)) }
    ensures memory { OnErr result A.may_refuse }
{
    let mut line = String::new(alloc);
    let mut rest = words;
    while let [word, others @ ..] = rest {
        put_word(&mut line, word)?;
        rest = others;
    }
    Ok(line)
}

// Appends a space and a word. Out of memory, it may leave a part of it.
fn put_word<A: Memory>(line: &mut String<A>, word: &str) -> Result<(), AllocError>
    ensures line { OnOk result (string_bytes line.new ≡ string_bytes line.old ++ 32 ∷ word.now) }
    ensures memory { OnErr result A.may_refuse }
{
    line.try_write(format_args!(" {word}"))
}

// The words of a line, which spaces separate.
fn words_of<A: Memory>(alloc: A, line: &str) -> Result<Vec<&str, A>, AllocError>
    ensures words { IfOk result (λ words. texts words.items ≡ words_of line.now) }
    ensures memory { OnErr result A.may_refuse }
{
    let mut words = Vec::new(alloc);
    for word in line.split(' ') {
        if !word.is_empty() {
            words.try_push(word)?;
        }
    }
    Ok(words)
}
