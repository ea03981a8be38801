//! A line of a user's.

ghost use Rattle.std.specs.Prelude.{◌≡◌, ◌==◌, map, IfOk, OnErr};
ghost use Rattle.std.specs.List.{before_first, after_first};
ghost use Rattle.std.specs.String.{string_bytes};
ghost use Rattle.lisp_records.specs.Result.{Reads};
ghost use Rattle.lisp_script.specs.Command.{command_value};
ghost use Rattle.lisp_script.specs.Answers.{MayRunOutOf};
ghost use Rattle.lisp_script.specs.Fault.{Gives};
ghost use Rattle.lisp_script.specs.Spelling.{script_of};
ghost use Rattle.lisp_texts.specs.Number.{number_of};
ghost use Rattle.lisp_control.specs.Question.{question_in, left_of, compared, reloaded, question_of_line, own_question, question_by_word, question_in_script, records_of_change, part_question, named, what_of, only, MayRunOut};

use crate::question::Question;
use lisp_lines::RouterQuestion;
use lisp_memory::{FallibleString, Memory};
use lisp_policy::Sites;
use lisp_script::{Command, ScriptWhat, parse_script};
use lisp_sites::Config;
use lisp_statistics::Format;
use lisp_texts::number_from_text;
use lisp_turns::Order;
use std::alloc::{AllocError, Global};

/// The most bytes of sites that follow a line: 4 MiB.
const MOST_BYTES: u64 = 4_194_304;

/// What a line asks of the node with a number and a name: `records`, `routers`, `counts`, `counts --prometheus` and `nodes` by themselves;
/// `sites N` that N bytes of sites follow; `compare` and `reload` ask of the sites that were gathered, or tell the node to take them, and
/// leave none. Of any other line the name is put behind the first word, and it is read as a script's. `disallowed` is read as `change`
/// is, and asks of its records.
///
/// Faults: those of such a line, 80 to 86. 80 is also told where the command is no question and no order for a node, or is for
/// another node, where the text has no command, or more than one, and where no sites were gathered; 83 where the number of bytes
/// isn't one from 1 to 4,194,304.
pub fn question_in(
    alloc: Global,
    config: &Config,
    number: usize,
    name: &str,
    line: &str,
    gathered: &mut Option<Sites>,
) -> Result<Question, ScriptWhat>
    ensures question { Gives (MayRunOut ⟦<Global as Memory>⟧.may_refuse name.now
        (after_first (λ b. b == 32) line.now)) (λ question. question) result
        (question_in config.now number name.now gathered.old line.now) }
    ensures left { gathered.new ≡ left_of line.now gathered.old }
{
    match line {
        "compare" => compared(gathered.take()),
        "reload" => reloaded(gathered.take()),
        _ => question_of_line(alloc, config, number, name, line),
    }
}

// Asks what taking the gathered sites would do.
fn compared(gathered: Option<Sites>) -> Result<Question, ScriptWhat>
    ensures { result ≡ compared gathered }
{
    match gathered {
        Some(sites) => Ok(Question::Compare(sites)),
        None => Err(ScriptWhat::Word),
    }
}

// Tells the node to take the gathered sites.
fn reloaded(gathered: Option<Sites>) -> Result<Question, ScriptWhat>
    ensures { result ≡ reloaded gathered }
{
    match gathered {
        Some(sites) => Ok(Question::Tell(Order::Reload { sites })),
        None => Err(ScriptWhat::Word),
    }
}

// What a line asks that needs no gathered sites.
fn question_of_line(
    alloc: Global,
    config: &Config,
    number: usize,
    name: &str,
    line: &str,
) -> Result<Question, ScriptWhat>
    ensures { Gives (MayRunOut ⟦<Global as Memory>⟧.may_refuse name.now
        (after_first (λ b. b == 32) line.now)) (λ question. question) result
        (question_of_line config.now number name.now line.now) }
{
    match own_question(line) {
        Some(question) => Ok(question),
        None => {
            let (word, rest) = parted(line);
            question_by_word(alloc, config, number, name, word, rest)
        }
    }
}

// What is asked that no script has a word for.
fn own_question(line: &str) -> Option<Question>
    ensures { result ≡ own_question line.now }
{
    match line {
        "records" => Some(Question::Router(RouterQuestion::Records)),
        "routers" => Some(Question::Routers),
        "counts" => Some(Question::Counts(Format::Lines)),
        "counts --prometheus" => Some(Question::Counts(Format::Prometheus)),
        "nodes" => Some(Question::Nodes),
        _ => None,
    }
}

// What a line asks, by its first word and what is behind it.
fn question_by_word(
    alloc: Global,
    config: &Config,
    number: usize,
    name: &str,
    word: &str,
    rest: &str,
) -> Result<Question, ScriptWhat>
    ensures { Gives (MayRunOut ⟦<Global as Memory>⟧.may_refuse name.now rest.now)
        (λ question. question) result (question_by_word config.now number name.now word.now rest.now) }
{
    if word == "disallowed" {
        let change = question_in_script(alloc, config, number, name, "change", rest)?;
        records_of_change(change)
    } else if word == "sites" {
        part_question(number_from_text(rest))
    } else {
        question_in_script(alloc, config, number, name, word, rest)
    }
}

// That a part of so many bytes follows, whose sites are gathered.
fn part_question(bytes: Option<u64>) -> Result<Question, ScriptWhat>
    ensures { result ≡ part_question bytes }
{
    match bytes {
        Some(bytes) if 0 < bytes && bytes <= MOST_BYTES => Ok(Question::Sites(bytes as usize)),
        _ => Err(ScriptWhat::Number),
    }
}

// Asks of the records of an order to register others.
fn records_of_change(question: Question) -> Result<Question, ScriptWhat>
    ensures { result ≡ records_of_change question }
{
    match question {
        Question::Tell(Order::Change { db }) => Ok(Question::Disallowed(db)),
        _ => Err(ScriptWhat::Word),
    }
}

// What a line asks as a script's, by its first word and what is behind it.
fn question_in_script(
    alloc: Global,
    config: &Config,
    number: usize,
    name: &str,
    word: &str,
    rest: &str,
) -> Result<Question, ScriptWhat>
    ensures { Gives (MayRunOut ⟦<Global as Memory>⟧.may_refuse name.now rest.now)
        (λ question. question) result (question_in_script config.now number name.now word.now rest.now) }
{
    let text = named(alloc, name, word, rest)?;
    let commands = commands_in(alloc, config, text.as_str())?;
    Question::from_command(config, number, only(commands)?)
}

// The line with the name behind its first word.
fn named<A: Memory>(alloc: A, name: &str, word: &str, rest: &str) -> Result<String<A>, AllocError>
    ensures text { IfOk result (λ text. string_bytes text ≡ named name.now word.now rest.now) }
    ensures memory { OnErr result A.may_refuse }
{
    String::try_format(alloc, format_args!("{word} {name} {rest}"))
}

// The first word of a line, and what is behind the space there.
fn parted(line: &str) -> (&str, &str)
    ensures word { result.0.now ≡ before_first (λ b. b == 32) line.now }
    ensures rest { result.1.now ≡ after_first (λ b. b == 32) line.now }
{
    match line.split_once(' ') {
        Some(parts) => parts,
        None => (line, ""),
    }
}

// The commands of a script.
fn commands_in(alloc: Global, config: &Config, text: &str) -> Result<Vec<Command>, ScriptWhat>
    ensures { Gives (MayRunOutOf ⟦<Global as Memory>⟧.may_refuse text.now)
        (λ commands. map command_value commands.items) result
        (what_of (script_of config.now text.now)) }
{
    match parse_script(alloc, alloc, config, text) {
        Ok(commands) => Ok(commands),
        Err(fault) => Err(fault.what),
    }
}

// The only one of some commands.
fn only(commands: Vec<Command>) -> Result<Command, ScriptWhat>
    ensures { Reads command_value result (only (map command_value commands.items)) }
{
    let mut commands = commands.into_iter();
    let Some(command) = commands.next() else {
        return Err(ScriptWhat::Word);
    };
    match commands.next() {
        Some(_) => Err(ScriptWhat::Word),
        None => Ok(command),
    }
}
