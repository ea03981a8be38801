//! The words of the program: those of the table of subcommands, as `clap` takes them.

use crate::help::{ABOUT, IN_WORDS, TABLE, help_of};
use clap::{Arg, ArgAction, Command};
use std::alloc::{AllocError, Global};

// What a Map-Server is told that is to take the sites of a configuration.
pub(crate) const RELOAD: &str = "reload";

// The names of arguments in the table: words, options with a value, switches.
pub const CONFIG: &str = "CONFIG";

pub const FILE: &str = "FILE";

pub const NAME: &str = "NAME";

pub(crate) const FOLDER: &str = "FOLDER";

pub(crate) const NUMBER: &str = "N";

pub(crate) const QUESTION: &str = "WORD";

pub const STORE: &str = "store";

pub const DATABASE: &str = "database";

pub const TEXT: &str = "text";

pub(crate) const JSON: &str = "json";

pub(crate) const PROMETHEUS: &str = "prometheus";

pub(crate) const STRICT: &str = "strict";

pub(crate) const WORDS: &str = "words";

/// The words that the program takes. With no subcommand it is `answer` with its defaults.
pub fn command<'a>(alloc: Global) -> Result<Command<'a>, AllocError> {
    let program = Command::new(alloc, "lispd").version("0.1.0").about(ABOUT);
    with_subcommands(alloc, program.arg(argument(alloc, IN_WORDS))?)
}

fn with_subcommands<'a>(
    alloc: Global,
    mut program: Command<'a>,
) -> Result<Command<'a>, AllocError> {
    for text in TABLE.split("\n\n\n") {
        program = with_subcommand(alloc, program, text)?;
    }
    Ok(program)
}

fn with_subcommand<'a>(
    alloc: Global,
    program: Command<'a>,
    text: &'a str,
) -> Result<Command<'a>, AllocError> {
    let (head, after_help) = parted(text, "\n\n");
    let (first, lines) = parted(head, "\n");
    let (name, about) = parted(first, "  ");
    let command = Command::new(alloc, name)
        .about(about)
        .after_help(after_help);
    program.subcommand(with_arguments(alloc, command, lines)?)
}

fn with_arguments<'a>(
    alloc: Global,
    mut command: Command<'a>,
    lines: &'a str,
) -> Result<Command<'a>, AllocError> {
    for line in lines.split('\n') {
        command = command.arg(argument(alloc, line))?;
    }
    command.arg(argument(alloc, IN_WORDS))
}

// The argument of a line of the table.
fn argument<'a>(alloc: Global, line: &'a str) -> Arg<'a> {
    let (usage, help) = parted(line, "  ");
    let argument = match usage.strip_prefix('[') {
        Some(usage) => optional(alloc, usage),
        None => named(alloc, usage, true),
    };
    argument.help(if help.is_empty() {
        help_of(usage)
    } else {
        help
    })
}

// The texts before and behind the first separator.
fn parted<'a>(text: &'a str, separator: &str) -> (&'a str, &'a str) {
    match text.split_once(separator) {
        Some(parts) => parts,
        None => (text, ""),
    }
}

// Of a usage that may be left out, without the bracket that begins it.
fn optional<'a>(alloc: Global, usage: &'a str) -> Arg<'a> {
    match usage.strip_suffix("]..") {
        Some(name) => Arg::new(alloc, name)
            .action(ArgAction::Append)
            .num_args(0..),
        None => named(alloc, usage.trim_end_matches(']'), false),
    }
}

// A word at its place, an option with a value, or a switch.
fn named<'a>(alloc: Global, usage: &'a str, is_required: bool) -> Arg<'a> {
    let Some(option) = usage.strip_prefix("--") else {
        return valued(alloc, usage, is_required);
    };
    match option.split_once(' ') {
        Some((name, letters)) => valued(alloc, name, is_required)
            .long(name)
            .value_name(letters),
        None => Arg::new(alloc, option)
            .long(option)
            .action(ArgAction::SetTrue),
    }
}

fn valued<'a>(alloc: Global, name: &'a str, is_required: bool) -> Arg<'a> {
    Arg::new(alloc, name)
        .required(is_required)
        .action(ArgAction::Set)
}
