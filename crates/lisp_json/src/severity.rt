//! How severe a line is.

ghost use Rattle.std.specs.Prelude.{◌≡◌, ◌==◌};
ghost use Rattle.std.specs.List.{list_any};
ghost use Rattle.lisp_json.specs.Severity.{is_failing, severity_of_kind, severity_of_words, severity_word};
ghost use Rattle.lisp_json.specs.Words.{texts};

use crate::words::{behind_names, is_one_of, number_in};

/// Numbers of refusals whose cause is the node itself: its store, its memory or its socket.
const FAILING_NUMBERS: [u16; 16] = [
    9, 35, 36, 38, 41, 42, 48, 56, 58, 59, 64, 65, 66, 68, 90, 91,
];

/// Kinds of lines that tell that the node itself fails.
const FAILING_KINDS: [&str; 1] = ["restarted"];

/// Kinds of lines that tell what an operator should know of.
const WARNING_KINDS: [&str; 6] = [
    "dropped", "expired", "moved", "refused", "replays", "silent",
];

/// How severe it is that a running node prints a line (RFC 5424 section 6.2.1).
#[derive(Clone, Copy, Debug)]
pub(crate) enum Severity {
    Error,
    Warning,
    Info,
}

impl Severity {
    /// That of the words of a line.
    pub(crate) fn of_words(words: &[&str]) -> Severity
        ensures { result ≡ severity_of_words (texts words.now) }
    {
        match words {
            [kind, behind @ ..] => Severity::of(kind, number_in(kind, behind_names(kind, behind))),
            [] => Severity::Info,
        }
    }

    // That of a line of a kind, with the number of a refusal, if it has one.
    fn of(kind: &str, number: Option<u16>) -> Severity
        ensures { result ≡ severity_of_kind kind.now number }
    {
        if is_failing(number) || is_one_of(&FAILING_KINDS, kind) {
            Severity::Error
        } else if is_one_of(&WARNING_KINDS, kind) {
            Severity::Warning
        } else {
            Severity::Info
        }
    }

    /// Its word.
    pub(crate) fn word(self) -> &'static str
        ensures { result.now ≡ severity_word self }
    {
        match self {
            Severity::Error => "error",
            Severity::Warning => "warning",
            Severity::Info => "info",
        }
    }
}

fn is_failing(number: Option<u16>) -> bool
    ensures { result ≡ is_failing number }
{
    match number {
        Some(number) => is_one_of_numbers(&FAILING_NUMBERS, number),
        None => false,
    }
}

fn is_one_of_numbers(numbers: &[u16], number: u16) -> bool
    ensures { result ≡ list_any (λ other. number == other) numbers.now }
{
    numbers.iter().any(|other| number == *other)
}
