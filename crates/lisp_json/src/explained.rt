//! What explains a number.

ghost use Rattle.std.specs.Option.{option_map};
ghost use Rattle.lisp_json.specs.Told.{IsExplained, IsExplainedIf};
ghost use Rattle.lisp_json.specs.Views.{explained_view};
ghost use Rattle.lisp_json.specs.Words.{number_in, texts};

use crate::words::number_in;
use lisp_refusals::{meaning, name};

/// The name of a number in the code, empty where it has none, and its meaning.
#[derive(Clone, Copy, Debug)]
pub(crate) struct Explained {
    pub(crate) name: &'static str,
    pub(crate) meaning: &'static str,
}

/// What explains the number of a line, which the words behind the names begin with; `None` where there is none.
pub(crate) fn explained_in(kind: &str, words: &[&str]) -> Option<Explained>
    ensures { IsExplainedIf (number_in kind.now (texts words.now))
        (option_map explained_view result) }
{
    match number_in(kind, words) {
        Some(number) => explanation_of(number),
        None => None,
    }
}

// What the table of refusals says of a number; `None` where it doesn't have it.
fn explanation_of(number: u16) -> Option<Explained>
    ensures { IsExplained number (option_map explained_view result) }
{
    let name = name(number)?;
    let meaning = meaning(number)?;
    Some(Explained { name, meaning })
}
