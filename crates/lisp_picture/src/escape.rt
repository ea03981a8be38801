//! Texts in a document of XML.

ghost use Rattle.std.specs.Prelude.{◌≡◌, OnErr, if◌then◌else◌};
ghost use Rattle.lisp_picture.specs.Markup.{Adds, escaped, is_shown, written};

use lisp_memory::{FallibleString, Memory};
use std::alloc::AllocError;

/// Appends a text as it is written in a document of XML.
pub(crate) fn put_escaped<A: Memory>(text: &mut String<A>, words: &str) -> Result<(), AllocError>
    ensures text { Adds result text.old text.new (escaped words.now) }
    ensures memory { OnErr result A.may_refuse }
{
    for character in words.chars() {
        put_character(text, character)?;
    }
    Ok(())
}

#[tactic(auto, unfolding(crate::specs::Markup::written))]
fn put_character<A: Memory>(text: &mut String<A>, character: char) -> Result<(), AllocError>
    ensures text { Adds result text.old text.new (written character) }
    ensures memory { OnErr result A.may_refuse }
{
    match character {
        '&' => text.try_write("&amp;"),
        '<' => text.try_write("&lt;"),
        '>' => text.try_write("&gt;"),
        '"' => text.try_write("&quot;"),
        _ => text.try_push(shown(character)),
    }
}

// A character, or `?` where a document can't have it: a control character, or one of the two that aren't characters.
fn shown(character: char) -> char
    ensures { result ≡ (if is_shown character then character else 63) }
{
    match character {
        '\u{20}'..='\u{7e}' | '\u{a0}'..='\u{fffd}' | '\u{10000}'..='\u{10ffff}' => character,
        _ => '?',
    }
}
