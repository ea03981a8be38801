//! Names of nodes.

ghost use Rattle.std.specs.Prelude.{◌≡◌, string_bytes};
ghost use Rattle.std.specs.List.{list_all};
ghost use Rattle.lisp_policy.specs.Configuration.{is_name, is_name_letter};

use std::alloc::{Allocator, Global};
use std::marker::Model;

/// The most letters of a name.
const MAX_NAME: usize = 32;

/// The name of a Map-Server or router in a configuration, seen as the bytes of its text.
#[derive(Debug, Drop)]
pub struct Name<A: Allocator = Global> {
    text: String<A>,
}

impl<A: Allocator> Model for Name<A> {
    ghost use Rattle.std.specs.Prelude.{List, ℕ, string_bytes};

    ghost Value = { List ℕ };

    ghost view = { λ n. string_bytes n.text };
}

impl<A: Allocator> Name<A> {
    /// The name that a text is; takes no memory.
    pub fn from_string(text: String<A>) -> Name<A>
        ensures { result ≡ string_bytes text }
    {
        Name { text }
    }

    /// The name as text.
    pub fn as_str(&self) -> &str
        ensures { result.now ≡ self.now }
    {
        self.text.as_str()
    }
}

/// Whether a text may be a node's name: 1 to 32 of `a` to `z`, `0` to `9` and `-`.
pub(crate) fn is_name(text: &str) -> bool
    ensures { result ≡ is_name text.now }
{
    !text.is_empty() && text.len() <= MAX_NAME && are_name_letters(text.as_bytes())
}

fn are_name_letters(text: &[u8]) -> bool
    ensures { result ≡ list_all is_name_letter text.now }
{
    text.iter()
        .all(|c| matches!(c, b'a'..=b'z' | b'0'..=b'9' | b'-'))
}
