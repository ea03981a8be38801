//! What a line tells.

ghost use Rattle.std.specs.Prelude.{◌≡◌, IfOk, OnOk, OnErr};
ghost use Rattle.std.specs.Option.{option_map};
ghost use Rattle.std.specs.List.{list_any};
ghost use Rattle.std.specs.Str.{bytes_eq};
ghost use Rattle.lisp_json.specs.Words.{texts};
ghost use Rattle.lisp_json.specs.Told.{is_free_key, key_member, nothing, take_name, take_names, take_number, take_word, with_member, with_word, with_words};
ghost use Rattle.lisp_json.specs.Views.{explained_view, member_view, text_if, told_view};

use crate::explained::Explained;
use crate::words::{has_number, is_decimal, is_key, is_nameless, is_paired};
use lisp_memory::{FallibleCopies, Memory};
use std::alloc::{AllocError, Allocator};

/// The value of a member.
#[derive(Clone, Copy, Debug)]
pub(crate) enum Value<'a> {
    Text(&'a str),
    /// A number, by its digits.
    Number(&'a str),
}

/// A member of an object.
#[derive(Clone, Copy, Debug)]
pub(crate) struct Member<'a> {
    pub(crate) name: &'a str,
    pub(crate) value: Value<'a>,
}

/// The members that a line's words give, and the words that belong to none.
#[derive(Debug, Drop)]
pub(crate) struct Told<'a, A: Allocator> {
    pub(crate) members: Vec<Member<'a>, A>,
    pub(crate) words: Vec<&'a str, A>,
}

impl<'a, A: Memory + Copy> Told<'a, A> {
    /// Nothing was told yet.
    pub(crate) fn new(alloc: A) -> Told<'a, A>
        ensures { told_view result ≡ nothing }
    {
        Told {
            members: Vec::new(alloc),
            words: Vec::new(alloc),
        }
    }

    fn add_member(&mut self, member: Member<'a>) -> Result<(), AllocError>
        ensures told { OnOk result (told_view self.new
            ≡ with_member (told_view self.old) (member_view member.entry)) }
        ensures memory { OnErr result A.may_refuse }
    {
        self.members.try_extend_from_slice(&[member])
    }

    fn add_word(&mut self, word: &'a str) -> Result<(), AllocError>
        ensures told { OnOk result (told_view self.new ≡ with_word (told_view self.old) word.now) }
        ensures memory { OnErr result A.may_refuse }
    {
        self.words.try_extend_from_slice(&[word])
    }

    /// Takes the names of nodes behind the kind of a line; the words behind them.
    pub(crate) fn take_names<'w>(
        &mut self,
        kind: &str,
        words: &'w [&'a str],
    ) -> Result<&'w [&'a str], AllocError>
        requires { told_view self.now ≡ nothing }
        ensures told { IfOk result (λ behind. (told_view self.new, texts behind.now)
            ≡ take_names kind.now (texts words.now)) }
        ensures memory { OnErr result A.may_refuse }
    {
        if is_nameless(kind) {
            return Ok(words);
        }
        let behind = self.take_name("node", words)?;
        if is_paired(kind) {
            self.take_name("peer", behind)
        } else {
            Ok(behind)
        }
    }

    // Takes a name; the words behind it.
    fn take_name<'w>(
        &mut self,
        name: &'static str,
        words: &'w [&'a str],
    ) -> Result<&'w [&'a str], AllocError>
        ensures told { IfOk result (λ behind. (told_view self.new, texts behind.now)
            ≡ take_name name.now (told_view self.old, texts words.now)) }
        ensures memory { OnErr result A.may_refuse }
    {
        let [word, behind @ ..] = words else {
            return Ok(words);
        };
        self.add_member(Member {
            name,
            value: Value::Text(word),
        })?;
        Ok(behind)
    }

    /// Takes a number and what explains it; the words behind it.
    pub(crate) fn take_number<'w>(
        &mut self,
        explained: Option<Explained>,
        words: &'w [&'a str],
    ) -> Result<&'w [&'a str], AllocError>
        ensures told { IfOk result (λ behind. (told_view self.new, texts behind.now)
            ≡ take_number (option_map explained_view explained) (told_view self.old, texts words.now)) }
        ensures memory { OnErr result A.may_refuse }
    {
        let Some(Explained { name, meaning }) = explained else {
            return Ok(words);
        };
        let [number, behind @ ..] = words else {
            return Ok(words);
        };
        self.add_member(Member {
            name: "number",
            value: Value::Number(number),
        })?;
        self.add_member(Member {
            name: "name",
            value: Value::Text(name),
        })?;
        self.add_member(Member {
            name: "meaning",
            value: Value::Text(meaning),
        })?;
        Ok(behind)
    }

    /// Takes keys with their values, and the words that belong to none.
    pub(crate) fn take_words(&mut self, words: &[&'a str]) -> Result<(), AllocError>
        ensures told { OnOk result (told_view self.new
            ≡ with_words (told_view self.old) (texts words.now)) }
        ensures memory { OnErr result A.may_refuse }
    {
        let mut key = None;
        for word in words {
            key = self.take_word(key, word)?;
        }
        match key {
            Some(word) => self.add_word(word),
            None => Ok(()),
        }
    }

    // Takes one more word, behind the key that waits for its value, if any; the key that waits then.
    fn take_word(
        &mut self,
        key: Option<&'a str>,
        word: &'a str,
    ) -> Result<Option<&'a str>, AllocError>
        ensures told { IfOk result (λ next. (told_view self.new, text_if next)
            ≡ take_word (told_view self.old, text_if key.entry) word.now) }
        ensures memory { OnErr result A.may_refuse }
    {
        match key {
            Some(name) => self.add_member(key_member(name, word))?,
            None if self.is_free_key(word) => return Ok(Some(word)),
            None => self.add_word(word)?,
        }
        Ok(None)
    }

    // Whether a word is a key that wasn't taken yet.
    fn is_free_key(&self, word: &str) -> bool
        ensures { result ≡ is_free_key (told_view self.now) word.now }
    {
        is_key(word) && !has_name(self.members.as_slice(), word)
    }
}

// Whether a member has the name.
fn has_name(members: &[Member<'_>], name: &str) -> bool
    ensures { result ≡ list_any (λ member. bytes_eq name.now member.name.now) members.now }
{
    members.iter().any(|member| name == member.name)
}

// A key with its value.
fn key_member<'a>(key: &'a str, word: &'a str) -> Member<'a>
    ensures { member_view result ≡ key_member key.now word.now }
{
    let value = if has_number(key) && is_decimal(word) {
        Value::Number(word)
    } else {
        Value::Text(word)
    };
    Member { name: key, value }
}
