//! The object of a line.

ghost use Rattle.std.specs.Prelude.{◌≡◌, ◌++◌, IfOk, OnOk, OnErr, codes, map};
ghost use Rattle.std.specs.List.{flat_map};
ghost use Rattle.json.specs.Print.{quoted};
ghost use Rattle.lisp_json.specs.Words.{texts};
ghost use Rattle.lisp_json.specs.Object.{AreObjectsOf, IsObjectOf, IsObjectOfKind, IsObjectOfWords, member_text, object_text, words_text};
ghost use Rattle.lisp_json.specs.Views.{PutsObject, member_view, told_view, value_view};

use crate::explained::explained_in;
use crate::quoting::put_quoted;
use crate::told::{Member, Told, Value};
use crate::words::words_of;
use lisp_memory::{FallibleCopies, Memory};
use std::alloc::AllocError;

/// The objects of the lines of an answer, which line feeds divide, each with a line feed behind it.
pub fn objects_of<A: Memory + Copy>(alloc: A, lines: &str) -> Result<Vec<u8, A>, AllocError>
    ensures objects { IfOk result (λ objects. AreObjectsOf lines.now objects.items) }
    ensures memory { OnErr result A.may_refuse }
{
    let mut objects = Vec::new(alloc);
    for line in lines.split('\n') {
        put_line(alloc, &mut objects, line)?;
    }
    Ok(objects)
}

// Appends the object of a line, and a line feed. Out of memory, it may leave a part of them.
fn put_line<A: Memory + Copy>(alloc: A, out: &mut Vec<u8, A>, line: &str) -> Result<(), AllocError>
    ensures object { OnOk result (PutsObject line.now out.old.items out.new.items) }
    ensures memory { OnErr result A.may_refuse }
{
    let object = object_of(alloc, line)?;
    out.try_extend_from_slice(object.as_slice())?;
    out.try_extend_from_slice(b"\n")
}

/// The object of a line that a node prints or answers, without the line feed.
pub fn object_of<A: Memory + Copy>(alloc: A, line: &str) -> Result<Vec<u8, A>, AllocError>
    ensures object { IfOk result (λ object. IsObjectOf line.now object.items) }
    ensures memory { OnErr result A.may_refuse }
{
    let words = words_of(alloc, line)?;
    object_of_words(alloc, words.as_slice())
}

/// That of the words of a line.
pub(crate) fn object_of_words<A: Memory + Copy>(
    alloc: A,
    words: &[&str],
) -> Result<Vec<u8, A>, AllocError>
    ensures object { IfOk result (λ object. IsObjectOfWords (texts words.now) object.items) }
    ensures memory { OnErr result A.may_refuse }
{
    match words {
        [kind, behind @ ..] => object_of_kind(alloc, kind, behind),
        [] => object_text(alloc, "", &Told::new(alloc)),
    }
}

// The object of a line of this kind, with these words behind it.
fn object_of_kind<A: Memory + Copy>(
    alloc: A,
    kind: &str,
    words: &[&str],
) -> Result<Vec<u8, A>, AllocError>
    ensures object { IfOk result
        (λ object. IsObjectOfKind kind.now (texts words.now) object.items) }
    ensures memory { OnErr result A.may_refuse }
{
    let mut told = Told::new(alloc);
    let named = told.take_names(kind, words)?;
    let numbered = told.take_number(explained_in(kind, named), named)?;
    told.take_words(numbered)?;
    object_text(alloc, kind, &told)
}

// The text of the object of a line of this kind.
fn object_text<A: Memory + Copy>(
    alloc: A,
    kind: &str,
    told: &Told<'_, A>,
) -> Result<Vec<u8, A>, AllocError>
    ensures text { IfOk result (λ object. object.items ≡ object_text kind.now (told_view told.now)) }
    ensures memory { OnErr result A.may_refuse }
{
    let mut out = Vec::new(alloc);
    put_object(&mut out, kind, told)?;
    Ok(out)
}

// Appends the object of a line of this kind. Out of memory, it may leave a part of it, as the functions below do.
fn put_object<A: Memory>(
    out: &mut Vec<u8, A>,
    kind: &str,
    told: &Told<'_, A>,
) -> Result<(), AllocError>
    ensures text { OnOk result (out.new.items
        ≡ out.old.items ++ object_text kind.now (told_view told.now)) }
    ensures memory { OnErr result A.may_refuse }
{
    put_kind(out, kind)?;
    put_members(out, told.members.as_slice())?;
    put_end(out, told.words.as_slice())
}

// Appends the begin of an object, and the kind of the line.
fn put_kind<A: Memory>(out: &mut Vec<u8, A>, kind: &str) -> Result<(), AllocError>
    ensures text { OnOk result (out.new.items
        ≡ out.old.items ++ codes "{\"line\":" ++ quoted kind.now) }
    ensures memory { OnErr result A.may_refuse }
{
    out.try_extend_from_slice(b"{\"line\":")?;
    put_quoted(out, kind)
}

// Appends the words that belong to no member, and the end of the object.
fn put_end<A: Memory>(out: &mut Vec<u8, A>, words: &[&str]) -> Result<(), AllocError>
    ensures text { OnOk result (out.new.items
        ≡ out.old.items ++ words_text (texts words.now) ++ codes "}") }
    ensures memory { OnErr result A.may_refuse }
{
    put_words(out, words)?;
    out.try_extend_from_slice(b"}")
}

fn put_members<A: Memory>(out: &mut Vec<u8, A>, members: &[Member<'_>]) -> Result<(), AllocError>
    ensures text { OnOk result (out.new.items
        ≡ out.old.items ++ flat_map member_text (map member_view members.now)) }
    ensures memory { OnErr result A.may_refuse }
{
    for member in members {
        put_member(out, member)?;
    }
    Ok(())
}

// Appends a member behind another one.
fn put_member<A: Memory>(out: &mut Vec<u8, A>, member: &Member<'_>) -> Result<(), AllocError>
    ensures text { OnOk result (out.new.items
        ≡ out.old.items ++ member_text (member_view member.now)) }
    ensures memory { OnErr result A.may_refuse }
{
    put_name(out, member.name)?;
    put_value(out, member.value)
}

// Appends the name of a member behind another one, and a colon.
fn put_name<A: Memory>(out: &mut Vec<u8, A>, name: &str) -> Result<(), AllocError>
    ensures text { OnOk result (out.new.items
        ≡ out.old.items ++ codes "," ++ quoted name.now ++ codes ":") }
    ensures memory { OnErr result A.may_refuse }
{
    out.try_extend_from_slice(b",")?;
    put_quoted(out, name)?;
    out.try_extend_from_slice(b":")
}

fn put_value<A: Memory>(out: &mut Vec<u8, A>, value: Value<'_>) -> Result<(), AllocError>
    ensures text { OnOk result (out.new.items ≡ out.old.items ++ value_view value.entry) }
    ensures memory { OnErr result A.may_refuse }
{
    match value {
        Value::Text(text) => put_quoted(out, text),
        Value::Number(digits) => out.try_extend_from_slice(digits.as_bytes()),
    }
}

fn put_words<A: Memory>(out: &mut Vec<u8, A>, words: &[&str]) -> Result<(), AllocError>
    ensures text { OnOk result (out.new.items ≡ out.old.items ++ words_text (texts words.now)) }
    ensures memory { OnErr result A.may_refuse }
{
    let [first, others @ ..] = words else {
        return Ok(());
    };
    put_first(out, first)?;
    put_others(out, others)?;
    out.try_extend_from_slice(b"]")
}

// Appends the begin of the array, and its first word.
fn put_first<A: Memory>(out: &mut Vec<u8, A>, word: &str) -> Result<(), AllocError>
    ensures text { OnOk result (out.new.items
        ≡ out.old.items ++ codes ",\"words\":[" ++ quoted word.now) }
    ensures memory { OnErr result A.may_refuse }
{
    out.try_extend_from_slice(b",\"words\":[")?;
    put_quoted(out, word)
}

// Appends strings behind another one.
fn put_others<A: Memory>(out: &mut Vec<u8, A>, words: &[&str]) -> Result<(), AllocError>
    ensures text { OnOk result (out.new.items
        ≡ out.old.items ++ flat_map (λ word. codes "," ++ quoted word) (texts words.now)) }
    ensures memory { OnErr result A.may_refuse }
{
    for word in words {
        put_other(out, word)?;
    }
    Ok(())
}

// Appends a string behind another one.
fn put_other<A: Memory>(out: &mut Vec<u8, A>, word: &str) -> Result<(), AllocError>
    ensures text { OnOk result (out.new.items ≡ out.old.items ++ (codes "," ++ quoted word.now)) }
    ensures memory { OnErr result A.may_refuse }
{
    out.try_extend_from_slice(b",")?;
    put_quoted(out, word)
}
