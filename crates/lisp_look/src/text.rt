//! What is printed of a Map-Reply.

ghost use Rattle.std.specs.Prelude.{◌≡◌, ◌<◌, ◌++◌, string_bytes, IfOk, OnOk, OnErr};
ghost use Rattle.std.specs.List.{flat_map};
ghost use Rattle.lisp_look.specs.Text.{act_words, answer_text, head_text, record_line};

use crate::answer::Answer;
use lisp_memory::{FallibleString, Memory};
use lisp_records::MapRecord;
use lisp_texts::{addr_to_text, record_to_text};
use std::alloc::{AllocError, Allocator};

/// A line that says from whom a Map-Reply came and after how many ms, then a line for each record: `record` with its text, or `negative`
/// with it and what an ITR does then.
pub fn answer_text<A: Memory + Copy, B: Allocator>(
    alloc: A,
    answer: &Answer<B>,
) -> Result<String<A>, AllocError>
    ensures text { IfOk result (λ text. string_bytes text ≡ answer_text answer.now) }
    ensures memory { OnErr result A.may_refuse }
{
    let mut text = head_text(alloc, answer)?;
    put_records(alloc, &mut text, answer.reply.records.as_slice())?;
    Ok(text)
}

// From whom it came, and after how many ms.
fn head_text<A: Memory + Copy, B: Allocator>(
    alloc: A,
    answer: &Answer<B>,
) -> Result<String<A>, AllocError>
    ensures text { IfOk result (λ text. string_bytes text ≡ head_text answer.now) }
    ensures memory { OnErr result A.may_refuse }
{
    let from = addr_to_text(alloc, &answer.from)?;
    let ms = answer.ms;
    String::try_format(alloc, format_args!("reply from {from} after {ms} ms\n"))
}

// Appends a line for each record. Out of memory, it may leave a part of them.
fn put_records<A: Memory + Copy, B: Allocator>(
    alloc: A,
    text: &mut String<A>,
    records: &[MapRecord<B>],
) -> Result<(), AllocError>
    ensures text { OnOk result
        (string_bytes text.new ≡ string_bytes text.old ++ flat_map record_line records.now) }
    ensures memory { OnErr result A.may_refuse }
{
    for entry in records {
        put_record(alloc, text, entry)?;
    }
    Ok(())
}

// Appends the line of a record. Out of memory, it may leave a part of it.
fn put_record<A: Memory + Copy, B: Allocator>(
    alloc: A,
    text: &mut String<A>,
    entry: &MapRecord<B>,
) -> Result<(), AllocError>
    ensures text { OnOk result
        (string_bytes text.new ≡ string_bytes text.old ++ record_line entry.now) }
    ensures memory { OnErr result A.may_refuse }
{
    let record = record_to_text(alloc, entry)?;
    match entry.locators() {
        [] => {
            let words = act_words(entry.act());
            text.try_write(format_args!("negative {record} {words}\n"))
        }
        [_, ..] => text.try_write(format_args!("record {record}\n")),
    }
}

// What an ITR does where a record has no locators, by its ACT.
#[tactic(auto, unfolding(crate::specs::Text::act_words))]
const fn act_words(act: u8) -> &'static str
    ensures { result.now ≡ act_words act }
{
    match act {
        0 => "No-Action: nothing is known of it",
        1 => "Natively-Forward: packets go on without LISP",
        2 => "Send-Map-Request: packets make an ITR ask again",
        3 => "Drop/No-Reason: packets are dropped",
        4 => "Drop/Policy-Denied: packets are dropped by policy",
        5 => "Drop/Auth-Failure: packets are dropped, since an authentication failed",
        _ => "an ACT that isn't assigned",
    }
}
