//! What is told of a message.

ghost use Rattle.std.specs.Prelude.{◌≡◌, ◌++◌, codes, OnOk, OnErr};
ghost use Rattle.std.specs.Fmt.{decimal};
ghost use Rattle.lisp_transcript.specs.Tag.{tag_text};
ghost use Rattle.std.specs.List.{flat_map};
ghost use Rattle.lisp_messages.specs.Meaning.{message_value};
ghost use Rattle.lisp_memory.specs.Appending.{StringGrowsBy};
ghost use Rattle.lisp_transcript.specs.Message.{bits_text, keyed_text, known_text, notify_kind, notify_text, one_record, records_text, register_text, router_text, word_if};

use crate::pieces::{put_hex, put_site};
use crate::tag::{Tag, put_tag};
use lisp_memory::{FallibleString, Memory};
use lisp_messages::{MapNotify, MapRegister, Message};
use lisp_records::MapRecord;
use lisp_texts::record_to_text;
use std::alloc::{AllocError, Allocator};

/// Appends what is told of a message, by what the tag shows. Out of memory, it may leave a part of it.
pub(crate) fn put_known<A: Memory + Copy, B: Allocator>(
    alloc: A,
    text: &mut String<A>,
    tag: Tag,
    message: &Message<B>,
) -> Result<(), AllocError>
    ensures text { OnOk result
        (StringGrowsBy text.old text.new (known_text tag (message_value message.now))) }
    ensures memory { OnErr result A.may_refuse }
{
    match message {
        Message::Register(message) => put_register(alloc, text, tag, message),
        Message::Notify(message) => put_notify(alloc, text, tag, message),
    }
}

// Appends what is told of a Map-Register. Out of memory, it may leave a part of it.
#[tactic(auto, using(crate::proofs::Appends::steps))]
fn put_register<A: Memory + Copy, B: Allocator>(
    alloc: A,
    text: &mut String<A>,
    tag: Tag,
    message: &MapRegister<B>,
) -> Result<(), AllocError>
    ensures text { OnOk result (StringGrowsBy text.old text.new (register_text tag message.now)) }
    ensures memory { OnErr result A.may_refuse }
{
    text.try_write("map-register")?;
    put_router(text, message)?;
    put_keyed(text, message.key_id, message.nonce)?;
    put_bits(text, message)?;
    put_rest(alloc, text, tag, message.records.as_slice())
}

// Appends what is told of a Map-Notify or Map-Notify-Ack. Out of memory, it may leave a part of it.
#[tactic(auto, using(crate::proofs::Appends::steps))]
fn put_notify<A: Memory + Copy, B: Allocator>(
    alloc: A,
    text: &mut String<A>,
    tag: Tag,
    message: &MapNotify<B>,
) -> Result<(), AllocError>
    ensures text { OnOk result (StringGrowsBy text.old text.new (notify_text tag message.now)) }
    ensures memory { OnErr result A.may_refuse }
{
    text.try_write(notify_kind(message.ack))?;
    put_keyed(text, message.key_id, message.nonce)?;
    put_rest(alloc, text, tag, message.records.as_slice())
}

// What a Map-Notify or Map-Notify-Ack is called.
fn notify_kind(ack: bool) -> &'static str
    ensures { result.now ≡ notify_kind ack }
{
    if ack { "map-notify-ack" } else { "map-notify" }
}

// Appends the Site-ID and the xTR-ID. Out of memory, it may leave a part of them.
#[tactic(auto, using(crate::proofs::Appends::steps), unfolding(crate::specs::Message::router_text))]
fn put_router<A: Memory, B: Allocator>(
    text: &mut String<A>,
    message: &MapRegister<B>,
) -> Result<(), AllocError>
    ensures text { OnOk result (StringGrowsBy text.old text.new (router_text message.now)) }
    ensures memory { OnErr result A.may_refuse }
{
    text.try_write(" site ")?;
    put_site(text, message.site)?;
    text.try_write(" xtr ")?;
    put_hex(text, &message.xtr)
}

// Appends a Key ID and a nonce. Out of memory, it may leave a part of them.
#[tactic(auto, unfolding(crate::specs::Message::keyed_text))]
fn put_keyed<A: Memory>(text: &mut String<A>, key: u8, nonce: u64) -> Result<(), AllocError>
    ensures text { OnOk result (StringGrowsBy text.old text.new (keyed_text key nonce)) }
    ensures memory { OnErr result A.may_refuse }
{
    text.try_write(format_args!(" key {key} nonce {nonce}"))
}

// Appends the words of the bits P, T and M that are set. Out of memory, it may leave a part of them.
#[tactic(auto, using(crate::proofs::Appends::steps), unfolding(crate::specs::Message::bits_text))]
fn put_bits<A: Memory, B: Allocator>(
    text: &mut String<A>,
    message: &MapRegister<B>,
) -> Result<(), AllocError>
    ensures text { OnOk result (StringGrowsBy text.old text.new (bits_text message.now)) }
    ensures memory { OnErr result A.may_refuse }
{
    put_word(text, message.proxy, " proxy")?;
    put_word(text, message.use_ttl, " use-ttl")?;
    put_word(text, message.want_notify, " want-notify")
}

// Appends a word, where a bit is set. Out of memory, it may leave a part of it.
#[tactic(auto, unfolding(crate::specs::Message::word_if))]
fn put_word<A: Memory>(text: &mut String<A>, set: bool, word: &str) -> Result<(), AllocError>
    ensures text { OnOk result (StringGrowsBy text.old text.new (word_if set word.now)) }
    ensures memory { OnErr result A.may_refuse }
{
    if set {
        return text.try_write(word);
    }
    Ok(())
}

// Appends what the tag shows, and the records. Out of memory, it may leave a part of them.
#[tactic(auto, using(crate::proofs::Appends::steps))]
fn put_rest<A: Memory + Copy, B: Allocator>(
    alloc: A,
    text: &mut String<A>,
    tag: Tag,
    records: &[MapRecord<B>],
) -> Result<(), AllocError>
    ensures text { OnOk result
        (StringGrowsBy text.old text.new (tag_text tag ++ records_text records.now)) }
    ensures memory { OnErr result A.may_refuse }
{
    put_tag(text, tag)?;
    put_count(text, records.len())?;
    put_records(alloc, text, records)
}

// Appends how many records there are. Out of memory, it may leave a part of it.
fn put_count<A: Memory>(text: &mut String<A>, count: usize) -> Result<(), AllocError>
    ensures text { OnOk result
        (StringGrowsBy text.old text.new (codes " records " ++ decimal count)) }
    ensures memory { OnErr result A.may_refuse }
{
    text.try_write(format_args!(" records {count}"))
}

// Appends records, each after a space. Out of memory, it may leave a part of them.
fn put_records<A: Memory + Copy, B: Allocator>(
    alloc: A,
    text: &mut String<A>,
    records: &[MapRecord<B>],
) -> Result<(), AllocError>
    ensures text { OnOk result
        (StringGrowsBy text.old text.new (flat_map one_record records.now)) }
    ensures memory { OnErr result A.may_refuse }
{
    for entry in records {
        put_record(alloc, text, entry)?;
    }
    Ok(())
}

// Appends a record after a space. Out of memory, it may leave a part of it.
fn put_record<A: Memory + Copy, B: Allocator>(
    alloc: A,
    text: &mut String<A>,
    entry: &MapRecord<B>,
) -> Result<(), AllocError>
    ensures text { OnOk result (StringGrowsBy text.old text.new (one_record entry.now)) }
    ensures memory { OnErr result A.may_refuse }
{
    let record = record_to_text(alloc, entry)?;
    text.try_write(format_args!(" {record}"))
}
