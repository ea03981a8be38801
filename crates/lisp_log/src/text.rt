//! The texts of lines.

ghost use Rattle.std.specs.Prelude.{◌≡◌, ◌++◌, OnErr};
ghost use Rattle.std.specs.Option.{option_copied};
ghost use Rattle.lisp_lines.specs.Front.{Adds, GivesText};
ghost use Rattle.lisp_log.specs.Text.{device_of, device_of_line, device_of_refusal, cause_words, caused_words, heard_words, expired_words, asked_words, replies_words, refused_words, failed_words, told_words, told_text, repeated_words, source_text, repeat_text, silent_text, run_words, replay_text, moved_text, started_text};

use crate::repeats::{Repeat, Repeated, Source};
use crate::replays::Replay;
use lisp_admission::{NoticeFault, Refused};
use lisp_etr::{RotateFault, SendFault, StartFault};
use lisp_lines::{Wording, line_text, node_name, put_router_word};
use lisp_mapping::Outcome;
use lisp_memory::{FallibleString, Memory};
use lisp_model::{Line, Refusal};
use lisp_nonces::StoreFault;
use lisp_records::{Addr, Prefix, RouterId};
use lisp_sites::Config;
use lisp_texts::{addr_to_text, prefix_to_text};
use lisp_turns::{Printed, SocketCall};
use std::alloc::{AllocError, Allocator};

/// The number of a datagram for a Map-Request that is held back, since it is over the budget.
pub const OVER_BUDGET: u16 = 135;

/// What of the system's failed, where a line says so.
#[derive(Clone, Copy)]
pub enum Device {
    /// The store of nonces.
    Store,
    /// The socket.
    Socket,
}

/// The device whose failure a line tells; `None` of any other line.
pub fn device_of(line: &Printed) -> Option<Device>
    ensures { result ≡ device_of line.now }
{
    match line {
        Printed::Event(line) | Printed::Heard { line, .. } => device_of_line(line),
        Printed::Expired { .. }
        | Printed::Asked { .. }
        | Printed::Unasked { .. }
        | Printed::OverBudget { .. } => None,
        Printed::Failed(_) => Some(Device::Socket),
    }
}

// A node that runs restarts where its store couldn't commit.
fn device_of_line(line: &Line) -> Option<Device>
    ensures { result ≡ device_of_line line.now }
{
    match line {
        Line::Refused { what, .. } => device_of_refusal(what),
        Line::Restarted { .. } => Some(Device::Store),
        _ => None,
    }
}

// The device that a refusal says has failed.
fn device_of_refusal(refusal: &Refusal) -> Option<Device>
    ensures { result ≡ device_of_refusal refusal.now }
{
    match refusal {
        Refusal::Send(SendFault::Store(StoreFault::Device))
        | Refusal::Receive(Refused::StoreLoad(StoreFault::Device))
        | Refusal::Receive(Refused::StoreSave(StoreFault::Device))
        | Refusal::Notice(NoticeFault::StoreLoad(StoreFault::Device))
        | Refusal::Notice(NoticeFault::StoreSave(StoreFault::Device))
        | Refusal::Start(StartFault::Store(StoreFault::Device))
        | Refusal::Rotate(RotateFault::Store(StoreFault::Device)) => Some(Device::Store),
        _ => None,
    }
}

/// What the node with a name tells, with its line feed: the line of an event as everywhere; behind it the kind of the
/// system's error that caused it, in a word, where there is one; and the source address of a datagram.
pub(crate) fn told_text<A: Memory + Copy, E: Allocator>(
    alloc: A,
    config: &Config<E>,
    name: &str,
    cause: Option<&str>,
    line: &Printed,
) -> Result<String<A>, AllocError>
    ensures text { GivesText result
        (told_text config.now name.now (option_copied cause.entry) line.now) }
    ensures memory { OnErr result A.may_refuse }
{
    let mut text = told_words(alloc, config, name, cause, line)?;
    text.try_push('\n')?;
    Ok(text)
}

// What the node with a name tells, without its line feed.
fn told_words<A: Memory + Copy, E: Allocator>(
    alloc: A,
    config: &Config<E>,
    name: &str,
    cause: Option<&str>,
    line: &Printed,
) -> Result<String<A>, AllocError>
    ensures text { GivesText result
        (told_words config.now name.now (option_copied cause.entry) line.now) }
    ensures memory { OnErr result A.may_refuse }
{
    match line {
        Printed::Event(line) => caused_words(alloc, config, cause, line),
        Printed::Heard { line, from } => heard_words(alloc, config, cause, line, from),
        Printed::Expired { router, eid } => expired_words(alloc, config, name, router, eid),
        Printed::Asked { eid, to, outcome } => asked_words(alloc, name, eid, to, outcome),
        Printed::Unasked { from, why } => refused_words(alloc, name, why.number(), from),
        Printed::OverBudget { from } => refused_words(alloc, name, OVER_BUDGET, from),
        Printed::Failed(call) => failed_words(alloc, name, cause, *call),
    }
}

// The line of an event, and what caused it.
fn caused_words<A: Memory, E: Allocator>(
    alloc: A,
    config: &Config<E>,
    cause: Option<&str>,
    line: &Line,
) -> Result<String<A>, AllocError>
    ensures text { GivesText result (caused_words config.now (option_copied cause.entry) line.now) }
    ensures memory { OnErr result A.may_refuse }
{
    let mut text = line_text(alloc, config, line, Wording::Node)?;
    // The line feed comes last.
    let _line_feed = text.pop();
    put_cause(&mut text, cause)?;
    Ok(text)
}

// The line of an event that a datagram brought about, what caused it, and where the datagram came from.
fn heard_words<A: Memory + Copy, E: Allocator>(
    alloc: A,
    config: &Config<E>,
    cause: Option<&str>,
    line: &Line,
    from: &Addr,
) -> Result<String<A>, AllocError>
    ensures text { GivesText result
        (heard_words config.now (option_copied cause.entry) line.now from.now) }
    ensures memory { OnErr result A.may_refuse }
{
    let mut text = caused_words(alloc, config, cause, line)?;
    let from = addr_to_text(alloc, from)?;
    text.try_write(format_args!(" from {from}"))?;
    Ok(text)
}

// A row that died.
#[tactic(auto, using(lisp_lines::proofs::Appends::steps))]
fn expired_words<A: Memory + Copy, E: Allocator>(
    alloc: A,
    config: &Config<E>,
    name: &str,
    router: &RouterId,
    eid: &Prefix,
) -> Result<String<A>, AllocError>
    ensures text { GivesText result (expired_words config.now name.now router.now eid.now) }
    ensures memory { OnErr result A.may_refuse }
{
    let eid = prefix_to_text(alloc, eid)?;
    let mut text = String::try_format(alloc, format_args!("expired {name} "))?;
    put_router_word(&mut text, config, Wording::Node, router)?;
    text.try_write(format_args!(" {eid}"))?;
    Ok(text)
}

// What is said of an EID-Prefix that a Map-Request asks for, and where Map-Replies go.
fn asked_words<A: Memory + Copy>(
    alloc: A,
    name: &str,
    eid: &Prefix,
    to: &Addr,
    outcome: &Outcome,
) -> Result<String<A>, AllocError>
    ensures text { GivesText result (asked_words name.now eid.now to.now outcome.now) }
    ensures memory { OnErr result A.may_refuse }
{
    match outcome {
        Outcome::Replied(records) => {
            let mut text = replies_words(alloc, "replied", name, eid, to)?;
            text.try_write(format_args!(" records {records}"))?;
            Ok(text)
        }
        Outcome::Negative(hole) => {
            let mut text = replies_words(alloc, "negative", name, eid, to)?;
            let hole = prefix_to_text(alloc, hole)?;
            text.try_write(format_args!(" prefix {hole}"))?;
            Ok(text)
        }
        Outcome::Forwarded(router) => replies_words(alloc, "forwarded", name, eid, router),
        Outcome::Silent => replies_words(alloc, "unanswered", name, eid, to),
    }
}

// The first word, the node's name, an EID-Prefix, and the address that something goes to.
fn replies_words<A: Memory + Copy>(
    alloc: A,
    verb: &str,
    name: &str,
    eid: &Prefix,
    to: &Addr,
) -> Result<String<A>, AllocError>
    ensures text { GivesText result (replies_words verb.now name.now eid.now to.now) }
    ensures memory { OnErr result A.may_refuse }
{
    let eid = prefix_to_text(alloc, eid)?;
    let to = addr_to_text(alloc, to)?;
    String::try_format(alloc, format_args!("{verb} {name} {eid} to {to}"))
}

// A refusal with a number, of a Map-Request that came from an address.
fn refused_words<A: Memory + Copy>(
    alloc: A,
    name: &str,
    number: u16,
    from: &Addr,
) -> Result<String<A>, AllocError>
    ensures text { GivesText result (refused_words name.now number from.now) }
    ensures memory { OnErr result A.may_refuse }
{
    let from = addr_to_text(alloc, from)?;
    String::try_format(alloc, format_args!("refused {name} {number} from {from}"))
}

// A call of the socket that failed, and what caused it.
fn failed_words<A: Memory>(
    alloc: A,
    name: &str,
    cause: Option<&str>,
    call: SocketCall,
) -> Result<String<A>, AllocError>
    ensures text { GivesText result
        (failed_words name.now call ++ cause_words (option_copied cause.entry)) }
    ensures memory { OnErr result A.may_refuse }
{
    let number = call.number();
    let mut text = String::try_format(alloc, format_args!("refused {name} {number}"))?;
    put_cause(&mut text, cause)?;
    Ok(text)
}

// Appends the kind of the system's error, where there is one. Out of memory, it may leave a part of it.
fn put_cause<A: Memory>(text: &mut String<A>, cause: Option<&str>) -> Result<(), AllocError>
    ensures text { Adds result text.old text.new (cause_words (option_copied cause.entry)) }
    ensures memory { OnErr result A.may_refuse }
{
    match cause {
        Some(cause) => text.try_write(format_args!(" {cause}")),
        None => Ok(()),
    }
}

/// How many lines of what repeats with a source weren't told, with its line feed.
pub(crate) fn repeat_text<A: Memory + Copy>(
    alloc: A,
    name: &str,
    repeat: &Repeat,
) -> Result<String<A>, AllocError>
    ensures text { GivesText result (repeat_text name.now repeat.now) }
    ensures memory { OnErr result A.may_refuse }
{
    let words = repeated_words(alloc, name, &repeat.what)?;
    let source = source_text(alloc, &repeat.source)?;
    let times = repeat.times;
    String::try_format(alloc, format_args!("{words} {source} times {times}\n"))
}

// What repeats: the first word, the node's name, of refusals their number, and what stands in front of the source.
#[tactic(auto, using(lisp_lines::proofs::Appends::steps))]
fn repeated_words<A: Memory>(alloc: A, name: &str, what: &Repeated) -> Result<String<A>, AllocError>
    ensures text { GivesText result (repeated_words name.now what.now) }
    ensures memory { OnErr result A.may_refuse }
{
    match what {
        Repeated::Refused(number) => {
            String::try_format(alloc, format_args!("refused {name} {number} from"))
        }
        Repeated::Replied => String::try_format(alloc, format_args!("replied {name} to")),
        Repeated::Negative => String::try_format(alloc, format_args!("negative {name} to")),
        Repeated::Forwarded => String::try_format(alloc, format_args!("forwarded {name} to")),
        Repeated::Unanswered => String::try_format(alloc, format_args!("unanswered {name} to")),
    }
}

// An address that is told apart, or that it is any other.
fn source_text<A: Memory>(alloc: A, source: &Source) -> Result<String<A>, AllocError>
    ensures text { GivesText result (source_text source.now) }
    ensures memory { OnErr result A.may_refuse }
{
    match source {
        Source::Address(from) => addr_to_text(alloc, from),
        Source::Others => String::try_from_str(alloc, "others"),
    }
}

/// How long a Map-Server hasn't acknowledged, in ms, with its line feed.
pub(crate) fn silent_text<A: Memory, E: Allocator>(
    alloc: A,
    config: &Config<E>,
    name: &str,
    server: usize,
    ms: u64,
) -> Result<String<A>, AllocError>
    ensures text { GivesText result (silent_text config.now name.now server ms) }
    ensures memory { OnErr result A.may_refuse }
{
    let server = node_name(config, server);
    String::try_format(alloc, format_args!("silent {name} {server} {ms}\n"))
}

/// What the Map-Server with a name tells at a moment, in ms, of a run of Map-Registers that it refuses
/// as replays, with its line feed: the address that they come from, how many they are, the greatest
/// nonce that was saved, and how many ms ago the first was refused.
pub fn replay_text<A: Memory + Copy>(
    alloc: A,
    name: &str,
    run: &Replay,
    now: u64,
) -> Result<String<A>, AllocError>
    ensures text { GivesText result (replay_text name.now run.now now) }
    ensures memory { OnErr result A.may_refuse }
{
    let from = addr_to_text(alloc, &run.from)?;
    let mut text = String::try_format(alloc, format_args!("replays {name} from {from}"))?;
    put_run(&mut text, run, now)?;
    Ok(text)
}

// Appends how many Map-Registers of a run were refused, the greatest nonce that was saved, and how many
// ms ago the first was refused. Out of memory, it may leave a part of it.
fn put_run<A: Memory>(text: &mut String<A>, run: &Replay, now: u64) -> Result<(), AllocError>
    ensures text { Adds result text.old text.new (run_words now run.now) }
    ensures memory { OnErr result A.may_refuse }
{
    let (times, saved) = (run.times, run.saved);
    let age = now.saturating_sub(run.since);
    text.try_write(format_args!(" times {times} saved {saved} age {age}\n"))
}

/// What the Map-Server with a name tells of a router that moved from an address to another one, with its line feed.
#[tactic(auto, using(lisp_lines::proofs::Appends::steps))]
pub(crate) fn moved_text<A: Memory + Copy, E: Allocator>(
    alloc: A,
    config: &Config<E>,
    name: &str,
    router: &RouterId,
    old: &Addr,
    new: &Addr,
) -> Result<String<A>, AllocError>
    ensures text { GivesText result (moved_text config.now name.now router.now old.now new.now) }
    ensures memory { OnErr result A.may_refuse }
{
    let old = addr_to_text(alloc, old)?;
    let new = addr_to_text(alloc, new)?;
    let mut text = String::try_format(alloc, format_args!("moved {name} "))?;
    put_router_word(&mut text, config, Wording::Node, router)?;
    text.try_write(format_args!(" from {old} to {new}\n"))?;
    Ok(text)
}

/// How many pairs a node's store keeps as it starts, with its line feed.
pub(crate) fn started_text<A: Memory>(
    alloc: A,
    name: &str,
    pairs: usize,
) -> Result<String<A>, AllocError>
    ensures text { GivesText result (started_text name.now pairs) }
    ensures memory { OnErr result A.may_refuse }
{
    if pairs == 0 {
        return String::try_format(alloc, format_args!("started {name} nonces none\n"));
    }
    String::try_format(alloc, format_args!("started {name} nonces {pairs}\n"))
}
