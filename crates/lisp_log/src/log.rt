//! What a node that runs without an end tells.

ghost use Rattle.std.specs.Prelude.{◌≡◌, ◌≤◌, ℕ, List, true, false, string_bytes, OnErr, IfOk};
ghost use Rattle.std.specs.Option.{option_copied};
ghost use Rattle.lisp_records.specs.Moment.{max_moment};
ghost use Rattle.lisp_log.specs.Log.{begins, answer_to, repeating, IsToldOf, AcknowledgesBy, saved_in, NotesReplay, TellsPrinted, HearsRouter, TellsLine, sum_of, sums, PutsAll, EndsSecond, TellsOneSilence, TellsSilences, TellsOneReplay, TellsReplays, Passes};
ghost use Rattle.lisp_log.specs.Replays.{NoneDue};
ghost use Rattle.lisp_log.specs.Silences.{NoneSilent};
ghost use Rattle.lisp_log.specs.declared.replays.Replay.{Replay};
ghost use Rattle.lisp_log.specs.Waiting.{put_line, drops_one, Pours};

use crate::moves::{Moves, heard_in};
use crate::repeats::{Repeat, Repeated, Repeats};
use crate::replays::{Replay, Replays};
use crate::silences::Silences;
use crate::text::{
    OVER_BUDGET, moved_text, repeat_text, replay_text, silent_text, started_text, told_text,
};
use crate::waiting::{Sink, Waiting};
use lisp_admission::Refused;
use lisp_mapping::Outcome;
use lisp_memory::Memory;
use lisp_model::{Line, Refusal};
use lisp_records::{Addr, RouterId};
use lisp_sites::Config;
use lisp_turns::Printed;
use std::alloc::{AllocError, Allocator, Global};
use std::marker::Model;

/// What the node with a name tells: its lines, without the repeats of refusals and of answers to Map-Requests, which are summed at the
/// end of each second; which Map-Servers are silent; from where Map-Registers are refused as replays time and again; which
/// routers moved; and what of it waits until it is written. Moments are in ms.
#[derive(Drop)]
pub struct Log<'a, A: Allocator = Global> {
    alloc: A,
    config: &'a Config,
    name: &'a str,
    // What repeats in this second; seconds are counted from the start on.
    repeats: Repeats<A>,
    second: u64,
    silences: Silences<A>,
    replays: Replays<A>,
    moves: Moves<A>,
    waiting: Waiting<A>,
}

impl<'a, A: Allocator> Model for Log<'a, A> {
    ghost use Rattle.lisp_log.specs.Log.{LogState};

    ghost Value = { LogState };

    ghost view = { λ l. record { config = l.config.now; name = l.name.now; repeats = l.repeats; second = l.second; silences = l.silences; replays = l.replays; moves = l.moves; waiting = l.waiting } };
}

impl<'a, A: Memory + Copy> Log<'a, A> {
    /// That of a node with a name, which registers with the Map-Servers of these numbers, and whose store keeps so many
    /// pairs: it says so in its first line. It begins at a moment, in ms. Takes the memory that it keeps, but for that of each
    /// router that is heard; each line takes and gives back its own.
    pub fn start(
        alloc: A,
        config: &'a Config,
        name: &'a str,
        servers: &[usize],
        pairs: usize,
        now: u64,
    ) -> Result<Log<'a, A>, AllocError>
        ensures begins { IfOk result (λ l. l ≡ begins config.now name.now servers.now pairs now) }
        ensures memory { OnErr result A.may_refuse }
    {
        let repeats = Repeats::new(alloc)?;
        let silences = Silences::new(alloc, servers, now)?;
        let replays = Replays::new(alloc)?;
        let mut waiting = Waiting::new(alloc)?;
        let started = started_text(alloc, name, pairs)?;
        waiting.put(started.as_bytes());
        Ok(Log {
            alloc,
            config,
            name,
            repeats,
            second: 0,
            silences,
            replays,
            moves: Moves::new(alloc),
            waiting,
        })
    }

    /// The node prints a line, at a moment in ms: it is told, with the kind of the system's error behind it, in a word,
    /// where there is one. A refusal, or an answer to a Map-Request, that repeats another of this second is counted in its place. A
    /// Map-Register that is refused as a replay is noted in the run of its source address; one that is
    /// accepted ends that run, and where its router was heard from another address before, that is told behind it, at most once a
    /// minute for each router. A line for which no memory is had is dropped.
    pub fn tell(&mut self, line: &Printed, cause: Option<&str>, now: u64)
        ensures { TellsLine A.may_refuse self.old self.new line.now
            (option_copied cause.entry) now }
    {
        self.tell_printed(line, cause, now);
        if let Some((router, from)) = heard_in(line) {
            self.hear(router, from, now);
        }
    }

    // The same, but for routers that moved.
    fn tell_printed(&mut self, line: &Printed, cause: Option<&str>, now: u64)
        ensures { TellsPrinted A.may_refuse self.old self.new line.now
            (option_copied cause.entry) now }
    {
        acknowledge(&mut self.silences, line, now);
        note_replay(&mut self.replays, line, now);
        if is_told(&mut self.repeats, line) {
            let text = told_text(self.alloc, self.config, self.name, cause, line);
            put_text(&mut self.waiting, text);
        }
    }

    // A router is heard from an address, at a moment: that it moved is told.
    fn hear(&mut self, router: RouterId, from: Addr, now: u64)
        ensures { HearsRouter A.may_refuse self.old self.new router from now }
    {
        if let Some(last) = self.moves.hears(router, from, now) {
            let text = moved_text(self.alloc, self.config, self.name, &router, &last, &from);
            put_text(&mut self.waiting, text);
        }
    }

    /// Time passes, to a moment in ms of at most 2^62: where a second is over, its repeats are summed,
    /// each in a line; each Map-Server that is silent is told; and of the runs of replays those end that
    /// don't go on, and of the others each is told that is to be told.
    pub fn pass(&mut self, now: u64)
        requires { now ≤ max_moment }
        ensures { Passes A.may_refuse self.old self.new now }
    {
        self.end_second(now);
        self.tell_silences(now);
        self.replays.pass(now);
        self.tell_replays(now);
    }

    /// The runs of Map-Registers that are refused as replays.
    pub fn replays(&self) -> &[Replay]
        ensures { result.now ≡ self.now.replays }
    {
        self.replays.runs()
    }

    /// The sink takes what it can of what waits.
    pub fn pour<S: Sink>(&mut self, sink: &mut S)
        ensures pours { Pours self.old.waiting self.new.waiting (S.taken sink.old)
            (S.taken sink.new) }
        ensures rest { self.new ≡ record self.old { waiting = self.new.waiting } }
    {
        self.waiting.pour(sink);
    }

    // Where another second has begun, what repeated in the last one is summed.
    fn end_second(&mut self, now: u64)
        ensures { EndsSecond A.may_refuse self.old self.new now }
    {
        let second = now / 1000;
        if second == self.second {
            return;
        }
        put_sums(
            self.alloc,
            self.name,
            self.repeats.entries(),
            &mut self.waiting,
        );
        self.repeats.clear();
        self.second = second;
    }

    // Tells each Map-Server that is silent.
    fn tell_silences(&mut self, now: u64)
        requires { now ≤ max_moment }
        ensures { (told : List (ℕ × ℕ)) × TellsSilences A.may_refuse self.old self.new now told }
    {
        while self.tell_silence(now) {}
    }

    // Tells a Map-Server that is silent; whether there was one.
    fn tell_silence(&mut self, now: u64) -> bool
        requires { now ≤ max_moment }
        ensures told { result ≡ true → (told : ℕ × ℕ)
            × TellsOneSilence A.may_refuse self.old self.new now told }
        ensures none { result ≡ false → NoneSilent self.old.silences now × (self.new ≡ self.old) }
    {
        let Some(told) = self.silences.tells(now) else {
            return false;
        };
        let text = silent_text(self.alloc, self.config, self.name, told.0, told.1);
        put_text(&mut self.waiting, text);
        true
    }

    // Tells each run of replays that is to be told.
    fn tell_replays(&mut self, now: u64)
        requires { now ≤ max_moment }
        ensures { (told : List Replay) × TellsReplays A.may_refuse self.old self.new now told }
    {
        while self.tell_replay(now) {}
    }

    // Tells a run of replays that is to be told; whether there was one.
    fn tell_replay(&mut self, now: u64) -> bool
        requires { now ≤ max_moment }
        ensures told { result ≡ true → (told : Replay)
            × TellsOneReplay A.may_refuse self.old self.new now told }
        ensures none { result ≡ false → NoneDue self.old.replays now × (self.new ≡ self.old) }
    {
        let Some(told) = self.replays.tells(now) else {
            return false;
        };
        let text = replay_text(self.alloc, self.name, &told, now);
        put_text(&mut self.waiting, text);
        true
    }
}

// Whether a line is told; one that repeats another is counted.
fn is_told<A: Memory + Copy>(repeats: &mut Repeats<A>, line: &Printed) -> bool
    ensures { IsToldOf (repeating line.now) repeats.old repeats.new result }
{
    match repeating(line) {
        Some((what, from)) => repeats.tells(what, from),
        None => true,
    }
}

// What a line says that may repeat, and the address that it names. Of a refusal that is the datagram's source address; of a datagram that
// is held back that of the Map-Request.
fn repeating(line: &Printed) -> Option<(Repeated, Addr)>
    ensures { result ≡ repeating line.now }
{
    match line {
        Printed::Heard {
            line: Line::Refused { what, .. },
            from,
        } => Some((Repeated::Refused(what.number()), *from)),
        Printed::Unasked { from, why } => Some((Repeated::Refused(why.number()), *from)),
        Printed::OverBudget { from } => Some((Repeated::Refused(OVER_BUDGET), *from)),
        Printed::Asked { to, outcome, .. } => Some(answer_to(to, outcome)),
        _ => None,
    }
}

// What is said of an EID-Prefix that a Map-Request asks for, and the address that the line names: where Map-Replies go, or the router that
// the Map-Request goes on to.
fn answer_to(to: &Addr, outcome: &Outcome) -> (Repeated, Addr)
    ensures { result ≡ answer_to to.now outcome.now }
{
    match outcome {
        Outcome::Replied(_) => (Repeated::Replied, *to),
        Outcome::Negative(_) => (Repeated::Negative, *to),
        Outcome::Forwarded(router) => (Repeated::Forwarded, *router),
        Outcome::Silent => (Repeated::Unanswered, *to),
    }
}

// The Map-Server that a line says has acknowledged is no longer silent.
fn acknowledge<A: Memory + Copy>(silences: &mut Silences<A>, line: &Printed, now: u64)
    ensures { AcknowledgesBy line.now silences.old silences.new now }
{
    if let Printed::Heard {
        line: Line::Counted { server, .. },
        ..
    } = line
    {
        silences.acknowledges(*server, now);
    }
}

// A Map-Register that a line says is refused as a replay is noted in the run of its source address; one
// that is accepted ends that run.
fn note_replay<A: Memory + Copy>(replays: &mut Replays<A>, line: &Printed, now: u64)
    ensures { NotesReplay line.now replays.old replays.new now }
{
    match line {
        Printed::Heard {
            line: Line::Refused { what, .. },
            from,
        } => {
            if let Some(saved) = saved_in(what) {
                replays.replayed(*from, saved, now);
            }
        }
        Printed::Heard {
            line: Line::Accepted { .. },
            from,
        } => replays.accepted(*from),
        _ => {}
    }
}

// The nonce that is saved, where a Map-Register is refused as a replay.
fn saved_in(what: &Refusal) -> Option<u64>
    ensures { result ≡ saved_in what.now }
{
    match what {
        Refusal::Receive(Refused::Replay { saved }) => Some(*saved),
        _ => None,
    }
}

// The sum of each of these entries waits.
fn put_sums<A: Memory + Copy>(alloc: A, name: &str, entries: &[Repeat], waiting: &mut Waiting<A>)
    ensures { PutsAll A.may_refuse waiting.old waiting.new (sums name.now entries.now) }
{
    for repeat in entries {
        put_sum(alloc, name, repeat, waiting);
    }
}

// The sum of an entry that counts some waits; else so many events are dropped.
fn put_sum<A: Memory + Copy>(alloc: A, name: &str, repeat: &Repeat, waiting: &mut Waiting<A>)
    ensures { PutsAll A.may_refuse waiting.old waiting.new (sum_of name.now repeat.now) }
{
    if repeat.times > 0 {
        match repeat_text(alloc, name, repeat) {
            Ok(text) => waiting.put_sum(text.as_bytes(), repeat.times),
            Err(_) => waiting.drop_sum(repeat.times),
        }
    }
}

// A text waits, if there was memory for it.
fn put_text<A: Memory + Copy>(waiting: &mut Waiting<A>, text: Result<String<A>, AllocError>)
    ensures text { IfOk text (λ text. waiting.new ≡ put_line waiting.old (string_bytes text)) }
    ensures none { OnErr text (waiting.new ≡ drops_one waiting.old) }
{
    match text {
        Ok(text) => waiting.put(text.as_bytes()),
        Err(_) => waiting.drop_one(),
    }
}
