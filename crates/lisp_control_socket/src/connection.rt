//! A connection of a user's, for one question: a line, then the lines that answer it and the line that closes them, and the end. Sites
//! that it is about come before that: a line and so many bytes, and a line that answers them.

ghost use Rattle.std.specs.Prelude.{◌≡◌, IfOk, OnErr};
ghost use Rattle.std.specs.String.{string_bytes};
ghost use Rattle.lisp_control_socket.specs.Answers.{AnswersSites, ClosesWith, WritesBeforeLine, WritesPart};
ghost use Rattle.lisp_control_socket.specs.declared.connection.Stage.TheVariants as stages;

use crate::backup::{DatabaseFolder, backup};
use lisp_control::{
    Part, Progress, Question, Ungathered, answer_part, fault_text, gather, gathered_text,
    outcome_text, question_in,
};
use lisp_files::closed;
use lisp_log::Replay;
use lisp_memory::{FallibleVec, Memory};
use lisp_model::{Line, WorldFault};
use lisp_policy::Sites;
use lisp_script::ScriptWhat;
use lisp_sites::Config;
use lisp_statistics::Statistics;
use lisp_turns::{NodeCore, Order};
use std::alloc::{AllocError, Global};
use std::io::{ErrorKind, Read, Write};
use std::mem;
use std::os::unix::net::UnixStream;

/// How long a connection may take for its line, for each part of its answer, and for each 65,536 bytes of one or of sites, in ms.
pub(crate) const MOST_MS: u64 = 100;

/// How many bytes of its answer it has to take in that time, or how many bytes of sites have to come.
const FEWEST_MOVED: usize = 65_536;

/// The most bytes of a line, its line feed among them.
const MOST_BYTES: usize = 65_536;

/// How many bytes are read at once.
const ROOM: usize = 4_096;

/// How often a turn reads from a connection, or writes to it.
const MOST_CALLS: usize = 64;

/// What is before the name of a copy in the line that tells the node to make one: it is told by no event, and no core answers it.
const BACKUP: &[u8] = b"backup ";

/// A node that is asked.
#[derive(Clone, Copy)]
pub struct AskedNode<'a> {
    /// The memory that answers lie in.
    pub alloc: Global,
    /// The configuration.
    pub config: &'a Config,
    /// The node's number.
    pub number: usize,
    /// Its name.
    pub name: &'a str,
}

/// A connection, which is dropped at a moment.
#[derive(Drop)]
pub(crate) struct Connection {
    stream: UnixStream,
    // From this moment on it is dropped, in ms.
    end: u64,
    // How many bytes of its answer it took, or of sites came, since its time began.
    moved: usize,
    // Its time is to begin anew.
    is_renewed: bool,
    // The sites that it gathered.
    gathered: Option<Sites>,
    stage: Stage,
}

/// How far it is.
#[derive(Drop)]
enum Stage {
    /// These bytes of its line came.
    Asks(Vec<u8>),
    /// Sites come, in so many bytes.
    Takes {
        /// How many bytes are to come.
        wanted: usize,
        /// Those that came; what is after them is left out.
        bytes: Vec<u8>,
    },
    /// The next part of its answer is to be made.
    Asked(Answering),
    /// The node was told the order.
    Told,
    /// Its database is to be copied under this name.
    Copies(Vec<u8>),
    /// So many bytes of a part of the answer are written.
    Answered {
        /// The part.
        text: String,
        /// How many bytes of it.
        written: usize,
        /// What comes after it.
        next: Next,
    },
    /// It ended, or failed.
    Ended,
}

/// What comes after a text that is written.
#[derive(Drop)]
enum Next {
    /// The end.
    End,
    /// The next part of the answer.
    Part(Answering),
    /// The next line of the connection.
    Line,
}

/// An answer of which not all is made.
#[derive(Drop)]
struct Answering {
    question: Question,
    progress: Progress,
}

impl Stage {
    // There is an answer, or its last part, which is closed; unless memory for it was refused.
    fn answered(text: Result<String, AllocError>) -> Stage
        ensures closed { IfOk text (λ text.
            ClosesWith ⟦<Global as Memory>⟧.may_refuse (string_bytes text) result) }
        ensures ended { OnErr text (result ≡ stages.Ended) }
    {
        let Ok(text) = text else {
            return Stage::Ended;
        };
        match closed(text) {
            Ok(text) => Stage::Answered {
                text,
                written: 0,
                next: Next::End,
            },
            Err(_) => Stage::Ended,
        }
    }

    // There is the answer to sites, unless memory for it was refused: it isn't closed, since the next line comes after it.
    fn before_line(text: Result<String, AllocError>) -> Stage
        ensures line { IfOk text (λ text. WritesBeforeLine text result) }
        ensures ended { OnErr text (result ≡ stages.Ended) }
    {
        match text {
            Ok(text) => Stage::Answered {
                text,
                written: 0,
                next: Next::Line,
            },
            Err(_) => Stage::Ended,
        }
    }

    // Sites come, in so many bytes, of which the first came with their line.
    fn takes(alloc: Global, wanted: usize, first: &[u8]) -> Stage {
        let mut bytes = Vec::new(alloc);
        if bytes.make_room_for(first).is_err() {
            return Stage::Ended;
        }
        let _ = bytes.extend_from_slice(first);
        Stage::Takes { wanted, bytes }
    }

    // The node's database is to be copied under a name.
    fn copies(alloc: Global, file: &[u8]) -> Stage {
        let mut name = Vec::new(alloc);
        if name.make_room_for(file).is_err() {
            return Stage::Ended;
        }
        let _ = name.extend_from_slice(file);
        Stage::Copies(name)
    }

    // There is a part of the answer to a question, unless memory for it was refused. The last one is closed.
    fn of_part(question: Question, part: Result<Part, AllocError>) -> Stage
        ensures part { IfOk part (λ part.
            WritesPart ⟦<Global as Memory>⟧.may_refuse question part result) }
    {
        let Ok(Part { text, rest }) = part else {
            return Stage::Ended;
        };
        let Some(progress) = rest else {
            return Stage::answered(Ok(text));
        };
        Stage::Answered {
            text,
            written: 0,
            next: Next::Part(Answering { question, progress }),
        }
    }

    // All that there is of an answer is written.
    fn written(self, alloc: Global) -> Stage {
        let Stage::Answered { next, .. } = self else {
            return Stage::Ended;
        };
        match next {
            Next::Part(answering) => Stage::Asked(answering),
            Next::Line => Stage::Asks(Vec::new(alloc)),
            Next::End => Stage::Ended,
        }
    }
}

impl Connection {
    /// A connection that was made at a moment, in ms. `None` where it can't be used. Takes no memory.
    pub(crate) fn new(alloc: Global, stream: UnixStream, now: u64) -> Option<Connection> {
        stream.set_nonblocking(true).ok()?;
        Some(Connection {
            stream,
            end: now.saturating_add(MOST_MS),
            moved: 0,
            is_renewed: false,
            gathered: None,
            stage: Stage::Asks(Vec::new(alloc)),
        })
    }

    /// Whether it goes on behind a turn at a moment, in ms: it has something to do yet, and its time isn't over. That begins anew where its
    /// answer was made, and where it took enough of that, or gave enough of sites.
    pub(crate) fn goes_on(&mut self, now: u64) -> bool {
        if self.is_renewed {
            self.end = now.saturating_add(MOST_MS);
            self.moved = 0;
            self.is_renewed = false;
        }
        now < self.end && !matches!(self.stage, Stage::Ended)
    }

    /// Reads what came of its line, or of sites. What that tells the node, if it is whole and does.
    pub(crate) fn listen(&mut self, node: &AskedNode<'_>) -> Option<Order> {
        let order = self.hear(node);
        self.take(node);
        order
    }

    // Reads what came of its line.
    fn hear(&mut self, node: &AskedNode<'_>) -> Option<Order> {
        let Stage::Asks(line) = &mut self.stage else {
            return None;
        };
        match read_line(&mut self.stream, line) {
            Heard::Whole => {}
            Heard::Waits => return None,
            Heard::Ended => {
                self.stage = Stage::Ended;
                return None;
            }
        }
        let (stage, order) = asked(node, &mut self.gathered, line.as_slice());
        self.stage = stage;
        order
    }

    // Reads what came of sites, and gathers them where all came.
    fn take(&mut self, node: &AskedNode<'_>) {
        let Stage::Takes { wanted, bytes } = &mut self.stage else {
            return;
        };
        let before = bytes.len();
        let heard = read_sites(&mut self.stream, bytes, *wanted);
        let more = bytes.len().saturating_sub(before);
        self.moved = self.moved.saturating_add(more);
        self.is_renewed |= self.moved >= FEWEST_MOVED;
        match heard {
            Heard::Whole => {
                let bytes = &bytes[..(*wanted).min(bytes.len())];
                self.stage = took(node, &mut self.gathered, bytes);
                self.is_renewed = true;
            }
            Heard::Waits => {}
            Heard::Ended => self.stage = Stage::Ended,
        }
    }

    /// Answers by the node's core at a moment, in ms, what is counted of it, and the runs of Map-Registers
    /// that it refuses as replays, or by what came of the order or of a copy of its database, which is in a
    /// folder; and writes what the connection takes. Of an answer that has several parts it makes one, once what
    /// was made before is written.
    pub(crate) fn answer(
        &mut self,
        node: &AskedNode<'_>,
        database: Option<DatabaseFolder<'_>>,
        core: NodeCore<'_>,
        statistics: &Statistics,
        runs: &[Replay],
        now: u64,
        outcome: Option<Result<Line, WorldFault>>,
    ) {
        match mem::replace(&mut self.stage, Stage::Ended) {
            Stage::Asked(answering) => {
                self.answer_next(node, core, statistics, runs, answering, now);
            }
            Stage::Copies(file) => self.copy(node, database, &file),
            stage => self.stage = self.outcome(node, stage, outcome),
        }
        self.write(node.alloc);
    }

    // Makes the next part of the answer to a question.
    fn answer_next(
        &mut self,
        node: &AskedNode<'_>,
        core: NodeCore<'_>,
        statistics: &Statistics,
        runs: &[Replay],
        answering: Answering,
        now: u64,
    ) {
        let Answering { question, progress } = answering;
        let part = next_part(node, core, statistics, runs, &question, progress, now);
        self.stage = Stage::of_part(question, part);
        self.is_renewed = true;
    }

    // Copies the database, which is in a folder, under a name.
    fn copy(&mut self, node: &AskedNode<'_>, database: Option<DatabaseFolder<'_>>, file: &[u8]) {
        let text = backup(node.alloc, node.name, database, file);
        self.stage = Stage::answered(text);
        self.is_renewed = true;
    }

    // What came of the order, where there was one.
    fn outcome(
        &mut self,
        node: &AskedNode<'_>,
        stage: Stage,
        outcome: Option<Result<Line, WorldFault>>,
    ) -> Stage {
        match (&stage, &outcome) {
            (Stage::Told, Some(outcome)) => {
                self.is_renewed = true;
                Stage::answered(outcome_text(node.alloc, node.config, outcome))
            }
            _ => stage,
        }
    }

    // Writes what the connection takes.
    fn write(&mut self, alloc: Global) {
        for _ in 0..MOST_CALLS {
            if !self.write_once(alloc) {
                return;
            }
        }
    }

    // Writes once; whether more is to be written that the connection may take.
    fn write_once(&mut self, alloc: Global) -> bool {
        let Stage::Answered { text, written, .. } = &mut self.stage else {
            return false;
        };
        let rest = &text.as_bytes()[(*written).min(text.len())..];
        if rest.is_empty() {
            self.stage = mem::replace(&mut self.stage, Stage::Ended).written(alloc);
            return false;
        }
        match self.stream.write(rest) {
            Ok(count) => {
                *written = written.saturating_add(count);
                self.moved = self.moved.saturating_add(count);
                self.is_renewed |= self.moved >= FEWEST_MOVED;
                true
            }
            Err(error) if error.kind() == ErrorKind::WouldBlock => false,
            Err(_) => {
                self.stage = Stage::Ended;
                false
            }
        }
    }
}

// The next part of the answer to a question.
fn next_part(
    node: &AskedNode<'_>,
    core: NodeCore<'_>,
    statistics: &Statistics,
    runs: &[Replay],
    question: &Question,
    progress: Progress,
    now: u64,
) -> Result<Part, AllocError> {
    let AskedNode {
        alloc,
        config,
        number,
        ..
    } = *node;
    answer_part(
        alloc, config, number, core, statistics, runs, question, progress, now,
    )
}

/// What came of a line, or of sites.
#[derive(Clone, Copy)]
enum Heard {
    /// They are whole.
    Whole,
    /// Not all of them came yet.
    Waits,
    /// They ended before that, were too long, or the connection failed.
    Ended,
}

// Puts what came of a line behind what came of it before.
fn read_line(stream: &mut UnixStream, line: &mut Vec<u8>) -> Heard {
    for _ in 0..MOST_CALLS {
        let before = line.len();
        if let Err(heard) = read_once(stream, line) {
            return heard;
        }
        if line.len() > MOST_BYTES {
            return Heard::Ended;
        }
        if line[before.min(line.len())..].contains(&b'\n') {
            return Heard::Whole;
        }
    }
    Heard::Waits
}

// Puts what came of sites behind what came of them before, until so many bytes came.
fn read_sites(stream: &mut UnixStream, bytes: &mut Vec<u8>, wanted: usize) -> Heard {
    for _ in 0..MOST_CALLS {
        if bytes.len() >= wanted {
            return Heard::Whole;
        }
        if let Err(heard) = read_once(stream, bytes) {
            return heard;
        }
    }
    Heard::Waits
}

// Reads once, and puts what came behind what came before; why nothing came.
fn read_once(stream: &mut UnixStream, bytes: &mut Vec<u8>) -> Result<(), Heard> {
    let mut buffer = [0; ROOM];
    let count = match stream.read(&mut buffer) {
        Ok(0) => return Err(Heard::Ended),
        Ok(count) => count.min(ROOM),
        Err(error) if error.kind() == ErrorKind::WouldBlock => return Err(Heard::Waits),
        Err(_) => return Err(Heard::Ended),
    };
    let more = &buffer[..count];
    if bytes.make_room_for(more).is_err() {
        return Err(Heard::Ended);
    }
    let _ = bytes.extend_from_slice(more);
    Ok(())
}

// What a line asks of the node, by the sites that were gathered, or tells it; what came after the line is the first of sites.
fn asked(
    node: &AskedNode<'_>,
    gathered: &mut Option<Sites>,
    bytes: &[u8],
) -> (Stage, Option<Order>) {
    let end = line_end(bytes);
    let line = &bytes[..end.min(bytes.len())];
    if let Some(file) = line.strip_prefix(BACKUP) {
        return (Stage::copies(node.alloc, file), None);
    }
    let behind = &bytes[end.saturating_add(1).min(bytes.len())..];
    begun(node.alloc, question_of(node, gathered, line), behind)
}

fn line_end(bytes: &[u8]) -> usize {
    bytes
        .iter()
        .position(|byte| *byte == b'\n')
        .unwrap_or(bytes.len())
}

// How far a connection is that asked a question, or why it has none; `behind` came after its line.
fn begun(
    alloc: Global,
    question: Result<Question, ScriptWhat>,
    behind: &[u8],
) -> (Stage, Option<Order>) {
    match question {
        Ok(Question::Tell(order)) => (Stage::Told, Some(order)),
        Ok(Question::Sites(wanted)) => (Stage::takes(alloc, wanted, behind), None),
        Ok(question) => {
            let progress = Progress::Asked;
            (Stage::Asked(Answering { question, progress }), None)
        }
        Err(what) => (Stage::answered(fault_text(alloc, what)), None),
    }
}

fn question_of(
    node: &AskedNode<'_>,
    gathered: &mut Option<Sites>,
    line: &[u8],
) -> Result<Question, ScriptWhat> {
    let Ok(line) = str::from_utf8(line) else {
        return Err(ScriptWhat::Word);
    };
    question_in(
        node.alloc,
        node.config,
        node.number,
        node.name,
        line,
        gathered,
    )
}

// Gathers sites of which all bytes came. What is written then: how many are gathered, and the next line comes; or the fault of sites, and
// the end. Nothing more where memory ran out.
fn took(node: &AskedNode<'_>, gathered: &mut Option<Sites>, bytes: &[u8]) -> Stage
    ensures { AnswersSites node.now.config.now node.now.number gathered.old gathered.new bytes.now
        result }
{
    let AskedNode {
        alloc,
        config,
        number,
        ..
    } = *node;
    match gather(alloc, alloc, gathered, bytes) {
        Ok(count) => Stage::before_line(gathered_text(alloc, config, number, count)),
        Err(Ungathered::Sites) => Stage::answered(fault_text(alloc, ScriptWhat::Record)),
        Err(Ungathered::OutOfMemory) => Stage::Ended,
    }
}
