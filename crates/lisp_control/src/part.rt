//! What a node that runs answers its user, part by part: a turn of the node makes one part, which lists 256 rows or routers at most, or
//! counts 512 rows. Where all rows are counted, the routers that were heard follow, or the counts; any other answer is one part.

ghost use Rattle.std.specs.Prelude.{◌≡◌, [], Some, None, IfOk, OnErr};
ghost use Rattle.std.specs.String.{string_bytes};
ghost use Rattle.lisp_turns.specs.Node.{core_value};
ghost use Rattle.lisp_control.specs.Part.{AnswersPart, BeginsHold, BeginsRouters, CountsPart, GoesOnHold, GoesOnRouters, HeardPart, HoldPart, IsCountedSoFar, ServerPart, TellsCounts};
ghost use Rattle.lisp_control.specs.declared.part.Progress.TheVariants as progresses;

use crate::answer::{fault_text, router_text, server_counts};
use crate::compare::compared_text;
use crate::question::Question;
use lisp_lines::{
    MOST_ROWS, ServerQuestion, Walk, Wording, hold_by_parts, holds_at_least, next_rows, node_name,
    nodes_text, server_answer,
};
use lisp_log::Replay;
use lisp_memory::Memory;
use lisp_script::ScriptWhat;
use lisp_server::Server;
use lisp_sites::Config;
use lisp_statistics::{
    Format, Gathering, RouterList, RoutersPart, Statistics, is_long_list, next_routers,
    routers_by_parts, routers_text,
};
use lisp_turns::NodeCore;
use std::alloc::{AllocError, Global};

/// How far an answer is.
#[derive(Drop)]
pub enum Progress {
    /// Nothing of it is made.
    Asked,
    /// The rows of the Map-Server are counted for it.
    Counts(Gathering),
    /// They are listed.
    Lists(Walk),
    /// The routers that the Map-Server heard are listed, with the rows that were counted of each.
    Routers(RouterList),
}

/// A part of an answer.
#[derive(Drop)]
pub struct Part {
    /// Its lines; none while rows are counted.
    pub text: String,
    /// How far the answer is; `None` where this part is the last.
    pub rest: Option<Progress>,
}

/// The next part of the answer to a question to the node with a number, by its core at a moment, in ms, what
/// is counted of it, and the runs of Map-Registers that it refuses as replays: those of a schedule, where it
/// has some. Where a Map-Server holds more than 256 rows, `hold` is a line that says that they come by parts,
/// then parts of 256 rows, then a line that says how many came. `routers` and `counts` are made once all rows
/// are counted, 512 in a part; where the routers that were heard and the runs are more than 256, `routers` comes
/// by parts as `hold` does, and the last part has all routers that weren't. All other answers have one part. A router that is down says so; a question for
/// a node of the other kind, and what is an order, is the fault 80.
pub fn answer_part(
    alloc: Global,
    config: &Config,
    number: usize,
    core: NodeCore<'_>,
    statistics: &Statistics,
    runs: &[Replay],
    question: &Question,
    progress: Progress,
    now: u64,
) -> Result<Part, AllocError>
    ensures told { IfOk result (λ part. AnswersPart config.now number (core_value core.entry)
        statistics.now runs.now question.now progress now (string_bytes part.text) part.rest) }
    ensures memory { OnErr result ⟦<Global as Memory>⟧.may_refuse }
{
    match core {
        NodeCore::Server(core) => server_part(
            alloc, config, number, core, statistics, runs, question, progress, now,
        ),
        NodeCore::Router(core) => {
            let text = router_text(alloc, config, number, core, statistics, question, now)?;
            Ok(last(text))
        }
    }
}

// The next part of the answer of a Map-Server.
fn server_part(
    alloc: Global,
    config: &Config,
    number: usize,
    core: &Server,
    statistics: &Statistics,
    runs: &[Replay],
    question: &Question,
    progress: Progress,
    now: u64,
) -> Result<Part, AllocError>
    ensures told { IfOk result (λ part. ServerPart config.now number core.now
        statistics.now runs.now question.now progress now (string_bytes part.text) part.rest) }
    ensures memory { OnErr result ⟦<Global as Memory>⟧.may_refuse }
{
    match question {
        Question::Server(ServerQuestion::Hold) => {
            hold_part(alloc, config, number, core, progress, now)
        }
        Question::Server(question) => {
            let text = server_answer(alloc, config, Wording::Node, number, core, *question, now)?;
            Ok(last(text))
        }
        Question::Routers => {
            routers_part(alloc, config, number, core, statistics, runs, progress, now)
        }
        Question::Counts(format) => counts_part(
            alloc, config, number, core, statistics, runs, *format, progress, now,
        ),
        Question::Nodes => Ok(last(nodes_text(alloc, config)?)),
        Question::Compare(sites) => {
            let name = node_name(config, number);
            Ok(last(compared_text(alloc, name, core.sites(), sites)?))
        }
        _ => Ok(last(fault_text(alloc, ScriptWhat::Word)?)),
    }
}

// The next part of the rows that a Map-Server holds.
fn hold_part(
    alloc: Global,
    config: &Config,
    number: usize,
    core: &Server,
    progress: Progress,
    now: u64,
) -> Result<Part, AllocError>
    ensures told { IfOk result (λ part. HoldPart config.now number core.now progress now
        (string_bytes part.text) part.rest) }
    ensures memory { OnErr result ⟦<Global as Memory>⟧.may_refuse }
{
    match progress {
        Progress::Lists(walk) => rows_part(alloc, config, number, core, walk),
        _ => first_part(alloc, config, number, core, now),
    }
}

// The rows that a Map-Server holds at a moment, where they are few; else that they come by parts.
fn first_part(
    alloc: Global,
    config: &Config,
    number: usize,
    core: &Server,
    now: u64,
) -> Result<Part, AllocError>
    ensures told { IfOk result (λ part. BeginsHold config.now number core.now now
        (string_bytes part.text) part.rest) }
    ensures memory { OnErr result ⟦<Global as Memory>⟧.may_refuse }
{
    if holds_at_least(core, MOST_ROWS + 1, now) {
        let text = hold_by_parts(alloc, config, number)?;
        let rest = Some(Progress::Lists(Walk::start(now)));
        Ok(Part { text, rest })
    } else {
        let question = ServerQuestion::Hold;
        let text = server_answer(alloc, config, Wording::Node, number, core, question, now)?;
        Ok(last(text))
    }
}

// The next of these rows.
fn rows_part(
    alloc: Global,
    config: &Config,
    number: usize,
    core: &Server,
    mut walk: Walk,
) -> Result<Part, AllocError>
    ensures told { IfOk result (λ part. GoesOnHold config.now number core.now walk
        (string_bytes part.text) part.rest) }
    ensures memory { OnErr result ⟦<Global as Memory>⟧.may_refuse }
{
    let part = next_rows(alloc, config, number, core, &mut walk)?;
    let rest = if part.is_last {
        None
    } else {
        Some(Progress::Lists(walk))
    };
    Ok(Part {
        text: part.text,
        rest,
    })
}

// The next part of the routers that a Map-Server heard.
fn routers_part(
    alloc: Global,
    config: &Config,
    number: usize,
    core: &Server,
    statistics: &Statistics,
    runs: &[Replay],
    progress: Progress,
    now: u64,
) -> Result<Part, AllocError>
    ensures told { IfOk result (λ part. HeardPart config.now number core.now
        statistics.now runs.now progress now (string_bytes part.text) part.rest) }
    ensures memory { OnErr result ⟦<Global as Memory>⟧.may_refuse }
{
    match progress {
        Progress::Routers(list) => list_part(alloc, config, number, statistics, runs, list),
        _ => counted_part(alloc, config, number, core, statistics, runs, progress, now),
    }
}

// The routers, where they are few, once the rows are counted; else that they come by parts.
fn counted_part(
    alloc: Global,
    config: &Config,
    number: usize,
    core: &Server,
    statistics: &Statistics,
    runs: &[Replay],
    progress: Progress,
    now: u64,
) -> Result<Part, AllocError>
    ensures told { IfOk result (λ part. CountsPart core.now progress now
        (BeginsRouters config.now number statistics.now runs.now now)
        (string_bytes part.text) part.rest) }
    ensures memory { OnErr result ⟦<Global as Memory>⟧.may_refuse }
{
    let mut rows = counted_so_far(alloc, progress, now);
    if !rows.gather(core)? {
        return Ok(counting(alloc, rows));
    }
    first_list_part(alloc, config, number, statistics, runs, rows, now)
}

// All routers that a Map-Server heard, where they are few; else that they come by parts.
fn first_list_part(
    alloc: Global,
    config: &Config,
    number: usize,
    statistics: &Statistics,
    runs: &[Replay],
    rows: Gathering,
    now: u64,
) -> Result<Part, AllocError>
    ensures told { IfOk result (λ part. BeginsRouters config.now number statistics.now
        runs.now now rows (string_bytes part.text) part.rest) }
    ensures memory { OnErr result ⟦<Global as Memory>⟧.may_refuse }
{
    if is_long_list(statistics, runs) {
        let text = routers_by_parts(alloc, config, number)?;
        let rest = Some(Progress::Routers(RouterList::start(rows)));
        Ok(Part { text, rest })
    } else {
        let text = routers_text(alloc, config, number, statistics, runs, &rows, now)?;
        Ok(last(text))
    }
}

// The next of these routers.
fn list_part(
    alloc: Global,
    config: &Config,
    number: usize,
    statistics: &Statistics,
    runs: &[Replay],
    mut list: RouterList,
) -> Result<Part, AllocError>
    ensures told { IfOk result (λ part. GoesOnRouters config.now number statistics.now
        runs.now list (string_bytes part.text) part.rest) }
    ensures memory { OnErr result ⟦<Global as Memory>⟧.may_refuse }
{
    let RoutersPart { text, is_last } = next_routers(
        alloc, config, number, statistics, runs, &mut list,
    )?;
    let rest = if is_last {
        None
    } else {
        Some(Progress::Routers(list))
    };
    Ok(Part { text, rest })
}

// What is counted of a Map-Server, and what it has, once its rows are counted.
fn counts_part(
    alloc: Global,
    config: &Config,
    number: usize,
    core: &Server,
    statistics: &Statistics,
    runs: &[Replay],
    format: Format,
    progress: Progress,
    now: u64,
) -> Result<Part, AllocError>
    ensures told { IfOk result (λ part. CountsPart core.now progress now
        (TellsCounts config.now number core.now statistics.now runs.now format now)
        (string_bytes part.text) part.rest) }
    ensures memory { OnErr result ⟦<Global as Memory>⟧.may_refuse }
{
    let mut rows = counted_so_far(alloc, progress, now);
    if !rows.gather(core)? {
        return Ok(counting(alloc, rows));
    }
    let text = server_counts(
        alloc, config, number, core, &rows, statistics, runs, format, now,
    )?;
    Ok(last(text))
}

// The rows that are counted so far; none, as at a moment, where that begins.
fn counted_so_far(alloc: Global, progress: Progress, now: u64) -> Gathering
    ensures { IsCountedSoFar progress now result }
{
    match progress {
        Progress::Counts(rows) => rows,
        _ => Gathering::start(alloc, now),
    }
}

// No lines yet: the rows are counted so far.
fn counting(alloc: Global, rows: Gathering) -> Part
    ensures text { string_bytes result.text ≡ [] }
    ensures rest { result.rest ≡ Some (progresses.Counts rows) }
{
    Part {
        text: String::new(alloc),
        rest: Some(Progress::Counts(rows)),
    }
}

// The last part.
fn last(text: String) -> Part
    ensures { result ≡ record { text = text; rest = None } }
{
    Part { text, rest: None }
}
