//! What a node that runs answers its user.

ghost use Rattle.std.specs.Prelude.{◌≡◌, IfOk, OnErr};
ghost use Rattle.std.specs.Option.{option_map};
ghost use Rattle.std.specs.String.{string_bytes};
ghost use Rattle.lisp_control.specs.Answer.{AnswersRouter, fault_text, gauge, numbered, outcome_text, router_counts};
ghost use Rattle.lisp_control.specs.Part.{told_server};

use crate::disallowed::disallowed_text;
use crate::question::Question;
use lisp_etr::Etr;
use lisp_lines::{Wording, line_text, nodes_text, router_answer};
use lisp_log::Replay;
use lisp_memory::{FallibleString, Memory};
use lisp_model::{Line, WorldFault};
use lisp_script::ScriptWhat;
use lisp_server::Server;
use lisp_sites::Config;
use lisp_statistics::{
    Figure, Format, Gathering, Gauge, Statistics, count_replays, counts_text, put_router_metrics,
    put_site_counts, put_site_refusals,
};
use std::alloc::{AllocError, Global};

/// The lines that answer a question to the router with a number at a moment, in ms, by its core, if it is
/// up, and by what is counted of it. A router that is down says so; a question for a Map-Server, and what
/// is an order, is the fault 80.
pub(crate) fn router_text(
    alloc: Global,
    config: &Config,
    number: usize,
    core: Option<&Etr>,
    statistics: &Statistics,
    question: &Question,
    now: u64,
) -> Result<String, AllocError>
    ensures told { IfOk result (λ text. AnswersRouter config.now number
        (option_map (λ etr. etr.now) core.entry) statistics.now question.now now
        (string_bytes text)) }
    ensures memory { OnErr result ⟦<Global as Memory>⟧.may_refuse }
{
    match (question, core) {
        (Question::Router(question), Some(core)) => {
            let servers = config.servers_of(number);
            router_answer(alloc, config, number, servers, core, *question, now)
        }
        (Question::Router(_), None) => {
            let line = Line::Down { router: number };
            line_text(alloc, config, &line, Wording::Node)
        }
        (Question::Disallowed(db), _) => disallowed_text(alloc, config, number, db.records()),
        (Question::Nodes, _) => nodes_text(alloc, config),
        (Question::Counts(format), core) => {
            router_counts(alloc, config, number, core, statistics, *format)
        }
        _ => fault_text(alloc, ScriptWhat::Word),
    }
}

// What is counted of the router with a number, and what it has.
fn router_counts(
    alloc: Global,
    config: &Config,
    number: usize,
    core: Option<&Etr>,
    statistics: &Statistics,
    format: Format,
) -> Result<String, AllocError>
    ensures told { IfOk result (λ text. string_bytes text ≡
        router_counts config.now number
        (option_map (λ etr. etr.now) core.entry) statistics.now format) }
    ensures memory { OnErr result ⟦<Global as Memory>⟧.may_refuse }
{
    let save = gauge(Figure::LongestSave, statistics.longest_save());
    let requests = gauge(Figure::Requests, statistics.requests());
    let reply = gauge(Figure::SlowestReply, statistics.slowest_reply());
    match core {
        Some(core) => {
            let records = core.database().records().len() as u64;
            let gauges = [gauge(Figure::Records, records), save, requests, reply];
            counts_text(alloc, config, number, format, statistics, &gauges)
        }
        None => {
            let gauges = [save, requests, reply];
            counts_text(alloc, config, number, format, statistics, &gauges)
        }
    }
}

/// What is counted of the Map-Server with a number, and what it has at a moment, in ms, by its core, its rows as they
/// were counted, and the runs of Map-Registers that it refuses as replays; then what is held of each of its sites that has
/// a limit on its routers or rows, and how many Map-Registers the limits of each site refused. Metrics also have when the
/// node started, the rows of its other sites, and those of the configured routers that register with it.
pub(crate) fn server_counts(
    alloc: Global,
    config: &Config,
    number: usize,
    core: &Server,
    rows: &Gathering,
    statistics: &Statistics,
    runs: &[Replay],
    format: Format,
    now: u64,
) -> Result<String, AllocError>
    ensures told { IfOk result (λ text. string_bytes text ≡
        told_server config.now number core.now statistics.now runs.now format now rows.now) }
    ensures memory { OnErr result ⟦<Global as Memory>⟧.may_refuse }
{
    let gauges = [
        gauge(Figure::Rows, rows.rows()),
        gauge(Figure::Sites, rows.sites()),
        gauge(Figure::StandingNotices, core.count_notices() as u64),
        gauge(Figure::Replays, count_replays(runs, now)),
        gauge(Figure::LongestSave, statistics.longest_save()),
        gauge(Figure::Requests, statistics.requests()),
        gauge(Figure::SlowestReply, statistics.slowest_reply()),
    ];
    let mut text = counts_text(alloc, config, number, format, statistics, &gauges)?;
    put_site_counts(&mut text, config, number, core.sites(), format, rows)?;
    put_site_refusals(&mut text, config, number, format, statistics)?;
    put_router_metrics(&mut text, config, number, format, statistics, now)?;
    Ok(text)
}

fn gauge(figure: Figure, value: u64) -> Gauge
    ensures { result ≡ gauge figure value }
{
    Gauge { figure, value }
}

/// The line that answers an order: that of the event, or the fault that keeps the node from being told so.
pub fn outcome_text(
    alloc: Global,
    config: &Config,
    outcome: &Result<Line, WorldFault>,
) -> Result<String, AllocError>
    ensures told { IfOk result (λ text. string_bytes text ≡ outcome_text config.now outcome.now) }
    ensures memory { OnErr result ⟦<Global as Memory>⟧.may_refuse }
{
    match outcome {
        Ok(line) => line_text(alloc, config, line, Wording::Node),
        Err(fault) => numbered(alloc, fault.number()),
    }
}

/// The line that answers what is no question.
pub fn fault_text(alloc: Global, what: ScriptWhat) -> Result<String, AllocError>
    ensures told { IfOk result (λ text. string_bytes text ≡ fault_text what) }
    ensures memory { OnErr result ⟦<Global as Memory>⟧.may_refuse }
{
    numbered(alloc, what.number())
}

// The line of a fault with a number.
fn numbered(alloc: Global, number: u16) -> Result<String, AllocError>
    ensures told { IfOk result (λ text. string_bytes text ≡ numbered number) }
    ensures memory { OnErr result ⟦<Global as Memory>⟧.may_refuse }
{
    String::try_format(alloc, format_args!("fault {number}\n"))
}
