//! The text of what is counted.

ghost use Rattle.std.specs.Prelude.{OnErr};
ghost use Rattle.std.specs.List.{flat_map};
ghost use Rattle.lisp_lines.specs.Front.{Adds, GivesText};
ghost use Rattle.lisp_lines.specs.Name.{node_name};
ghost use Rattle.lisp_statistics.specs.Counts.{counts_text, start_time_text, tallies_text, tally_text};
ghost use Rattle.lisp_statistics.specs.Metric.{texts_of};
ghost use Rattle.lisp_statistics.specs.Sample.{gauge_text};

use crate::gauge::Gauge;
use crate::kind::LineKind;
use crate::metrics::{LINES, Metric, REFUSALS, START_TIME};
use crate::sample::{Label, put_count, put_gauge, put_head};
use crate::statistics::Statistics;
use lisp_lines::node_name;
use lisp_memory::Memory;
use lisp_sites::Config;
use std::alloc::{AllocError, Allocator};
use std::collections::BTreeMap;

/// In which form counts are told.
#[derive(Clone, Copy)]
pub enum Format {
    /// A line for each.
    Lines,
    /// The text format of Prometheus.
    Prometheus,
}

/// What is counted of the node with a number, and its gauges: each in a line `counts NAME WHAT COUNT`, in the order of the words, refusals
/// by their numbers behind the others; or as metrics, with the moment of its start.
pub fn counts_text<A: Memory + Copy, B: Memory + Copy, E: Allocator>(
    alloc: A,
    config: &Config<E>,
    number: usize,
    format: Format,
    statistics: &Statistics<B>,
    gauges: &[Gauge],
) -> Result<String<A>, AllocError>
    ensures text { GivesText result
        (counts_text format (node_name config.now number) statistics.now.tallies.entries
        gauges.now statistics.now.started) }
    ensures memory { OnErr result A.may_refuse }
{
    let mut text = String::new(alloc);
    let (node, tallies) = (node_name(config, number), &statistics.tallies);
    put_tallies(&mut text, format, &LINES, false, node, tallies)?;
    put_tallies(&mut text, format, &REFUSALS, true, node, tallies)?;
    put_gauges(&mut text, format, node, gauges)?;
    put_start_time(&mut text, format, node, statistics.started)?;
    Ok(text)
}

// Appends the tallies of refusals, or those of other lines, behind the head of their metric. Out of memory, it may leave a part of them.
#[tactic(auto, using(crate::proofs::Counting::steps))]
fn put_tallies<A: Memory, B: Memory + Copy>(
    text: &mut String<A>,
    format: Format,
    metric: &Metric,
    are_refusals: bool,
    node: &str,
    tallies: &BTreeMap<LineKind, u64, B>,
) -> Result<(), AllocError>
    ensures text { Adds result text.old text.new
        (tallies_text format (texts_of metric.now) are_refusals node.now tallies.now.entries) }
    ensures memory { OnErr result A.may_refuse }
{
    put_head(text, format, metric)?;
    for (kind, times) in tallies {
        put_tally(text, format, metric, are_refusals, node, kind, *times)?;
    }
    Ok(())
}

// Appends a tally, if it is one of refusals, or if it is not. Out of memory, it may leave a part of it.
fn put_tally<A: Memory>(
    text: &mut String<A>,
    format: Format,
    metric: &Metric,
    are_refusals: bool,
    node: &str,
    kind: &LineKind,
    times: u64,
) -> Result<(), AllocError>
    ensures text { Adds result text.old text.new
        (tally_text format (texts_of metric.now) are_refusals node.now (kind.now, times)) }
    ensures memory { OnErr result A.may_refuse }
{
    match (are_refusals, kind.number()) {
        (true, Some(number)) => {
            put_count(text, format, metric, node, Label::Number(number), times)
        }
        (false, None) => put_count(text, format, metric, node, Label::Line(*kind), times),
        _ => Ok(()),
    }
}

// Appends each gauge. Out of memory, it may leave a part of them.
fn put_gauges<A: Memory>(
    text: &mut String<A>,
    format: Format,
    node: &str,
    gauges: &[Gauge],
) -> Result<(), AllocError>
    ensures text { Adds result text.old text.new
        (flat_map (gauge_text format node.now) gauges.now) }
    ensures memory { OnErr result A.may_refuse }
{
    for gauge in gauges {
        put_gauge(text, format, node, gauge)?;
    }
    Ok(())
}

// Appends when the node with a name started, in ms since 1970; in lines nothing. Out of memory, it may leave a part of it.
#[tactic(auto, using(crate::proofs::Counting::steps))]
fn put_start_time<A: Memory>(
    text: &mut String<A>,
    format: Format,
    node: &str,
    started: u64,
) -> Result<(), AllocError>
    ensures text { Adds result text.old text.new (start_time_text format node.now started) }
    ensures memory { OnErr result A.may_refuse }
{
    match format {
        Format::Lines => Ok(()),
        Format::Prometheus => {
            put_head(text, format, &START_TIME)?;
            put_count(text, format, &START_TIME, node, Label::Node, started)
        }
    }
}
