//! Counts in lines, or as samples of their metrics.

ghost use Rattle.std.specs.Prelude.{OnErr};
ghost use Rattle.lisp_lines.specs.Front.{Adds};
ghost use Rattle.lisp_statistics.specs.Metric.{texts_of};
ghost use Rattle.lisp_statistics.specs.Sample.{count_text, gauge_text, head_text, label_text, label_words, line_text, node_text, sample_text, value_text};

use crate::counts::Format;
use crate::gauge::Gauge;
use crate::kind::LineKind;
use crate::metrics::Metric;
use crate::site_refusals::SiteRefusal;
use lisp_memory::{FallibleString, Memory};
use std::alloc::AllocError;

/// What is counted of a node.
#[derive(Clone, Copy)]
pub(crate) enum Label {
    /// What a metric alone says.
    Node,
    /// Its lines of a kind.
    Line(LineKind),
    /// Its refusals with a number.
    Number(u16),
    /// What it holds of a site.
    Site(u64),
    /// Its refusals by a limit of a site.
    Limit(SiteRefusal),
}

/// Appends what helps to read a metric, and its type; in lines nothing. Out of memory, it may leave a part of it, as all these functions
/// may of what they append.
pub(crate) fn put_head<A: Memory>(
    text: &mut String<A>,
    format: Format,
    metric: &Metric,
) -> Result<(), AllocError>
    ensures text { Adds result text.old text.new (head_text format (texts_of metric.now)) }
    ensures memory { OnErr result A.may_refuse }
{
    let (_, name, help, kind, _) = *metric;
    match format {
        Format::Lines => Ok(()),
        Format::Prometheus => text.try_write(format_args!(
            "# HELP {name} {help}\n# TYPE {name} {kind}\n"
        )),
    }
}

/// Appends what the node with a name has now, behind the head of its metric.
#[tactic(auto, using(crate::proofs::Counting::steps))]
pub(crate) fn put_gauge<A: Memory>(
    text: &mut String<A>,
    format: Format,
    node: &str,
    gauge: &Gauge,
) -> Result<(), AllocError>
    ensures text { Adds result text.old text.new (gauge_text format node.now gauge.now) }
    ensures memory { OnErr result A.may_refuse }
{
    let metric = gauge.figure.metric();
    put_head(text, format, &metric)?;
    put_count(text, format, &metric, node, Label::Node, gauge.value)
}

/// Appends a count of the node with a name.
pub(crate) fn put_count<A: Memory>(
    text: &mut String<A>,
    format: Format,
    metric: &Metric,
    node: &str,
    label: Label,
    count: u64,
) -> Result<(), AllocError>
    ensures text { Adds result text.old text.new
        (count_text format (texts_of metric.now) node.now label count) }
    ensures memory { OnErr result A.may_refuse }
{
    match format {
        Format::Lines => put_line(text, metric.0, node, label, count),
        Format::Prometheus => put_sample(text, metric, node, label, count),
    }
}

// Appends a count in a line.
#[tactic(auto, using(crate::proofs::Counting::steps))]
fn put_line<A: Memory>(
    text: &mut String<A>,
    word: &str,
    node: &str,
    label: Label,
    count: u64,
) -> Result<(), AllocError>
    ensures text { Adds result text.old text.new (line_text word.now node.now label count) }
    ensures memory { OnErr result A.may_refuse }
{
    text.try_write(format_args!("counts {node}"))?;
    put_words(text, word, label)?;
    text.try_write(format_args!(" {count}\n"))
}

// Appends what is counted, in words.
#[tactic(auto, using(crate::proofs::SiteCounting::written))]
fn put_words<A: Memory>(text: &mut String<A>, word: &str, label: Label) -> Result<(), AllocError>
    ensures text { Adds result text.old text.new (label_words word.now label) }
    ensures memory { OnErr result A.may_refuse }
{
    match label {
        Label::Node => text.try_write(format_args!(" {word}")),
        Label::Line(kind) => text.try_write(format_args!(" {}", kind.word())),
        Label::Number(number) => text.try_write(format_args!(" {word} {number}")),
        Label::Site(site) => text.try_write(format_args!(" site {site:016x} {word}")),
        Label::Limit(SiteRefusal { site, number }) => {
            text.try_write(format_args!(" site {site:016x} {word} {number}"))
        }
    }
}

// Appends a count as a sample.
#[tactic(auto, using(crate::proofs::Counting::steps))]
fn put_sample<A: Memory>(
    text: &mut String<A>,
    metric: &Metric,
    node: &str,
    label: Label,
    count: u64,
) -> Result<(), AllocError>
    ensures text { Adds result text.old text.new
        (sample_text (texts_of metric.now) node.now (label_text label) count) }
    ensures memory { OnErr result A.may_refuse }
{
    put_node(text, metric, node)?;
    put_label(text, label)?;
    put_value(text, metric, count)
}

/// Appends the name of a metric, and the node of a sample.
#[tactic(auto, using(crate::proofs::Counting::steps))]
pub(crate) fn put_node<A: Memory>(
    text: &mut String<A>,
    metric: &Metric,
    node: &str,
) -> Result<(), AllocError>
    ensures text { Adds result text.old text.new (node_text (texts_of metric.now) node.now) }
    ensures memory { OnErr result A.may_refuse }
{
    let name = metric.1;
    text.try_write(format_args!("{name}{{node=\"{node}\""))
}

// Appends the labels of a sample behind its node.
#[tactic(auto, using(crate::proofs::SiteCounting::written))]
fn put_label<A: Memory>(text: &mut String<A>, label: Label) -> Result<(), AllocError>
    ensures text { Adds result text.old text.new (label_text label) }
    ensures memory { OnErr result A.may_refuse }
{
    match label {
        Label::Node => Ok(()),
        Label::Line(kind) => text.try_write(format_args!(",line=\"{}\"", kind.word())),
        Label::Number(number) => text.try_write(format_args!(",number=\"{number}\"")),
        Label::Site(site) => text.try_write(format_args!(",site=\"{site:016x}\"")),
        Label::Limit(SiteRefusal { site, number }) => {
            text.try_write(format_args!(",site=\"{site:016x}\""))?;
            text.try_write(format_args!(",number=\"{number}\""))
        }
    }
}

/// Appends the value of a sample.
#[tactic(auto, using(crate::proofs::Counting::steps))]
pub(crate) fn put_value<A: Memory>(
    text: &mut String<A>,
    metric: &Metric,
    value: u64,
) -> Result<(), AllocError>
    ensures text { Adds result text.old text.new (value_text (texts_of metric.now) value) }
    ensures memory { OnErr result A.may_refuse }
{
    let unit = metric.4;
    text.try_write(format_args!("}} {value}{unit}\n"))
}
