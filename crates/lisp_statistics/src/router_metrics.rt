//! The metrics of the configured routers that register with a Map-Server.

ghost use Rattle.std.specs.Prelude.{◌≡◌, OnErr};
ghost use Rattle.lisp_lines.specs.Front.{Adds};
ghost use Rattle.lisp_statistics.specs.Metric.{texts_of};
ghost use Rattle.lisp_statistics.specs.RouterMetrics.{registered_sample, router_families, router_family, router_label, router_metric, router_metrics_text, router_value};
ghost use Rattle.lisp_statistics.specs.Sample.{sample_text};

use crate::counts::Format;
use crate::metrics::{Metric, ROUTER_AGE, ROUTER_LAST_NONCE, ROUTER_LAST_REFUSAL};
use crate::never::registers_with;
use crate::sample::{put_head, put_node, put_value};
use crate::statistics::Statistics;
use lisp_lines::node_name;
use lisp_memory::{FallibleString, Memory};
use lisp_sites::{Config, RouterEntry};
use std::alloc::{AllocError, Allocator};

/// A metric of a router.
#[derive(Clone, Copy)]
enum RouterMetric {
    /// How long ago its last accepted Map-Register came.
    Age,
    /// The nonce of this.
    LastNonce,
    /// The number of the last refusal of a datagram from its address.
    LastRefusal,
}

impl RouterMetric {
    // What it is to Prometheus.
    fn metric(self) -> Metric
        ensures { texts_of result ≡ router_metric self }
    {
        match self {
            RouterMetric::Age => ROUTER_AGE,
            RouterMetric::LastNonce => ROUTER_LAST_NONCE,
            RouterMetric::LastRefusal => ROUTER_LAST_REFUSAL,
        }
    }

    // Its value of a router at a moment, in ms; `None` where the router wasn't heard, or nothing from its address was refused.
    fn value<B: Memory + Copy, E: Allocator>(
        self,
        statistics: &Statistics<B>,
        router: &RouterEntry<E>,
        now: u64,
    ) -> Option<u64>
        ensures { result ≡ router_value self statistics.now router.now now }
    {
        match self {
            RouterMetric::Age => {
                let hearing = statistics.heard.get(&router.me)?;
                Some(now.saturating_sub(hearing.at))
            }
            RouterMetric::LastNonce => Some(statistics.heard.get(&router.me)?.nonce),
            RouterMetric::LastRefusal => {
                let number = statistics.last_refusals.number(&router.address)?;
                Some(u64::from(number))
            }
        }
    }
}

/// Appends metrics of each configured router that registers with the Map-Server with a number, in the order of the configuration. If the
/// Map-Server heard it since its start, how long before a moment, in ms, its last accepted Map-Register came, and the nonce of that; if a
/// datagram from its address was refused since then, the number of the last refusal. In lines nothing. Out of memory, it may leave a part of
/// them.
pub fn put_router_metrics<A: Memory, B: Memory + Copy, E: Allocator>(
    text: &mut String<A>,
    config: &Config<E>,
    number: usize,
    format: Format,
    statistics: &Statistics<B>,
    now: u64,
) -> Result<(), AllocError>
    ensures text { Adds result text.old text.new
        (router_metrics_text format config.now number statistics.now now) }
    ensures memory { OnErr result A.may_refuse }
{
    let (node, routers) = (node_name(config, number), config.routers());
    match format {
        Format::Lines => Ok(()),
        Format::Prometheus => put_router_families(text, node, number, routers, statistics, now),
    }
}

// Appends all metrics of these routers. Out of memory, it may leave a part of them.
#[tactic(auto, using(crate::proofs::Counting::steps))]
fn put_router_families<A: Memory, B: Memory + Copy, E: Allocator>(
    text: &mut String<A>,
    node: &str,
    number: usize,
    routers: &[RouterEntry<E>],
    statistics: &Statistics<B>,
    now: u64,
) -> Result<(), AllocError>
    ensures text { Adds result text.old text.new
        (router_families node.now number statistics.now now routers.now) }
    ensures memory { OnErr result A.may_refuse }
{
    let (age, nonce) = (RouterMetric::Age, RouterMetric::LastNonce);
    put_router_family(text, age, node, number, routers, statistics, now)?;
    put_router_family(text, nonce, node, number, routers, statistics, now)?;
    let refusal = RouterMetric::LastRefusal;
    put_router_family(text, refusal, node, number, routers, statistics, now)
}

// Appends a metric of these routers, behind its head. Out of memory, it may leave a part of it.
fn put_router_family<A: Memory, B: Memory + Copy, E: Allocator>(
    text: &mut String<A>,
    metric: RouterMetric,
    node: &str,
    number: usize,
    routers: &[RouterEntry<E>],
    statistics: &Statistics<B>,
    now: u64,
) -> Result<(), AllocError>
    ensures text { Adds result text.old text.new
        (router_family metric node.now number statistics.now now routers.now) }
    ensures memory { OnErr result A.may_refuse }
{
    put_head(text, Format::Prometheus, &metric.metric())?;
    for router in routers {
        put_registered_sample(text, metric, node, number, router, statistics, now)?;
    }
    Ok(())
}

// Appends the sample of a router that registers with the Map-Server, and that has a value; else nothing. Out of memory, it may leave a part of
// it.
fn put_registered_sample<A: Memory, B: Memory + Copy, E: Allocator>(
    text: &mut String<A>,
    metric: RouterMetric,
    node: &str,
    number: usize,
    router: &RouterEntry<E>,
    statistics: &Statistics<B>,
    now: u64,
) -> Result<(), AllocError>
    ensures text { Adds result text.old text.new
        (registered_sample metric node.now number statistics.now now router.now) }
    ensures memory { OnErr result A.may_refuse }
{
    if !registers_with(router, number) {
        return Ok(());
    }
    match metric.value(statistics, router, now) {
        Some(value) => put_sample(text, &metric.metric(), node, router.name.as_str(), value),
        None => Ok(()),
    }
}

// Appends a sample of a router. Out of memory, it may leave a part of it.
#[tactic(auto, using(crate::proofs::Counting::steps))]
fn put_sample<A: Memory>(
    text: &mut String<A>,
    metric: &Metric,
    node: &str,
    router: &str,
    value: u64,
) -> Result<(), AllocError>
    ensures text { Adds result text.old text.new
        (sample_text (texts_of metric.now) node.now (router_label router.now) value) }
    ensures memory { OnErr result A.may_refuse }
{
    put_node(text, metric, node)?;
    text.try_write(format_args!(",router=\"{router}\""))?;
    put_value(text, metric, value)
}
