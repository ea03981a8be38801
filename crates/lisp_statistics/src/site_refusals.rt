//! Refusals by the limits of sites.

ghost use Rattle.std.specs.Prelude.{◌≡◌, OnErr};
ghost use Rattle.lisp_lines.specs.Front.{Adds};
ghost use Rattle.lisp_lines.specs.Name.{node_name};
ghost use Rattle.lisp_statistics.specs.SiteRefusals.{refusal_by_site, refusal_in, refusal_in_line, site_refusals_text};

use crate::counts::Format;
use crate::metrics::SITE_REFUSALS;
use crate::sample::{Label, put_count, put_head};
use crate::statistics::Statistics;
use lisp_lines::node_name;
use lisp_memory::Memory;
use lisp_model::{Line, Refusal};
use lisp_server::Refused;
use lisp_sites::Config;
use lisp_turns::Printed;
use std::alloc::{AllocError, Allocator};
use std::collections::BTreeMap;

/// Refusals that are counted together: those of one number, by a limit of one site.
#[derive(Clone, Copy, PartialEq, Eq, PartialOrd, Ord)]
pub struct SiteRefusal {
    /// The site.
    pub site: u64,
    /// The number that operators see.
    pub number: u16,
}

impl SiteRefusal {
    /// That of a line; `None` of one that is of no refusal by a limit of a site.
    pub(crate) fn of(line: &Printed) -> Option<SiteRefusal>
        ensures { result ≡ refusal_in line.now }
    {
        match line {
            Printed::Event(line) | Printed::Heard { line, .. } => SiteRefusal::of_line(line),
            _ => None,
        }
    }

    // That of the line of an event.
    fn of_line(line: &Line) -> Option<SiteRefusal>
        ensures { result ≡ refusal_in_line line.now }
    {
        match line {
            Line::Refused {
                what: Refusal::Receive(refused),
                ..
            } => SiteRefusal::of_refused(refused),
            _ => None,
        }
    }

    // That of what a Map-Server refuses.
    fn of_refused(refused: &Refused) -> Option<SiteRefusal>
        ensures { result ≡ refusal_by_site refused.now }
    {
        match refused {
            Refused::Limited { site, .. }
            | Refused::Jump { site, .. }
            | Refused::Full { site, .. } => Some(SiteRefusal {
                site: *site,
                number: refused.number(),
            }),
            _ => None,
        }
    }
}

/// Appends how many Map-Registers were refused by limits of sites, since the start of the node with a number: in lines
/// `counts NAME site SITE-ID refused NUMBER COUNT`, in the order of Site-IDs and numbers; or as metrics. Out of memory, it may leave a
/// part of them.
pub fn put_site_refusals<A: Memory, B: Memory + Copy, E: Allocator>(
    text: &mut String<A>,
    config: &Config<E>,
    number: usize,
    format: Format,
    statistics: &Statistics<B>,
) -> Result<(), AllocError>
    ensures text { Adds result text.old text.new
        (site_refusals_text format (node_name config.now number)
        statistics.now.by_site.entries) }
    ensures memory { OnErr result A.may_refuse }
{
    put_refusals(text, format, node_name(config, number), &statistics.by_site)
}

// Appends each count behind the head of the metric. Out of memory, it may leave a part of them.
#[tactic(auto, using(crate::proofs::Counting::steps))]
fn put_refusals<A: Memory, B: Memory + Copy>(
    text: &mut String<A>,
    format: Format,
    node: &str,
    by_site: &BTreeMap<SiteRefusal, u64, B>,
) -> Result<(), AllocError>
    ensures text { Adds result text.old text.new
        (site_refusals_text format node.now by_site.now.entries) }
    ensures memory { OnErr result A.may_refuse }
{
    put_head(text, format, &SITE_REFUSALS)?;
    for (refusal, times) in by_site {
        put_count(
            text,
            format,
            &SITE_REFUSALS,
            node,
            Label::Limit(*refusal),
            *times,
        )?;
    }
    Ok(())
}
