//! What is held of sites.

ghost use Rattle.std.specs.Prelude.{◌≡◌, OnErr};
ghost use Rattle.std.specs.List.{flat_map};
ghost use Rattle.lisp_lines.specs.Front.{Adds};
ghost use Rattle.lisp_lines.specs.Name.{node_name};
ghost use Rattle.lisp_statistics.specs.Metric.{texts_of};
ghost use Rattle.lisp_statistics.specs.SiteCounts.{held_of, held_text, is_limited, is_told, site_counts_text, site_family, site_samples, site_text};

use crate::counts::Format;
use crate::gathering::Gathering;
use crate::metrics::{Metric, SITE_ROUTERS, SITE_ROWS};
use crate::sample::{Label, put_count, put_head};
use lisp_lines::node_name;
use lisp_memory::Memory;
use lisp_policy::{Site, Sites};
use lisp_records::RouterId;
use lisp_sites::Config;
use std::alloc::{AllocError, Allocator};
use std::collections::BTreeMap;
use std::ops::Bound;

/// What is held of a site.
#[derive(Clone, Copy)]
struct Held {
    /// How many live rows.
    rows: u64,
    /// How many routers have them.
    routers: u64,
}

/// How it is printed.
#[derive(Clone, Copy)]
enum SiteShape {
    /// In a line for the rows, and one for the routers.
    Lines,
    /// As a sample of the rows.
    Rows,
    /// As a sample of the routers.
    Routers,
}

/// Appends how many live rows each of these sites has that has a limit on its routers or rows, and how many routers have them, by the rows
/// of the Map-Server with a number that were counted: in lines `counts NAME site SITE-ID rows COUNT` and
/// `counts NAME site SITE-ID routers COUNT`, in the order of the sites; or as metrics, which have the rows of the other sites too. Out of
/// memory, it may leave a part of them.
pub fn put_site_counts<A: Memory, C: Memory + Copy, E: Allocator, F: Allocator>(
    text: &mut String<A>,
    config: &Config<E>,
    number: usize,
    sites: &Sites<F>,
    format: Format,
    rows: &Gathering<C>,
) -> Result<(), AllocError>
    ensures text { Adds result text.old text.new
        (site_counts_text format (node_name config.now number) sites.now
        rows.now.routers.entries) }
    ensures memory { OnErr result A.may_refuse }
{
    let node = node_name(config, number);
    let sites = sites.as_slice();
    match format {
        Format::Lines => put_sites(text, SiteShape::Lines, node, sites, &rows.routers),
        Format::Prometheus => put_site_samples(text, node, sites, &rows.routers),
    }
}

// Appends the samples of rows, and those of routers. Out of memory, it may leave a part of them.
#[tactic(auto, using(crate::proofs::Counting::steps))]
fn put_site_samples<A: Memory, C: Memory + Copy, E: Allocator>(
    text: &mut String<A>,
    node: &str,
    sites: &[Site<E>],
    counts: &BTreeMap<RouterId, u64, C>,
) -> Result<(), AllocError>
    ensures text { Adds result text.old text.new
        (site_samples node.now sites.now counts.now.entries) }
    ensures memory { OnErr result A.may_refuse }
{
    put_family(text, SiteShape::Rows, &SITE_ROWS, node, sites, counts)?;
    put_family(text, SiteShape::Routers, &SITE_ROUTERS, node, sites, counts)
}

// Appends samples behind the head of their metric. Out of memory, it may leave a part of them.
#[tactic(auto, using(crate::proofs::Counting::steps))]
fn put_family<A: Memory, C: Memory + Copy, E: Allocator>(
    text: &mut String<A>,
    shape: SiteShape,
    metric: &Metric,
    node: &str,
    sites: &[Site<E>],
    counts: &BTreeMap<RouterId, u64, C>,
) -> Result<(), AllocError>
    ensures text { Adds result text.old text.new
        (site_family shape (texts_of metric.now) node.now sites.now counts.now.entries) }
    ensures memory { OnErr result A.may_refuse }
{
    put_head(text, Format::Prometheus, metric)?;
    put_sites(text, shape, node, sites, counts)
}

// Appends what is held of each site that is told in a shape. Out of memory, it may leave a part of it.
fn put_sites<A: Memory, C: Memory + Copy, E: Allocator>(
    text: &mut String<A>,
    shape: SiteShape,
    node: &str,
    sites: &[Site<E>],
    counts: &BTreeMap<RouterId, u64, C>,
) -> Result<(), AllocError>
    ensures text { Adds result text.old text.new
        (flat_map (site_text shape node.now counts.now.entries) sites.now) }
    ensures memory { OnErr result A.may_refuse }
{
    for site in sites {
        put_site(text, shape, node, site, counts)?;
    }
    Ok(())
}

// Appends what is held of a site, in a shape; nothing where the site isn't told so. Out of memory, it may leave a part of it.
fn put_site<A: Memory, C: Memory + Copy, E: Allocator>(
    text: &mut String<A>,
    shape: SiteShape,
    node: &str,
    site: &Site<E>,
    counts: &BTreeMap<RouterId, u64, C>,
) -> Result<(), AllocError>
    ensures text { Adds result text.old text.new
        (site_text shape node.now counts.now.entries site.now) }
    ensures memory { OnErr result A.may_refuse }
{
    if is_told(shape, site) {
        put_held(text, shape, node, site.id(), held_of(counts, site.id()))
    } else {
        Ok(())
    }
}

// Whether a site is told in a shape.
fn is_told<E: Allocator>(shape: SiteShape, site: &Site<E>) -> bool
    ensures { result ≡ is_told shape site.now }
{
    match shape {
        SiteShape::Rows => true,
        SiteShape::Lines | SiteShape::Routers => is_limited(site),
    }
}

// Whether a site has a limit on its routers or rows.
fn is_limited<E: Allocator>(site: &Site<E>) -> bool
    ensures { result ≡ is_limited site.now }
{
    let limits = site.limits();
    limits.most_routers.is_some() || limits.most_rows.is_some()
}

// What is held of a site, by how many rows each router has: the routers of the site stand together, and the first is sought by halving.
fn held_of<C: Memory + Copy>(counts: &BTreeMap<RouterId, u64, C>, site: u64) -> Held
    ensures { result ≡ held_of counts.now.entries site }
{
    let first = RouterId { site, xtr: [0; 16] };
    let last = RouterId {
        site,
        xtr: [255; 16],
    };
    let (mut rows, mut routers) = (0u64, 0u64);
    for (_, more) in counts.range((Bound::Included(first), Bound::Included(last))) {
        rows = rows.saturating_add(*more);
        routers = routers.saturating_add(1);
    }
    Held { rows, routers }
}

// Appends what is held of a site, in a shape. Out of memory, it may leave a part of it.
#[tactic(auto, using(crate::proofs::Counting::steps))]
fn put_held<A: Memory>(
    text: &mut String<A>,
    shape: SiteShape,
    node: &str,
    site: u64,
    held: Held,
) -> Result<(), AllocError>
    ensures text { Adds result text.old text.new (held_text shape node.now site held) }
    ensures memory { OnErr result A.may_refuse }
{
    let (label, Held { rows, routers }) = (Label::Site(site), held);
    match shape {
        SiteShape::Lines => {
            put_count(text, Format::Lines, &SITE_ROWS, node, label, rows)?;
            put_count(text, Format::Lines, &SITE_ROUTERS, node, label, routers)
        }
        SiteShape::Rows => put_count(text, Format::Prometheus, &SITE_ROWS, node, label, rows),
        SiteShape::Routers => {
            put_count(
                text,
                Format::Prometheus,
                &SITE_ROUTERS,
                node,
                label,
                routers,
            )
        }
    }
}
