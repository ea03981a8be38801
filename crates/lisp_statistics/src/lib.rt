//! What is counted of a node that runs, since its start: the lines of each kind that it prints, the refusals by limits of sites, the last
//! refusal from the address of each router, the routers that it heard, how long its longest save took, how many Map-Requests came, and how
//! long the slowest answer to one took; beside it the node as it stands, and what is held of sites; and the text of this.
//!
//! # Decisions
//!
//! - A router was heard where a Map-Register of it was accepted: whatever else comes from its address may be anybody's.
//! - Counts are of the lines that a node prints, before its log leaves out repeats, so that a flood is counted too.
//! - A kind of line or a router that is new takes memory, and isn't kept where that is refused. Room could be taken at the
//!   start for kinds, but not for routers, of which there are as many as have a key.
//! - Prometheus gets the longest save in seconds as `12e-3`: its format takes that, and the ms stay whole numbers. So it is with the
//!   slowest answer, in us: an answer in less than 1 ms is the rule.
//! - Map-Requests are counted as they come, and not by their lines: one may ask for several EID-Prefixes, or be dropped without a line.
//! - In lines, what is held of a site is reported where it has a limit on its routers or rows: there may be thousands of sites, and the
//!   answer is one part. Metrics have the rows of each: no operator reads these. It is taken from the counts by router, where the first router of a site is found by halving.
//! - A refusal by a limit comes after the tag's check, so only sites that the Map-Server had have counts of them: six numbers at most.
//! - What is held of sites is told of those that the Map-Server has now: it may have taken others since its start.
//! - Routers that were never heard come in the last part, however many they are: a configuration has at most 1 MiB.
//! - The nonce of a router is a gauge, and Prometheus rounds what is above 2^53: it shows whether a router's nonces go on.
//! - Addresses of configured routers are the only ones whose last refusal is kept, in places that are made at the start: a flood from others
//!   costs a look-up for each datagram, and no memory. Who sent what was refused isn't known.
//! - Other sites are one kind of line, whether the Map-Server went on with what it holds or started anew: their first word is the same.
#![tactic(auto)]

// What is kept.
mod hearing;
mod kind;
mod last_refusals;
mod statistics;

// What it is beside: the node as it stands.
mod gathering;
mod gauge;

// The text of both.
mod counts;
pub mod laws;
mod metrics;
mod never;
mod replays;
mod router_list;
mod router_metrics;
mod routers;
mod sample;
mod site_counts;
mod site_refusals;

pub use counts::{Format, counts_text};
pub use gathering::Gathering;
pub use gauge::{Figure, Gauge};
pub use hearing::Hearing;
pub use kind::LineKind;
pub use replays::count_replays;
pub use router_list::{RouterList, RoutersPart, is_long_list, next_routers, routers_by_parts};
pub use router_metrics::put_router_metrics;
pub use routers::routers_text;
pub use site_counts::put_site_counts;
pub use site_refusals::{SiteRefusal, put_site_refusals};
pub use statistics::Statistics;
