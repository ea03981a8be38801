//! The metrics of nodes: what each is called, and what helps to read it.

/// A metric: its word in a line, where lines have one; its name; what helps to read it; its type; and what is behind its values, since
/// Prometheus wants seconds: 12 ms are 12e-3, and 12 us 12e-6. It is a tuple, because a definition can't name a constant of a struct with
/// texts.
pub type Metric = (
    &'static str,
    &'static str,
    &'static str,
    &'static str,
    &'static str,
);

// What only grows.
const COUNTER: &str = "counter";

// What falls, too.
const GAUGE: &str = "gauge";

/// The lines of a kind.
pub const LINES: Metric = (
    "",
    "lisp_lines_total",
    "Lines of the node since its start, by their first word, without refusals.",
    COUNTER,
    "",
);

/// The refusals with a number.
pub const REFUSALS: Metric = (
    "refused",
    "lisp_refusals_total",
    "Refusals of the node since its start, by their number.",
    COUNTER,
    "",
);

/// The records that a router registers.
pub const RECORDS: Metric = (
    "records",
    "lisp_records",
    "Records that the router registers.",
    GAUGE,
    "",
);

/// The rows that a Map-Server holds.
pub const ROWS: Metric = (
    "rows",
    "lisp_rows",
    "Rows that the Map-Server holds.",
    GAUGE,
    "",
);

/// The sites that these rows are of.
pub const SITES: Metric = (
    "sites",
    "lisp_sites",
    "Sites of which the Map-Server holds rows.",
    GAUGE,
    "",
);

/// The notices of a Map-Server that aren't acknowledged.
pub const STANDING_NOTICES: Metric = (
    "standing_notices",
    "lisp_standing_notices",
    "Notices of the Map-Server that are not acknowledged.",
    GAUGE,
    "",
);

/// The source addresses of which a Map-Server refused Map-Registers as replays for three minutes.
pub const REPLAYS: Metric = (
    "replays",
    "lisp_replayed_sources",
    "Source addresses of which Map-Registers were refused as replays for three minutes.",
    GAUGE,
    "",
);

/// The ms that the longest save took since the start.
pub const LONGEST_SAVE: Metric = (
    "longest_save_ms",
    "lisp_longest_save_seconds",
    "The longest save of a nonce since the start.",
    GAUGE,
    "e-3",
);

/// The Map-Requests that came since the start.
pub const REQUESTS: Metric = (
    "requests",
    "lisp_map_requests_total",
    "Map-Requests that came since the start.",
    COUNTER,
    "",
);

/// The us that the slowest answer to a Map-Request took since the start.
pub const SLOWEST_REPLY: Metric = (
    "slowest_reply_us",
    "lisp_slowest_reply_seconds",
    "The slowest answer to a Map-Request since the start.",
    GAUGE,
    "e-6",
);

/// When the node started, in ms since 1970.
pub const START_TIME: Metric = (
    "",
    "lisp_start_time_seconds",
    "When the node started, in seconds since 1970, by its clock.",
    GAUGE,
    "e-3",
);

/// The live rows of a site.
pub const SITE_ROWS: Metric = (
    "rows",
    "lisp_site_rows",
    "Live rows of each site.",
    GAUGE,
    "",
);

/// The routers with live rows of a site.
pub const SITE_ROUTERS: Metric = (
    "routers",
    "lisp_site_routers",
    "Routers with live rows of each site that has a limit on its rows or routers.",
    GAUGE,
    "",
);

/// The Map-Registers that a limit of a site refused.
pub const SITE_REFUSALS: Metric = (
    "refused",
    "lisp_site_refusals_total",
    "Map-Registers that a limit of a site refused since the start of the node, by their number.",
    COUNTER,
    "",
);

/// How many ms ago the last accepted Map-Register of a router came.
pub const ROUTER_AGE: Metric = (
    "",
    "lisp_router_age_seconds",
    "How long ago the last accepted Map-Register of the router came.",
    GAUGE,
    "e-3",
);

/// The nonce of this.
pub const ROUTER_LAST_NONCE: Metric = (
    "",
    "lisp_router_last_nonce",
    "The nonce of the last accepted Map-Register of the router; above 2^53 Prometheus rounds it.",
    GAUGE,
    "",
);

/// The number of the last refusal of a datagram from the address of a router.
pub const ROUTER_LAST_REFUSAL: Metric = (
    "",
    "lisp_router_last_refusal",
    "The number of the last refusal of a datagram from the address of the router since the start, whoever sent it.",
    GAUGE,
    "",
);
