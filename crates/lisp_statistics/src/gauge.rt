//! What a node has now.

ghost use Rattle.std.specs.Prelude.{◌≡◌};
ghost use Rattle.lisp_statistics.specs.Gauge.{figure_metric};
ghost use Rattle.lisp_statistics.specs.Metric.{texts_of};

use crate::metrics::{
    LONGEST_SAVE, Metric, RECORDS, REPLAYS, REQUESTS, ROWS, SITES, SLOWEST_REPLY, STANDING_NOTICES,
};

/// What is counted of a node as it stands.
#[derive(Clone, Copy)]
pub enum Figure {
    /// The records that a router registers.
    Records,
    /// The rows that a Map-Server holds.
    Rows,
    /// The sites that these rows are of.
    Sites,
    /// The notices of a Map-Server that aren't acknowledged.
    StandingNotices,
    /// The source addresses of which a Map-Server refused Map-Registers as replays for three minutes.
    Replays,
    /// The ms that the longest save took since the start.
    LongestSave,
    /// The Map-Requests that came since the start.
    Requests,
    /// The us that the slowest answer to a Map-Request took since the start.
    SlowestReply,
}

/// A figure, and how much it is.
#[derive(Clone, Copy)]
pub struct Gauge {
    /// What it is of.
    pub figure: Figure,
    /// How much.
    pub value: u64,
}

impl Figure {
    /// What it is to Prometheus, and its word in a line.
    pub(crate) fn metric(&self) -> Metric
        ensures { texts_of result ≡ figure_metric self.now }
    {
        match self {
            Figure::Records => RECORDS,
            Figure::Rows => ROWS,
            Figure::Sites => SITES,
            Figure::StandingNotices => STANDING_NOTICES,
            Figure::Replays => REPLAYS,
            Figure::LongestSave => LONGEST_SAVE,
            Figure::Requests => REQUESTS,
            Figure::SlowestReply => SLOWEST_REPLY,
        }
    }
}
