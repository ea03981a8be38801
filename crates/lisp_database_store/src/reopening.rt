//! How often a database is opened again after its disk failed.

use std::time::{Clock, Duration, Instant};

/// For how many seconds it isn't opened again after it was, at least.
const SHORTEST: u64 = 1;

/// And for how many times as long as the opening took.
const TIMES: u32 = 20;

/// When a database may be opened again. An opening reads all that it keeps: on a full disk each datagram would cost one.
#[derive(Drop)]
pub(crate) struct Reopening {
    // When it was opened again the last time, and for how long it isn't again.
    last: Option<(Instant, Duration)>,
}

impl Reopening {
    /// It wasn't opened again yet.
    pub(crate) fn new() -> Reopening {
        Reopening { last: None }
    }

    /// Whether it was opened again just now.
    pub(crate) fn is_recent<R: Clock>(&self, rt: &R) -> bool {
        match &self.last {
            Some((end, rest)) => match end.elapsed(rt) {
                Ok(passed) => passed < *rest,
                Err(_) => false,
            },
            None => false,
        }
    }

    /// It was opened again, from a moment on until now.
    pub(crate) fn note<R: Clock>(&mut self, rt: &R, begin: Instant) {
        if let Ok(end) = Instant::now(rt) {
            let took = end.duration_since(begin);
            self.last = Some((
                end,
                took.saturating_mul(TIMES)
                    .max(Duration::from_secs(SHORTEST)),
            ));
        }
    }
}
