//! The moments of a node's clock: one of the devices.

ghost use Rattle.std.specs.Prelude.{◌≡◌, ◌≤◌};
ghost use Rattle.lisp_udp.specs.Moments.{moment_of};

use lisp_records::MAX_MOMENT;
use lisp_script::RunFault;
use std::time::{Clock, Duration, Instant, SystemTime, UNIX_EPOCH};

const US_PER_MS: u64 = 1_000;

/// Milliseconds since 1970, which never fall. The system's time is read once, at the start; from there they go on by the clock that nobody
/// sets. So what the processes of a machine read is in the order in which they read it, unless its time was set, or the machine was
/// suspended, between their starts.
#[derive(Drop)]
pub struct Stopwatch {
    start: Instant,
    // The us since 1970 at the start.
    start_us: u64,
    /// The most ms since 1970 that it read so far, those at the start among them. Of more than 2^62 it tells 2^62.
    pub last: u64,
}

impl Stopwatch {
    /// It starts now. Fault: 92 where the system's time or its clock can't be read.
    pub fn start<R: Clock>(rt: &R) -> Result<Stopwatch, RunFault> {
        match (us_since_1970(rt), Instant::now(rt)) {
            (Some(start_us), Ok(start)) => Ok(Stopwatch {
                start,
                start_us,
                last: start_us / US_PER_MS,
            }),
            _ => Err(RunFault::BIND),
        }
    }

    /// How many ms it is since 1970, at most 2^62. Where the clock can't be read, or went back, no time has passed.
    pub fn now<R: Clock>(&mut self, rt: &R) -> u64
        ensures told { result ≡ moment_of self.new.last }
        ensures later { moment_of self.old.last ≤ result }
    {
        if let Ok(passed) = self.start.elapsed(rt) {
            let passed = self.start_us.saturating_add(us(passed)) / US_PER_MS;
            self.last = self.last.max(passed);
        }
        self.told()
    }

    /// What it told last; before, the moment of its start.
    pub fn told(&self) -> u64
        ensures { result ≡ moment_of self.now.last }
    {
        self.last.min(MAX_MOMENT)
    }
}

/// The ms since 1970 by the system's time; 0 where that can't be read, and then no stopwatch starts.
pub fn ms_since_1970<R: Clock>(rt: &R) -> u64 {
    us_since_1970(rt).unwrap_or(0) / US_PER_MS
}

// The us since 1970, if the system's time can be read.
fn us_since_1970<R: Clock>(rt: &R) -> Option<u64> {
    let now = SystemTime::now(rt).ok()?;
    Some(us(now.duration_since(UNIX_EPOCH).ok()?))
}

// How many us there are, up to 2^64 - 1.
fn us(time: Duration) -> u64 {
    u64::try_from(time.as_micros()).unwrap_or(u64::MAX)
}

/// How many us lie between two readings of the clock, where it could be read.
pub fn us_between(from: Option<Instant>, to: Option<Instant>) -> Option<u64> {
    Some(us(to?.duration_since(from?)))
}
