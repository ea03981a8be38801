//! When something that failed is tried again, and when it is told again.

ghost use Rattle.std.specs.Prelude.{◌≡◌, ◌≤◌};
ghost use Rattle.lisp_records.specs.Moment.{max_moment};
ghost use Rattle.lisp_turns.specs.Pause.{may_try, is_told, failed};

/// How long after a failure the next try comes, in ms.
pub const RETRY_MS: u64 = 1_000;

// How long after a failure that was told the next one is told, in ms.
const LINE_MS: u64 = 60_000;

/// When something that failed is tried again: a second later. And when it is told again: a minute after it was told.
#[derive(Clone, Copy, Debug, PartialEq, Eq)]
pub struct Pause {
    /// The moment from which on it is tried again, in ms.
    pub next_try: u64,
    /// The moment from which on a failure is told again, in ms.
    pub next_line: u64,
}

impl Pause {
    /// Nothing failed yet.
    pub const NONE: Pause = Pause {
        next_try: 0,
        next_line: 0,
    };

    /// Whether it may be tried at a moment, in ms.
    pub fn may_try(&self, now: u64) -> bool
        ensures { result ≡ may_try self.now now }
    {
        self.next_try <= now
    }

    /// It failed at a moment, in ms; whether that is told.
    pub fn fail(&mut self, now: u64) -> bool
        requires { now ≤ max_moment }
        ensures pause { self.new ≡ failed self.old now }
        ensures told { result ≡ is_told self.old now }
    {
        let told = self.next_line <= now;
        self.next_try = now + RETRY_MS;
        if told {
            self.next_line = now + LINE_MS;
        }
        told
    }
}
