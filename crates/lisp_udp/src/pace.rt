//! When a node answers its user, between the datagrams that it takes.

ghost use Rattle.std.specs.Prelude.{◌≡◌};
ghost use Rattle.lisp_udp.specs.Pace.{answered_for, answers, awaits_next, cleared, heard, rested_for, worked_for};

/// So many us of the turns that take datagrams are worth one us of rest.
const WORK_PER_REST: u64 = 8;

/// A datagram comes closely after another where the node rests for no more than so many us between them.
const MOST_BETWEEN_US: u64 = 1_000;

/// What a node owes since it answered: it answers again once it rested as long as it answered, or once it took datagrams for eight times
/// as long. So a user who asks in a loop takes at most half of the time that datagrams leave; where they leave none, an eighth of their
/// time.
#[derive(Clone, Copy, Debug, PartialEq, Eq)]
pub struct Pace {
    // For so many us it is to rest yet,
    rest_left: u64,
    // or to take datagrams.
    work_left: u64,
    // For so many us it rested since the last datagram.
    rested: u64,
    // That datagram came closely after the one before it.
    is_close: bool,
}

impl Pace {
    /// Of a node that nobody asked lately.
    pub fn start() -> Pace
        ensures { result ≡ cleared }
    {
        Pace {
            rest_left: 0,
            work_left: 0,
            rested: 0,
            is_close: false,
        }
    }

    /// It rested for so many us.
    pub fn rest(&mut self, us: u64)
        ensures { self.new ≡ rested_for self.old us }
    {
        self.rest_left = self.rest_left.saturating_sub(us);
        self.rested = self.rested.saturating_add(us);
    }

    /// It took datagrams for so many us.
    pub fn work(&mut self, us: u64)
        ensures { self.new ≡ worked_for self.old us }
    {
        self.work_left = self.work_left.saturating_sub(us);
    }

    /// A datagram came.
    pub fn hear(&mut self)
        ensures { self.new ≡ heard self.old }
    {
        self.is_close = self.rested <= MOST_BETWEEN_US;
        self.rested = 0;
    }

    /// It answered for so many us.
    pub fn answer(&mut self, us: u64)
        ensures { self.new ≡ answered_for self.old us }
    {
        self.rest_left = us;
        self.work_left = us.saturating_mul(WORK_PER_REST);
    }

    /// Whether the node answers in this turn.
    pub fn may_answer(&self) -> bool
        ensures { result ≡ answers self.now }
    {
        self.rest_left == 0 || self.work_left == 0
    }

    /// Whether the node waits for the next datagram, where none waits: it follows soon, as the last one did.
    pub fn awaits_next(&self) -> bool
        ensures { result ≡ awaits_next self.now }
    {
        self.is_close && self.rested == 0
    }
}
