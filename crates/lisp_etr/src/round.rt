//! A router's rounds of Map-Registers of one part of its database to one of its Map-Servers (RFC 9301 section 8.2).

ghost use Rattle.std.specs.Prelude.{◌≡◌, ◌≤◌};
ghost use Rattle.lisp_records.specs.Moment.{max_moment};
ghost use Rattle.lisp_etr.specs.Timers.{gap};
ghost use Rattle.lisp_etr.specs.Round.{first_round, new_round, rotated_round, round_after_send, round_after_count};

/// A minute, in ms.
const MINUTE: u64 = 60_000;

/// From so many sends on a round's gaps are the same.
const MOST_SENDS: u8 = 6;

/// The Map-Registers of one part to one Map-Server. Times are in ms.
#[derive(Clone, Copy, Drop)]
pub(crate) struct Round {
    /// When the next Map-Register is due.
    pub(crate) due: u64,
    /// The sends of this round; six stands for more too.
    pub(crate) sends: u8,
    /// When the next round is due once the last send is acknowledged; 0 before the first send.
    pub(crate) renewal: u64,
    /// The nonce of the last send under the present key; 0 where there was none.
    pub(crate) latest: u64,
}

impl Round {
    /// A router that starts at this time, and hasn't sent.
    pub(crate) const fn start(now: u64) -> Round
        ensures { result ≡ first_round now }
    {
        Round {
            due: now,
            sends: 0,
            renewal: 0,
            latest: 0,
        }
    }

    /// A new round, due now.
    pub(crate) fn begin(&mut self, now: u64)
        ensures { self.new ≡ new_round now self.old }
    {
        self.due = now;
        self.sends = 0;
    }

    /// A new round under another key, due now: no Map-Register went out under it.
    pub(crate) fn rotate(&mut self, now: u64)
        ensures { self.new ≡ rotated_round now self.old }
    {
        self.begin(now);
        self.latest = 0;
    }

    /// A Map-Register goes out under a nonce, at a time, in ms, of at most 2^62.
    pub(crate) fn send(&mut self, nonce: u64, now: u64)
        requires { now ≤ max_moment }
        ensures { self.new ≡ round_after_send nonce now self.old }
    {
        self.due = now + gap(self.sends);
        self.sends = self.sends.saturating_add(1).min(MOST_SENDS);
        self.renewal = now + MINUTE;
        self.latest = nonce;
    }

    /// The last send is acknowledged.
    pub(crate) fn count(&mut self)
        ensures { self.new ≡ round_after_count self.old }
    {
        if self.sends > 0 {
            self.due = self.renewal;
            self.sends = 0;
        }
    }
}

// How long after a send that follows so many others of its round the next one is due, in ms.
const fn gap(sends: u8) -> u64
    ensures { result ≡ gap sends }
{
    match sends {
        0 => 1_000,
        1 => 2_000,
        2 => 4_000,
        3 => 8_000,
        4 => 16_000,
        5 => 32_000,
        _ => MINUTE,
    }
}
