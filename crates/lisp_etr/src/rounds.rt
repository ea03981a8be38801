//! How a router stands with one of its Map-Servers (RFC 9301 section 8.2).

ghost use Rattle.std.specs.Prelude.{◌≡◌, ◌<◌, ◌≤◌, IfSome, is_some, length, map, position};
ghost use Rattle.lisp_records.specs.Moment.{max_moment};
ghost use Rattle.lisp_records.specs.Parts.{most_parts};
ghost use Rattle.lisp_etr.specs.Round.{new_round, rotated_round};
ghost use Rattle.lisp_etr.specs.Rounds.{first_rounds, new_rounds, rotated_rounds, rounds_after_send, rounds_after_count, latest_of, is_latest, part_with, greatest, due_part};

use crate::round::Round;
use lisp_records::MAX_PARTS;

/// A round for each part of the router's database, and what was acknowledged of each; of parts that the database doesn't
/// have, what was left of those that an earlier one had.
#[derive(Clone, Copy, Drop)]
pub(crate) struct Rounds {
    /// The rounds, part by part.
    pub(crate) parts: [Round; MAX_PARTS],
    /// The Key ID and the nonce of each part's last send that was acknowledged.
    pub(crate) acked: [Option<(u8, u64)>; MAX_PARTS],
}

impl Rounds {
    /// A router that starts at this time, and hasn't sent.
    pub(crate) fn start(now: u64) -> Rounds
        ensures { result ≡ first_rounds now }
    {
        Rounds {
            parts: [Round::start(now); MAX_PARTS],
            acked: [None; MAX_PARTS],
        }
    }

    /// A new round of each part, due now.
    pub(crate) fn begin(&mut self, now: u64)
        ensures { self.new ≡ new_rounds now self.old }
    {
        begin_each(&mut self.parts, now);
    }

    /// A new round of each part under another key, due now.
    pub(crate) fn rotate(&mut self, now: u64)
        ensures { self.new ≡ rotated_rounds now self.old }
    {
        rotate_each(&mut self.parts, now);
    }

    /// A Map-Register of a part goes out under a nonce, at a time, in ms, of at most 2^62.
    pub(crate) fn send(&mut self, part: usize, nonce: u64, now: u64)
        requires moment { now ≤ max_moment }
        requires part { part < most_parts }
        ensures { self.new ≡ rounds_after_send part nonce now self.old }
    {
        self.parts[part].send(nonce, now);
    }

    /// The last Map-Register of a part is acknowledged, under a Key ID.
    pub(crate) fn count(&mut self, key: u8, part: usize)
        requires { part < most_parts }
        ensures { self.new ≡ rounds_after_count key part self.old }
    {
        self.acked[part] = Some((key, self.parts[part].latest));
        self.parts[part].count();
    }

    /// The part whose last Map-Register had the nonce.
    pub(crate) fn part_with(&self, nonce: u64) -> Option<usize>
        ensures part { result ≡ part_with nonce (latest_of self.now) }
        ensures there { IfSome result (λ part. part < most_parts) }
    {
        place_of(&self.parts, nonce)
    }

    /// The greatest nonce of the parts' last Map-Registers, 0 where there was none.
    pub(crate) fn latest(&self) -> u64
        ensures { result ≡ greatest (latest_of self.now) }
    {
        let mut latest = 0;
        for round in &self.parts {
            latest = round.latest.max(latest);
        }
        latest
    }

    /// The first of so many parts that is due.
    pub(crate) fn due(&self, parts: usize, now: u64) -> Option<usize>
        requires { parts ≤ most_parts }
        ensures part { result ≡ due_part now parts self.now }
        ensures there { IfSome result (λ part. part < parts) }
    {
        self.parts[..parts]
            .iter()
            .position(|round| round.due <= now)
    }
}

/// New rounds with each Map-Server, due now.
pub(crate) fn begin_all(all: &mut [Rounds], now: u64)
    ensures { all.new ≡ map (new_rounds now) all.old }
{
    for rounds in all.iter_mut() {
        rounds.begin(now);
    }
}

/// New rounds with each Map-Server under another key, due now.
pub(crate) fn rotate_all(all: &mut [Rounds], now: u64)
    ensures { all.new ≡ map (rotated_rounds now) all.old }
{
    for rounds in all.iter_mut() {
        rounds.rotate(now);
    }
}

/// The first Map-Server where one of so many parts is due.
pub(crate) fn first_due(all: &[Rounds], parts: usize, now: u64) -> Option<usize>
    requires { parts ≤ most_parts }
    ensures place { result ≡ position (λ rs. is_some (due_part now parts rs)) all.now }
    ensures there { IfSome result (λ server. server < length all.now) }
{
    all.iter()
        .position(|rounds| rounds.due(parts, now).is_some())
}

// The first of these rounds whose last send was under the nonce; no nonce is 0.
fn place_of(rounds: &[Round], nonce: u64) -> Option<usize>
    ensures place { result ≡ position (λ r. is_latest nonce r.latest) rounds.now }
    ensures there { IfSome result (λ place. place < length rounds.now) }
{
    rounds
        .iter()
        .position(|round| nonce != 0 && nonce == round.latest)
}

// Each of these rounds begins anew, due now.
fn begin_each(rounds: &mut [Round], now: u64)
    ensures { rounds.new ≡ map (new_round now) rounds.old }
{
    for round in rounds.iter_mut() {
        round.begin(now);
    }
}

// Each of these rounds begins anew under another key, due now.
fn rotate_each(rounds: &mut [Round], now: u64)
    ensures { rounds.new ≡ map (rotated_round now) rounds.old }
{
    for round in rounds.iter_mut() {
        round.rotate(now);
    }
}
