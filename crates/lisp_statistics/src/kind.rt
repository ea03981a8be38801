//! Which lines are counted together.

ghost use Rattle.std.specs.Prelude.{◌≡◌};
ghost use Rattle.lisp_statistics.specs.Kind.{kind_of, kind_of_line, kind_of_outcome, kind_word, kind_number};

use lisp_log::OVER_BUDGET;
use lisp_mapping::Outcome;
use lisp_model::Line;
use lisp_turns::Printed;

/// Lines that are counted together: those of one first word, and of refusals those of one number.
#[derive(Clone, Copy, PartialEq, Eq, PartialOrd, Ord)]
pub enum LineKind {
    /// A Map-Server accepted a Map-Register.
    Accepted,
    /// A router has another database.
    Changed,
    /// A Map-Register of a router was acknowledged.
    Counted,
    /// A notice of a Map-Server was acknowledged.
    Done,
    /// The router is down.
    Down,
    /// A row of a Map-Server died.
    Expired,
    /// A Map-Request went on to a router.
    Forwarded,
    /// A Map-Request was answered with a negative Map-Reply.
    Negative,
    /// A Map-Server sent a notice.
    Notice,
    /// A router answered a notice.
    Noticed,
    /// A Map-Server has other sites, whether it holds what it held or started anew.
    Reloaded,
    /// A Map-Request was answered with a Map-Reply of records.
    Replied,
    /// A Map-Server sent a notice again.
    Resent,
    /// The node began anew, since its store couldn't commit.
    Restarted,
    /// A router went over to another key.
    Rotated,
    /// A router sent a Map-Register.
    Sent,
    /// A Map-Server that has just started didn't answer a Map-Request.
    Unanswered,
    /// A refusal with the number that operators see.
    Refused(u16),
}

impl LineKind {
    /// That of a line; `None` of one that no node prints which runs: of a datagram that reached no node, of time, and of a store that
    /// was lost.
    pub fn of(line: &Printed) -> Option<LineKind>
        ensures { result ≡ kind_of line.now }
    {
        match line {
            Printed::Event(line) | Printed::Heard { line, .. } => LineKind::of_line(line),
            Printed::Expired { .. } => Some(LineKind::Expired),
            Printed::Asked { outcome, .. } => Some(LineKind::of_outcome(outcome)),
            Printed::Unasked { why, .. } => Some(LineKind::Refused(why.number())),
            Printed::OverBudget { .. } => Some(LineKind::Refused(OVER_BUDGET)),
            Printed::Failed(call) => Some(LineKind::Refused(call.number())),
        }
    }

    // That of what is said of an EID-Prefix that a Map-Request asks for.
    fn of_outcome(outcome: &Outcome) -> LineKind
        ensures { result ≡ kind_of_outcome outcome.now }
    {
        match outcome {
            Outcome::Replied(_) => LineKind::Replied,
            Outcome::Negative(_) => LineKind::Negative,
            Outcome::Forwarded(_) => LineKind::Forwarded,
            Outcome::Silent => LineKind::Unanswered,
        }
    }

    // That of the line of an event.
    fn of_line(line: &Line) -> Option<LineKind>
        ensures { result ≡ kind_of_line line.now }
    {
        match line {
            Line::Accepted { .. } => Some(LineKind::Accepted),
            Line::Changed { .. } => Some(LineKind::Changed),
            Line::Counted { .. } => Some(LineKind::Counted),
            Line::Done { .. } => Some(LineKind::Done),
            Line::Down { .. } => Some(LineKind::Down),
            Line::Notice { .. } => Some(LineKind::Notice),
            Line::Noticed { .. } => Some(LineKind::Noticed),
            Line::Reloaded { .. } | Line::Renewed { .. } => Some(LineKind::Reloaded),
            Line::Resent { .. } => Some(LineKind::Resent),
            Line::Restarted { .. } => Some(LineKind::Restarted),
            Line::Rotated { .. } => Some(LineKind::Rotated),
            Line::Sent { .. } => Some(LineKind::Sent),
            Line::Refused { what, .. } => Some(LineKind::Refused(what.number())),
            Line::Nowhere { .. } | Line::Ticked { .. } | Line::Emptied { .. } => None,
        }
    }

    /// The first word of its lines.
    pub fn word(&self) -> &'static str
        ensures { result.now ≡ kind_word self.now }
    {
        match self {
            LineKind::Accepted => "accepted",
            LineKind::Changed => "change",
            LineKind::Counted => "counted",
            LineKind::Done => "done",
            LineKind::Down => "down",
            LineKind::Expired => "expired",
            LineKind::Forwarded => "forwarded",
            LineKind::Negative => "negative",
            LineKind::Notice => "notice",
            LineKind::Noticed => "noticed",
            LineKind::Reloaded => "reloaded",
            LineKind::Replied => "replied",
            LineKind::Resent => "resent",
            LineKind::Restarted => "restarted",
            LineKind::Rotated => "rotated",
            LineKind::Sent => "sent",
            LineKind::Unanswered => "unanswered",
            LineKind::Refused(_) => "refused",
        }
    }

    /// The number of its refusals.
    pub fn number(&self) -> Option<u16>
        ensures { result ≡ kind_number self.now }
    {
        match self {
            LineKind::Refused(number) => Some(*number),
            _ => None,
        }
    }
}
