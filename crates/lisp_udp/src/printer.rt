//! Where a node's lines go.

ghost use Rattle.std.specs.Prelude.{◌≡◌, ◌≤◌, Bool};
ghost use Rattle.lisp_records.specs.Moment.{max_moment};

use lisp_log::Replay;
use lisp_turns::Printed;
use std::io::ErrorKind;

/// Where a node's lines go. Moments are those of its clock, in ms.
pub trait Printer {
    /// Whether a line couldn't be printed.
    ghost cut: { Self → Bool };

    /// The clock was read.
    fn pass(&mut self, now: u64)
        requires { now ≤ max_moment }
        ensures { cut self.new ≡ cut self.old };

    /// Prints a line. `failure` is the kind of the last error of the node's socket.
    fn print(&mut self, line: &Printed, failure: Option<ErrorKind>, now: u64);

    /// The runs of Map-Registers that are refused as replays, where it keeps them.
    fn replays(&self) -> &[Replay];

    /// Whether a line couldn't be printed, so that the node is to end.
    fn is_cut(&self) -> bool
        ensures { result ≡ cut self.now };
}
