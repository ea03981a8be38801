//! Where and when a Map-Server heard a router.

ghost use Rattle.std.specs.Prelude.{◌≡◌};
ghost use Rattle.lisp_statistics.specs.Hearing.{heard_in};

use lisp_model::Line;
use lisp_records::{Addr, RouterId};
use lisp_turns::Printed;

/// A Map-Register that a Map-Server accepted of a router.
#[derive(Clone, Copy)]
pub struct Hearing {
    /// Where it came from.
    pub from: Addr,
    /// Its Key ID.
    pub key: u8,
    /// Its nonce.
    pub nonce: u64,
    /// When it came, in ms.
    pub at: u64,
}

impl Hearing {
    /// Which router a line says was heard, at the moment of the line, in ms; `None` of a line that says so of none.
    pub(crate) fn of(line: &Printed, at: u64) -> Option<(RouterId, Hearing)>
        ensures { result ≡ heard_in line.now at }
    {
        match *line {
            Printed::Heard {
                line: Line::Accepted {
                    router,
                    key,
                    nonce,
                    ..
                },
                from,
            } => Some((
                router,
                Hearing {
                    from,
                    key,
                    nonce,
                    at,
                },
            )),
            _ => None,
        }
    }
}
