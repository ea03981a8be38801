//! Telling what happened outside.

ghost use Rattle.lisp_turns.specs.Stretch.{Tells};

use crate::outside::{Endpoint, Lines, Printed, SocketCall};
use lisp_records::{Addr, Bytes};

/// Prints a line, and then sends the message behind it, if there is one. A socket that fails is a line, too.
pub(crate) fn tell<O: Endpoint + Lines>(
    line: &Printed,
    message: &Option<(Addr, Bytes)>,
    outside: &mut O,
)
    ensures { Tells (O.seen outside.old) (O.seen outside.new) line.now message.now }
{
    outside.print(line);
    if let Some((to, message)) = message {
        if !outside.send(to, message.as_slice()) {
            outside.print(&Printed::Failed(SocketCall::Send));
        }
    }
}
