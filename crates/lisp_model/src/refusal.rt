//! Why a node refused an event.

ghost use Rattle.std.specs.Prelude.{◌≡◌};
ghost use Rattle.lisp_model.specs.Faults.{refusal_number};

use lisp_admission::{NoticeFault, Refused};
use lisp_etr::{NotifyFault, RotateFault, SendFault, StartFault};

/// Why a node refused an event.
#[derive(Clone, Copy, Debug, PartialEq, Eq)]
pub enum Refusal {
    /// A router didn't send.
    Send(SendFault),
    /// A router refused a message.
    Notify(NotifyFault),
    /// A Map-Server refused a message.
    Receive(Refused),
    /// A Map-Server sent no notice.
    Notice(NoticeFault),
    /// A router didn't start: it is down.
    Start(StartFault),
    /// A router keeps its key.
    Rotate(RotateFault),
}

impl Refusal {
    /// The number that operators see: that of the fault inside.
    pub const fn number(&self) -> u16
        ensures { result ≡ refusal_number self.now }
    {
        match self {
            Refusal::Send(fault) => fault.number(),
            Refusal::Notify(fault) => fault.number(),
            Refusal::Receive(refused) => refused.number(),
            Refusal::Notice(fault) => fault.number(),
            Refusal::Start(fault) => fault.number(),
            Refusal::Rotate(fault) => fault.number(),
        }
    }
}
