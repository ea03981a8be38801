//! Why a node takes nothing of a datagram.

ghost use Rattle.std.specs.Prelude.{◌≡◌};
ghost use Rattle.lisp_mapping.specs.Unasked.{unasked_number};

use lisp_requests::RequestFault;
use thiserror::Error;

/// Why a node takes nothing of a datagram: the first reason, in this order.
#[derive(Clone, Copy, Debug, PartialEq, Eq, Error)]
pub enum Unasked {
    /// The bytes are no Map-Request, or memory ran out.
    #[error("{0}")]
    Request(RequestFault),
    /// A Solicit-Map-Request (S), which asks the receiver to ask again: not served.
    #[error("a Solicit-Map-Request")]
    Solicited,
    /// A probe (P), which a router alone answers.
    #[error("a probe, at a Map-Server")]
    Probed,
    /// No Map-Reply is wanted (D).
    #[error("no Map-Reply is wanted")]
    Unwanted,
    /// No ITR-RLOC is of the node's own address family.
    #[error("no ITR-RLOC of this address family")]
    NoItrRloc,
    /// No prefix that the node replies to has the ITR-RLOC.
    #[error("an ITR-RLOC that isn't replied to")]
    Unlisted,
}

impl Unasked {
    /// The number that operators see: that of the fault of the bytes, and the others from `Solicited` 126 to `Unlisted` 130 in the order
    /// in which they stand here.
    pub const fn number(&self) -> u16
        ensures { result ≡ unasked_number self.now }
    {
        match self {
            Unasked::Request(fault) => fault.number(),
            Unasked::Solicited => 126,
            Unasked::Probed => 127,
            Unasked::Unwanted => 128,
            Unasked::NoItrRloc => 129,
            Unasked::Unlisted => 130,
        }
    }
}

impl From<RequestFault> for Unasked {
    ghost use Rattle.lisp_mapping.specs.declared.unasked.Unasked.TheVariants.{Request};

    ghost from_gives = { λ fault given. given ≡ Request fault };

    fn from(fault: RequestFault) -> Unasked {
        Unasked::Request(fault)
    }
}
