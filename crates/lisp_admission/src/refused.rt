//! Why a Map-Server refuses a message.

ghost use Rattle.std.specs.Prelude.{◌≡◌};
ghost use Rattle.lisp_admission.specs.Refused.{refused_number, refused_of_read};
ghost use Rattle.lisp_admission.specs.declared.refused.Refused.TheVariants.{OutOfMemory};

use crate::limit::Limit;
use lisp_messages::ReadFault;
use lisp_nonces::StoreFault;
use lisp_policy::Full;
use std::alloc::{AllocError, AllocFailed};
use thiserror::Error;

/// The first check that a message fails, in the order of the checks (RFC 9301 section 8.2). Of the limits `Router` and
/// `Source` are checked before bit a, `Ttl` after the prefixes.
#[derive(Clone, Copy, Debug, PartialEq, Eq, Error)]
pub enum Refused {
    /// The bytes spell no message.
    #[error("the message can't be read: {0}")]
    Read(ReadFault),
    /// A Map-Notify: those are for routers.
    #[error("a Map-Notify is for a router")]
    NotMine,
    /// A Site-ID that isn't configured.
    #[error("the site is unknown")]
    UnknownSite,
    /// A Key ID that the site has no secret for.
    #[error("the key is unknown")]
    UnknownKey,
    /// Authentication Data that isn't the tag of the message under that secret; for a Map-Notify-Ack, under the
    /// secret of the unsolicited Map-Notify (notice) that it is for.
    #[error("the Authentication Data is wrong")]
    BadAuth,
    /// Bit a: merging isn't served.
    #[error("merging is asked for")]
    MergeAsked,
    /// The place, from 0 on, of the first record whose prefix the site may not register.
    #[error("record {0} is not allowed")]
    NotAllowed(usize),
    /// The Map-Register is beyond a limit of its site.
    #[error("beyond a limit of site {site:016x}: {limit}")]
    Limited {
        /// The site.
        site: u64,
        /// Its limit.
        limit: Limit,
    },
    /// The last nonce of the router under that key can't be loaded from the store.
    #[error("the last nonce can't be loaded: {0}")]
    StoreLoad(StoreFault),
    /// The nonce isn't above the last one of the router under that key.
    #[error("the nonce is not above {saved}")]
    Replay {
        /// That last nonce.
        saved: u64,
    },
    /// The nonce is further above the last one of the router under that key than its site lets it jump.
    #[error("the nonce is too far above {saved} for site {site:016x}")]
    Jump {
        /// The site.
        site: u64,
        /// That last nonce.
        saved: u64,
    },
    /// The site has as many routers, or rows, as it may, and the Map-Register would bring another.
    #[error("site {site:016x} is full: {full}")]
    Full {
        /// The site.
        site: u64,
        /// What it has as many of as it may.
        full: Full,
    },
    /// Out of memory to read the message, to hold its records or to build the Map-Notify.
    #[error("out of memory")]
    OutOfMemory,
    /// The nonce can't be saved: at `Device` it is open whether it was.
    #[error("the nonce can't be saved: {0}")]
    StoreSave(StoreFault),
    /// A Map-Notify-Ack that no notice waits for: none that went to its source address has its key and nonce.
    #[error("no notice stands")]
    NoNotice,
}

impl Refused {
    /// The number that operators see: `Read` 50, `UnknownSite` 51, `UnknownKey` 52, `BadAuth` 53,
    /// `MergeAsked` 54, `NotAllowed` 55, `StoreLoad` 56, `Replay` 57, `OutOfMemory` 58, `StoreSave` 59,
    /// `NoNotice` 60, `NotMine` 61, `Jump` 138; of `Limited` and `Full` that of the limit.
    pub const fn number(&self) -> u16
        ensures { result ≡ refused_number self.now }
    {
        match self {
            Refused::Read(_) => 50,
            Refused::UnknownSite => 51,
            Refused::UnknownKey => 52,
            Refused::BadAuth => 53,
            Refused::MergeAsked => 54,
            Refused::NotAllowed(_) => 55,
            Refused::Limited { limit, .. } => limit.number(),
            Refused::StoreLoad(_) => 56,
            Refused::Replay { .. } => 57,
            Refused::Jump { .. } => 138,
            Refused::Full { full, .. } => full.number(),
            Refused::OutOfMemory => 58,
            Refused::StoreSave(_) => 59,
            Refused::NoNotice => 60,
            Refused::NotMine => 61,
        }
    }

    /// The refusal of bytes that can't be read.
    pub const fn of_read(fault: ReadFault) -> Refused
        ensures { result ≡ refused_of_read fault }
    {
        match fault {
            ReadFault::OutOfMemory => Refused::OutOfMemory,
            _ => Refused::Read(fault),
        }
    }
}

impl From<AllocError> for Refused {
    ghost from_gives = { λ _ refused. refused ≡ OutOfMemory };

    fn from(_error: AllocError) -> Refused {
        Refused::OutOfMemory
    }
}

impl<T: Drop> From<AllocFailed<T>> for Refused {
    ghost from_gives = { λ _ refused. refused ≡ OutOfMemory };

    fn from(_failed: AllocFailed<T>) -> Refused {
        Refused::OutOfMemory
    }
}
