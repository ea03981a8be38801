//! Who answers for an address.

use lisp_records::{Addr, MapRecord};
use std::alloc::{Allocator, Global};

/// What a Map-Server does with a Map-Request for an address (RFC 9301 section 8.3).
#[derive(Debug, Drop)]
pub enum Answer<'a, A: Allocator = Global> {
    /// A negative Map-Reply, Natively-Forward, for 15 minutes: no site has the address.
    NoSite,
    /// A negative Map-Reply, Natively-Forward, for 1 minute: a site has the address, but no live row does.
    NotRegistered,
    /// The Map-Server replies with this record.
    Reply(&'a MapRecord<A>),
    /// The Map-Request is forwarded to this address, the source of the best row's Map-Register: its router
    /// replies itself.
    Forward(Addr),
}
