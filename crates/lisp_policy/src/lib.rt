//! The sites that a Map-Server serves: their keys, and the prefixes that their routers may register
//! (RFC 9301 section 8.2); and the definition of a configuration: sites, Map-Servers and routers.
//!
//! # Decisions
//!
//! - Sites and keys keep the order of the configuration, which contracts show, beside an `Index` of their numbers by which each
//!   message finds its own. `proofs/Halving.antt` has the lemmas of searches by halving, also for `lisp_server`.
//! - A key keeps its secret beside the digests' states, since two such states can't be compared: so a Map-Server that takes other
//!   sites finds out whether they have the secrets of its own.
#![tactic(auto)]

mod extends;
mod full;
mod index;
mod limits;
mod places;
mod site;
mod sites;

pub use full::Full;
pub use limits::Limits;
pub use places::Places;
pub use site::{Site, SiteKey, SitePrefix};
pub use sites::Sites;
