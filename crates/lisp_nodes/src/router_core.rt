//! A router, up or down.

use lisp_etr::{Etr, EtrConfig};
use lisp_records::Database;
use std::alloc::{Allocator, Global};

/// A router of a network.
#[derive(Drop)]
pub(crate) enum RouterCore<A: Allocator = Global> {
    /// It runs.
    Up(Etr<A>),
    /// It didn't start; it has what it starts from.
    Down {
        /// Its configuration.
        config: EtrConfig<A>,
        /// What it registers once it is up.
        database: Database<A>,
    },
}
