//! What is sought in an order of rows.

ghost use Rattle.std.specs.Prelude.{◌≡◌};
ghost use Rattle.lisp_lookup.specs.Index.{is_before};

use crate::order::Order;
use lisp_records::{Prefix, Row};
use std::alloc::Allocator;

/// What is sought in an order of rows: the first row that doesn't stand before it.
#[derive(Drop)]
pub(crate) enum Probe<'r, A: Allocator> {
    /// The first row of a prefix, by prefix.
    Prefix(Prefix),
    /// A row, by an order.
    Row(Order, &'r Row<A>),
}

impl<A: Allocator> Probe<'_, A> {
    /// Whether a row stands before what is sought.
    #[inline(always)]
    pub(crate) fn is_after(&self, row: &Row<A>) -> bool
        ensures { result ≡ is_before self.now row.now }
    {
        match self {
            Probe::Prefix(eid) => row.mapping.eid_ref().order(eid).is_lt(),
            Probe::Row(order, sought) => order.cmp(row, sought).is_lt(),
        }
    }
}
