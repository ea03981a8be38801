//! The orders in which rows are found.

ghost use Rattle.std.specs.Prelude.{◌≡◌};
ghost use Rattle.lisp_lookup.specs.Index.{deadline, row_prefix_cmp, order_cmp};

use lisp_records::Row;
use std::alloc::Allocator;
use std::cmp::Ordering;

/// An order of rows in which no two of one router and prefix are apart.
#[derive(Clone, Copy)]
pub(crate) enum Order {
    /// By prefix, then router.
    ByPrefix,
    /// By deadline, then prefix, then router.
    ByDeadline,
}

impl Order {
    /// How two rows stand in the order.
    #[inline(always)]
    pub(crate) fn cmp<A: Allocator>(self, one: &Row<A>, other: &Row<A>) -> Ordering
        ensures { result ≡ order_cmp self one.now other.now }
    {
        match self {
            Order::ByPrefix => prefix_cmp(one, other),
            Order::ByDeadline => match deadline(one).cmp(&deadline(other)) {
                Ordering::Equal => prefix_cmp(one, other),
                order => order,
            },
        }
    }
}

// How two rows stand by prefix, then router: routers, the longer of the two, are looked at only where prefixes are
// equal.
#[inline(always)]
fn prefix_cmp<A: Allocator>(one: &Row<A>, other: &Row<A>) -> Ordering
    ensures { result ≡ row_prefix_cmp one.now other.now }
{
    match one.mapping.eid_cmp(&other.mapping) {
        Ordering::Equal => one.router.cmp(&other.router),
        order => order,
    }
}

/// When a row is no longer alive, in ms: 0 where it has no life.
#[inline(always)]
pub(crate) fn deadline<A: Allocator>(row: &Row<A>) -> u64
    ensures { result ≡ deadline row.now }
{
    match row.life {
        0 => 0,
        life => row.accepted.saturating_add(life),
    }
}
