//! What a client is told.

use lisp_records::Row;
use std::alloc::{Allocator, Global};

/// What two Map-Servers and a router told at the end of a schedule.
#[derive(Drop)]
pub struct Answers<A: Allocator = Global> {
    /// The rows that the one Map-Server holds, by router, then prefix.
    pub rows: Vec<Row<A>, A>,
    /// The rows that the other one holds, in the same order.
    pub other_rows: Vec<Row<A>, A>,
    /// The Key ID and nonce of the last Map-Register of the part that the router counted as acknowledged by the Map-Server
    /// at the place of its list.
    pub counted: Option<(u8, u64)>,
}
