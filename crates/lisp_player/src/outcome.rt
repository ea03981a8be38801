//! What commands came to.

use crate::kept_nonce::KeptNonce;
use lisp_model::Line;
use std::alloc::{Allocator, Global};

/// What a command came to.
#[derive(Debug, Drop)]
pub struct Outcome<A: Allocator = Global> {
    /// What its event came to; `None` of a query, and of an event that the network didn't take.
    pub line: Option<Line>,
    /// Its lines, as `play` prints them.
    pub text: String<A>,
    /// What the store keeps of a node that started again (`restarted`, `emptied`): the first few pairs, at most four, in the
    /// order of their first save.
    pub kept: Vec<KeptNonce, A>,
    /// How many pairs it keeps a nonce of, in all.
    pub kept_count: usize,
}
