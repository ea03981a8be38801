//! The rows that a Map-Server holds, one for each router and EID-Prefix, and who answers for an address or a prefix
//! by them (RFC 9301 sections 8.2 and 8.3); what a Map-Reply says that an ITR may keep (sections 5.5 and 8.4).
//!
//! # Decisions
//!
//! - Who answers is the greatest row by an order, and not the first that a search finds. So the same rows give one answer for
//!   an address (`laws::one_answer`).
//! - A look-up goes through the prefixes that contain the address one by one, the longest first. One is sought, by halving, only where
//!   it may have rows: the row before the place that was sought last must lie in it. Then its rows are looked at, one for each router.
//! - A table keeps its rows in no order, beside two orders of their numbers: by prefix, then router, and by deadline, then the
//!   same. So a change moves numbers, and no row but the last, which takes the place of one that is taken out.
//! - Both orders are queues, so that the shorter side moves. A row that is refreshed mostly goes from the front of the
//!   deadlines to their end.
//! - The ends of an order are taken by `pop_front` and `push_back_reserved`. std's `remove` and `insert` move nothing there
//!   either, but take longer.
//! - What each refreshed row runs through has the hint `#[inline(always)]`: LLVM left calls, which hand slices over in memory.
//!   A hint changes no proof.
//! - `Steps`, by which the looks of a search are counted, has no bytes and is in no program. The ledger is part of the type
//!   `CountedRows`, so that a search can't use one of its own.
//! - `Answer` borrows the record from the table, so that an answer takes no memory.
//! - The prefixes inside another are a run in the order by prefix, whose place is sought once. A walk over them (`Inside`) borrows the
//!   table, so that none changes meanwhile.
//! - The prefix of a negative Map-Reply is found by halving over its length. Whether a row has a prefix in it is seen at the first live row of
//!   the run that would be inside: rows that died and weren't taken out yet are passed one by one.
//! - The prefixes of sites are looked at one by one for it, as for whether a site has an address: they are few beside rows.
//! - Whether a site passes a limit on what is held of it is reckoned from its rows at that moment, and only where a Map-Register brings a
//!   new row: then all rows are looked through. No count is kept beside the rows, since they die at any moment.
#![tactic(auto)]

mod answer;
mod best;
mod counted_rows;
mod edits;
mod find;
mod growth;
mod hole;
mod index;
mod inside;
pub mod laws;
mod live;
mod order;
mod probe;
mod sites;
mod steps;
mod table;

pub use answer::Answer;
pub use inside::{Inside, is_inside};
pub use steps::Steps;
pub use table::Table;
