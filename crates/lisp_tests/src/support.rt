//! What stops a test.

use std::process::Abort;

/// Stops the test unless it holds at this place: a row of a table, or a number of bytes.
pub fn assert_at(rt: &impl Abort, place: usize, holds: bool) {
    assert!(rt; holds, "at {place}");
}
