//! A line that a node prints, or answers, as a JSON object (RFC 8259): its words, and what its number means.
//!
//! # Decisions
//!
//! - An object has the line's kind, then the names of nodes, by their places: a node may have the name of a key. Then follow a number of
//!   a refusal or a fault with its name and meaning, keys with their values, and the words that belong to no key, in an array.
//! - Counts, Key IDs and times are numbers. A nonce is a text: it goes up to 2^64 - 1, and not each reader of JSON keeps that exactly
//!   (RFC 8259 section 6). So is any value that isn't decimal, as `none`, or has more than 15 digits.
//! - A key that comes again is no key: names of members are unique (RFC 8259 section 4).
//! - What stands in a string is by the definitions of the kit's crate `json`. Its writer isn't called, since it doesn't say that it fails
//!   only where memory was refused.
//! - The object of a line that a running node prints has the time and a severity before the line's own members, and is else the same.
//! - The date of a time is by the kit's crate `jiff_core`, whose contract says which day it is. Its text is written here: the one that the
//!   crate `jiff` writes has no contract.
#![tactic(auto)]

mod explained;
mod object;
mod quoting;
mod severity;
mod time;
mod timed;
mod told;
mod words;

pub use object::{object_of, objects_of};
pub use timed::timed_object_of;
