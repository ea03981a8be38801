//! What may not be meant in a configuration that can be read: warnings, by places in its lists, secrets, and keys that aren't known.
//! And what a fault of a configuration is about: the entry by its name, its line, and the value.
//!
//! # Decisions
//!
//! - Lines are found by a walk over the text for headers such as `[[router]]`, since `toml` gives no places of keys. It doesn't
//!   see headers with blanks or quotes between the brackets, nor entries written inline.
//! - Where an array has another number of entries than headers no line is given, so that none is wrong.
//! - Further faults are found by reading the file again without what was at fault. Nodes stop at the first fault, so what they
//!   read stays proved as it is.
//! - What may only follow from an earlier fault is left out: once a site or a key was at fault, a router's Site-ID and Key ID
//!   that nothing has, and once a Map-Server was, a name of one.
//! - A table that is ignored is a fault, and a key that is ignored a warning: with a table, entries that an operator wrote
//!   would vanish. Nodes ignore both, so that a file of a later version still starts them.
//! - A configuration keeps no secret, only what is made of it for tags. So secrets are read in the text again, to warn of those
//!   that are short or that two keys have.
//! - A site's `from` is compared with its routers' addresses, as if their Map-Registers came from there: a configuration doesn't say
//!   what a NAT makes of them.
//! - The words of warnings are a table, and no contract has them: tests compare what `check` prints.
//! - Warnings go to standard output, since they are the answer; with `--strict` they are a fault.
#![tactic(auto)]

mod adding;
mod checking;
mod document;
mod further;
mod header;
mod keys;
mod law;
mod limits;
mod line;
mod mode;
mod nodes;
mod note;
mod places;
mod position;
mod prefixes;
mod rest;
mod routers;
mod secret;
mod sites;
mod warning;
mod words;

pub use checking::warnings;
pub use document::{Document, read_document};
pub use further::further_faults;
pub use header::{Header, headers};
pub use keys::{Unknown, unknown_keys};
pub use law::{repeats_are_warned, warnings_are_exact};
pub use line::entry_line;
pub use mode::Mode;
pub use note::{FaultNote, fault_note};
pub use places::{secret_place, warning_place};
pub use position::{Position, position_at};
pub use secret::{KeyPlace, KeySecret, SecretWarning, key_secrets, secret_warnings};
pub use warning::{PrefixPlace, Warning};
pub use words::{lined, secret_line, warning_line};
