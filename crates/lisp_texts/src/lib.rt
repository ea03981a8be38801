//! The texts of numbers, addresses, prefixes, records and identities, as an operator writes them.
#![tactic(auto)]

mod form;
pub mod laws;
mod number;
mod record_text;
mod text;

pub use form::{MAX_SECRET, secret_from_text, site_id_from_text, xtr_from_text};
pub use number::number_from_text;
pub use record_text::{record_from_text, record_to_text};
pub use text::{addr_from_text, addr_to_text, prefix_from_text, prefix_to_text};
