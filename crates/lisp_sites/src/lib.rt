//! The configuration of a network: sites with their keys, prefixes and limits, Map-Servers and site
//! routers, as an operator writes them. The sites of `lisp_policy` and the texts of `lisp_texts` are passed on.
//!
//! # Decisions
//!
//! - `Config::from_toml` and `sites_from_toml` take two allocators, since `toml` reads in `Global` alone, and a configuration may lie in any memory.
//! - What may not be repeated is found in maps and sets of std while it is read (`Nodes`, `Keyed`), which go when the list is
//!   read. The keys of a site, at most 256, are walked.
//! - What must differ is compared by value: prefixes with the bits after their mask cleared, digits in either letter case.
//! - An array of a limit is absent or has elements: an empty one says that nothing is let in, and an absent one lets in all.
//! - All arrays are read by one loop, `read_each`, entry by entry. So the fault of a first entry is found before a later
//!   element that is not a table, and the loop adds the entry's number to the fault.
//! - A fault's field is an enum, `Field`, with its name as text: a clause that names a fault can't hold a borrowed text.
//! - `Config::from_toml` gives the field of a fault alone, and `Config::read` its place too. Lines and columns are found in the
//!   text again by `lisp_check`, so that what nodes read stays small.
#![tactic(auto)]

mod config;
mod entries;
mod fault;
mod field;
mod keyed;
mod limits;
mod name;
mod node;
mod nodes;
mod numbers;
mod place;
mod resolve;
mod router;
mod server;
mod site_entries;
mod value;

pub use config::{Config, sites_from_toml};
pub use fault::ConfigFault;
pub use field::Field;
pub use lisp_policy::{Limits, Places, Site, SiteKey, SitePrefix, Sites};
pub use lisp_texts::{
    MAX_SECRET, addr_from_text, addr_to_text, number_from_text, prefix_from_text, prefix_to_text,
    record_from_text, record_to_text, secret_from_text, site_id_from_text, xtr_from_text,
};
pub use name::Name;
pub use node::ConfigNode;
pub use place::{Entry, Place, PlacedFault};
pub use router::RouterEntry;
pub use server::ServerEntry;
