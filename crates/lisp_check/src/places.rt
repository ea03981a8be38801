//! The entries that warnings are of, by the places in the lists of a configuration.

use crate::secret::{KeyPlace, SecretWarning};
use crate::warning::Warning;
use lisp_sites::{Config, Entry, Field, Place};

/// In no entry.
pub(crate) const NOWHERE: Place = Place {
    entry: None,
    part: None,
};

/// The entry that a warning is of; none where it is of the whole configuration.
pub fn warning_place(config: &Config, warning: Warning) -> Place {
    match warning {
        Warning::NoNodes => NOWHERE,
        Warning::NoKeys { site }
        | Warning::NoPrefixes { site }
        | Warning::NoMostRows { site }
        | Warning::ManyRouters { site } => entry_place(Field::Site, site),
        Warning::SamePrefix { at, .. } | Warning::Inside { at, .. } => {
            part_place(at.site, Field::SitePrefix, at.prefix)
        }
        Warning::NoUnicast { node }
        | Warning::SameAddress { node, .. }
        | Warning::AnyItrRloc { node }
        | Warning::NoItrRloc { node } => node_place(config, node),
        Warning::SameIdentity { router, .. }
        | Warning::NotAllowed { router, .. }
        | Warning::OtherFamily { router, .. }
        | Warning::SameKey { router, .. }
        | Warning::NoServers { router }
        | Warning::NotListed { router }
        | Warning::OtherSource { router }
        | Warning::OutOfBounds { router, .. }
        | Warning::ManyRows { router } => entry_place(Field::Router, router),
    }
}

/// The key that a warning of a secret is of.
pub fn secret_place(warning: SecretWarning) -> Place {
    let (SecretWarning::Short { place } | SecretWarning::Same { place, .. }) = warning;
    let KeyPlace { site, key } = place;
    part_place(site, Field::SiteKey, key)
}

/// The entry of a node, by its number.
pub(crate) fn node_place(config: &Config, node: usize) -> Place {
    match config.router_place(node) {
        Some(router) => entry_place(Field::Router, router),
        None => entry_place(Field::Server, node),
    }
}

/// An entry of an array.
pub(crate) fn entry_place(array: Field, index: usize) -> Place {
    Place {
        entry: Some(numbered(array, index)),
        part: None,
    }
}

/// An entry of an array of a site.
pub(crate) fn part_place(site: usize, array: Field, index: usize) -> Place {
    Place {
        entry: Some(numbered(Field::Site, site)),
        part: Some(numbered(array, index)),
    }
}

// Entries are counted from 1.
fn numbered(array: Field, index: usize) -> Entry {
    Entry {
        array,
        number: index.saturating_add(1),
    }
}
