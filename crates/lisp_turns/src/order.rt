//! What a user tells a node that runs.

use lisp_policy::Sites;
use lisp_records::Database;

/// What a user tells a node to do. Nodes are named by their numbers. It has no `Debug`, as sites have none: no text shows their
/// secrets.
#[derive(Drop)]
pub enum Order {
    /// A Map-Server sends a router an unsolicited Map-Notify (notice) of what it holds of it.
    Notice {
        /// The router.
        router: usize,
    },
    /// A router registers another database.
    Change {
        /// What it registers from now on.
        db: Database,
    },
    /// A router goes over to another key of its site.
    Rotate {
        /// The Key ID that it registers under from now on.
        key: u8,
    },
    /// A Map-Server takes other sites.
    Reload {
        /// Its sites from now on.
        sites: Sites,
    },
}
