//! The core of a node, which its users ask.

use lisp_etr::Etr;
use lisp_server::Server;

/// The core of a node of either kind.
#[derive(Clone, Copy)]
pub enum NodeCore<'a> {
    /// Of a Map-Server.
    Server(&'a Server),
    /// Of a router; `None` where it is down.
    Router(Option<&'a Etr>),
}
