//! What a program in C holds, in memory of the heap.

use lisp_etr::Etr;
use lisp_server::Server;
use std::alloc::Global;

/// A Map-Server that a program in C holds.
#[derive(Drop)]
pub struct HostedServer {
    /// The Map-Server.
    pub server: Server<Global>,
}

/// A router that a program in C holds.
#[derive(Drop)]
pub struct HostedRouter {
    /// The router.
    pub router: Etr<Global>,
}
