//! Where a node stands in a configuration.

ghost use Rattle.std.specs.Prelude.{◌≡◌, ◌<◌, ◌≤◌, true, IfOk, length, position};
ghost use Rattle.lisp_records.specs.Router.{router_eq};
ghost use Rattle.lisp_policy.specs.Configuration.{IsConfig};
ghost use Rattle.lisp_model.specs.Trace.{is_router, router_at, address_at};
ghost use Rattle.lisp_world.specs.Faults.{refusal_of};
ghost use Rattle.lisp_turns.specs.Order.{name_fault};
ghost use Rattle.lisp_turns.specs.Serving.{number_of};

use lisp_model::WorldFault;
use lisp_records::{Addr, RouterId};
use lisp_sites::{Config, RouterEntry};

/// A node of a configuration, by its number: Map-Servers first, then routers.
#[derive(Clone, Copy)]
pub struct Place<'a> {
    /// The configuration.
    pub config: &'a Config,
    /// The node's number.
    pub number: usize,
}

impl<'a> Place<'a> {
    /// The numbers of the Map-Servers that a router registers with, in its order.
    pub(crate) fn servers(&self) -> &'a [usize]
        requires { length self.now.config.now.servers ≤ self.now.number }
        ensures servers { result.now ≡ (router_at self.now.config.now self.now.number).servers }
        ensures configuration { IsConfig self.now.config.now }
    {
        match self
            .config
            .routers()
            .get(self.number - self.config.servers().len())
        {
            Some(router) => router.servers.as_slice(),
            None => &[],
        }
    }

    /// The address of the Map-Server with a number.
    pub(crate) fn address_of_server(&self, server: usize) -> Addr
        requires { server < length self.now.config.now.servers }
        ensures { result ≡ address_at self.now.config.now server }
    {
        let config = self.config;
        let entry = &config.servers()[server];
        entry.address
    }

    /// The identity of the router with a number: `NoNode` where no node has it, `WrongKind` where a Map-Server has.
    pub(crate) fn identity_of(&self, router: usize) -> Result<RouterId, WorldFault>
        ensures router { IfOk result (λ me. is_router self.now.config.now router ≡ true) }
        ensures me { IfOk result (λ me. me ≡ (router_at self.now.config.now router).me) }
        ensures fault { refusal_of result ≡ name_fault self.now.config.now router }
    {
        match self.config.router(router) {
            Some(entry) => Ok(entry.me),
            None if self.config.is_server(router) => Err(WorldFault::WrongKind),
            None => Err(WorldFault::NoNode),
        }
    }

    /// The number of the router with an identity; one that no node has where it isn't configured.
    pub(crate) fn number_of(&self, me: &RouterId) -> usize
        ensures { result ≡ number_of self.now.config.now me.now }
    {
        let routers = self.config.routers();
        self.config.servers().len() + place_of(routers, me).unwrap_or(routers.len())
    }
}

// The place of the router with an identity.
fn place_of(routers: &[RouterEntry], me: &RouterId) -> Option<usize>
    ensures { result ≡ position (λ r. router_eq r.me me.now) routers.now }
{
    routers.iter().position(|router| is_its(router, me))
}

// Whether it is the router's.
fn is_its(router: &RouterEntry, me: &RouterId) -> bool
    ensures { result ≡ router_eq router.now.me me.now }
{
    router.me == *me
}
