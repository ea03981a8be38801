//! What nodes are called in lines.

ghost use Rattle.std.specs.Prelude.{◌≡◌, OnErr};
ghost use Rattle.std.specs.Option.{option_map};
ghost use Rattle.lisp_lines.specs.Front.{Adds};
ghost use Rattle.lisp_lines.specs.Name.{node_name, router_of, router_name, router_word};

use crate::identity::put_identity;
use crate::wording::Wording;
use lisp_memory::{FallibleString, Memory};
use lisp_records::RouterId;
use lisp_sites::{Config, RouterEntry};
use std::alloc::{AllocError, Allocator};

/// What a node is called that the configuration doesn't have.
const OTHER: &str = "other";

/// The name of the node with a number; `other` where the configuration has no such node.
pub fn node_name<E: Allocator>(config: &Config<E>, node: usize) -> &str
    ensures { result.now ≡ node_name config.now node }
{
    match config.node(node) {
        Some(node) => node.name(),
        None => OTHER,
    }
}

/// The name of the router with an identity; `other` where the configuration doesn't have it.
pub fn router_name<'a, E: Allocator>(config: &'a Config<E>, me: &RouterId) -> &'a str
    ensures { result.now ≡ router_name config.now me.now }
{
    match router_of(config.routers(), me) {
        Some(router) => router.name.as_str(),
        None => OTHER,
    }
}

/// Appends what lines of a wording call the router with an identity: its name; or, where the configuration doesn't have it, `other` in a
/// schedule, and `SITE/XTR` of a node. Out of memory, it may leave a part of it.
pub fn put_router_word<A: Memory, E: Allocator>(
    text: &mut String<A>,
    config: &Config<E>,
    wording: Wording,
    me: &RouterId,
) -> Result<(), AllocError>
    ensures text { Adds result text.old text.new (router_word config.now wording me.now) }
    ensures memory { OnErr result A.may_refuse }
{
    match (router_of(config.routers(), me), wording) {
        (Some(router), _) => text.try_write(router.name.as_str()),
        (None, Wording::Schedule(_)) => text.try_write(OTHER),
        (None, Wording::Node) => put_identity(text, me),
    }
}

// The router with an identity.
fn router_of<'a, E: Allocator>(
    routers: &'a [RouterEntry<E>],
    me: &RouterId,
) -> Option<&'a RouterEntry<E>>
    ensures { option_map (λ router. router.now) result ≡ router_of routers.now me.now }
{
    routers.iter().find(|router| router.me == *me)
}
