//! Warnings of nodes: of their addresses, and of the ITR-RLOCs that they reply to.

ghost use Rattle.std.specs.Prelude.{◌≡◌, ◌==◌, OnErr, position};
ghost use Rattle.std.specs.List.{list_all, list_any};
ghost use Rattle.std.specs.Option.{option_map};
ghost use Rattle.lisp_records.specs.Address.{addr_eq};
ghost use Rattle.lisp_sites.specs.Numbers.{node_value};
ghost use Rattle.lisp_check.specs.Warning.{Adds, any_of, each, is_no_unicast, lists_no_own, of_address, of_node, of_resolve, resolve_of, same_family};

use crate::adding::warn_of;
use crate::warning::Warning;
use lisp_memory::Memory;
use lisp_records::{Addr, Prefix};
use lisp_sites::{Config, ConfigNode};
use std::alloc::{AllocError, Allocator};

/// Adds the warnings of all nodes, which have these addresses.
#[tactic(auto, using(crate::proofs::Each::steps))]
pub(crate) fn warn_of_nodes<M: Memory, A: Allocator>(
    warnings: &mut Vec<Warning, M>,
    config: &Config<A>,
    addresses: &[Addr],
) -> Result<(), AllocError>
    ensures added { Adds result warnings.old warnings.new
        (each (of_node config.now addresses.now) addresses.now) }
    ensures memory { OnErr result M.may_refuse }
{
    for node in 0..addresses.len() {
        warn_of_address(warnings, addresses, node, &addresses[node])?;
        warn_of_resolve(warnings, node, config.node(node))?;
    }
    Ok(())
}

// Adds that no node can have the address of this one, and that an earlier one has it.
#[tactic(auto, using(crate::proofs::Each::steps))]
fn warn_of_address<M: Memory>(
    warnings: &mut Vec<Warning, M>,
    addresses: &[Addr],
    node: usize,
    address: &Addr,
) -> Result<(), AllocError>
    ensures added { Adds result warnings.old warnings.new
        (of_address addresses.now node address.now) }
    ensures memory { OnErr result M.may_refuse }
{
    let first = first_at(addresses, address).unwrap_or(node);
    let those = [
        (is_no_unicast(address), Warning::NoUnicast { node }),
        (first != node, Warning::SameAddress { first, node }),
    ];
    warn_of(warnings, &those)
}

// Adds that a node replies to every ITR-RLOC of a family, and that it replies to none of its own.
#[tactic(auto, using(crate::proofs::Each::steps))]
fn warn_of_resolve<M: Memory, A: Allocator>(
    warnings: &mut Vec<Warning, M>,
    node: usize,
    found: Option<ConfigNode<'_, A>>,
) -> Result<(), AllocError>
    ensures added { Adds result warnings.old warnings.new
        (of_resolve node (option_map node_value found.entry)) }
    ensures memory { OnErr result M.may_refuse }
{
    let Some(entry) = found else {
        return Ok(());
    };
    let those = [
        (any_of(&entry).is_some(), Warning::AnyItrRloc { node }),
        (lists_no_own(&entry), Warning::NoItrRloc { node }),
    ];
    warn_of(warnings, &those)
}

// Whether no node has the address: it is unspecified, broadcast or multicast.
fn is_no_unicast(address: &Addr) -> bool
    ensures { result ≡ is_no_unicast address.now }
{
    match address {
        Addr::V4(bytes) => all_are(bytes, 0)
            || all_are(bytes, 255)
            || matches!(bytes[0], 224..=239),
        Addr::V6(bytes) => all_are(bytes, 0) || bytes[0] == 255,
    }
}

fn all_are(bytes: &[u8], value: u8) -> bool
    ensures { result ≡ list_all (λ b. b == value) bytes.now }
{
    bytes.iter().all(|byte| *byte == value)
}

// The first node with the address.
fn first_at(addresses: &[Addr], address: &Addr) -> Option<usize>
    ensures { result ≡ position (λ a. addr_eq a address.now) addresses.now }
{
    addresses.iter().position(|other| other == address)
}

/// The first prefix of a node's `resolve` that has every address of its family.
pub(crate) fn any_of<'c, A: Allocator>(node: &ConfigNode<'c, A>) -> Option<&'c Prefix>
    ensures { option_map (λ p. p.now) result ≡ any_of (node_value node.now) }
{
    resolve_of(node).iter().find(|any| any.mask_len() == 0)
}

// Whether the node's `resolve` has prefixes, and none of the family of its own address.
fn lists_no_own<A: Allocator>(node: &ConfigNode<'_, A>) -> bool
    ensures { result ≡ lists_no_own (node_value node.now) }
{
    let resolve = resolve_of(node);
    !resolve.is_empty() && !lists_family_of(resolve, node.address())
}

fn lists_family_of(resolve: &[Prefix], address: &Addr) -> bool
    ensures { result ≡ list_any (λ p. same_family p.addr address.now) resolve.now }
{
    resolve.iter().any(|other| is_like(&other.addr(), address))
}

/// Whether the addresses are of one family.
pub(crate) fn is_like(address: &Addr, other: &Addr) -> bool
    ensures { result ≡ same_family address.now other.now }
{
    address.family() == other.family()
}

fn resolve_of<'c, A: Allocator>(node: &ConfigNode<'c, A>) -> &'c [Prefix]
    ensures { result.now ≡ resolve_of (node_value node.now) }
{
    match *node {
        ConfigNode::Server(server) => &server.resolve,
        ConfigNode::Router(router) => &router.resolve,
    }
}
