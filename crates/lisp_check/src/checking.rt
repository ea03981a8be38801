//! All warnings of a configuration.

ghost use Rattle.std.specs.Prelude.{◌≡◌, IfOk, OnErr};
ghost use Rattle.lisp_check.specs.Warning.{all_warnings};

use crate::adding::warn_of;
use crate::nodes::warn_of_nodes;
use crate::routers::warn_of_routers;
use crate::sites::warn_of_sites;
use crate::warning::Warning;
use lisp_memory::Memory;
use lisp_sites::Config;
use std::alloc::{AllocError, Allocator};

/// What may not be meant in a configuration, in memory of `alloc`, each once: first that there are no nodes, then what is of
/// sites, of nodes, and of routers, one after another; of a site first its keys and prefixes, then its limits; of a node first its
/// address, then the ITR-RLOCs that it replies to; of a router first its identity, then its records, then its Map-Servers, then the
/// limits of its site.
pub fn warnings<M: Memory + Copy, A: Allocator>(
    alloc: M,
    config: &Config<A>,
) -> Result<Vec<Warning, M>, AllocError>
    ensures order { IfOk result (λ given. given.items ≡ all_warnings config.now) }
    ensures memory { OnErr result M.may_refuse }
{
    let mut warnings = Vec::new(alloc);
    let addresses = config.addresses(alloc)?;
    let addresses = addresses.as_slice();
    warn_of(&mut warnings, &[(addresses.is_empty(), Warning::NoNodes)])?;
    let (sites, routers) = (config.sites().as_slice(), config.routers());
    warn_of_sites(&mut warnings, sites, routers)?;
    warn_of_nodes(&mut warnings, config, addresses)?;
    warn_of_routers(&mut warnings, config, routers)?;
    Ok(warnings)
}
