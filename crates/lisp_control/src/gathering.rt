//! The sites that a connection brings, to be compared with the node's own or to take their place.

ghost use Rattle.std.specs.Prelude.{◌≡◌, IfOk, OnErr};
ghost use Rattle.lisp_lines.specs.Front.{GivesText};
ghost use Rattle.lisp_control.specs.Gathering.{Gathers, GivesSites, all_of, gathered_text, has_site, shares_site, shares_with, sites_of_bytes};

use lisp_lines::node_name;
use lisp_memory::{FallibleString, Memory};
use lisp_policy::{Site, Sites};
use lisp_sites::{Config, ConfigFault, sites_from_toml};
use std::alloc::{AllocError, Global};
use std::str;

/// Why sites aren't gathered.
#[derive(Clone, Copy, Debug, PartialEq, Eq)]
pub enum Ungathered {
    /// The bytes are no text of TOML, their sites have a fault, or one has the Site-ID of one that was gathered before.
    Sites,
    /// Out of memory.
    OutOfMemory,
}

impl From<AllocError> for Ungathered {
    ghost use Rattle.std.specs.Prelude.{◌≡◌};
    ghost use Rattle.lisp_control.specs.declared.gathering.Ungathered.TheVariants.{OutOfMemory};

    ghost from_gives = { λ _ ungathered. ungathered ≡ OutOfMemory };

    fn from(_error: AllocError) -> Ungathered {
        Ungathered::OutOfMemory
    }
}

/// Reads the sites that bytes say as those of a configuration file are read, and gathers them behind those gathered before. Returns how
/// many are gathered. `heap` serves the reading of TOML alone.
///
/// Faults: `Sites`, also where a Site-ID is that of one gathered before; nothing changes then. `OutOfMemory`, where nothing changes, or
/// none are gathered any more.
pub fn gather(
    heap: Global,
    alloc: Global,
    gathered: &mut Option<Sites>,
    bytes: &[u8],
) -> Result<usize, Ungathered>
    ensures { Gathers gathered.old gathered.new bytes.now result }
{
    let sites = sites_of_bytes(heap, alloc, bytes)?;
    if shares_with(gathered, &sites) {
        return Err(Ungathered::Sites);
    }
    let all = all_of(alloc, gathered.take(), sites)?;
    let count = all.as_slice().len();
    *gathered = Some(all);
    Ok(count)
}

// The sites behind those gathered before.
fn all_of(alloc: Global, before: Option<Sites>, sites: Sites) -> Result<Sites, AllocError>
    ensures { IfOk result (λ all. all ≡ all_of before sites) }
{
    match before {
        Some(before) => before.followed_by(alloc, &sites),
        None => Ok(sites),
    }
}

// Whether one of the sites has the Site-ID of one gathered before.
fn shares_with(before: &Option<Sites>, sites: &Sites) -> bool
    ensures { result ≡ shares_with before.now sites.now }
{
    match before {
        Some(before) => shares_site(before, sites.as_slice()),
        None => false,
    }
}

fn shares_site(before: &Sites, sites: &[Site]) -> bool
    ensures { result ≡ shares_site before.now sites.now }
{
    sites.iter().any(|site| has_site(before, site.id()))
}

// The sites that bytes say.
fn sites_of_bytes(heap: Global, alloc: Global, bytes: &[u8]) -> Result<Sites, Ungathered>
    ensures { GivesSites result (sites_of_bytes bytes.now) }
{
    let Ok(text) = str::from_utf8(bytes) else {
        return Err(Ungathered::Sites);
    };
    match sites_from_toml(heap, alloc, text) {
        Ok(sites) => Ok(sites),
        Err(ConfigFault::OutOfMemory) => Err(Ungathered::OutOfMemory),
        Err(_) => Err(Ungathered::Sites),
    }
}

/// Whether one of the sites has a Site-ID.
pub(crate) fn has_site(sites: &Sites, id: u64) -> bool
    ensures { result ≡ has_site sites.now id }
{
    match sites.site(id) {
        Some(_) => true,
        None => false,
    }
}

/// The line that answers them: how many sites the node with a number has gathered.
pub fn gathered_text(
    alloc: Global,
    config: &Config,
    number: usize,
    count: usize,
) -> Result<String, AllocError>
    ensures text { GivesText result (gathered_text config.now number count) }
    ensures memory { OnErr result ⟦<Global as Memory>⟧.may_refuse }
{
    let name = node_name(config, number);
    String::try_format(alloc, format_args!("gathered {name} {count}\n"))
}
