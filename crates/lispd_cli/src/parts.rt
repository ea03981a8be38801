//! The parts in which a Map-Server is told the sites of a configuration: a long text in one part would hold it back.

ghost use Rattle.std.specs.Prelude.{◌≡◌, [], ◌∷◌, map, IfOk};
ghost use Rattle.std.specs.List.{flat_map};
ghost use Rattle.std.specs.String.{string_bytes};
ghost use Rattle.lispd_cli.specs.Reloading.{AreParts, is_same, sites_of_part};

use lisp_memory::{FallibleString, FallibleVec};
use lisp_policy::Sites;
use lisp_sites::{ConfigFault, sites_from_toml};
use std::alloc::{AllocError, Global};
use std::mem;

/// From so many bytes on a part ends before the next site.
const ENOUGH: usize = 49_152;

/// The parts of a configuration's text that say its sites, each a text of its own: the lines of whole sites. The text itself is the only
/// part where it can't be cut so, as where its sites are one array.
pub(crate) fn parts_of(alloc: Global, text: &str, sites: &Sites) -> Result<Vec<String>, AllocError>
    ensures { IfOk result (λ parts. AreParts text.now sites.now (map string_bytes parts.items)) }
{
    let cut = cut(alloc, text)?;
    let said = sites_of_parts(alloc, cut.as_slice())?;
    if is_same(sites, &said) && !cut.is_empty() {
        Ok(cut)
    } else {
        whole(alloc, text)
    }
}

// The text as the only part.
fn whole(alloc: Global, text: &str) -> Result<Vec<String>, AllocError>
    ensures { IfOk result (λ parts. map string_bytes parts.items ≡ text.now ∷ []) }
{
    let mut parts = Vec::new(alloc);
    parts.try_push(String::try_from_str(alloc, text)?)?;
    Ok(parts)
}

// The lines of sites, cut before the line of a site where enough came before. It only looks at how lines begin: whether parts say the
// sites is seen when they are read.
fn cut(alloc: Global, text: &str) -> Result<Vec<String>, AllocError> {
    let mut parts = Vec::new(alloc);
    let mut part = String::new(alloc);
    let mut is_of_site = false;
    for line in text.split_inclusive('\n') {
        if is_site(line) && part.len() >= ENOUGH {
            parts.try_push(mem::replace(&mut part, String::new(alloc)))?;
        }
        is_of_site = is_site(line) || is_of_site && !is_other_table(line);
        if is_of_site {
            part.try_write(line)?;
        }
    }
    if !part.is_empty() {
        parts.try_push(part)?;
    }
    Ok(parts)
}

// Whether a site begins at the line.
fn is_site(line: &str) -> bool {
    line.starts_with("[[site]]")
}

// Whether a table begins at the line that is no part of a site.
fn is_other_table(line: &str) -> bool {
    line.starts_with("[[server") || line.starts_with("[[router")
}

// The sites that texts say, one text after another.
#[tactic(auto, using(crate::proofs::Numbers::steps))]
fn sites_of_parts(alloc: Global, parts: &[String]) -> Result<Sites, AllocError>
    ensures { IfOk result (λ sites. sites ≡ flat_map sites_of_part (map string_bytes parts.now)) }
{
    let mut all = Sites::new(alloc);
    let mut rest = parts;
    while let [part, others @ ..] = rest {
        let sites = sites_of_part(alloc, part.as_str())?;
        all = all.followed_by(alloc, &sites)?;
        rest = others;
    }
    Ok(all)
}

// The sites that a text says, none where it has a fault.
fn sites_of_part(alloc: Global, part: &str) -> Result<Sites, AllocError>
    ensures { IfOk result (λ sites. sites ≡ sites_of_part part.now) }
{
    match sites_from_toml(alloc, alloc, part) {
        Ok(sites) => Ok(sites),
        Err(ConfigFault::OutOfMemory) => Err(AllocError),
        Err(_) => Ok(Sites::new(alloc)),
    }
}

// Whether both are as many, and each have all that the others have.
fn is_same(sites: &Sites, others: &Sites) -> bool
    ensures { result ≡ is_same sites.now others.now }
{
    sites.as_slice().len() == others.as_slice().len()
        && sites.extends(others)
        && others.extends(sites)
}
