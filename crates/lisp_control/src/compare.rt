//! What taking gathered sites would do.

ghost use Rattle.std.specs.Prelude.{◌≡◌, OnErr};
ghost use Rattle.std.specs.List.{flat_map};
ghost use Rattle.lisp_lines.specs.Front.{Adds, GivesText};
ghost use Rattle.lisp_control.specs.Gathering.{compared_head, compared_text, kept_word, site_line, site_unless_in};

use crate::gathering::has_site;
use lisp_memory::{FallibleString, Memory};
use lisp_policy::{Site, Sites};
use std::alloc::{AllocError, Global};

/// What taking other sites would do to a Map-Server with a name and sites of its own: whether it would keep its rows, since the others have
/// all that its own have, or restart; then a line for each site that comes, and one for each of its own that goes. Sites are told apart by
/// their Site-IDs alone: one that is in both lists neither comes nor goes.
pub(crate) fn compared_text(
    alloc: Global,
    name: &str,
    own: &Sites,
    sites: &Sites,
) -> Result<String, AllocError>
    ensures text { GivesText result (compared_text name.now own.now sites.now) }
    ensures memory { OnErr result ⟦<Global as Memory>⟧.may_refuse }
{
    let mut text = compared_head(alloc, name, sites.as_slice().len(), sites.extends(own))?;
    put_sites_unless_in(&mut text, "comes", own, sites.as_slice())?;
    put_sites_unless_in(&mut text, "goes", sites, own.as_slice())?;
    Ok(text)
}

// The line before the sites.
fn compared_head(alloc: Global, name: &str, sites: usize, kept: bool) -> Result<String, AllocError>
    ensures text { GivesText result (compared_head name.now sites kept) }
    ensures memory { OnErr result ⟦<Global as Memory>⟧.may_refuse }
{
    let word = kept_word(kept);
    String::try_format(
        alloc,
        format_args!("compared {name} sites {sites} {word}\n"),
    )
}

fn kept_word(kept: bool) -> &'static str
    ensures { result.now ≡ kept_word kept }
{
    if kept { "kept" } else { "restarted" }
}

// Appends a line with the word for each site whose Site-ID none of the others has. Out of memory, it may leave a part of them.
fn put_sites_unless_in(
    text: &mut String,
    word: &str,
    others: &Sites,
    sites: &[Site],
) -> Result<(), AllocError>
    ensures text { Adds result text.old text.new
        (flat_map (site_unless_in word.now others.now) sites.now) }
    ensures memory { OnErr result ⟦<Global as Memory>⟧.may_refuse }
{
    for site in sites {
        put_site_unless_in(text, word, others, site)?;
    }
    Ok(())
}

// The same of one site.
fn put_site_unless_in(
    text: &mut String,
    word: &str,
    others: &Sites,
    site: &Site,
) -> Result<(), AllocError>
    ensures text { Adds result text.old text.new (site_unless_in word.now others.now site.now) }
    ensures memory { OnErr result ⟦<Global as Memory>⟧.may_refuse }
{
    if has_site(others, site.id()) {
        Ok(())
    } else {
        put_site(text, word, site.id())
    }
}

// Appends the line of a site. Out of memory, it may leave a part of it.
#[tactic(auto, using(crate::proofs::Comparing::written))]
fn put_site(text: &mut String, word: &str, id: u64) -> Result<(), AllocError>
    ensures text { Adds result text.old text.new (site_line word.now id) }
    ensures memory { OnErr result ⟦<Global as Memory>⟧.may_refuse }
{
    text.try_write(format_args!("{word} {id:016x}\n"))
}
