//! Records that a router's site doesn't allow.

ghost use Rattle.std.specs.Prelude.{◌≡◌, IfOk, OnErr};
ghost use Rattle.std.specs.Option.{option_map};
ghost use Rattle.lisp_lines.specs.Front.{Adds, GivesText};
ghost use Rattle.lisp_control.specs.Disallowed.{site_of, is_allowed_by, disallowed_of, disallowed_head, eid_line, listed, disallowed_text};

use lisp_lines::node_name;
use lisp_memory::{FallibleString, FallibleVec, Memory};
use lisp_policy::Site;
use lisp_records::{MapRecord, Prefix};
use lisp_sites::Config;
use lisp_texts::prefix_to_text;
use std::alloc::{AllocError, Global};

/// Which of some records the router with a number may not register, by its site in the configuration: a line with their number, then one
/// for each, in their order. A Map-Server refuses each Map-Register that has one of them (55).
pub(crate) fn disallowed_text(
    alloc: Global,
    config: &Config,
    number: usize,
    records: &[MapRecord],
) -> Result<String, AllocError>
    ensures text { GivesText result (disallowed_text config.now number records.now) }
    ensures memory { OnErr result ⟦<Global as Memory>⟧.may_refuse }
{
    let eids = disallowed_of(alloc, site_of(config, number), records)?;
    listed(alloc, node_name(config, number), &eids)
}

// A line with the number of these EID-Prefixes, then one for each.
fn listed(alloc: Global, router: &str, eids: &[Prefix]) -> Result<String, AllocError>
    ensures text { GivesText result (listed router.now eids.now) }
    ensures memory { OnErr result ⟦<Global as Memory>⟧.may_refuse }
{
    let mut text = disallowed_head(alloc, router, eids.len())?;
    for eid in eids {
        put_eid(alloc, &mut text, eid)?;
    }
    Ok(text)
}

// The EID-Prefixes of those records that the site doesn't allow.
fn disallowed_of(
    alloc: Global,
    site: Option<&Site>,
    records: &[MapRecord],
) -> Result<Vec<Prefix>, AllocError>
    ensures eids { IfOk result (λ eids.
        eids.items ≡ disallowed_of (option_map (λ s. s.now) site.entry) records.now) }
    ensures memory { OnErr result ⟦<Global as Memory>⟧.may_refuse }
{
    let mut eids = Vec::new(alloc);
    for entry in records {
        let eid = *entry.eid_ref();
        if !is_allowed_by(site, &eid) {
            eids.try_push(eid)?;
        }
    }
    Ok(eids)
}

// Whether the site allows the EID-Prefix; where there is none, none is allowed.
fn is_allowed_by(site: Option<&Site>, eid: &Prefix) -> bool
    ensures { result ≡ is_allowed_by (option_map (λ s. s.now) site.entry) eid.now }
{
    match site {
        Some(site) => site.allows(eid),
        None => false,
    }
}

// The site of the router with a number; `None` where there is no such router.
fn site_of(config: &Config, number: usize) -> Option<&Site>
    ensures { option_map (λ s. s.now) result ≡ site_of config.now number }
{
    let router = config.router(number)?;
    config.sites().site(router.me.site)
}

// The line before the EID-Prefixes: how many they are.
fn disallowed_head(alloc: Global, router: &str, eids: usize) -> Result<String, AllocError>
    ensures text { GivesText result (disallowed_head router.now eids) }
    ensures memory { OnErr result ⟦<Global as Memory>⟧.may_refuse }
{
    String::try_format(alloc, format_args!("disallowed {router} {eids}\n"))
}

// Appends the line of an EID-Prefix. Out of memory, it may leave a part of it.
fn put_eid(alloc: Global, text: &mut String, eid: &Prefix) -> Result<(), AllocError>
    ensures text { Adds result text.old text.new (eid_line eid.now) }
    ensures memory { OnErr result ⟦<Global as Memory>⟧.may_refuse }
{
    let eid = prefix_to_text(alloc, eid)?;
    text.try_write(format_args!("record {eid}\n"))
}
