//! Whether the tag of a message checks.

ghost use Rattle.std.specs.Prelude.{◌≡◌, ◌++◌, codes, OnOk, OnErr};
ghost use Rattle.lisp_memory.specs.Appending.{StringGrowsBy};
ghost use Rattle.lisp_transcript.specs.Tag.{checked_text, tag_text};

use crate::pieces::put_site;
use lisp_memory::{FallibleString, Memory};
use std::alloc::AllocError;

/// What a message's Authentication Data shows, by the secrets of a configuration (RFC 9301 sections 5.6 and 5.7).
#[derive(Clone, Copy, Debug, PartialEq, Eq)]
pub enum Tag {
    /// It is the tag under the secret of the message's site and Key ID.
    Checks,
    /// The message names no site: it is the tag under the secret of this site, the first of the configuration of which it is.
    ChecksFor(u64),
    /// It is not the tag under the secret of the message's site and Key ID, or where it names no site of none.
    Fails,
    /// There is no such secret.
    Unknown,
}

/// Appends what a tag shows. Out of memory, it may leave a part of it.
#[tactic(auto, unfolding(crate::specs::Tag::tag_text))]
pub(crate) fn put_tag<A: Memory>(text: &mut String<A>, tag: Tag) -> Result<(), AllocError>
    ensures text { OnOk result (StringGrowsBy text.old text.new (tag_text tag)) }
    ensures memory { OnErr result A.may_refuse }
{
    match tag {
        Tag::Checks => text.try_write(" tag checks"),
        Tag::ChecksFor(site) => put_checked(text, site),
        Tag::Fails => text.try_write(" tag fails"),
        Tag::Unknown => text.try_write(" tag unknown"),
    }
}

// Appends the site under whose secret a tag checks. Out of memory, it may leave a part of it.
#[tactic(auto, using(crate::proofs::Appends::steps), unfolding(crate::specs::Tag::checked_text))]
fn put_checked<A: Memory>(text: &mut String<A>, site: u64) -> Result<(), AllocError>
    ensures text { OnOk result (StringGrowsBy text.old text.new (checked_text site)) }
    ensures memory { OnErr result A.may_refuse }
{
    text.try_write(" tag checks site ")?;
    put_site(text, site)?;
    Ok(())
}
