//! What the tag of a message shows.

ghost use Rattle.std.specs.Prelude.{◌≡◌};
ghost use Rattle.std.specs.List.{find};
ghost use Rattle.std.specs.Option.{option_map};
ghost use Rattle.lisp_messages.specs.Meaning.{message_value};
ghost use Rattle.lisp_policy.specs.Site.{site_of};
ghost use Rattle.lisp_transcript.specs.Tag.{any_tag, found_tag, is_of, is_under, secret_tag, site_tag, tag_of};

use crate::tag::Tag;
use lisp_hmac::Key;
use lisp_messages::{Message, authentic_under};
use lisp_policy::{Site, Sites};
use std::alloc::Allocator;

/// What the tag of a message shows, which these bytes are: that of a Map-Register under the secret of its site and Key ID; that of a
/// Map-Notify or Map-Notify-Ack, which names no site, under each site's secret with its Key ID. Without sites it is unknown.
pub fn tag_of<A: Allocator, B: Allocator>(
    sites: &Sites<B>,
    bytes: &[u8],
    message: &Message<A>,
) -> Tag
    ensures { result ≡ tag_of sites.now bytes.now (message_value message.now) }
{
    match message {
        Message::Register(message) => { site_tag(bytes, message.key_id, sites.site(message.site)) }
        Message::Notify(message) => any_tag(sites.as_slice(), bytes, message.key_id),
    }
}

// What it shows under the secret of a site with a Key ID.
fn site_tag<B: Allocator>(bytes: &[u8], key_id: u8, site: Option<&Site<B>>) -> Tag
    ensures { result ≡ site_tag bytes.now key_id (option_map (λ s. s.now) site.entry) }
{
    match site {
        Some(site) => secret_tag(bytes, site.key(key_id)),
        None => Tag::Unknown,
    }
}

// What it shows under a secret.
fn secret_tag(bytes: &[u8], key: Option<&Key>) -> Tag
    ensures { result ≡ secret_tag bytes.now (option_map (λ k. k.now) key.entry) }
{
    match key {
        Some(key) => {
            if authentic_under(bytes, key) {
                Tag::Checks
            } else {
                Tag::Fails
            }
        }
        None => Tag::Unknown,
    }
}

// What it shows where no site is named.
fn any_tag<B: Allocator>(sites: &[Site<B>], bytes: &[u8], key_id: u8) -> Tag
    ensures { result ≡ any_tag sites.now bytes.now key_id }
{
    match sites {
        [] => Tag::Unknown,
        [_, ..] => found_tag(first_site(sites, bytes, key_id)),
    }
}

// What it shows by the site that was found.
fn found_tag<B: Allocator>(site: Option<&Site<B>>) -> Tag
    ensures { result ≡ found_tag (option_map (λ s. s.now) site.entry) }
{
    match site {
        Some(site) => Tag::ChecksFor(site.id()),
        None => Tag::Fails,
    }
}

// The first site under whose secret with a Key ID it checks.
fn first_site<'a, B: Allocator>(
    sites: &'a [Site<B>],
    bytes: &[u8],
    key_id: u8,
) -> Option<&'a Site<B>>
    ensures { option_map (λ s. s.now) result ≡ find (is_of bytes.now key_id) sites.now }
{
    sites.iter().find(|site| is_of(bytes, key_id, site))
}

// Whether it checks under the secret of a site with a Key ID.
fn is_of<B: Allocator>(bytes: &[u8], key_id: u8, site: &Site<B>) -> bool
    ensures { result ≡ is_of bytes.now key_id site.now }
{
    is_under(bytes, site.key(key_id))
}

// Whether it checks under a secret.
fn is_under(bytes: &[u8], key: Option<&Key>) -> bool
    ensures { result ≡ is_under bytes.now (option_map (λ k. k.now) key.entry) }
{
    match key {
        Some(key) => authentic_under(bytes, key),
        None => false,
    }
}
