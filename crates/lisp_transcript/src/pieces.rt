//! The pieces that lines are put together from. Out of memory, each may leave a part of what it appends.

ghost use Rattle.std.specs.Prelude.{◌≡◌, ◌++◌, codes, OnOk, OnErr};
ghost use Rattle.lisp_memory.specs.Appending.{StringGrowsBy};
ghost use Rattle.lisp_texts.specs.Written.{hex_text};
ghost use Rattle.lisp_transcript.specs.Pieces.{hex_bytes, seconds_text, site_text, time_text};

use lisp_memory::{FallibleString, Memory};
use std::alloc::AllocError;

/// Appends bytes, each as two hexadecimal digits.
pub(crate) fn put_hex<A: Memory>(text: &mut String<A>, bytes: &[u8]) -> Result<(), AllocError>
    ensures text { OnOk result (StringGrowsBy text.old text.new (hex_bytes bytes.now)) }
    ensures memory { OnErr result A.may_refuse }
{
    for byte in bytes {
        put_octet(text, *byte)?;
    }
    Ok(())
}

// Appends a byte as two hexadecimal digits.
fn put_octet<A: Memory>(text: &mut String<A>, octet: u8) -> Result<(), AllocError>
    ensures text { OnOk result (StringGrowsBy text.old text.new (hex_text octet)) }
    ensures memory { OnErr result A.may_refuse }
{
    text.try_write(format_args!("{octet:02x}"))
}

/// Appends a Site-ID as 16 hexadecimal digits.
#[tactic(auto, unfolding(crate::specs::Pieces::site_text))]
pub(crate) fn put_site<A: Memory>(text: &mut String<A>, site: u64) -> Result<(), AllocError>
    ensures text { OnOk result (StringGrowsBy text.old text.new (site_text site)) }
    ensures memory { OnErr result A.may_refuse }
{
    put_hex(text, &site.to_be_bytes())
}

/// Appends a time in microseconds as seconds; `-` where it isn't known.
pub(crate) fn put_time<A: Memory>(text: &mut String<A>, time: Option<u64>) -> Result<(), AllocError>
    ensures text { OnOk result (StringGrowsBy text.old text.new (time_text time)) }
    ensures memory { OnErr result A.may_refuse }
{
    match time {
        Some(microseconds) => put_seconds(text, microseconds),
        None => text.try_write("-"),
    }
}

// Appends microseconds as seconds, with six digits behind the point.
fn put_seconds<A: Memory>(text: &mut String<A>, us: u64) -> Result<(), AllocError>
    ensures text { OnOk result (StringGrowsBy text.old text.new (seconds_text us)) }
    ensures memory { OnErr result A.may_refuse }
{
    let seconds = us / 1_000_000;
    let (a, b, c) = (us / 100_000 % 10, us / 10_000 % 10, us / 1_000 % 10);
    let (d, e, f) = (us / 100 % 10, us / 10 % 10, us % 10);
    text.try_write(format_args!("{seconds}.{a}{b}{c}{d}{e}{f}"))
}
