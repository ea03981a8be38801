//! The interfaces of a capture: the Interface Description Block of pcapng (draft-ietf-opsawg-pcapng section 4.2).

ghost use Rattle.std.specs.Prelude.{◌≡◌, ◌≤◌, length, IsTrue, false};
ghost use Rattle.lisp_records.specs.Result.{Reads};
ghost use Rattle.lisp_captures.specs.Numbers.{u16_at};
ghost use Rattle.lisp_captures.specs.Interface.{described_at, is_past_options, option_len, resolution_of, says_resolution};

use crate::datagram::Unread;
use crate::numbers::{ByteOrder, u16_at, u32_at};

// The bytes before the options, and where the fields among them stand.
const HEAD_LEN: usize = 8;

const LINK_AT: usize = 0;

const SNAP_LEN_AT: usize = 4;

// The bytes of an option before its value, and where they have its code and length.
const OPTION_HEAD_LEN: usize = 4;

const CODE_AT: usize = 0;

const LENGTH_AT: usize = 2;

// The options that matter: the last, and that which says the resolution.
const END_OF_OPTIONS: u16 = 0;

const IF_TSRESOL: u16 = 9;

/// The resolution where none is said: microseconds.
pub(crate) const MICROSECONDS: u8 = 6;

/// What a capture says of an interface.
#[derive(Clone, Copy, Debug, PartialEq, Eq)]
pub struct Interface {
    /// Its link type.
    pub link: u16,
    /// How many bytes of a packet are captured at most; 0 for all.
    pub snap_len: u32,
    /// What its ticks are: 10^-n seconds, or 2^-n with the highest bit set.
    pub resolution: u8,
}

/// What the body of an Interface Description Block says.
#[tactic(auto, unfolding(crate::specs::Interface::described_at))]
pub(crate) fn read_interface(order: ByteOrder, body: &[u8]) -> Result<Interface, Unread>
    ensures { Reads (λ i. i) result (described_at order body.now) }
{
    if body.len() < HEAD_LEN {
        return Err(Unread::Lost);
    }
    let (_, options) = body.split_at(HEAD_LEN);
    Ok(Interface {
        link: u16_at(order, body, LINK_AT),
        snap_len: u32_at(order, body, SNAP_LEN_AT),
        resolution: resolution(order, options),
    })
}

// The resolution that options say.
fn resolution(order: ByteOrder, options: &[u8]) -> u8
    ensures { result ≡ resolution_of order options.now }
{
    let mut rest = options;
    for _ in 0..options.len() {
        if is_past_options(order, rest) {
            return MICROSECONDS;
        }
        if says_resolution(order, rest) {
            return rest[OPTION_HEAD_LEN];
        }
        let (_, after) = rest.split_at(option_len(order, rest));
        rest = after;
    }
    MICROSECONDS
}

// Whether no option begins there: too few bytes, or the last.
fn is_past_options(order: ByteOrder, bytes: &[u8]) -> bool
    ensures past { result ≡ is_past_options order bytes.now }
    ensures head { result ≡ false → 4 ≤ length bytes.now }
    ensures whole { result ≡ false → option_len order bytes.now ≤ length bytes.now }
{
    bytes.len() < OPTION_HEAD_LEN
        || bytes.len() < option_len(order, bytes)
        || u16_at(order, bytes, CODE_AT) == END_OF_OPTIONS
}

// Whether an option is if_tsresol, of one byte.
fn says_resolution(order: ByteOrder, bytes: &[u8]) -> bool
    requires { 4 ≤ length bytes.now }
    ensures says { result ≡ says_resolution order bytes.now }
    ensures one { IsTrue result → u16_at order bytes.now 2 ≡ 1 }
{
    u16_at(order, bytes, CODE_AT) == IF_TSRESOL && u16_at(order, bytes, LENGTH_AT) == 1
}

// The bytes of the option that begins there, with those that fill it up to a multiple of 4.
fn option_len(order: ByteOrder, bytes: &[u8]) -> usize
    requires { 4 ≤ length bytes.now }
    ensures { result ≡ option_len order bytes.now }
{
    OPTION_HEAD_LEN + (u16_at(order, bytes, LENGTH_AT) as usize + 3) / 4 * 4
}
