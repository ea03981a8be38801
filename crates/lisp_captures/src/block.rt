//! The blocks of a pcapng file (draft-ietf-opsawg-pcapng sections 3 and 4).

ghost use Rattle.std.specs.Prelude.{◌≡◌, ◌<◌, ◌≤◌, length, IfOk};
ghost use Rattle.lisp_records.specs.Result.{Reads};
ghost use Rattle.lisp_captures.specs.Value.{frame_value};
ghost use Rattle.lisp_captures.specs.Block.{block_at, block_value, enhanced_at, interface_at, order_at, simple_at, snapped, ticks_at};

use crate::datagram::Unread;
use crate::frame::Frame;
use crate::interface::Interface;
use crate::moment::moment;
use crate::numbers::{ByteOrder, u32_at};

/// The types of the blocks that matter. That of a section reads the same in both byte orders.
pub(crate) const SECTION: u32 = 0x0a0d_0d0a;

pub(crate) const INTERFACE: u32 = 1;

pub(crate) const SIMPLE_PACKET: u32 = 3;

pub(crate) const ENHANCED_PACKET: u32 = 6;

// The byte-order magic of a section header, in the order of the section.
const BYTE_ORDER_MAGIC: u32 = 0x1a2b_3c4d;

// The least bytes of a block: its type, and its length twice.
const LEAST_LEN: usize = 12;

// The bytes before its body, and after it.
const HEAD_LEN: usize = 8;

const TAIL_LEN: usize = 4;

// Where type, length and byte-order magic stand in a block.
const KIND_AT: usize = 0;

const LENGTH_AT: usize = 4;

const MAGIC_AT: usize = 8;

/// A block: the byte order of its section, its type, what stands between its two lengths, and what stands after it.
#[derive(Clone, Copy, Debug)]
pub struct Block<'a> {
    pub order: ByteOrder,
    pub kind: u32,
    pub body: &'a [u8],
    pub rest: &'a [u8],
}

/// The block that the bytes begin with, in a section of this byte order.
#[tactic(auto, unfolding(crate::specs::Block::block_at))]
pub(crate) fn read_block(section: ByteOrder, bytes: &[u8]) -> Result<Block<'_>, Unread>
    ensures read { Reads block_value result (block_at section bytes.now) }
    ensures shorter { IfOk result (λ b. length b.rest.now < length bytes.now) }
{
    if bytes.len() < LEAST_LEN {
        return Err(Unread::Truncated);
    }
    let order = byte_order(section, bytes)?;
    let len = u32_at(order, bytes, LENGTH_AT) as usize;
    if len < LEAST_LEN {
        return Err(Unread::Lost);
    }
    if len > bytes.len() {
        return Err(Unread::Truncated);
    }
    let (whole, rest) = bytes.split_at(len);
    if u32_at(order, bytes, len - TAIL_LEN) as usize != len {
        return Err(Unread::Lost);
    }
    let (front, _) = whole.split_at(len - TAIL_LEN);
    let (_, body) = front.split_at(HEAD_LEN);
    Ok(Block {
        order,
        kind: u32_at(order, bytes, KIND_AT),
        body,
        rest,
    })
}

// The byte order of a block: that of its section, or of the section that it begins.
#[tactic(auto, unfolding(crate::specs::Block::order_at))]
fn byte_order(section: ByteOrder, bytes: &[u8]) -> Result<ByteOrder, Unread>
    requires { 12 ≤ length bytes.now }
    ensures { Reads (λ order. order) result (order_at section bytes.now) }
{
    if u32_at(ByteOrder::Big, bytes, KIND_AT) != SECTION {
        return Ok(section);
    }
    if u32_at(ByteOrder::Big, bytes, MAGIC_AT) == BYTE_ORDER_MAGIC {
        return Ok(ByteOrder::Big);
    }
    if u32_at(ByteOrder::Little, bytes, MAGIC_AT) == BYTE_ORDER_MAGIC {
        return Ok(ByteOrder::Little);
    }
    Err(Unread::Lost)
}

// The bytes of an Enhanced Packet Block's body before its packet, and where the fields among them stand.
const ENHANCED_LEN: usize = 20;

const INTERFACE_AT: usize = 0;

const TICKS_HIGH_AT: usize = 4;

const TICKS_LOW_AT: usize = 8;

const CAPTURED_AT: usize = 12;

const ORIGINAL_AT: usize = 16;

/// The frame in the body of an Enhanced Packet Block (section 4.3).
#[tactic(auto, unfolding(crate::specs::Block::enhanced_at))]
pub(crate) fn read_enhanced<'a>(
    order: ByteOrder,
    interfaces: &[Interface],
    body: &'a [u8],
) -> Result<Frame<'a>, Unread>
    ensures { Reads frame_value result (enhanced_at order interfaces.now body.now) }
{
    if body.len() < ENHANCED_LEN {
        return Err(Unread::Damaged);
    }
    let (_, rest) = body.split_at(ENHANCED_LEN);
    let interface = interface_of(interfaces, u32_at(order, body, INTERFACE_AT))?;
    let captured = u32_at(order, body, CAPTURED_AT);
    if captured as usize > rest.len() {
        return Err(Unread::Damaged);
    }
    let (data, _) = rest.split_at(captured as usize);
    Ok(Frame {
        link: interface.link,
        at: moment(interface.resolution, ticks(order, body)),
        is_cut: captured < u32_at(order, body, ORIGINAL_AT),
        bytes: data,
    })
}

// The ticks of an Enhanced Packet Block.
fn ticks(order: ByteOrder, body: &[u8]) -> u64
    requires { 12 ≤ length body.now }
    ensures { result ≡ ticks_at order body.now }
{
    let high = u64::from(u32_at(order, body, TICKS_HIGH_AT));
    high * 0x1_0000_0000 + u64::from(u32_at(order, body, TICKS_LOW_AT))
}

// The interface of a number in its section.
fn interface_of(interfaces: &[Interface], number: u32) -> Result<Interface, Unread>
    ensures { Reads (λ i. i) result (interface_at interfaces.now number) }
{
    match interfaces.get(number as usize) {
        Some(interface) => Ok(*interface),
        None => Err(Unread::Damaged),
    }
}

// The bytes of a Simple Packet Block's body before its packet.
const SIMPLE_LEN: usize = 4;

/// The frame in the body of a Simple Packet Block (section 4.4), which is of the first interface and has no time.
#[tactic(auto, unfolding(crate::specs::Block::simple_at))]
pub(crate) fn read_simple<'a>(
    order: ByteOrder,
    interfaces: &[Interface],
    body: &'a [u8],
) -> Result<Frame<'a>, Unread>
    ensures { Reads frame_value result (simple_at order interfaces.now body.now) }
{
    if body.len() < SIMPLE_LEN {
        return Err(Unread::Damaged);
    }
    let (_, rest) = body.split_at(SIMPLE_LEN);
    let interface = interface_of(interfaces, 0)?;
    let original = u32_at(order, body, 0);
    let captured = snapped(interface, original);
    if captured as usize > rest.len() {
        return Err(Unread::Damaged);
    }
    let (data, _) = rest.split_at(captured as usize);
    Ok(Frame {
        link: interface.link,
        at: None,
        is_cut: captured < original,
        bytes: data,
    })
}

// How many bytes of a packet an interface captures.
fn snapped(interface: Interface, original: u32) -> u32
    ensures { result ≡ snapped interface original }
{
    if interface.snap_len == 0 {
        original
    } else {
        original.min(interface.snap_len)
    }
}
