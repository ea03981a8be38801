//! A capture, read from left to right.

ghost use Rattle.std.specs.Prelude.{◌≡◌, ◌<◌, [], length, Some, Ok, IfOk, OnErr};
ghost use Rattle.lisp_records.specs.Result.{Reads};
ghost use Rattle.lisp_captures.specs.Block.{block_at, block_value};
ghost use Rattle.lisp_captures.specs.Capture.{GivesNext, GivesStep, block_step, described_step, frame_seen, last_step, packet_step, packets_of, record_step, step_of};
ghost use Rattle.lisp_captures.specs.Header.{header_at};
ghost use Rattle.lisp_captures.specs.Interface.{described_at};
ghost use Rattle.lisp_captures.specs.Record.{record_at};

use crate::block::{
    Block, ENHANCED_PACKET, INTERFACE, SECTION, SIMPLE_PACKET, read_block, read_enhanced,
    read_simple,
};
use crate::datagram::Unread;
use crate::fault::CaptureFault;
use crate::frame::Frame;
use crate::header::{Format, read_header};
use crate::interface::{Interface, read_interface};
use crate::numbers::ByteOrder;
use crate::packet::Packet;
use crate::record::read_record;
use lisp_memory::{FallibleVec, Memory};
use std::alloc::{AllocError, Allocator, Global};
use std::marker::Model;

/// The packets of a capture that are still to come.
#[derive(Debug, Drop)]
pub struct Capture<'a, A: Allocator = Global> {
    // The records or blocks still to come.
    rest: &'a [u8],
    // How many packets came before.
    count: u64,
    // The byte order of the file, or of the section.
    order: ByteOrder,
    format: Format,
    // The interfaces that the section described so far.
    interfaces: Vec<Interface, A>,
}

impl<'a, A: Allocator> Model for Capture<'a, A> {
    ghost use Rattle.std.specs.Prelude.{◌+◌, ◌<◌, ◌^◌, length};
    ghost use Rattle.lisp_captures.specs.CaptureValue.{CaptureValue};

    ghost Value = { CaptureValue };

    ghost view = { λ c. record { rest = c.rest.now; count = c.count; order = c.order; format = c.format; interfaces = c.interfaces.items } };

    ghost invariant = { λ c. c.count + length c.rest.now < 2 ^ 64 };
}

impl<'a, A: Memory> Capture<'a, A> {
    /// The capture of a file's bytes, before its first packet. Takes no memory: that of `alloc` is for the interfaces of a
    /// section, when their blocks are met.
    pub fn open(alloc: A, bytes: &'a [u8]) -> Result<Capture<'a, A>, CaptureFault>
        ensures { Reads (λ c. c) result (header_at bytes.now) }
    {
        let (format, order, rest) = read_header(bytes)?;
        Ok(Capture {
            rest,
            count: 0,
            order,
            format,
            interfaces: Vec::new(alloc),
        })
    }

    /// The next packet; `None` after the last. Blocks of pcapng without one are passed over. Out of memory, for the
    /// interfaces of a section, leaves the packets to come as they were.
    #[tactic(auto, using(crate::proofs::Steps::next_steps))]
    pub fn next(&mut self) -> Result<Option<Packet<'a>>, AllocError>
        // The packets to come were this one and those to come after it.
        ensures next { IfOk result (GivesNext self.old self.new) }

        ensures same { OnErr result (packets_of self.new ≡ packets_of self.old) }
        ensures memory { OnErr result A.may_refuse }
    {
        while !self.rest.is_empty() {
            if let Some(packet) = self.step()? {
                return Ok(Some(packet));
            }
        }
        Ok(None)
    }

    // The packet of the next record or block, if it has one.
    fn step(&mut self) -> Result<Option<Packet<'a>>, AllocError>
        requires { 0 < length self.old.rest }
        ensures step { IfOk result (GivesStep self.new (step_of self.old)) }
        ensures same { OnErr result (self.new ≡ self.old) }
        ensures memory { OnErr result A.may_refuse }
    {
        match self.format {
            Format::Pcap(interface) => Ok(Some(self.record(interface))),
            Format::Pcapng => self.block(),
        }
    }

    // The packet of the next record.
    fn record(&mut self, interface: Interface) -> Packet<'a>
        requires { 0 < length self.old.rest }
        ensures { GivesStep self.new (record_step self.old
            (record_at self.old.order interface self.old.rest)) (Some result) }
    {
        match read_record(self.order, interface, self.rest) {
            Ok((frame, rest)) => self.packet(rest, Ok(frame)),
            Err(why) => self.last(why),
        }
    }

    // The packet of the next block, if it has one.
    fn block(&mut self) -> Result<Option<Packet<'a>>, AllocError>
        requires { 0 < length self.old.rest }
        ensures step { IfOk result (GivesStep self.new
            (block_step self.old (block_at self.old.order self.old.rest))) }
        ensures same { OnErr result (self.new ≡ self.old) }
        ensures memory { OnErr result A.may_refuse }
    {
        match read_block(self.order, self.rest) {
            Ok(block) => self.read(&block),
            Err(why) => Ok(Some(self.last(why))),
        }
    }

    // The packet of a block, if it has one.
    fn read(&mut self, block: &Block<'a>) -> Result<Option<Packet<'a>>, AllocError>
        requires { length block.now.rest.now < length self.old.rest }
        ensures step { IfOk result (GivesStep self.new
            (block_step self.old (Ok (block_value block.now)))) }
        ensures same { OnErr result (self.new ≡ self.old) }
        ensures memory { OnErr result A.may_refuse }
    {
        match block.kind {
            SECTION => self.begin_section(block),
            INTERFACE => return self.describe(block),
            ENHANCED_PACKET => {
                let frame = read_enhanced(block.order, &self.interfaces, block.body);
                return Ok(Some(self.packet(block.rest, frame)));
            }
            SIMPLE_PACKET => {
                let frame = read_simple(block.order, &self.interfaces, block.body);
                return Ok(Some(self.packet(block.rest, frame)));
            }
            _ => self.rest = block.rest,
        }
        Ok(None)
    }

    // A section begins: with no interfaces, and in its own byte order.
    fn begin_section(&mut self, block: &Block<'a>)
        requires { length block.now.rest.now < length self.old.rest }
        ensures { self.new ≡ record self.old {
          rest = block.now.rest.now;
          order = block.now.order;
          interfaces = [];
        } }
    {
        self.interfaces.clear();
        self.order = block.order;
        self.rest = block.rest;
    }

    // A section has one more interface.
    fn describe(&mut self, block: &Block<'a>) -> Result<Option<Packet<'a>>, AllocError>
        requires { length block.now.rest.now < length self.old.rest }
        ensures step { IfOk result (GivesStep self.new (described_step self.old block.now.rest.now
            (described_at block.now.order block.now.body.now))) }
        ensures same { OnErr result (self.new ≡ self.old) }
        ensures memory { OnErr result A.may_refuse }
    {
        match read_interface(block.order, block.body) {
            Ok(interface) => {
                self.interfaces.try_push(interface)?;
                self.rest = block.rest;
                Ok(None)
            }
            Err(why) => Ok(Some(self.last(why))),
        }
    }

    // A packet by its frame or why it has none, before these bytes.
    fn packet(&mut self, rest: &'a [u8], frame: Result<Frame<'a>, Unread>) -> Packet<'a>
        requires { length rest.now < length self.old.rest }
        ensures { GivesStep self.new (packet_step self.old rest.now (frame_seen frame.entry))
            (Some result) }
    {
        self.count += 1;
        self.rest = rest;
        Packet::new(self.count, frame)
    }

    // The last packet, where what follows can't be found.
    fn last(&mut self, why: Unread) -> Packet<'a>
        requires { 0 < length self.old.rest }
        ensures { GivesStep self.new (last_step self.old why) (Some result) }
    {
        self.packet(&[], Err(why))
    }
}
