//! Map-Requests, Map-Replies and encapsulated Map-Requests, as C has them.

ghost use Rattle.std.specs.Prelude.{◌≡◌, ◌<◌, length, IfOk, IsErrOf};
ghost use Rattle.lisp_records.specs.Result.{Reads};
ghost use Rattle.lisp_requests.specs.Encapsulated.{FitsDatagram, SpellsEncapsulated, StandsAt};
ghost use Rattle.lisp_requests.specs.Meaning.{encapsulated_value};
ghost use Rattle.lisp_requests.specs.Request.{FitRequest};
ghost use Rattle.lisp_registration.specs.Meaning.{Makes, counted, encapsulated_in, reply_in, request_in, request_of, source_in};
ghost use Rattle.lisp_registration.specs.Plain.{plain_encapsulated, plain_layout, plain_request, plain_source};
ghost use Rattle.lisp_registration.specs.declared.fault.WriteFault.TheVariants.{OutOfMemory};

use crate::address::{PlainAddress, PlainPrefix};
use crate::fault::WriteFault;
use crate::items::{Says, items_of};
use lisp_memory::Memory;
use lisp_records::{Addr, Prefix, Records};
use lisp_requests::{
    EncapsulatedRequest, MapReply, MapRequest, ReplyLayout, RequestLayout, message_place,
};
use std::alloc::Allocator;

// The most ITR-RLOCs and EID-Prefixes of a Map-Request.
const MAX_ITR_RLOCS: usize = 32;

const MAX_EIDS: usize = 255;

// The family of a Source EID that is not there.
const NO_FAMILY: u16 = 0;

/// A Map-Request but its ITR-RLOCs and EID-Prefixes, in plain numbers (RFC 9301 section 5.2).
#[repr(C)]
#[derive(Clone, Copy)]
pub struct PlainRequest {
    /// The nonce, which the Map-Reply gives back.
    pub nonce: u64,
    /// A, as 1 or 0: an authoritative answer is wanted, from the site itself.
    pub authoritative: u8,
    /// P, as 1 or 0: the ITR probes whether a locator is reached.
    pub probe: u8,
    /// S, as 1 or 0: a Solicit-Map-Request, which asks the receiver to ask again.
    pub smr: u8,
    /// p, as 1 or 0: a PITR sends it.
    pub pitr: u8,
    /// s, as 1 or 0: a Solicit-Map-Request was the reason for it.
    pub smr_invoked: u8,
    /// L, as 1 or 0: it comes from an xTR of the same site.
    pub local: u8,
    /// D, as 1 or 0: no Map-Reply is wanted.
    pub no_reply: u8,
    /// How many ITR-RLOCs were read, 1 to 32. Not written.
    pub itr_rloc_count: u8,
    /// How many EID-Prefixes were read, 1 to 255. Not written.
    pub eid_count: u8,
    /// The Source EID, from which the packet came that is the reason for the Map-Request; of family 0 where there is none.
    pub source: PlainAddress,
    /// Where the first ITR-RLOC begins; the others follow. Not written.
    pub itr_rlocs_at: usize,
    /// Where the record of the first EID-Prefix begins; the others follow. Not written.
    pub eids_at: usize,
    /// Where the last record ends. Not written.
    pub end: usize,
}

impl PlainRequest {
    /// The Map-Request of a layout in plain numbers.
    pub(crate) fn of(layout: &RequestLayout) -> PlainRequest
        ensures { result ≡ plain_request layout.now }
    {
        PlainRequest {
            nonce: layout.nonce,
            authoritative: u8::from(layout.authoritative),
            probe: u8::from(layout.probe),
            smr: u8::from(layout.smr),
            pitr: u8::from(layout.pitr),
            smr_invoked: u8::from(layout.smr_invoked),
            local: u8::from(layout.local),
            no_reply: u8::from(layout.no_reply),
            itr_rloc_count: layout.rloc_count,
            eid_count: layout.eid_count,
            source: plain_source(layout.source),
            itr_rlocs_at: layout.rlocs_at,
            eids_at: layout.eids_at,
            end: layout.end,
        }
    }

    /// The Map-Request of these ITR-RLOCs and EID-Prefixes, in memory of `alloc`; each flag but 0 is set. Faults: `Counts` for
    /// no ITR-RLOC or more than 32, and for no EID-Prefix or more than 255; then `Field` of the Source EID, of the ITR-RLOCs
    /// and of the EID-Prefixes.
    pub(crate) fn request<A: Memory + Copy>(
        &self,
        alloc: A,
        itr_rlocs: &[PlainAddress],
        eids: &[PlainPrefix],
    ) -> Result<MapRequest<A>, WriteFault>
        ensures value { Makes (λ m. m) result (request_in self.now itr_rlocs.now eids.now) }
        ensures memory { IsErrOf result OutOfMemory → A.may_refuse }
    {
        counted(itr_rlocs, MAX_ITR_RLOCS)?;
        counted(eids, MAX_EIDS)?;
        let source = self.source()?;
        let itr_rlocs = items_of(alloc, itr_rlocs)?;
        let eids = items_of(alloc, eids)?;
        Ok(self.made(source, itr_rlocs, eids))
    }

    // The Map-Request of these parts.
    fn made<A: Allocator>(
        &self,
        source: Option<Addr>,
        itr_rlocs: Vec<Addr, A>,
        eids: Vec<Prefix, A>,
    ) -> MapRequest<A>
        requires { FitRequest itr_rlocs.items eids.items }
        ensures { result ≡ request_of self.now source itr_rlocs.items eids.items }
    {
        MapRequest {
            authoritative: self.authoritative != 0,
            probe: self.probe != 0,
            smr: self.smr != 0,
            pitr: self.pitr != 0,
            smr_invoked: self.smr_invoked != 0,
            local: self.local != 0,
            no_reply: self.no_reply != 0,
            nonce: self.nonce,
            source,
            itr_rlocs,
            eids,
        }
    }

    // The Source EID, which is none of family 0.
    fn source(&self) -> Result<Option<Addr>, WriteFault>
        ensures { result ≡ source_in self.now.source }
    {
        if self.source.family == NO_FAMILY {
            return Ok(None);
        }
        match self.source.said() {
            Some(addr) => Ok(Some(addr)),
            None => Err(WriteFault::Field),
        }
    }
}

// Whether there are from 1 to so many items. Fault: `Counts`.
fn counted<T>(items: &[T], most: usize) -> Result<(), WriteFault>
    ensures { result ≡ counted most items.now }
{
    if items.is_empty() || items.len() > most {
        return Err(WriteFault::Counts);
    }
    Ok(())
}

// A Source EID in plain numbers; all is 0 where there is none.
fn plain_source(source: Option<Addr>) -> PlainAddress
    ensures { result ≡ plain_source source }
{
    match source {
        Some(addr) => PlainAddress::of(addr),
        None => PlainAddress::none(),
    }
}

/// A Map-Reply but its records, in plain numbers (RFC 9301 section 5.4).
#[repr(C)]
#[derive(Clone, Copy)]
pub struct PlainReply {
    /// The nonce of the Map-Request that it answers.
    pub nonce: u64,
    /// P, as 1 or 0: it answers a probe.
    pub probe: u8,
    /// E, as 1 or 0: the sender is capable of echoing nonces.
    pub echo_nonce: u8,
    /// S, as 1 or 0: the sender is capable of LISP-SEC.
    pub sec: u8,
    /// How many records were read. Not written.
    pub record_count: u8,
    /// Where the first record begins; the others follow, to the end. Not written.
    pub records_at: usize,
}

impl PlainReply {
    /// What the layout of a Map-Reply says, in plain numbers.
    pub(crate) fn of(layout: &ReplyLayout) -> PlainReply
        ensures { result ≡ plain_layout layout.now }
    {
        PlainReply {
            nonce: layout.nonce,
            probe: u8::from(layout.probe),
            echo_nonce: u8::from(layout.echo_nonce),
            sec: u8::from(layout.sec),
            record_count: layout.record_count,
            records_at: layout.records_at,
        }
    }

    /// The Map-Reply of these records; each flag but 0 is set.
    pub(crate) fn reply<A: Allocator>(&self, records: Records<A>) -> MapReply<A>
        requires { length records < 256 }
        ensures { result ≡ reply_in self.now records }
    {
        MapReply {
            probe: self.probe != 0,
            echo_nonce: self.echo_nonce != 0,
            sec: self.sec != 0,
            nonce: self.nonce,
            records,
        }
    }
}

// The most bytes of a message in a UDP datagram over IPv4: what 16 bits count, less both headers.
const MAX_MESSAGE_LEN: usize = 65_507;

/// What stands around an encapsulated Map-Request, in plain numbers (RFC 9301 section 5.8).
#[repr(C)]
#[derive(Clone, Copy)]
pub struct PlainEncapsulated {
    /// The inner source address.
    pub source: PlainAddress,
    /// The inner destination address: an EID that is asked for.
    pub destination: PlainAddress,
    /// The inner UDP source port, to which the Map-Reply goes.
    pub port: u16,
    /// Where the control message begins. Not written.
    pub message_at: usize,
    /// How many bytes the control message has. Not written.
    pub message_length: usize,
}

impl PlainEncapsulated {
    /// What stands around the message that was read from these bytes, in plain numbers.
    pub(crate) fn of(bytes: &[u8], request: &EncapsulatedRequest<'_>) -> PlainEncapsulated
        requires { SpellsEncapsulated bytes.now (encapsulated_value request.now) }
        ensures value { result ≡ plain_encapsulated bytes.now (encapsulated_value request.now) }
        ensures stands { StandsAt bytes.now result.message_at request.now.message.now }
    {
        PlainEncapsulated {
            source: PlainAddress::of(request.source),
            destination: PlainAddress::of(request.destination),
            port: request.port,
            message_at: message_place(bytes, request),
            message_length: request.message.len(),
        }
    }

    /// What stands around a control message. Fault: `Field`, of the source address, of the destination address, for two
    /// families, and for a message that no datagram carries, of more than 65,507 bytes.
    pub(crate) fn around<'a>(
        &self,
        message: &'a [u8],
    ) -> Result<EncapsulatedRequest<'a>, WriteFault>
        ensures value { Reads encapsulated_value result (encapsulated_in self.now message.now) }
        ensures fits { IfOk result (λ e. FitsDatagram (encapsulated_value e)) }
        ensures plain { IsErrOf result OutOfMemory → ⊥ }
    {
        let Some(source) = self.source.said() else {
            return Err(WriteFault::Field);
        };
        let Some(destination) = self.destination.said() else {
            return Err(WriteFault::Field);
        };
        if self.source.family != self.destination.family {
            return Err(WriteFault::Field);
        }
        if message.len() > MAX_MESSAGE_LEN {
            return Err(WriteFault::Field);
        }
        Ok(EncapsulatedRequest {
            source,
            destination,
            port: self.port,
            message,
        })
    }
}
