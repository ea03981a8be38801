//! The rows that a Map-Server holds, and who answers for an address.

ghost use Rattle.std.specs.Prelude.{◌≡◌};
ghost use Rattle.lisp_registration.specs.Rows.{no_row, plain_row, bare_answer, plain_answer, TellsAnswer, TellsNext, TellsRow, told_answer};
ghost use Rattle.lisp_registration.specs.Plain.{plain_locators};
ghost use Rattle.lisp_registration.specs.Told.{put_in};

use crate::address::PlainAddress;
use crate::fault::HandleFault;
use crate::items::Says;
use crate::record::{PlainLocator, PlainRecord};
use lisp_embedded::ServerHandle;
use lisp_lookup::Answer;
use lisp_records::{Locator, Row};
use lisp_server::Server;
use std::alloc::{Allocator, Global};

/// What a Map-Server holds for a router and an EID-Prefix, in plain numbers, or nothing (RFC 9301 section 8.2).
#[repr(C)]
#[derive(Clone, Copy)]
pub struct PlainRow {
    /// The nonce of the Map-Register.
    pub nonce: u64,
    /// The Site-ID of the router.
    pub site: u64,
    /// When the Map-Register was accepted, in ms.
    pub accepted: u64,
    /// How long the record lives from then on, in ms.
    pub life: u64,
    /// The xTR-ID of the router.
    pub xtr: [u8; 16],
    /// The source address of the Map-Register.
    pub from: PlainAddress,
    /// The Key ID that the Map-Register was authenticated under.
    pub key_id: u8,
    /// P, as 1 or 0: the Map-Server is to answer Map-Requests for the router.
    pub proxy: u8,
    /// 1 where there is a row, else 0, and then all is 0.
    pub is_there: u8,
    /// The record. It is in no message: its places are 0.
    pub mapping: PlainRecord,
}

impl PlainRow {
    /// A row in plain numbers.
    pub(crate) fn of<A: Allocator>(row: &Row<A>) -> PlainRow
        ensures { result ≡ plain_row row.now }
    {
        PlainRow {
            nonce: row.nonce,
            site: row.router.site,
            accepted: row.accepted,
            life: row.life,
            xtr: row.router.xtr,
            from: PlainAddress::of(row.from),
            key_id: row.key,
            proxy: u8::from(row.proxy),
            is_there: 1,
            mapping: PlainRecord::of_mapping(&row.mapping),
        }
    }

    /// No row: all is 0.
    pub(crate) const fn none() -> PlainRow
        ensures { result ≡ no_row }
    {
        PlainRow {
            nonce: 0,
            site: 0,
            accepted: 0,
            life: 0,
            xtr: [0; 16],
            from: PlainAddress::none(),
            key_id: 0,
            proxy: 0,
            is_there: 0,
            mapping: PlainRecord::none(),
        }
    }
}

/// The kind of a negative Map-Reply, Natively-Forward, for 15 minutes: no site has the address.
const NO_SITE: u8 = 0;

/// The kind of a negative Map-Reply, Natively-Forward, for 1 minute: a site has the address, but no live row does.
const NOT_REGISTERED: u8 = 1;

/// The kind of a Map-Reply by the Map-Server.
const REPLY: u8 = 2;

/// The kind of a Map-Request that is forwarded.
const FORWARD: u8 = 3;

/// What a Map-Server does with a Map-Request for an address, in plain numbers (RFC 9301 section 8.3).
#[repr(C)]
#[derive(Clone, Copy)]
pub struct PlainAnswer {
    /// 0 is a negative Map-Reply for 15 minutes (no site has the address), 1 one for 1 minute (a site has it, but no live row
    /// does), 2 a Map-Reply with a record, 3 a Map-Request that is forwarded.
    pub kind: u8,
    /// Where a Map-Request is forwarded to, else all is 0.
    pub to: PlainAddress,
    /// The record of a Map-Reply, else all is 0. It is in no message: its places are 0.
    pub mapping: PlainRecord,
}

impl PlainAnswer {
    /// An answer in plain numbers, without its locators.
    pub(crate) fn of<A: Allocator>(answer: &Answer<'_, A>) -> PlainAnswer
        ensures { result ≡ plain_answer answer.now }
    {
        match answer {
            Answer::NoSite => PlainAnswer::bare(NO_SITE),
            Answer::NotRegistered => PlainAnswer::bare(NOT_REGISTERED),
            Answer::Reply(mapping) => PlainAnswer {
                kind: REPLY,
                to: PlainAddress::none(),
                mapping: PlainRecord::of_mapping(mapping),
            },
            Answer::Forward(to) => PlainAnswer {
                kind: FORWARD,
                to: PlainAddress::of(*to),
                mapping: PlainRecord::none(),
            },
        }
    }

    // An answer of a kind that names neither an address nor a record.
    const fn bare(kind: u8) -> PlainAnswer
        ensures { result ≡ bare_answer kind }
    {
        PlainAnswer {
            kind,
            to: PlainAddress::none(),
            mapping: PlainRecord::none(),
        }
    }
}

/// Tells the first held row from a place on that is alive at a time, in ms: `row.is_there` is 1, its locators are the first
/// `row.mapping.locator_count` of `locators`, and `place` becomes that of the next row. Where no such row is left, `row` is all
/// 0 and `place` is as it was. As long as nothing changes the Map-Server, this tells from place 0 on every row once that is
/// alive at the time. Takes no memory. 0 is done; else (`Null` 100 where the handle holds none, `Room` 102 where `locators` has
/// no room for those of the row: 255 always have) all is as it was.
#[unsafe(no_mangle)]
pub extern "C" fn lisp_registration_server_row(
    alloc: Global,
    server: &mut ServerHandle,
    now: u64,
    place: &mut usize,
    row: &mut PlainRow,
    locators: &mut [PlainLocator],
) -> u16
    ensures { TellsRow now server.old.value place.old row.old locators.old
        result server.new.value place.new row.new locators.new }
{
    match server.take(alloc) {
        Some(hosted) => {
            let number = tell_next(&hosted.server, now, place, row, locators);
            *server = ServerHandle::of(hosted);
            number
        }
        None => HandleFault::Null.number(),
    }
}

/// Tells who answers for an address at a time, in ms (RFC 9301 section 8.3). The locators of a record are the first
/// `answer.mapping.locator_count` of `locators`. Takes no memory. 0 is done; else (`Field` 103 where the family of the address
/// is neither IPv4 nor IPv6, `Null` 100 where the handle holds none, `Room` 102 where `locators` has no room for those of the
/// record: 255 always have) all is as it was.
#[unsafe(no_mangle)]
pub extern "C" fn lisp_registration_server_answer(
    alloc: Global,
    server: &mut ServerHandle,
    address: &PlainAddress,
    now: u64,
    answer: &mut PlainAnswer,
    locators: &mut [PlainLocator],
) -> u16
    ensures { TellsAnswer address.now now server.old.value answer.old locators.old
        result server.new.value answer.new locators.new }
{
    let Some(addr) = address.said() else {
        return HandleFault::Field.number();
    };
    match server.take(alloc) {
        Some(hosted) => {
            let number = tell_answer(&hosted.server.answer(&addr, now), answer, locators);
            *server = ServerHandle::of(hosted);
            number
        }
        None => HandleFault::Null.number(),
    }
}

// Tells the first row from a place on that is alive, or that there is none.
fn tell_next<A: Allocator + Copy>(
    server: &Server<A>,
    now: u64,
    place: &mut usize,
    row: &mut PlainRow,
    locators: &mut [PlainLocator],
) -> u16
    ensures { TellsNext server.now.rows now place.old row.old locators.old
        (result, (place.new, (row.new, locators.new))) }
{
    let Some((found, held)) = server.next_held(*place, now) else {
        *row = PlainRow::none();
        return 0;
    };
    if !put_locators(held.mapping.locators(), locators) {
        return HandleFault::Room.number();
    }
    *place = found.saturating_add(1);
    *row = PlainRow::of(held);
    0
}

// Tells an answer.
fn tell_answer<A: Allocator>(
    who: &Answer<'_, A>,
    answer: &mut PlainAnswer,
    locators: &mut [PlainLocator],
) -> u16
    ensures { (result, (answer.new, locators.new)) ≡ told_answer who.now answer.old locators.old }
{
    if let Answer::Reply(mapping) = who {
        if !put_locators(mapping.locators(), locators) {
            return HandleFault::Room.number();
        }
    }
    *answer = PlainAnswer::of(who);
    0
}

// Puts locators in front of others; whether there is room for them.
fn put_locators(locators: &[Locator], plain: &mut [PlainLocator]) -> bool
    ensures { (result, plain.new) ≡ put_in (plain_locators locators.now) plain.old }
{
    if locators.len() > plain.len() {
        return false;
    }
    for (place, locator) in locators.iter().enumerate() {
        plain[place] = PlainLocator::of(locator, 0);
    }
    true
}
