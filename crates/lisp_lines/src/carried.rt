//! What a refusal carries, in words behind its number.

ghost use Rattle.std.specs.Prelude.{OnErr};
ghost use Rattle.lisp_lines.specs.Carried.{record_words, read_words, carried_words};
ghost use Rattle.lisp_lines.specs.Front.{Adds, AddsFront};

use crate::append::put_number;
use lisp_etr::{NotifyFault, RotateFault, SendFault, StartFault};
use lisp_memory::Memory;
use lisp_messages::ReadFault;
use lisp_model::Refusal;
use lisp_server::{Limit, NoticeFault, Refused};
use std::alloc::AllocError;

/// Appends what a refusal carries: ` read F`, for a record with ` record I fault F` behind it; ` record I` for
/// `NotAllowed` and `Ttl`; ` store F`; ` saved N` for `Replay` and `Jump`; ` latest N` for `Stale`; nothing for any other. Out
/// of memory, it leaves a front of it.
pub fn put_carried<A: Memory>(text: &mut String<A>, refusal: &Refusal) -> Result<(), AllocError>
    ensures text { Adds result text.old text.new (carried_words refusal.now) }
    ensures front { AddsFront result text.old text.new (carried_words refusal.now) }
    ensures memory { OnErr result A.may_refuse }
{
    match refusal {
        Refusal::Notify(NotifyFault::Read(fault)) | Refusal::Receive(Refused::Read(fault)) => {
            put_read(text, fault)
        }
        Refusal::Notify(NotifyFault::Stale { latest }) => put_number(text, " latest ", *latest),
        Refusal::Receive(
            Refused::NotAllowed(place)
            | Refused::Limited {
                limit: Limit::Ttl(place),
                ..
            },
        ) => put_number(text, " record ", *place as u64),
        Refusal::Receive(Refused::Replay { saved } | Refused::Jump { saved, .. }) => {
            put_number(text, " saved ", *saved)
        }
        Refusal::Receive(Refused::StoreLoad(fault) | Refused::StoreSave(fault))
        | Refusal::Send(SendFault::Store(fault))
        | Refusal::Notice(NoticeFault::StoreLoad(fault) | NoticeFault::StoreSave(fault))
        | Refusal::Start(StartFault::Store(fault))
        | Refusal::Rotate(RotateFault::Store(fault)) => {
            put_number(text, " store ", u64::from(fault.number()))
        }
        _ => Ok(()),
    }
}

// Appends the fault of a message, with the place and the fault of its record where it has one.
fn put_read<A: Memory>(text: &mut String<A>, fault: &ReadFault) -> Result<(), AllocError>
    ensures text { Adds result text.old text.new (read_words fault.now) }
    ensures front { AddsFront result text.old text.new (read_words fault.now) }
    ensures memory { OnErr result A.may_refuse }
{
    let read = u64::from(fault.number());
    match fault {
        ReadFault::Record(place, fault) => {
            put_record(text, read, *place as u64, u64::from(fault.number()))
        }
        _ => put_number(text, " read ", read),
    }
}

// Appends the fault of a message at a record, the place and the fault of that.
#[tactic(auto, using(crate::proofs::Appends::steps))]
fn put_record<A: Memory>(
    text: &mut String<A>,
    read: u64,
    place: u64,
    fault: u64,
) -> Result<(), AllocError>
    ensures text { Adds result text.old text.new (record_words read place fault) }
    ensures front { AddsFront result text.old text.new (record_words read place fault) }
    ensures memory { OnErr result A.may_refuse }
{
    put_number(text, " read ", read)?;
    put_number(text, " record ", place)?;
    put_number(text, " fault ", fault)
}
