//! What a router checks of a message, and how it answers a notice.

ghost use Rattle.std.specs.Prelude.{◌≡◌, ◌<◌, IfOk, IsErrOf, length};
ghost use Rattle.lisp_messages.specs.Meaning.{message_value};
ghost use Rattle.lisp_messages.specs.Reading.{message_at};
ghost use Rattle.lisp_etr.specs.Hearing.{Gives, notify_in, notify_read, server_at, notify_from, server_notify, RefusesBadHead, MayRunOut};
ghost use Rattle.lisp_etr.specs.declared.notify_fault.NotifyFault.{NotifyFault};

use crate::config::EtrConfig;
use crate::notify_fault::NotifyFault;
use lisp_memory::Memory;
use lisp_messages::{MapNotify, Message, authentic_under, read_message};
use lisp_records::Addr;
use std::alloc::Allocator;

/// The Map-Notify that bytes from an address spell and the number of the Map-Server there, or the
/// first check that they fail: `Read`, `NotMine`, `WrongKey`, `BadAuth`; `OutOfMemory` in reading.
#[tactic(auto, unfolding(crate::specs::Hearing::checked_notify))]
pub(crate) fn hear<A: Memory + Copy>(
    alloc: A,
    config: &EtrConfig<A>,
    from: Addr,
    bytes: &[u8],
) -> Result<(usize, MapNotify<A>), NotifyFault>
    ensures exact { Gives server_notify result (notify_from config.now from bytes.now) }
    ensures server { IfOk result (λ x. x.0 < length config.now.servers) }
    ensures key { IfOk result (λ x. x.1.key_id ≡ config.now.key_id) }
    ensures early { RefusesBadHead bytes.now result }
    ensures memory { IsErrOf result NotifyFault.OutOfMemory → MayRunOut A.may_refuse bytes.now }
{
    let notify = read_notify(alloc, bytes)?;
    let Some(server) = server_at(config.servers.as_slice(), from) else {
        return Err(NotifyFault::NotMine);
    };
    if notify.key_id != config.key_id {
        return Err(NotifyFault::WrongKey);
    }
    if !authentic_under(bytes, &config.key) {
        return Err(NotifyFault::BadAuth);
    }
    Ok((server, notify))
}

// The Map-Notify that bytes spell; `Read`, `NotMine`.
fn read_notify<A: Memory + Copy>(alloc: A, bytes: &[u8]) -> Result<MapNotify<A>, NotifyFault>
    ensures exact { Gives (λ m. m) result (notify_read (message_at bytes.now)) }
    ensures early { RefusesBadHead bytes.now result }
    ensures memory { IsErrOf result NotifyFault.OutOfMemory → MayRunOut A.may_refuse bytes.now }
{
    match read_message(alloc, bytes) {
        Ok(message) => notify_of(message),
        Err(fault) => Err(NotifyFault::of_read(fault)),
    }
}

// The Map-Notify of a message; `NotMine`.
fn notify_of<A: Allocator>(message: Message<A>) -> Result<MapNotify<A>, NotifyFault>
    ensures { result ≡ notify_in (message_value message) }
{
    match message {
        Message::Notify(notify) if !notify.ack => Ok(notify),
        _ => Err(NotifyFault::NotMine),
    }
}

// The number of the Map-Server with an address, the first one of several.
fn server_at(servers: &[Addr], from: Addr) -> Option<usize>
    ensures { result ≡ server_at servers.now from }
{
    servers.iter().position(|server| *server == from)
}
