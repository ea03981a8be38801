//! A Map-Register with the nonce that the program has to save.

ghost use Rattle.std.specs.Prelude.{◌≡◌, ◌≤◌, IfOk, IfErr, IsErrOf, OnErr};
ghost use Rattle.lisp_records.specs.Moment.{max_moment};
ghost use Rattle.lisp_etr.specs.declared.send_fault.SendFault.{SendFault};
ghost use Rattle.lisp_embedded.specs.Routers.{RefusesKeptSend, SendsKept};

use lisp_etr::{Etr, SendFault};
use lisp_memory::Memory;
use lisp_nonces::MemoryStore;
use lisp_records::Addr;
use std::alloc::{Allocator, Global};

/// A Map-Register that is to be sent, once what has to be saved first is saved.
#[derive(Debug, Drop)]
pub struct HostedRegister<A: Allocator = Global> {
    /// The address of its Map-Server.
    pub to: Addr,
    /// The datagram.
    pub bytes: Vec<u8, A>,
    /// What has to be saved for the router's pair before it is sent: the end of the block of nonces that it begins. `None` where
    /// its nonce is of a block that was saved.
    pub save: Option<u64>,
}

/// A router makes the Map-Register of a part of its database to a Map-Server, both by their numbers, at a time, in ms, of at
/// most 2^62, as `Etr::send`. The program has to save what it is told to for the router's pair before it sends the datagram.
/// Where that fails, it has to start the router again, as after a crash. It refuses in the order of `Etr::send`, and never for
/// its store: `NoServer`, `NoPart`, `NonceSpent`, `OutOfMemory`.
pub fn send_kept<A: Memory + Copy>(
    alloc: A,
    router: &mut Etr<A>,
    server: usize,
    part: usize,
    now: u64,
) -> Result<HostedRegister<A>, SendFault>
    requires { now ≤ max_moment }
    ensures sends { IfOk result (SendsKept router.old router.new server part now) }
    ensures refused { IfErr result (RefusesKeptSend router.old server part) }
    ensures err { OnErr result (router.new ≡ router.old) }
    ensures memory { IsErrOf result SendFault.OutOfMemory → A.may_refuse }
{
    let before = router.safe();
    let mut store = MemoryStore::new(alloc);
    let bytes = match router.send(&mut store, server, part, now) {
        Ok(bytes) => bytes,
        Err(SendFault::Store(_)) => return Err(SendFault::OutOfMemory),
        Err(fault) => return Err(fault),
    };
    let to = router.config().servers.as_slice()[server];
    let safe = router.safe();
    let save = if safe == before { None } else { Some(safe) };
    Ok(HostedRegister { to, bytes, save })
}
