//! The Map-Registers of a router.

ghost use Rattle.std.specs.Prelude.{◌≡◌, ◌<◌, ◌≤◌, length, IfOk, IfErr, IsErrOf, OnErr, OnOk};
ghost use Rattle.lisp_nonces.specs.Store.{Rose, Proceeds, MaySave, MayFailSave};
ghost use Rattle.lisp_messages.specs.Message.{IsMapRegister};
ghost use Rattle.lisp_etr.specs.Sending.{last_nonce, map_register_of, block_end, safe_after, IsDatagram};
ghost use Rattle.lisp_etr.specs.Faults.{store_out_of_memory, device_failed, IsOfSave};
ghost use Rattle.lisp_etr.specs.Saving.{BlockSaves, BlockIsSafe, SafeStays, BlockSettles, BlockLeaves, KeepsOtherPairs, BlockKeepsToo, SameUnlessDevice};

use crate::config::EtrConfig;
use crate::send_fault::SendFault;
use lisp_memory::Memory;
use lisp_messages::{MapRegister, write_register_under};
use lisp_nonces::{LAST_ROUTER_NONCE, MAX_NONCE_BLOCK, NonceStore};
use lisp_records::Records;
use std::alloc::{AllocError, Allocator};

/// The bytes of the Map-Register of these records under a nonce (RFC 9301 section 5.6).
pub(crate) fn datagram<A: Memory + Copy>(
    alloc: A,
    config: &EtrConfig<A>,
    records: Records<A>,
    nonce: u64,
) -> Result<Vec<u8, A>, AllocError>
    requires { length records < 256 }
    ensures written { IfOk result (λ bytes. IsDatagram config.now records nonce bytes.items) }
    ensures known { OnOk result (IsMapRegister (map_register_of config.now records nonce)) }
    ensures memory { OnErr result A.may_refuse }
{
    let register = MapRegister {
        proxy: config.proxy,
        sec: false,
        eid_notify: false,
        use_ttl: config.use_ttl,
        merge: false,
        want_notify: true,
        nonce,
        key_id: config.key_id,
        records,
        xtr: config.me.xtr,
        site: config.me.site,
    };
    write_register_under(alloc, &register, &config.key)
}

/// Saves the end of a block of nonces before a nonce is sent, unless what was saved before is no less than that nonce: after a
/// restart the router goes on above what was saved. Gives what is saved then; `Store`.
pub(crate) fn keep_block<S: NonceStore, A: Allocator>(
    store: &mut S,
    config: &EtrConfig<A>,
    nonce: u64,
    safe: u64,
) -> Result<u64, SendFault>
    requires { nonce ≤ last_nonce }
    ensures exact { IfOk result (λ saved. saved ≡ safe_after safe nonce config.now.nonce_block) }
    ensures safe { IfOk result (λ saved. nonce ≤ saved) }
    ensures saved { BlockSaves config.now safe nonce (S.seen store.old) (S.seen store.new) result }
    ensures unasked { nonce ≤ safe → S.seen store.new ≡ S.seen store.old }
    ensures keeps_safe { BlockIsSafe config.now safe (S.seen store.old) (S.seen store.new) result }
    ensures still_safe { SafeStays config.now safe (S.seen store.old) (S.seen store.new) result }
    ensures settles { BlockSettles config.now nonce (S.seen store.old) (S.seen store.new) result }
    ensures leaves { BlockLeaves config.now nonce (S.seen store.old) (S.seen store.new) result }
    ensures others { KeepsOtherPairs config.now (S.seen store.old) (S.seen store.new) }
    ensures saves { safe < nonce → OnOk result (MaySave (S.seen store.old)) }
    ensures save_fails { IsErrOf result device_failed → MayFailSave (S.seen store.old) }
    ensures doubted { BlockKeepsToo config.now nonce (S.seen store.old) (S.seen store.new) result }
    ensures store { IfErr result IsOfSave }
    ensures memory { IsErrOf result store_out_of_memory → S.may_refuse }
    ensures refused { IfErr result (SameUnlessDevice (S.seen store.old) (S.seen store.new)) }
    ensures cause { IsErrOf result device_failed → Rose (S.seen store.old) (S.seen store.new) }
    ensures proceeds { Proceeds (S.seen store.old) (S.seen store.new) }
{
    if nonce <= safe {
        return Ok(safe);
    }
    let end = block_end(nonce, config.nonce_block);
    match store.save(&config.pair(), end) {
        Ok(()) => Ok(end),
        Err(fault) => Err(SendFault::Store(fault)),
    }
}

// The last nonce of a block that begins with a nonce; none is above the last nonce of a router.
fn block_end(nonce: u64, block: u16) -> u64
    requires { nonce ≤ last_nonce }
    ensures { result ≡ block_end nonce block }
{
    let more = u64::from(block.clamp(1, MAX_NONCE_BLOCK)) - 1;
    (nonce + more).min(LAST_ROUTER_NONCE)
}
