//! What holds of a router: each function's contract is a law. Those of its timers and nonces have empty bodies; those of
//! its answers hold over memory and a store that never run out, and make the call that they speak of.

ghost use Rattle.std.specs.Prelude.{◌≤◌, IfErr};
ghost use Rattle.lisp_records.specs.Moment.{max_moment};
ghost use Rattle.lisp_records.specs.Result.{Reads};
ghost use Rattle.lisp_etr.specs.Timers.{PromptSends};
ghost use Rattle.lisp_etr.specs.Round.{KeepsTime};
ghost use Rattle.lisp_etr.specs.Sending.{BlocksAreBounds};
ghost use Rattle.lisp_etr.specs.Hearing.{seen_at};
ghost use Rattle.lisp_nonces.specs.Promises.{Unrefused};
ghost use Rattle.lisp_etr.specs.Faults.{IsSendReason};
ghost use Rattle.lisp_etr.specs.Saving.{SendsUnlessFailed};

use crate::etr::Etr;
use crate::notify_fault::NotifyFault;
use crate::seen::Seen;
use crate::send_fault::SendFault;
use lisp_memory::Memory;
use lisp_nonces::NonceStore;
use lisp_records::Addr;

/// Sends that are made when due, without changes or acknowledgements, are at 2^k - 1 s after a round's
/// beginning for k up to 6, and at 63 + 60 (k - 6) s from there.
pub fn prompt_sends()
    ensures { PromptSends }
{}

/// What a router keeps of a round is when it is due, by the times of the round's sends.
pub fn rounds_keep_time()
    ensures { KeepsTime }
{}

/// What is saved for a nonce is no lower, less than 1,024 above it, and no later than a router's last nonce.
#[tactic(auto, using(crate::proofs::SafeLaws::block_bound))]
pub fn blocks_are_bounds()
    ensures { BlocksAreBounds }
{}

/// Over memory and a store that are never refused memory, a send is refused only where there is no such
/// Map-Server or part, the nonces are spent, or the device failed.
pub fn sends_exactly<S: NonceStore, A: Memory + Copy>(
    router: &mut Etr<A>,
    store: &mut S,
    server: usize,
    part: usize,
    now: u64,
) -> Result<Vec<u8, A>, SendFault>
    requires { now ≤ max_moment }
    ensures refusals { Unrefused A.may_refuse S.may_refuse (IfErr result IsSendReason) }
    ensures sent { Unrefused A.may_refuse S.may_refuse
        (SendsUnlessFailed router.old server part (S.seen store.old) (S.seen store.new) result) }
{
    router.send(store, server, part, now)
}

/// Over memory that is never refused, a router answers exactly what there is to answer to bytes from an
/// address, or why it refuses them.
pub fn receives_exactly<A: Memory + Copy>(
    router: &mut Etr<A>,
    from: Addr,
    bytes: &[u8],
    now: u64,
) -> Result<Seen<A>, NotifyFault>
    ensures { (A.may_refuse → ⊥) → Reads (λ seen. seen) result (seen_at router.old from bytes.now) }
{
    router.receive(from, bytes, now)
}
