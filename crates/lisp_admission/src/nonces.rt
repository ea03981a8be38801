//! Nonces that are checked against the store, and saved in it.

ghost use Rattle.std.specs.Prelude.{◌≡◌, ◌↔◌, IfOk, IfErr, IsErrOf, IsTrue, OnOk};
ghost use Rattle.lisp_nonces.specs.declared.fault.StoreFault.{StoreFault};
ghost use Rattle.lisp_nonces.specs.Store.{Proceeds, MaySave};
ghost use Rattle.lisp_admission.specs.Nonces.{Follows, FollowsNone, NoticeNotKept, IsAmiss, IsBase, IsBelow, IsFar, IsFresh, IsNear, IsUnspent, KeepsLists, nonce_after, Unasked, Unknown, NotKept, StopsNonce, IsSpent};
ghost use Rattle.lisp_admission.specs.Pairs.{notice_pair};
ghost use Rattle.lisp_admission.specs.declared.refused.Refused.{Refused};
ghost use Rattle.lisp_admission.specs.declared.notice_fault.NoticeFault.{NoticeFault};
ghost use Rattle.lisp_admission.specs.Refused.{load_out_of_memory, save_out_of_memory};
ghost use Rattle.lisp_admission.specs.NoticeFault.{notice_load_out_of_memory, notice_save_out_of_memory};
ghost use Rattle.lisp_nonces.specs.Promises.{SavesIfHonest, KeepsOthersIfHonest};

use crate::notice_fault::NoticeFault;
use crate::pairs::NOTICES;
use crate::refused::Refused;
use lisp_nonces::{FIRST_NOTICE_NONCE, NonceStore, Pair, StoreFault};

// The last nonce of a pair: the one in memory, or where there is none the one that the store loads.
fn last_nonce<S: NonceStore>(
    store: &mut S,
    pair: &Pair,
    last: Option<u64>,
) -> Result<Option<u64>, StoreFault>
    ensures base { IfOk result (λ base. IsBase last (S.seen store.old) pair.now base) }
    ensures refused { IfErr result (Unknown last (S.seen store.old) (S.seen store.new)) }
    ensures unasked { Unasked last (S.seen store.old) (S.seen store.new) }
    ensures same { KeepsLists (S.seen store.old) (S.seen store.new) }
    ensures memory { IsErrOf result StoreFault.OutOfMemory → S.may_refuse }
    ensures proceeds { Proceeds (S.seen store.old) (S.seen store.new) }
{
    match last {
        Some(_) => Ok(last),
        None => store.load(pair),
    }
}

/// Whether a nonce is above the last one of its pair, which is in memory or else in the store, and by `most_jump` at most where
/// that is given. `StoreLoad`, `Replay`, `Jump`.
pub fn check_nonce<S: NonceStore>(
    store: &mut S,
    pair: &Pair,
    last: Option<u64>,
    nonce: u64,
    most_jump: Option<u64>,
) -> Result<(), Refused>
    ensures fresh { OnOk result (IsFresh most_jump last (S.seen store.old) pair.now nonce) }
    ensures refused { StopsNonce most_jump last (S.seen store.old) (S.seen store.new) pair.now
        nonce result }
    ensures unasked { Unasked last (S.seen store.old) (S.seen store.new) }
    ensures same { KeepsLists (S.seen store.old) (S.seen store.new) }
    ensures plain { ¬ (IsErrOf result Refused.OutOfMemory) }
    ensures store_memory { IsErrOf result load_out_of_memory → S.may_refuse }
    ensures proceeds { Proceeds (S.seen store.old) (S.seen store.new) }
{
    let base = last_nonce(store, pair, last).map_err(Refused::StoreLoad)?;
    follows(base, nonce, most_jump, pair.router.site)
}

// Whether a nonce is above its base, and by `most_jump` of a site at most; `Replay`, `Jump`.
fn follows(base: Option<u64>, nonce: u64, most_jump: Option<u64>, site: u64) -> Result<(), Refused>
    ensures fresh { OnOk result (IsBelow base nonce) }
    ensures near { OnOk result (IsNear most_jump base nonce) }
    ensures refused { IfErr result (λ refused. IsAmiss site most_jump base nonce refused) }
{
    match base {
        Some(saved) if nonce <= saved => Err(Refused::Replay { saved }),
        Some(saved) if is_far(most_jump, saved, nonce) => Err(Refused::Jump { site, saved }),
        _ => Ok(()),
    }
}

// Whether a nonce is further above its base than it may jump.
fn is_far(most_jump: Option<u64>, base: u64, nonce: u64) -> bool
    ensures { IsTrue result ↔ IsFar most_jump base nonce }
{
    match most_jump {
        Some(most_jump) => nonce.saturating_sub(base) > most_jump,
        None => false,
    }
}

/// Saves a nonce for its pair. `StoreSave`.
pub fn save_nonce<S: NonceStore>(store: &mut S, pair: &Pair, nonce: u64) -> Result<(), Refused>
    ensures done { SavesIfHonest (S.seen store.old) (S.seen store.new) pair.now nonce result }
    ensures others { KeepsOthersIfHonest (S.seen store.old) (S.seen store.new) pair.now }
    ensures saves { OnOk result (MaySave (S.seen store.old)) }
    ensures refused { IfErr result (NotKept (S.seen store.old) (S.seen store.new) pair.now nonce) }
    ensures plain { ¬ (IsErrOf result Refused.OutOfMemory) }
    ensures store_memory { IsErrOf result save_out_of_memory → S.may_refuse }
    ensures proceeds { Proceeds (S.seen store.old) (S.seen store.new) }
{
    store.save(pair, nonce).map_err(Refused::StoreSave)
}

/// The nonce of the next unsolicited Map-Notify (notice), by the last one, which is in memory or else in
/// the store. `StoreLoad`, `NonceSpent`.
pub fn next_nonce<S: NonceStore>(store: &mut S, last: Option<u64>) -> Result<u64, NoticeFault>
    ensures next { IfOk result (λ nonce. Follows last (S.seen store.old) nonce) }
    ensures refused { IfErr result (FollowsNone last (S.seen store.old) (S.seen store.new)) }
    ensures unasked { Unasked last (S.seen store.old) (S.seen store.new) }
    ensures same { KeepsLists (S.seen store.old) (S.seen store.new) }
    ensures plain { ¬ (IsErrOf result NoticeFault.OutOfMemory) }
    ensures store_memory { IsErrOf result notice_load_out_of_memory → S.may_refuse }
    ensures proceeds { Proceeds (S.seen store.old) (S.seen store.new) }
{
    let last = last_nonce(store, &NOTICES, last).map_err(NoticeFault::StoreLoad)?;
    following(last)
}

// The nonce of a notice after the last one; `NonceSpent`.
fn following(last: Option<u64>) -> Result<u64, NoticeFault>
    ensures next { IfOk result (λ nonce. IsUnspent last × (nonce ≡ nonce_after last)) }
    ensures spent { IfErr result (IsSpent last) }
{
    match last.unwrap_or(0).checked_add(1) {
        Some(nonce) => Ok(nonce.max(FIRST_NOTICE_NONCE)),
        None => Err(NoticeFault::NonceSpent),
    }
}

/// Saves the nonce of a notice. `StoreSave`.
pub fn save_notice<S: NonceStore>(store: &mut S, nonce: u64) -> Result<(), NoticeFault>
    ensures done { SavesIfHonest (S.seen store.old) (S.seen store.new) notice_pair nonce result }
    ensures others { KeepsOthersIfHonest (S.seen store.old) (S.seen store.new) notice_pair }
    ensures saves { OnOk result (MaySave (S.seen store.old)) }
    ensures refused { IfErr result (NoticeNotKept (S.seen store.old) (S.seen store.new) nonce) }
    ensures plain { ¬ (IsErrOf result NoticeFault.OutOfMemory) }
    ensures store_memory { IsErrOf result notice_save_out_of_memory → S.may_refuse }
    ensures proceeds { Proceeds (S.seen store.old) (S.seen store.new) }
{
    store.save(&NOTICES, nonce).map_err(NoticeFault::StoreSave)
}
