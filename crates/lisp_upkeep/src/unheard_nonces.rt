//! Which nonces of a list are still kept.

ghost use Rattle.std.specs.Prelude.{◌≡◌, ◌++◌, ◌∷◌, [], if◌then◌else◌, IfOk, OnErr, OnOk};
ghost use Rattle.lisp_upkeep.specs.Unheard.{unheard, members_of, AreMembers};

use crate::accepted_nonce::AcceptedNonce;
use lisp_memory::{FallibleSet, FallibleVec, Memory};
use std::alloc::AllocError;
use std::collections::BTreeSet;

/// Those of the nonces that are kept which a list has too, in the order of those that are kept. Since each Map-Register that is accepted
/// raises the nonce, no Map-Register of such a router was accepted under its key since the list was made.
pub fn unheard<A: Memory + Copy>(
    alloc: A,
    listed: &[AcceptedNonce],
    kept: &[AcceptedNonce],
) -> Result<Vec<AcceptedNonce, A>, AllocError>
    ensures unheard { IfOk result (λ found. found.items ≡ unheard listed.now kept.now) }
    ensures memory { OnErr result A.may_refuse }
{
    among(alloc, listed, kept)
}

// Those of the items that are members too.
fn among<K: Ord + Copy, A: Memory + Copy>(
    alloc: A,
    members: &[K],
    items: &[K],
) -> Result<Vec<K, A>, AllocError>
    ensures found { IfOk result (λ found. found.items ≡ members_of K.eq members.now items.now) }
    ensures memory { OnErr result A.may_refuse }
{
    let set = set_of(alloc, members)?;
    let mut found = Vec::new(alloc);
    for item in items {
        push_if(&mut found, *item, set.contains(item))?;
    }
    Ok(found)
}

// The set of these members.
fn set_of<K: Ord + Copy, A: Memory + Copy>(
    alloc: A,
    members: &[K],
) -> Result<BTreeSet<K, A>, AllocError>
    ensures members { IfOk result (λ set. AreMembers K.cmp K.eq set members.now) }
    ensures memory { OnErr result A.may_refuse }
{
    let mut set = BTreeSet::new(alloc);
    for member in members {
        set.try_insert(*member)?;
    }
    Ok(set)
}

// Adds an item, if it is wanted.
fn push_if<T: Copy, A: Memory>(
    items: &mut Vec<T, A>,
    item: T,
    is_wanted: bool,
) -> Result<(), AllocError>
    ensures added { OnOk result (items.new.items
        ≡ items.old.items ++ (if is_wanted then item ∷ [] else [])) }
    ensures memory { OnErr result A.may_refuse }
{
    if is_wanted {
        items.try_push(item)?;
    }
    Ok(())
}
