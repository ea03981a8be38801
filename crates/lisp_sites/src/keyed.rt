//! Elements that are told apart by keys.

ghost use Rattle.std.specs.Prelude.{◌≡◌, [], ◌∷◌, ◌++◌, OnOk, OnErr, IfErr};
ghost use Rattle.std.specs.List.{list_any};
ghost use Rattle.lisp_sites.specs.Keys.{AddsKeyed, KeepsKeyed};
ghost use Rattle.lisp_sites.specs.declared.fault.ConfigFault.TheVariants.{OutOfMemory};

use crate::fault::ConfigFault;
use lisp_memory::{FallibleSet, FallibleVec, Memory};
use std::alloc::Allocator;
use std::collections::BTreeSet;
use std::marker::Model;

/// What is told apart by a key.
pub(crate) trait HasKey {
    type Key: Ord + Copy;

    ghost key: { Self → Self.Key };

    /// Its key.
    fn key(&self) -> Self::Key
        ensures { result ≡ key self.now };
}

/// Elements in the order of the file, with their keys.
#[derive(Drop)]
pub(crate) struct Keyed<T: HasKey, A: Allocator> {
    items: Vec<T, A>,
    keys: BTreeSet<T::Key, A>,
}

impl<T: HasKey, A: Allocator> Model for Keyed<T, A> {
    ghost use Rattle.std.specs.Prelude.{List};
    ghost use Rattle.lisp_sites.specs.Keys.{AreKeys};

    ghost Value = { List T };

    ghost view = { λ k. k.items.items };

    ghost invariant = { λ k. AreKeys T.Key.cmp T.Key.eq k.keys T.key k.items.items };
}

impl<T: HasKey, A: Memory + Copy> Keyed<T, A> {
    /// No elements; takes no memory.
    #[tactic(auto, using(crate::proofs::Keys::no_keys))]
    pub(crate) fn new(alloc: A) -> Keyed<T, A>
        ensures { result ≡ [] }
    {
        Keyed {
            items: Vec::new(alloc),
            keys: BTreeSet::new(alloc),
        }
    }

    /// Adds an element behind the others.
    pub(crate) fn push(&mut self, item: T) -> Result<(), ConfigFault>
    where
        T: Copy,
        ensures added { OnOk result (self.new ≡ self.old ++ item ∷ []) }
        ensures memory { IfErr result (λ fault. (fault ≡ OutOfMemory) × A.may_refuse) }
    {
        add(&mut self.items, &mut self.keys, item, item.key())
    }
}

impl<T: HasKey, A: Allocator> Keyed<T, A> {
    /// Whether one of them has the key.
    pub(crate) fn has(&self, key: &T::Key) -> bool
        ensures { result ≡ list_any (λ x. T.Key.eq (T.key x) key.now) self.now }
    {
        self.keys.contains(key)
    }

    /// The elements in their order; their keys are no longer kept.
    pub(crate) fn into_vec(self) -> Vec<T, A>
        ensures { result.items ≡ self }
    {
        self.items
    }
}

// Adds an element and its key.
fn add<T: Copy, K: Ord + Copy, A: Memory + Copy>(
    items: &mut Vec<T, A>,
    keys: &mut BTreeSet<K, A>,
    item: T,
    key: K,
) -> Result<(), ConfigFault>
    ensures added { OnOk result (AddsKeyed K.cmp items.old items.new item keys.old keys.new key) }
    ensures same { OnErr result (KeepsKeyed items.old items.new keys.old keys.new) }
    ensures memory { IfErr result (λ fault. (fault ≡ OutOfMemory) × A.may_refuse) }
{
    items.make_room(1)?;
    keys.try_insert(key)?;
    items.push_reserved(item);
    Ok(())
}

impl HasKey for usize {
    type Key = usize;

    ghost key = { λ place. place };

    fn key(&self) -> usize {
        *self
    }
}
