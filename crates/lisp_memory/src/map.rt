//! The call of `BTreeMap` that asks for memory.

ghost use Rattle.std.specs.Prelude.{◌≡◌, IsSome, IfOk, IfErr, OnOk, OnErr};
ghost use Rattle.std.specs.declared.option.Option.TheVariants.{None, Some};
ghost use Rattle.std.specs.BTreeMap.{get, keys, IsOrdered, IsUnchanged, Updates};
ghost use Rattle.lisp_memory.specs.Inserting.{MapGainsKey};

use crate::memory::{Memory, asked};
use std::alloc::AllocFailed;
use std::collections::BTreeMap;

/// `insert` of a `BTreeMap`.
pub trait FallibleMap<K, V>: Sized {
    fn try_insert(&mut self, key: K, value: V) -> Result<Option<V>, AllocFailed<(K, V)>>;
}

impl<K: Ord + Drop, V, A: Memory + Clone> FallibleMap<K, V> for BTreeMap<K, V, A> {
    /// As `BTreeMap::insert`: the key's value before.
    fn try_insert(&mut self, key: K, value: V) -> Result<Option<V>, AllocFailed<(K, V)>>
        ensures old { IfOk result (λ old. old ≡ get K.cmp self.old key) }
        ensures updates { OnOk result (Updates K.cmp self.old self.new key (Some value)) }
        ensures keys_stay { IfOk result (λ old. IsSome old → keys self.new ≡ keys self.old) }
        ensures len { IfOk result (λ old. MapGainsKey self.old self.new old) }
        ensures value_returned { IfErr result (λ failed. failed.value ≡ (key, value)) }
        ensures absent { OnErr result (get K.cmp self.old key ≡ None) }
        ensures err { OnErr result (IsUnchanged self.old self.new) }
        ensures ordered { IsOrdered K.cmp self.new }
        ensures was_ordered { IsOrdered K.cmp self.old }
        ensures refused { OnErr result A.may_refuse }
    {
        asked::<A, _, _>(self.insert(key, value))
    }
}
