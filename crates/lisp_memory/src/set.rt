//! The call of `BTreeSet` that asks for memory.

ghost use Rattle.std.specs.Prelude.{◌≡◌, true, false, not, IfOk, IfErr, OnOk, OnErr};
ghost use Rattle.std.specs.Bool.{OnFalse};
ghost use Rattle.std.specs.BTreeSet.{contains, insert_key, IsOrdered, IsUnchanged, Updates};
ghost use Rattle.lisp_memory.specs.Inserting.{SetGainsKey};

use crate::memory::{Memory, asked};
use std::alloc::AllocFailed;
use std::collections::BTreeSet;

/// `insert` of a `BTreeSet`.
pub trait FallibleSet<K>: Sized {
    fn try_insert(&mut self, key: K) -> Result<bool, AllocFailed<K>>;
}

impl<K: Ord + Drop, A: Memory + Clone> FallibleSet<K> for BTreeSet<K, A> {
    /// As `BTreeSet::insert`: whether the key is new.
    fn try_insert(&mut self, key: K) -> Result<bool, AllocFailed<K>>
        ensures added { IfOk result (λ added. added ≡ not (contains K.cmp self.old key)) }
        ensures updates { OnOk result (Updates K.cmp self.old self.new key true) }
        ensures keys { OnOk result (self.new.keys ≡ insert_key K.cmp self.old.keys key) }
        ensures unchanged { IfOk result (λ added. OnFalse added (IsUnchanged self.old self.new)) }
        ensures len { IfOk result (λ added. SetGainsKey self.old self.new added) }
        ensures value_returned { IfErr result (λ failed. failed.value ≡ key) }
        ensures err { OnErr result (IsUnchanged self.old self.new) }
        ensures absent { OnErr result (contains K.cmp self.old key ≡ false) }
        ensures ordered { IsOrdered K.cmp self.new }
        ensures refused { OnErr result A.may_refuse }
    {
        asked::<A, _, _>(self.insert(key))
    }
}
