//! A store in memory, for worlds and tests.

ghost use Rattle.std.specs.Prelude.{◌≡◌, ◌≢◌, ◌↔◌, ◌<◌, ◌≤◌, [], ◌∷◌, Some, None, Ok, Err, IsTrue, IfOk, IfErr, OnOk, OnErr, IsErrOf, All, length, map, slice_index_or};
ghost use Rattle.std.specs.List.{Contains, position};
ghost use Rattle.lisp_nonces.specs.Kept.{kept_at, with_value, picked, SameElsewhere, PairInDoubt, NarrowsEach, PicksEach, KeepsSome};
ghost use Rattle.std.specs.FinMap.{empty};
ghost use Rattle.lisp_nonces.specs.Store.{StoreState, Proceeds, MayLoad, MaySave};
ghost use Rattle.lisp_nonces.specs.Memory.{MemoryStoreState, memory_state, failed_once, saved, loaded, after_load, save_answer, faults_after_save, empty_memory, SeenAsBefore, DeviceFailed, HasMemory, SavesByFate, IsArmedToDoubt, KeepsToo};
ghost use Rattle.lisp_nonces.specs.Entries.{kept_of, is_of, narrowed, HasValues, KeepsOtherEntries};
ghost use Rattle.lisp_nonces.specs.declared.fault.StoreFault.{StoreFault};
ghost use Rattle.lisp_nonces.specs.declared.fate.Fate.{Fate};
ghost use Rattle.lisp_nonces.specs.Promises.{IsOfDevice, LoadFailsAsArmed, SameObedience, ShowsFateIfObedient, QuietIfObedient, PicksIfObedient};

use crate::fate::Fate;
use crate::fault::StoreFault;
use crate::pair::Pair;
use crate::store::{NonceStore, WorldStore};
use lisp_memory::{FallibleCopies, FallibleVec, Memory};
use std::alloc::{AllocError, Allocator, Global};
use std::marker::Model;

/// What is kept for a pair of which nothing was ever saved.
const NOTHING: [Option<u64>; 1] = [None];

/// The values that may be kept for a pair, at least one.
#[derive(Debug, Drop)]
struct Entry<A: Allocator> {
    pair: Pair,
    values: Vec<Option<u64>, A>,
}

impl<A: Allocator> Model for Entry<A> {
    ghost use Rattle.std.specs.Prelude.{◌<◌, length};
    ghost use Rattle.lisp_nonces.specs.Entries.{EntryValue};

    ghost Value = { EntryValue };

    ghost view = { λ e. record { pair = e.pair; values = e.values.items } };

    ghost invariant = { λ e. 0 < length e.values.items };
}

impl<A: Allocator> Entry<A> {
    // Leaves of the values the one at a place, or the last.
    fn narrow(&mut self, pick: u64)
        ensures pair { self.new.pair ≡ self.old.pair }
        ensures values { self.new.values ≡ picked self.old.values pick ∷ [] }
        ensures some { HasValues self.old }
    {
        let last = self.values.len() - 1;
        let place = if pick < last as u64 {
            pick as usize
        } else {
            last
        };
        self.values.swap(0, place);
        self.values.truncate(1);
    }

    fn values(&self) -> &[Option<u64>]
        ensures value { result.now ≡ self.now.values }
        ensures some { 0 < length result.now }
    {
        &self.values
    }
}

/// A store in memory, honest and obedient: it does what it is armed with.
#[derive(Debug, Drop)]
pub struct MemoryStore<A: Allocator = Global> {
    alloc: A,
    entries: Vec<Entry<A>, A>,
    faults: u64,
    fate: Fate,
}

impl<A: Allocator> Model for MemoryStore<A> {
    ghost use Rattle.lisp_nonces.specs.Memory.{MemoryStoreState};
    ghost use Rattle.lisp_nonces.specs.Entries.{kept_of};
    ghost use Rattle.lisp_nonces.specs.Kept.{kept_code};
    ghost use Rattle.std.specs.Coded.{codes};

    ghost Value = { MemoryStoreState };

    ghost coded = { Prim.hlevel (codes, kept_code) };

    ghost view = { λ s. record { kept = kept_of s.entries.items; faults = s.faults; fate = s.fate } };
}

impl<A: Allocator + Copy> MemoryStore<A> {
    /// A store that keeps nothing of every pair, with no fault, armed with `Done`; takes no memory.
    #[tactic(auto, unfolding(crate::specs::Entries::kept_of))]
    pub fn new(alloc: A) -> MemoryStore<A>
        ensures { result ≡ empty_memory }
    {
        MemoryStore {
            alloc,
            entries: Vec::new(alloc),
            faults: 0,
            fate: Fate::Done,
        }
    }
}

impl<A: Allocator> MemoryStore<A> {
    /// A pair that something was saved for, by its place, from 0 on; `None` at a place behind the last.
    pub fn pair_at(&self, place: usize) -> Option<Pair> {
        Some(self.entries.get(place)?.pair)
    }

    /// The values that may be kept for a pair, at least one: more only where saves were in doubt, `None` where nothing was saved.
    pub fn kept(&self, pair: &Pair) -> &[Option<u64>]
        ensures values { result.now ≡ kept_at self.now.kept pair.now }
        ensures some { 0 < length result.now }
    {
        values_of(&self.entries, pair)
    }

    /// Counts that a device failed.
    pub fn count_fault(&mut self)
        ensures once { self.new ≡ failed_once self.old }
        ensures rises { self.old.faults ≤ self.new.faults }
    {
        self.faults = self.faults.saturating_add(1);
    }
}

impl<A: Memory + Copy> NonceStore for MemoryStore<A> {
    ghost seen = { memory_state };

    ghost may_refuse = { A.may_refuse };

    /// The first of the values that may be kept; `Device` where it is armed with `LoadFails`. Takes no
    /// memory.
    fn load(&mut self, pair: &Pair) -> Result<Option<u64>, StoreFault>
        // The answer, exactly.
        ensures answer { result ≡ loaded self.old.fate (kept_at self.old.kept pair.now) }
        ensures after { self.new ≡ after_load self.old }

        // What every store promises.
        ensures member { IfOk result (λ v. Contains (kept_at self.old.kept pair.now) v) }
        ensures same { self.new.kept ≡ self.old.kept }
        ensures loads { OnOk result (MayLoad (memory_state self.old)) }
        ensures load_fails { IfErr result (LoadFailsAsArmed (memory_state self.old)) }
        ensures cause { IfErr result (IsOfDevice (memory_state self.old) (memory_state self.new)) }
        ensures refused { IsErrOf result StoreFault.OutOfMemory → SeenAsBefore self.old self.new }
        ensures memory { IsErrOf result StoreFault.OutOfMemory → A.may_refuse }
        ensures proceeds { Proceeds (memory_state self.old) (memory_state self.new) }
    {
        if load_fails(self.fate) {
            self.faults = self.faults.saturating_add(1);
            return Err(StoreFault::Device);
        }
        Ok(first(values_of(&self.entries, pair)))
    }

    /// Keeps the nonce alone; where it is armed with `Doubt` it keeps it after what may be kept, once, and
    /// answers `Device`.
    fn save(&mut self, pair: &Pair, nonce: u64) -> Result<(), StoreFault>
        // Exactly, where there is memory for it.
        ensures answer { HasMemory result → result ≡ save_answer self.old.fate }
        ensures values { HasMemory result → SavesByFate self.old self.new pair.now nonce }
        ensures faults { HasMemory result → self.new.faults ≡ faults_after_save self.old }
        ensures fate { self.new.fate ≡ self.old.fate }

        // What every store promises.
        ensures done { OnOk result (kept_at self.new.kept pair.now ≡ Some nonce ∷ []) }
        ensures doubt { OnErr result (PairInDoubt self.old.kept self.new.kept pair.now nonce) }
        ensures others { SameElsewhere self.old.kept self.new.kept pair.now }
        ensures saves { OnOk result (MaySave (memory_state self.old)) }
        ensures save_fails { IsErrOf result StoreFault.Device → IsArmedToDoubt self.old }
        ensures doubted { KeepsToo self.old self.new pair.now nonce result }
        ensures sound { result ≢ Err StoreFault.Damaged }
        ensures cause { IsErrOf result StoreFault.Device → DeviceFailed self.old self.new }
        ensures refused { IsErrOf result StoreFault.OutOfMemory → SeenAsBefore self.old self.new }
        ensures memory { IsErrOf result StoreFault.OutOfMemory → A.may_refuse }
        ensures proceeds { Proceeds (memory_state self.old) (memory_state self.new) }
    {
        self.keep(pair, nonce)?;
        if self.fate == Fate::Doubt {
            self.faults = self.faults.saturating_add(1);
            return Err(StoreFault::Device);
        }
        Ok(())
    }
}

impl<A: Memory + Copy> MemoryStore<A> {
    // Keeps what a save leaves of a pair.
    fn keep(&mut self, pair: &Pair, nonce: u64) -> Result<(), AllocError>
        ensures here { OnOk result (SavesByFate self.old self.new pair.now nonce) }
        ensures others { SameElsewhere self.old.kept self.new.kept pair.now }
        ensures faults { self.new.faults ≡ self.old.faults }
        ensures fate { self.new.fate ≡ self.old.fate }
        ensures err { OnErr result (self.new ≡ self.old) }
        ensures memory { OnErr result A.may_refuse }
    {
        let values = saved_values(self.alloc, self.fate, values_of(&self.entries, pair), nonce)?;
        set(&mut self.entries, *pair, values)
    }
}

impl<A: Memory + Copy> WorldStore for MemoryStore<A> {
    /// Takes no memory.
    fn arm(&mut self, fate: Fate)
        // Exactly.
        ensures armed { self.new ≡ record self.old { fate = fate } }

        // What every store promises.
        ensures kept { (memory_state self.new).kept ≡ (memory_state self.old).kept }
        ensures count { (memory_state self.new).faults ≡ (memory_state self.old).faults }
        ensures honest { (memory_state self.new).is_honest ≡ (memory_state self.old).is_honest }
        ensures obedient { SameObedience (memory_state self.old) (memory_state self.new) }
        ensures fate { ShowsFateIfObedient (memory_state self.old) (memory_state self.new) fate }
        ensures quiet { QuietIfObedient (memory_state self.old) (memory_state self.new) fate }
    {
        self.fate = fate;
    }

    /// Of the values that may be kept for a pair the one at place `pick` is left, or the last. Takes no
    /// memory.
    fn restart(&mut self, pick: u64)
        // Exactly.
        ensures exactly { PicksEach self.old.kept self.new.kept pick }
        ensures faults { self.new.faults ≡ self.old.faults }
        ensures fate { self.new.fate ≡ self.old.fate }

        // What every store promises.
        ensures narrows { NarrowsEach self.old.kept self.new.kept }
        ensures picks { PicksIfObedient (memory_state self.old) (memory_state self.new) pick }
        ensures proceeds { Proceeds (memory_state self.old) (memory_state self.new) }
    {
        narrow(&mut self.entries, pick);
    }

    /// Nothing is kept of any pair. Takes no memory.
    #[tactic(auto, unfolding(crate::specs::Entries::kept_of))]
    fn lose(&mut self)
        // Exactly.
        ensures exactly { self.new ≡ record self.old { kept = empty } }

        // What every store promises.
        ensures some { KeepsSome self.new.kept }
        ensures proceeds { Proceeds (memory_state self.old) (memory_state self.new) }
    {
        self.entries.clear();
    }
}

// Whether loads fail.
fn load_fails(fate: Fate) -> bool
    ensures { IsTrue result ↔ (fate ≡ Fate.LoadFails) }
{
    match fate {
        Fate::LoadFails => true,
        Fate::Done | Fate::Doubt => false,
    }
}

// The first of the values that may be kept.
fn first(values: &[Option<u64>]) -> Option<u64>
    requires { 0 < length values.now }
    ensures value { result ≡ slice_index_or values.now 0 None }
    ensures member { Contains values.now result }
{
    values[0]
}

// The values that may be kept for a pair.
fn values_of<'a, A: Allocator>(entries: &'a [Entry<A>], pair: &Pair) -> &'a [Option<u64>]
    ensures values { result.now ≡ kept_at (kept_of entries.now) pair.now }
    ensures some { 0 < length result.now }
{
    match place(entries, pair) {
        Some(i) => entries[i].values(),
        None => &NOTHING,
    }
}

// The place of the first entry of a pair.
fn place<A: Allocator>(entries: &[Entry<A>], pair: &Pair) -> Option<usize>
    ensures { result ≡ position (is_of pair.now) entries.now }
{
    entries.iter().position(|entry| pair.is_same(&entry.pair))
}

// The values that a save leaves.
fn saved_values<A: Memory>(
    alloc: A,
    fate: Fate,
    values: &[Option<u64>],
    nonce: u64,
) -> Result<Vec<Option<u64>, A>, AllocError>
    requires { 0 < length values.now }
    ensures values { IfOk result (λ v. v.items ≡ saved fate values.now nonce) }
    ensures some { IfOk result (λ v. 0 < length v.items) }
    ensures memory { OnErr result A.may_refuse }
{
    match fate {
        Fate::Doubt => with_value(alloc, values, nonce),
        Fate::Done | Fate::LoadFails => Vec::try_from_slice(alloc, &[Some(nonce)]),
    }
}

// The values, and the nonce where it is not among them.
fn with_value<A: Memory>(
    alloc: A,
    values: &[Option<u64>],
    nonce: u64,
) -> Result<Vec<Option<u64>, A>, AllocError>
    requires { 0 < length values.now }
    ensures values { IfOk result (λ v. v.items ≡ with_value values.now nonce) }
    ensures some { IfOk result (λ v. 0 < length v.items) }
    ensures memory { OnErr result A.may_refuse }
{
    let mut kept = Vec::try_from_slice(alloc, values)?;
    if values.contains(&Some(nonce)) {
        return Ok(kept);
    }
    kept.try_push(Some(nonce))?;
    Ok(kept)
}

// Makes the values those of the pair.
fn set<A: Memory>(
    entries: &mut Vec<Entry<A>, A>,
    pair: Pair,
    values: Vec<Option<u64>, A>,
) -> Result<(), AllocError>
    requires { 0 < length values.items }
    ensures here { OnOk result (kept_at (kept_of entries.new.items) pair ≡ values.items) }
    ensures others { OnOk result (KeepsOtherEntries entries.old.items entries.new.items pair) }
    ensures err { OnErr result (entries.new.items ≡ entries.old.items) }
    ensures memory { OnErr result A.may_refuse }
{
    let entry = Entry { pair, values };
    match place(entries, &pair) {
        Some(i) => entries[i] = entry,
        None => entries.try_push(entry)?,
    }
    Ok(())
}

// Leaves of each pair's values the one at a place, or the last.
fn narrow<A: Allocator>(entries: &mut [Entry<A>], pick: u64)
    ensures narrowed { entries.new ≡ map (narrowed pick) entries.old }
    ensures some { All HasValues entries.old }
{
    for entry in entries.iter_mut() {
        entry.narrow(pick);
    }
}
