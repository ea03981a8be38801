//! A store of which one call fails, for tests.

ghost use Rattle.std.specs.Prelude.{◌≡◌, ◌-◌, [], ◌∷◌, Some, Ok, Err, IfOk, IfErr, OnOk, OnErr, IsErrOf, IsTrue, ◌≢◌, if◌then◌else◌};
ghost use Rattle.std.specs.List.{Contains};
ghost use Rattle.lisp_nonces.specs.Kept.{kept_at, SameElsewhere, PicksEach, NarrowsEach, KeepsSome};
ghost use Rattle.lisp_nonces.specs.Store.{Proceeds};
ghost use Rattle.lisp_nonces.specs.Memory.{MemoryStoreState, failed_once, empty_memory, HasMemory};
ghost use Rattle.lisp_store.specs.Failing.{FailingState, failing_state, fails, failing_load, failing_after_load, failing_save, failing_faults, SeenAsBefore, DeviceFailed, FailsByDevice, memory_counted, failing_armed, failing_lost, SavesUnlessFailing, LeavesInDoubt};
ghost use Rattle.lisp_nonces.specs.declared.fault.StoreFault.{StoreFault};

use lisp_memory::Memory;
use lisp_nonces::{Fate, MemoryStore, NonceStore, Pair, StoreFault, WorldStore};
use std::alloc::{Allocator, Global};
use std::marker::Model;

/// A store in memory of which one load or save fails once, as `Device`; what it kept it keeps, and goes on with.
#[derive(Debug, Drop)]
pub struct Failing<A: Allocator = Global> {
    memory: MemoryStore<A>,
    turn: u64,
}

impl<A: Allocator> Model for Failing<A> {
    ghost use Rattle.lisp_store.specs.Failing.{FailingState};
    ghost use Rattle.lisp_nonces.specs.Kept.{kept_code};
    ghost use Rattle.std.specs.Coded.{codes};

    ghost Value = { FailingState };

    ghost coded = { Prim.hlevel (codes, kept_code) };

    ghost view = { λ f. record { memory = f.memory; turn = f.turn } };
}

impl<A: Allocator + Copy> Failing<A> {
    /// A store that keeps nothing of every pair, and whose load or save number `turn`, counted from 1, fails; none where
    /// `turn` is 0. Takes no memory.
    pub fn new(alloc: A, turn: u64) -> Failing<A>
        ensures { result ≡ record { memory = empty_memory; turn = turn } }
    {
        let memory = MemoryStore::new(alloc);
        Failing { memory, turn }
    }
}

impl<A: Allocator> Failing<A> {
    // Counts a load or save: `Device` where it is the one that fails.
    fn count(&mut self) -> Result<(), StoreFault>
        ensures fails { result ≡ (if fails self.old then Err StoreFault.Device else Ok tt) }
        ensures turn { self.new.turn ≡ self.old.turn - 1 }
        ensures memory { self.new.memory ≡ memory_counted self.old }
        ensures rose { OnErr result (DeviceFailed self.old self.new) }
        ensures proceeds { Proceeds (failing_state self.old) (failing_state self.new) }
    {
        let turn = self.turn;
        self.turn = turn.saturating_sub(1);
        if turn == 1 {
            self.memory.count_fault();
            return Err(StoreFault::Device);
        }
        Ok(())
    }
}

impl<A: Memory + Copy> NonceStore for Failing<A> {
    ghost seen = { failing_state };

    ghost may_refuse = { A.may_refuse };

    /// As the store in memory; `Device` where this is the call that fails.
    fn load(&mut self, pair: &Pair) -> Result<Option<u64>, StoreFault>
        // Exactly.
        ensures answer { result ≡ failing_load self.old pair.now }
        ensures after { self.new ≡ failing_after_load self.old }

        // What every store promises.
        ensures member { IfOk result (λ v. Contains (kept_at self.old.memory.kept pair.now) v) }
        ensures same { self.new.memory.kept ≡ self.old.memory.kept }
        ensures cause { IfErr result (FailsByDevice self.old self.new) }
        ensures refused { IsErrOf result StoreFault.OutOfMemory → SeenAsBefore self.old self.new }
        ensures memory { IsErrOf result StoreFault.OutOfMemory → A.may_refuse }
        ensures proceeds { Proceeds (failing_state self.old) (failing_state self.new) }
    {
        self.count()?;
        self.memory.load(pair)
    }

    /// As the store in memory; `Device` where this is the call that fails: the nonce isn't kept then.
    fn save(&mut self, pair: &Pair, nonce: u64) -> Result<(), StoreFault>
        // Exactly, where there is memory for it.
        ensures answer { HasMemory result → result ≡ failing_save self.old }
        ensures values { HasMemory result → SavesUnlessFailing self.old self.new pair.now nonce }
        ensures faults { HasMemory result → self.new.memory.faults ≡ failing_faults self.old }
        ensures fate { self.new.memory.fate ≡ self.old.memory.fate }
        ensures turn { self.new.turn ≡ self.old.turn - 1 }
        ensures goes_on { IsTrue (fails self.old) → self.new.memory ≡ failed_once self.old.memory }

        // What every store promises.
        ensures done { OnOk result (kept_at self.new.memory.kept pair.now ≡ Some nonce ∷ []) }
        ensures doubt { OnErr result (LeavesInDoubt self.old self.new pair.now nonce) }
        ensures others { SameElsewhere self.old.memory.kept self.new.memory.kept pair.now }
        ensures sound { result ≢ Err StoreFault.Damaged }
        ensures cause { IsErrOf result StoreFault.Device → DeviceFailed self.old self.new }
        ensures refused { IsErrOf result StoreFault.OutOfMemory → SeenAsBefore self.old self.new }
        ensures memory { IsErrOf result StoreFault.OutOfMemory → A.may_refuse }
        ensures proceeds { Proceeds (failing_state self.old) (failing_state self.new) }
    {
        self.count()?;
        self.memory.save(pair, nonce)
    }
}

impl<A: Memory + Copy> WorldStore for Failing<A> {
    /// Arms the store in memory.
    fn arm(&mut self, fate: Fate)
        ensures armed { self.new ≡ failing_armed self.old fate }
    {
        self.memory.arm(fate);
    }

    /// Restarts the store in memory.
    fn restart(&mut self, pick: u64)
        // Exactly.
        ensures exactly { PicksEach self.old.memory.kept self.new.memory.kept pick }
        ensures faults { self.new.memory.faults ≡ self.old.memory.faults }
        ensures fate { self.new.memory.fate ≡ self.old.memory.fate }
        ensures turn { self.new.turn ≡ self.old.turn }

        // What every store promises.
        ensures narrows { NarrowsEach self.old.memory.kept self.new.memory.kept }
        ensures proceeds { Proceeds (failing_state self.old) (failing_state self.new) }
    {
        self.memory.restart(pick);
    }

    /// Loses what the store in memory kept.
    fn lose(&mut self)
        // Exactly.
        ensures exactly { self.new ≡ failing_lost self.old }

        // What every store promises.
        ensures some { KeepsSome self.new.memory.kept }
        ensures proceeds { Proceeds (failing_state self.old) (failing_state self.new) }
    {
        self.memory.lose();
    }
}
