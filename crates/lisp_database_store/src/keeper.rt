//! What keeps the nonces of a store.

ghost use Rattle.std.specs.Prelude.{◌≡◌, [], ◌∷◌, Some, IfOk, IfErr, OnOk, OnErr, IsTrue};
ghost use Rattle.std.specs.List.{Contains};
ghost use Rattle.lisp_nonces.specs.declared.fault.StoreFault.{StoreFault};
ghost use Rattle.lisp_nonces.specs.Kept.{kept_at, SameElsewhere, PairInDoubt, KeepsSome};

use crate::failure::Failure;
use lisp_nonces::Pair;

/// What keeps the nonces of a `DatabaseStore`: a database of its own, each of whose saves is committed by itself, or one that is
/// shared, whose saves wait for a commit. What is said of values is said of honest keepers.
pub trait Keeper: Drop {
    ghost use Rattle.std.specs.Prelude.{ℕ, Option};
    ghost use Rattle.lisp_nonces.specs.declared.pair.Pair.{Pair};
    ghost use Rattle.lisp_database_store.specs.Keeper.{KeeperState};

    ghost seen: { Self → KeeperState };

    /// A load found a nonce for a pair, or nothing.
    ghost finds: { Self → Self → Pair → Option ℕ → Type 0 };

    /// A save kept a nonce for a pair.
    ghost saves: { Self → Self → Pair → ℕ → Type 0 };

    /// The nonce that is kept for the pair, `None` for nothing. `Damaged` where its row has another form.
    fn load_nonce(&mut self, pair: &Pair) -> Result<Option<u64>, Failure>
        ensures found { IfOk result (finds self.old self.new pair.now) }

        // The answer is a value that may be kept, and no list changes.
        ensures member { IsTrue (seen self.old).is_honest
            → IfOk result (λ value. Contains (kept_at (seen self.old).kept pair.now) value) }
        ensures same { IsTrue (seen self.old).is_honest
            → (seen self.new).kept ≡ (seen self.old).kept }
        ensures honest { (seen self.new).is_honest ≡ (seen self.old).is_honest }
        ensures refused { IfErr result (λ failure. failure.fault ≡ StoreFault.OutOfMemory
            → seen self.new ≡ seen self.old) };

    /// Keeps the nonce for the pair. `Device` whatever failed: a commit may have been under way.
    fn save_nonce(&mut self, pair: &Pair, nonce: u64) -> Result<(), Failure>
        ensures saved { OnOk result (saves self.old self.new pair.now nonce) }

        // Done: this value alone is kept. Not done: what was kept may be, and perhaps this value.
        ensures done { IsTrue (seen self.old).is_honest
            → OnOk result (kept_at (seen self.new).kept pair.now ≡ Some nonce ∷ []) }
        ensures doubt { IsTrue (seen self.old).is_honest
            → OnErr result (PairInDoubt (seen self.old).kept (seen self.new).kept pair.now nonce) }
        ensures others { IsTrue (seen self.old).is_honest
            → SameElsewhere (seen self.old).kept (seen self.new).kept pair.now }
        ensures honest { (seen self.new).is_honest ≡ (seen self.old).is_honest }
        ensures device { IfErr result (λ failure. failure.fault ≡ StoreFault.Device) };

    /// Some value may be kept for each pair.
    ghost has_values: { (k : Self) → IsTrue (seen k).is_honest → KeepsSome (seen k).kept };
}
