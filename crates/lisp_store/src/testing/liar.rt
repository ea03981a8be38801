//! A store that isn't honest, for tests.

ghost use Rattle.std.specs.Prelude.{◌≡◌, Ok, false, drop, slice_get};
ghost use Rattle.std.specs.FinMap.{empty};
ghost use Rattle.lisp_nonces.specs.Store.{StoreState};
ghost use Rattle.lisp_nonces.specs.declared.fate.Fate.{Fate};

use lisp_nonces::{Fate, NonceStore, Pair, StoreFault, WorldStore};
use std::alloc::{Allocator, Global};
use std::collections::VecDeque;
use std::marker::Model;

/// A store that keeps nothing and loads, for whatever pair, the nonces that it was given, one after the other, then
/// nothing. It never fails, takes no memory, and is called neither honest nor obedient.
#[derive(Drop)]
pub struct Liar<A: Allocator = Global> {
    nonces: VecDeque<u64, A>,
}

impl<A: Allocator> Model for Liar<A> {
    ghost use Rattle.std.specs.Prelude.{ℕ, List};

    ghost Value = { List ℕ };

    ghost view = { λ l. l.nonces.items };
}

impl<A: Allocator> Liar<A> {
    /// A store that loads these nonces in turn.
    pub fn new(nonces: Vec<u64, A>) -> Liar<A>
        ensures { result ≡ nonces.items }
    {
        Liar {
            nonces: VecDeque::from_vec(nonces),
        }
    }
}

impl<A: Allocator> NonceStore for Liar<A> {
    ghost seen = { λ _. record { kept = empty; faults = 0; is_honest = false; is_quiet = false; is_obedient = false; fate = Fate.Done } };

    ghost may_refuse = { ⊥ };

    /// The next of the nonces.
    fn load(&mut self, _pair: &Pair) -> Result<Option<u64>, StoreFault>
        ensures answer { result ≡ Ok (slice_get self.old 0) }
        ensures rest { self.new ≡ drop 1 self.old }
    {
        Ok(self.nonces.pop_front())
    }

    /// Keeps nothing, and answers done.
    fn save(&mut self, _pair: &Pair, _nonce: u64) -> Result<(), StoreFault>
        ensures answer { result ≡ Ok tt }
        ensures same { self.new ≡ self.old }
    {
        Ok(())
    }
}

impl<A: Allocator> WorldStore for Liar<A> {
    /// Does nothing.
    fn arm(&mut self, _fate: Fate)
        ensures same { self.new ≡ self.old }
    {}

    /// Does nothing.
    fn restart(&mut self, _pick: u64)
        ensures same { self.new ≡ self.old }
    {}

    /// Does nothing.
    fn lose(&mut self)
        ensures same { self.new ≡ self.old }
    {}
}
