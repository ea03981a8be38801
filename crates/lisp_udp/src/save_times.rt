//! How long a node's saves take.

ghost use Rattle.std.specs.Prelude.{◌≡◌};

use lisp_nonces::{Fate, NonceStore, Pair, StoreFault, WorldStore};
use std::cell::Cell;
use std::time::{Clock, Instant};

/// How long the longest save took since the start, in ms; 0 before the first. Where the clock can't be read, a save isn't counted.
#[derive(Drop)]
pub struct SaveTimes<'a, R> {
    rt: &'a R,
    longest: Cell<u64>,
}

impl<'a, R: Clock> SaveTimes<'a, R> {
    pub fn new(rt: &'a R) -> SaveTimes<'a, R> {
        SaveTimes {
            rt,
            longest: Cell::new(0),
        }
    }

    /// A save begins now.
    pub fn begin(&self) -> Option<Instant> {
        Instant::now(self.rt).ok()
    }

    /// The save that began then ends.
    pub fn end(&self, begun: Option<Instant>) {
        let Some(begun) = begun else {
            return;
        };
        if let Ok(passed) = begun.elapsed(self.rt) {
            let ms = u64::try_from(passed.as_millis()).unwrap_or(u64::MAX);
            self.longest.set(self.longest.get().max(ms));
        }
    }

    /// How long the longest took, in ms.
    pub fn longest(&self) -> u64 {
        self.longest.get()
    }
}

/// A store whose saves are timed. It is the store in it: each call is handed on.
#[derive(Drop)]
pub struct TimedStore<'a, R, S> {
    store: S,
    times: &'a SaveTimes<'a, R>,
}

impl<'a, R: Clock, S: NonceStore> TimedStore<'a, R, S> {
    /// A store whose saves are timed from now on.
    pub fn over(store: S, times: &'a SaveTimes<'a, R>) -> TimedStore<'a, R, S>
        ensures { (⟦<Self as NonceStore>⟧.seen result) ≡ S.seen store }
    {
        TimedStore { store, times }
    }
}

impl<R: Clock, S: NonceStore> NonceStore for TimedStore<'_, R, S> {
    ghost seen = { λ s. S.seen s.store };

    ghost may_refuse = { S.may_refuse };

    fn load(&mut self, pair: &Pair) -> Result<Option<u64>, StoreFault> {
        self.store.load(pair)
    }

    fn save(&mut self, pair: &Pair, nonce: u64) -> Result<(), StoreFault> {
        let begun = self.times.begin();
        let saved = self.store.save(pair, nonce);
        self.times.end(begun);
        saved
    }
}

impl<R: Clock, S: WorldStore> WorldStore for TimedStore<'_, R, S> {
    fn arm(&mut self, fate: Fate) {
        self.store.arm(fate);
    }

    fn restart(&mut self, pick: u64) {
        self.store.restart(pick);
    }

    fn lose(&mut self) {
        self.store.lose();
    }
}
