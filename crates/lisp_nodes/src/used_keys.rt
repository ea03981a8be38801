//! The keys that a router used.

ghost use Rattle.std.specs.Prelude.{◌≡◌, ℕ, ◌<◌, ◌==◌, false, true, replicate, slice_set};
ghost use Rattle.lisp_refinement.specs.World.{key_count, is_used, UsesKey, UsesKeyAfterLoss};
ghost use Rattle.lisp_nodes.specs.Cores.{first_used, AddsAll};

use std::marker::Model;

/// By Key ID, the keys that a router was started under or went over to, a start that was refused counting.
#[derive(Drop)]
pub(crate) struct UsedKeys {
    // Those since its store was lost last, and those before that.
    since_loss: [bool; 256],
    before_loss: [bool; 256],
}

impl Model for UsedKeys {
    ghost use Rattle.lisp_refinement.specs.World.{UsedKeysState};

    ghost Value = { UsedKeysState };

    ghost view = { λ u. record { since_loss = u.since_loss; before_loss = u.before_loss } };
}

impl UsedKeys {
    /// Those of a router that was started under this key and no other.
    pub(crate) fn of(key: u8) -> UsedKeys
        ensures { result ≡ first_used key }
    {
        UsedKeys {
            since_loss: only(key),
            before_loss: [false; 256],
        }
    }

    /// The router goes over to a key.
    pub(crate) fn add(&mut self, key: u8)
        ensures { UsesKey self.old self.new key }
    {
        self.since_loss[usize::from(key)] = true;
    }

    /// Its store is lost, and it is to start under a key.
    pub(crate) fn lose(&mut self, key: u8)
        ensures { UsesKeyAfterLoss self.old self.new key }
    {
        add_all(&mut self.before_loss, &self.since_loss);
        self.since_loss = only(key);
    }

    /// Whether it used a key since its store was lost last.
    pub(crate) fn since_loss(&self, key: u8) -> bool
        ensures { result ≡ is_used self.now.since_loss key }
    {
        self.since_loss[usize::from(key)]
    }

    /// Whether it used a key before that.
    pub(crate) fn before_loss(&self, key: u8) -> bool
        ensures { result ≡ is_used self.now.before_loss key }
    {
        self.before_loss[usize::from(key)]
    }
}

// This key and no other.
fn only(key: u8) -> [bool; 256]
    ensures set { result ≡ slice_set (replicate key_count false) key true }
    ensures alone { (k : ℕ) → k < key_count → is_used result k ≡ (k == key) }
{
    let mut used = [false; 256];
    used[usize::from(key)] = true;
    used
}

// Keys count as used that are among these or those.
fn add_all(used: &mut [bool; 256], more: &[bool; 256])
    ensures { AddsAll used.old more.now used.new }
{
    for key in 0..used.len() {
        used[key] = more[key] || used[key];
    }
}
