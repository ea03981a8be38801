//! A store is armed with what is to become of its calls.

ghost use Rattle.lisp_refinement.specs.Calls.{Arms};

use lisp_nonces::{Fate, WorldStore};

// Arms a store for the call of an event; with `Done` after it.
pub(crate) fn arm<S: WorldStore>(store: &mut S, fate: Fate)
    ensures { Arms (S.seen store.old) fate (S.seen store.new) }
{
    store.arm(fate);
}
