//! What holds of pairs: each function's contract is a law, and its body is empty.

ghost use Rattle.std.specs.Prelude.{◌≡◌};
ghost use Rattle.lisp_nonces.specs.Pair.{pair_cmp};
ghost use Rattle.lisp_nonces.specs.declared.pair.Pair.{Pair as PairValue};

use crate::pair::Pair;

/// Pairs are ordered by kind, then router, then key.
pub fn pair_order()
    ensures { (a b : PairValue) → ⟦<Pair as Ord>⟧.cmp a b ≡ pair_cmp a b }
{}
