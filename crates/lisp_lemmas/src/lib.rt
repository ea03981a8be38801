//! Lemmas on lists that the proofs of several crates cite. It has no code, and no contract depends on it.
#![tactic(auto)]
