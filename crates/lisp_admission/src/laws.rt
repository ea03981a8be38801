//! What holds of sites and their limits: each function's contract is a law.

ghost use Rattle.lisp_admission.specs.Unlimited.{NoLimitsChangeNothing};
ghost use Rattle.lisp_admission.specs.Extended.{MoreSitesAdmitMore};

/// Where no site has limits, each Map-Register fails the check that it failed before there were limits, or passes as it did, from
/// any address; no nonce is too far above the last one, and no site has limits on what is held of it.
#[tactic(auto, using(crate::proofs::Unlimited::no_limits_change_nothing))]
pub fn no_limits_change_nothing()
    ensures { NoLimitsChangeNothing }
{}

/// Sites that have all that others have let in all that those do: a Map-Register that passes all checks up to its nonce under those passes
/// them under these, with the same secret.
pub fn more_sites_admit_more()
    ensures { MoreSitesAdmitMore }
{}
