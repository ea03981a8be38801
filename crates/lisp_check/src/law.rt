//! Which warnings are given, and what is warned of where a network can't be made, as laws: the contract of each is the law, and its body is
//! empty.

ghost use Rattle.std.specs.Prelude.{◌↔◌};
ghost use Rattle.std.specs.List.{Contains};
ghost use Rattle.lisp_policy.specs.Configuration.{ConfigValue};
ghost use Rattle.lisp_check.specs.Warning.{IsWarned, AddressesAreWarned, IdentitiesAreWarned, all_warnings};
ghost use Rattle.lisp_check.specs.declared.warning.Warning.{Warning};

/// The warnings that `warnings` gives are exactly those that a configuration has.
pub fn warnings_are_exact()
    ensures { (c : ConfigValue) (w : Warning) → Contains (all_warnings c) w ↔ IsWarned c w }
{}

/// Of the address of two nodes, and of the identity of two routers, it is warned exactly where they keep a configuration from
/// being a network's (74).
pub fn repeats_are_warned()
    ensures addresses { (c : ConfigValue) → AddressesAreWarned c }
    ensures identities { (c : ConfigValue) → IdentitiesAreWarned c }
{}
