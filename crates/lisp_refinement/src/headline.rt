//! The headline, as the contract of a law: its body is empty.

ghost use Rattle.lisp_refinement.specs.World.{WorldState};
ghost use Rattle.lisp_refinement.specs.Headline.{Promises};

/// After any schedule, a Map-Server lists for each router and EID-Prefix exactly the live record that the router's
/// database had when it sent the latest Map-Register naming that prefix which the Map-Server accepted since its start;
/// the nonces that it accepts of a router under a key rise, over its restarts too; two Map-Servers that list a prefix
/// from sends with no change between them list equal records; and each Map-Register that a router counted as
/// acknowledged was accepted by that Map-Server (RFC 9301 sections 5.6, 5.7 and 8.2).
pub fn networks_promise()
    ensures { (w : WorldState) → Promises w }
{}
