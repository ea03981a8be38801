//! What holds of Map-Requests that are taken, and of what a node sends for them: each function's contract is a law, and its body is empty.

ghost use Rattle.std.specs.Prelude.{List};
ghost use Rattle.lisp_records.specs.Address.{PrefixValue};
ghost use Rattle.lisp_mapping.specs.Promises.{MapServersStayListed, RepliesAreListed, RepliesOrGoesOn, RoutersStayListed};

use std::alloc::Allocator;

/// A node takes a Map-Request only where one of the prefixes that it replies to has the address that Map-Replies go to: to no other
/// address of the sender's choice anything is sent (RFC 9301 section 5.3).
#[tactic(auto, using(crate::proofs::ListedLaws::replies_are_listed))]
pub fn replies_are_listed()
    ensures { (resolve : List PrefixValue) → RepliesAreListed resolve }
{}

/// Each datagram that is sent is a Map-Reply to the address and port that were asked from, or the one that came, which goes on to a
/// router (RFC 9301 section 8.3).
pub fn replies_or_goes_on<A: Allocator>()
    ensures { RepliesOrGoesOn A }
{}

/// What a Map-Server does for a datagram was asked from an ITR-RLOC that one of the listed prefixes has, and each datagram that it sends is
/// a Map-Reply to there, or the datagram that came, on its way to a router (RFC 9301 sections 5.3 and 8.3).
pub fn map_servers_stay_listed<A: Allocator>()
    ensures { MapServersStayListed A }
{}

/// The same of a router.
pub fn routers_stay_listed<A: Allocator>()
    ensures { RoutersStayListed A }
{}
