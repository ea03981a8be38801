//! What the nonces of a Map-Server are kept for.

ghost use Rattle.std.specs.Prelude.{◌≡◌};
ghost use Rattle.lisp_admission.specs.Pairs.{router_of, pair_of};

use lisp_messages::MapRegister;
use lisp_nonces::{Pair, PairKind};
use lisp_records::RouterId;
use std::alloc::Allocator;

/// The pair of the nonces of all notices.
pub const NOTICES: Pair = Pair {
    kind: PairKind::Notice,
    router: RouterId {
        site: 0,
        xtr: [0; 16],
    },
    key: 0,
};

/// The router that sent a Map-Register.
pub fn router_of<A: Allocator>(register: &MapRegister<A>) -> RouterId
    ensures { result ≡ router_of register.now }
{
    RouterId {
        site: register.site,
        xtr: register.xtr,
    }
}

/// What the nonce of a Map-Register is kept for: its router and its key.
pub fn pair_of<A: Allocator>(register: &MapRegister<A>) -> Pair
    ensures { result ≡ pair_of register.now }
{
    Pair {
        kind: PairKind::Received,
        router: router_of(register),
        key: register.key_id,
    }
}
