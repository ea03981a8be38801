//! Destinations of replies.

ghost use Rattle.std.specs.Prelude.{◌≡◌};
ghost use Rattle.lisp_budget.specs.Budget.{destination};

use lisp_records::{Addr, Prefix};

/// The destination of an address: an IPv4 address, or the /64 of an IPv6 address, since one host may have all addresses of that.
pub(crate) fn destination(to: &Addr) -> Prefix
    ensures { result ≡ destination to.now }
{
    let mask_len = match to {
        Addr::V4(_) => 32,
        Addr::V6(_) => 64,
    };
    Prefix::new(*to, mask_len).unwrap()
}
