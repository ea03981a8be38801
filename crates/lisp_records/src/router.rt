//! Who a router is to a Map-Server.

ghost use Rattle.std.specs.Prelude.{◌≡◌, ◌<◌, length};
ghost use Rattle.std.specs.Int.{from_be_bytes, w128};
ghost use Rattle.std.specs.List.{AllByRecursion};
ghost use Rattle.lisp_records.specs.Router.{router_eq};

use crate::address::as_bytes;

/// Who a router is to a Map-Server: its site and its xTR-ID (RFC 9301 section 5.6). Ordered by
/// site, then xTR-ID.
#[derive(Clone, Copy, Debug, PartialEq, Eq, PartialOrd, Ord, Hash)]
pub struct RouterId {
    pub site: u64,
    pub xtr: [u8; 16],
}

impl RouterId {
    /// Whether the two are one router: as `==`, but the bytes of the xTR-IDs are compared as numbers.
    pub fn is_same(&self, other: &RouterId) -> bool
        ensures { result ≡ router_eq self.now other.now }
    {
        self.site == other.site && number_of(self.xtr) == number_of(other.xtr)
    }
}

// The number that the bytes of an xTR-ID spell.
fn number_of(xtr: [u8; 16]) -> u128
    ensures number { result ≡ from_be_bytes w128 xtr }
    ensures width { length xtr ≡ 16 }
    ensures bytes { AllByRecursion (λ n. n < 256) xtr }
{
    // A proof learns here that each byte is below 256.
    let _ = as_bytes(&xtr);
    u128::from_be_bytes(xtr)
}
