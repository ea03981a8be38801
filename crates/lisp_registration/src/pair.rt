//! Routers, what nonces are kept for, and the nonces, as C has them.

ghost use Rattle.std.specs.Prelude.{◌≡◌};
ghost use Rattle.lisp_registration.specs.Notices.{plain_router, router_in};
ghost use Rattle.lisp_registration.specs.Server.{kept_in, plain_pair};

use lisp_nonces::Pair;
use lisp_records::RouterId;

/// Who a router is to a Map-Server, in plain numbers, or none (RFC 9301 section 5.6).
#[repr(C)]
#[derive(Clone, Copy)]
pub struct PlainRouter {
    /// Its Site-ID.
    pub site: u64,
    /// Its xTR-ID.
    pub xtr: [u8; 16],
    /// 1 where there is one, else 0, and then all is 0. Not looked at where a router is given.
    pub is_there: u8,
}

impl PlainRouter {
    /// A router in plain numbers, or none.
    pub(crate) fn of(router: Option<RouterId>) -> PlainRouter
        ensures { result ≡ plain_router router }
    {
        match router {
            Some(router) => {
                let xtr = router.xtr;
                PlainRouter {
                    site: router.site,
                    xtr,
                    is_there: 1,
                }
            }
            None => PlainRouter {
                site: 0,
                xtr: [0; 16],
                is_there: 0,
            },
        }
    }

    /// The router that is given.
    pub(crate) fn router(&self) -> RouterId
        ensures { result ≡ router_in self.now }
    {
        RouterId {
            site: self.site,
            xtr: self.xtr,
        }
    }
}

/// The pair of a router and a key, in plain numbers, or none.
#[repr(C)]
#[derive(Clone, Copy)]
pub struct PlainPair {
    /// The Site-ID of the router.
    pub site: u64,
    /// Its xTR-ID.
    pub xtr: [u8; 16],
    /// The Key ID.
    pub key_id: u8,
    /// 1 where there is a pair, else 0, and then all is 0.
    pub is_there: u8,
}

/// A nonce that a program loaded, in plain numbers, or none.
#[repr(C)]
#[derive(Clone, Copy)]
pub struct PlainNonce {
    /// The nonce.
    pub nonce: u64,
    /// 0 where none was ever saved for the pair; each other value says that there is one.
    pub is_there: u8,
}

impl PlainPair {
    /// A pair in plain numbers, or none.
    pub(crate) fn of(pair: Option<Pair>) -> PlainPair
        ensures { result ≡ plain_pair pair }
    {
        match pair {
            Some(pair) => {
                let xtr = pair.router.xtr;
                PlainPair {
                    site: pair.router.site,
                    xtr,
                    key_id: pair.key,
                    is_there: 1,
                }
            }
            None => PlainPair {
                site: 0,
                xtr: [0; 16],
                key_id: 0,
                is_there: 0,
            },
        }
    }
}

impl PlainNonce {
    /// The nonce, where there is one.
    pub(crate) fn kept(&self) -> Option<u64>
        ensures { result ≡ kept_in self.now }
    {
        if self.is_there == 0 {
            None
        } else {
            Some(self.nonce)
        }
    }
}
