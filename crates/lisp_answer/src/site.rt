//! The one site of the server that `answer` starts afresh.

ghost use Rattle.std.specs.Prelude.{◌≡◌, IfOk, OnErr};
ghost use Rattle.lisp_answer.specs.DefaultPrefix.{default_prefix};

use lisp_memory::{FallibleCopies, Memory};
use lisp_policy::Sites;
use lisp_records::{Addr, Bytes, Prefix};
use std::alloc::{AllocError, Allocator, Global};
use std::marker::Model;

/// The Site-ID where none is asked for.
pub const DEFAULT_SITE: u64 = 1;

/// The Key ID where none is asked for.
pub const DEFAULT_KEY: u8 = 1;

/// The secret where none is asked for.
pub const DEFAULT_SECRET: &[u8; 6] = b"secret";

/// A site with one key and one prefix.
#[derive(Drop)]
pub struct AnswerSetup<A: Allocator = Global> {
    /// The Site-ID.
    pub site: u64,
    /// The Key ID.
    pub key: u8,
    /// The pre-shared secret of the Key ID, 1 to 256 bytes.
    pub secret: Bytes<A>,
    /// The prefix that the site's routers may register.
    pub prefix: Prefix,
    /// Whether they may register prefixes inside it too.
    pub more_specifics: bool,
}

impl<A: Allocator> Model for AnswerSetup<A> {
    ghost use Rattle.lisp_answer.specs.Setup.{AnswerSetupValue};

    ghost Value = { AnswerSetupValue };

    ghost view = { λ s. record { site = s.site; key = s.key; secret = s.secret; prefix = s.prefix; more_specifics = s.more_specifics } };
}

impl<A: Memory> AnswerSetup<A> {
    ghost use Rattle.lisp_answer.specs.Setup.{default_setup};

    /// The setup where nothing else is asked: site 0000000000000001, key 1, the secret `secret`,
    /// prefix 10.1.0.0/16 without more-specifics.
    pub fn defaults(alloc: A) -> Result<AnswerSetup<A>, AllocError>
        ensures value { IfOk result (λ setup. setup ≡ default_setup) }
        ensures memory { OnErr result A.may_refuse }
    {
        let secret = Vec::try_from_slice(alloc, DEFAULT_SECRET)?;
        Ok(AnswerSetup {
            site: DEFAULT_SITE,
            key: DEFAULT_KEY,
            secret: Bytes::from_vec(secret),
            prefix: default_prefix(),
            more_specifics: false,
        })
    }
}

impl<A: Allocator> AnswerSetup<A> {
    ghost use Rattle.lisp_answer.specs.Setup.{sites_of};

    /// The sites of the fresh server: this one alone, in memory of `alloc`.
    pub(crate) fn sites<B: Memory + Copy>(&self, alloc: B) -> Result<Sites<B>, AllocError>
        ensures value { IfOk result (λ sites. sites ≡ sites_of self.now) }
        ensures memory { OnErr result B.may_refuse }
    {
        Sites::single(
            alloc,
            self.site,
            self.key,
            self.secret.as_slice(),
            self.prefix,
            self.more_specifics,
        )
    }
}

/// 10.1.0.0/16, the prefix where none is asked for.
#[tactic(auto, unfolding(lisp_records::specs::Address::masked))]
pub fn default_prefix() -> Prefix
    ensures { result ≡ default_prefix }
{
    Prefix::new(Addr::V4([10, 1, 0, 0]), 16).unwrap()
}
