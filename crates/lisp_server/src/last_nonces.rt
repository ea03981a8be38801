//! The last nonces since a Map-Server's start, in memory: of the Map-Registers that it accepted, and of the
//! unsolicited Map-Notifies (notices) that it sent.

ghost use Rattle.std.specs.Prelude.{◌≡◌, Some, IfOk, IfErr, OnOk, OnErr};
ghost use Rattle.std.specs.FinMap.{empty};
ghost use Rattle.std.specs.List.{position};
ghost use Rattle.lisp_nonces.specs.Pair.{pair_cmp};
ghost use Rattle.lisp_policy.specs.Order.{KeysRise, IsGap};
ghost use Rattle.lisp_server.specs.LastNonces.{nonce_at, SetsNonce, is_of, nonces_of, HasNonceRoom};

use crate::reserved::insert_reserved;
use lisp_memory::{FallibleVec, Memory};
use lisp_nonces::Pair;
use std::alloc::{AllocError, Allocator};
use std::marker::Model;

/// A pair, and its last nonce.
#[derive(Clone, Copy)]
pub(crate) struct LastNonce {
    pub(crate) pair: Pair,
    pub(crate) nonce: u64,
}

/// The last nonce of each pair, in the order of the pairs, and room for more.
#[derive(Drop)]
pub(crate) struct LastNonces<A: Allocator> {
    items: Vec<LastNonce, A>,
}

impl<A: Allocator> Model for LastNonces<A> {
    ghost use Rattle.std.specs.Prelude.{◌-◌, vec_len, vec_capacity};
    ghost use Rattle.std.specs.Coded.{codes};
    ghost use Rattle.lisp_nonces.specs.Pair.{pair_cmp};
    ghost use Rattle.lisp_policy.specs.Order.{KeysRise};
    ghost use Rattle.lisp_server.specs.LastNonces.{LastNoncesState, nonces_code, nonces_of};

    ghost Value = { LastNoncesState };

    ghost coded = { Prim.hlevel (codes, nonces_code) };

    ghost view = { λ n. record { nonces = nonces_of n.items.items; spare = vec_capacity n.items - vec_len n.items } };

    ghost invariant = { λ n. KeysRise (λ e. e.pair) pair_cmp n.items.items };
}

impl<A: Allocator> LastNonces<A> {
    /// No nonces. Takes no memory.
    #[tactic(auto, using(crate::proofs::NonceLaws::no_nonces), unfolding(crate::specs::LastNonces::nonces_of))]
    pub(crate) fn new(alloc: A) -> LastNonces<A>
        ensures { result.nonces ≡ empty }
    {
        LastNonces {
            items: Vec::new(alloc),
        }
    }

    /// The last nonce of a pair; `None` where there is none.
    #[tactic(auto, using(crate::proofs::NonceLaws::nonce_found))]
    pub(crate) fn get(&self, pair: &Pair) -> Option<u64>
        ensures { result ≡ nonce_at self.now.nonces pair.now }
    {
        match place(&self.items, pair) {
            Ok(place) => Some(self.items[place].nonce),
            Err(_) => None,
        }
    }

    /// Sets the last nonce of a pair. Takes no memory.
    #[tactic(auto, using(crate::proofs::NonceLaws::rises_set, crate::proofs::NonceLaws::rises_insert))]
    pub(crate) fn set(&mut self, pair: Pair, nonce: u64)
        requires { HasNonceRoom self.old pair }
        ensures { SetsNonce self.old.nonces self.new.nonces pair nonce }
    {
        match place(&self.items, &pair) {
            Ok(place) => self.items[place] = LastNonce { pair, nonce },
            Err(gap) => insert_reserved(&mut self.items, gap, LastNonce { pair, nonce }),
        }
    }
}

impl<A: Memory> LastNonces<A> {
    /// Makes room for the last nonce of a pair, where it has none.
    pub(crate) fn prepare(&mut self, pair: &Pair) -> Result<(), AllocError>
        ensures same { self.new.nonces ≡ self.old.nonces }
        ensures room { OnOk result (HasNonceRoom self.new pair.now) }
        ensures memory { OnErr result A.may_refuse }
    {
        match place(&self.items, pair) {
            Ok(_) => Ok(()),
            Err(_) => self.items.make_room(1),
        }
    }
}

// The place of a pair's entry, or where it goes.
fn place(entries: &[LastNonce], pair: &Pair) -> Result<usize, usize>
    requires { KeysRise (λ e. e.pair) pair_cmp entries.now }
    ensures found { IfOk result (λ i. position (is_of pair.now) entries.now ≡ Some i) }
    ensures gap { IfErr result (λ i. IsGap (λ e. e.pair) pair_cmp entries.now pair.now i) }
{
    entries.binary_search_by_key(pair, |entry| entry.pair)
}
