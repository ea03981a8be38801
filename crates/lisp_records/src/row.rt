//! The row of a Map-Server's table.

ghost use Rattle.std.specs.Prelude.{◌≡◌, ◌↔◌, IsTrue, IfOk, OnErr};
ghost use Rattle.lisp_records.specs.Row.{IsAlive, is_alive};

use crate::address::Addr;
use crate::record::MapRecord;
use crate::router::RouterId;
use lisp_memory::Memory;
use std::alloc::{AllocError, Allocator, Global};
use std::marker::Model;

/// The last time that a caller gives, in ms: times are at most 2^62 ms.
pub const MAX_MOMENT: u64 = 1 << 62;

/// What a Map-Server holds for a router and an EID-Prefix: the record that the router registered
/// (RFC 9301 section 8.2).
#[derive(Debug, Drop)]
pub struct Row<A: Allocator = Global> {
    /// The nonce of the Map-Register.
    pub nonce: u64,
    /// The router that registered the record.
    pub router: RouterId,
    /// The record.
    pub mapping: MapRecord<A>,
    /// When the Map-Register was accepted, in ms.
    pub accepted: u64,
    /// How long the record lives from then on, in ms.
    pub life: u64,
    /// The Key ID that the Map-Register was authenticated under.
    pub key: u8,
    /// P: the Map-Server is to answer Map-Requests for the router.
    pub proxy: bool,
    /// The source address of the Map-Register.
    pub from: Addr,
}

impl<A: Allocator> Model for Row<A> {
    ghost use Rattle.lisp_records.specs.Row.{RowValue};

    ghost Value = { RowValue };

    ghost view = { λ r. record { router = r.router; key = r.key; nonce = r.nonce; mapping = r.mapping; accepted = r.accepted; life = r.life; proxy = r.proxy; from = r.from } };
}

impl<A: Allocator> Row<A> {
    /// Whether the record lives at a time, in ms: its age is below its life. Before the time at which
    /// it was accepted, its age is 0.
    pub fn alive(&self, now: u64) -> bool
        ensures alive { IsTrue result ↔ IsAlive self.now now }
        ensures test { result ≡ is_alive self.now now }
    {
        now.saturating_sub(self.accepted) < self.life
    }

    /// An equal row, its record in memory of `alloc`.
    pub fn copy<B: Memory>(&self, alloc: B) -> Result<Row<B>, AllocError>
        ensures equal { IfOk result (λ r. r ≡ self.now) }
        ensures memory { OnErr result B.may_refuse }
    {
        Ok(Row {
            router: self.router,
            key: self.key,
            nonce: self.nonce,
            mapping: self.mapping.copy(alloc)?,
            accepted: self.accepted,
            life: self.life,
            proxy: self.proxy,
            from: self.from,
        })
    }
}
