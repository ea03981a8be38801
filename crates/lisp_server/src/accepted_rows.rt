//! The rows that an accepted Map-Register sets (RFC 9301 section 5.6).

ghost use Rattle.std.specs.Prelude.{◌≡◌, map, IfOk, OnErr};
ghost use Rattle.lisp_admission.specs.AcceptedRows.{life_of, row_values};
ghost use Rattle.lisp_server.specs.AcceptedRows.{origin_of, row_of};
ghost use Rattle.lisp_server.specs.Checks.{reply_of};

use crate::reply::reply;
use lisp_admission::router_of;
use lisp_hmac::Key;
use lisp_memory::{FallibleVec, Memory};
use lisp_messages::{MapNotify, MapRegister};
use lisp_records::{Addr, Bytes, MapRecord, RouterId, Row};
use std::alloc::{AllocError, Allocator};

/// The life of records whose Map-Register has bit T clear, and of TTL 0xffffffff, in ms.
const THREE_MINUTES: u64 = 180_000;

/// One minute, which TTLs count, in ms.
const MINUTE: u64 = 60_000;

/// What all rows of one Map-Register have alike.
#[derive(Clone, Copy)]
struct Origin {
    router: RouterId,
    key: u8,
    nonce: u64,
    accepted: u64,
    use_ttl: bool,
    proxy: bool,
    from: Addr,
}

impl Origin {
    fn of<A: Allocator>(register: &MapRegister<A>, from: Addr, now: u64) -> Origin
        ensures { result ≡ origin_of register.now from now }
    {
        Origin {
            router: router_of(register),
            key: register.key_id,
            nonce: register.nonce,
            accepted: now,
            use_ttl: register.use_ttl,
            proxy: register.proxy,
            from,
        }
    }

    // The row of one of the records.
    fn row<A: Allocator>(&self, mapping: MapRecord<A>) -> Row<A>
        ensures { result ≡ row_of self.now mapping }
    {
        Row {
            router: self.router,
            key: self.key,
            nonce: self.nonce,
            life: life_of(self.use_ttl, mapping.ttl()),
            mapping,
            accepted: self.accepted,
            proxy: self.proxy,
            from: self.from,
        }
    }

    fn rows<A: Memory>(
        &self,
        alloc: A,
        records: Vec<MapRecord<A>, A>,
    ) -> Result<Vec<Row<A>, A>, AllocError>
        ensures rows { IfOk result (λ rows. rows.items ≡ map (row_of self.now) records.items) }
        ensures memory { OnErr result A.may_refuse }
    {
        let mut rows = Vec::new(alloc);
        rows.make_room_for(&records)?;
        for mapping in records {
            rows.try_push(self.row(mapping))?;
        }
        Ok(rows)
    }
}

// How long a record lives, in ms: by its TTL where bit T is set (RFC 9301 section 5.6).
const fn life_of(use_ttl: bool, ttl: u32) -> u64
    ensures { result ≡ life_of use_ttl ttl }
{
    match ttl {
        0 => 0,
        u32::MAX => THREE_MINUTES,
        _ if use_ttl => ttl as u64 * MINUTE,
        _ => THREE_MINUTES,
    }
}

/// The rows of the records of a Map-Register from an address that is accepted at a time, in ms, and the
/// Map-Notify that answers it, where it wants one.
pub(crate) fn rows_and_reply<A: Memory + Copy>(
    alloc: A,
    key: &Key,
    register: MapRegister<A>,
    from: Addr,
    now: u64,
) -> Result<(Vec<Row<A>, A>, Option<Bytes<A>>), AllocError>
    ensures rows { IfOk result (λ x. x.0.items ≡ row_values register from now) }
    ensures reply { IfOk result (λ x. x.1 ≡ reply_of key.now register) }
    ensures memory { OnErr result A.may_refuse }
{
    let origin = Origin::of(&register, from, now);
    let wanted = register.want_notify;
    let notify = MapNotify {
        ack: false,
        nonce: register.nonce,
        key_id: register.key_id,
        records: register.records,
    };
    let reply = reply(alloc, wanted, &notify, key)?;
    let rows = origin.rows(alloc, notify.records.into_vec())?;
    Ok((rows, reply))
}
