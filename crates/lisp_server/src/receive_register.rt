//! Receiving a Map-Register.

ghost use Rattle.std.specs.Prelude.{◌≡◌, IfErr, IfOk, IsErrOf, OnErr, OnOk};
ghost use Rattle.lisp_nonces.specs.Store.{Proceeds};
ghost use Rattle.lisp_messages.specs.Message.{IsMapNotify};
ghost use Rattle.lisp_admission.specs.Checks.{reply_to};
ghost use Rattle.lisp_server.specs.Server.{SameTables};
ghost use Rattle.lisp_server.specs.ReceivedRegister.{AnswersRegister, IsPrepared, KeepsOut, LetsIn};
ghost use Rattle.lisp_admission.specs.declared.refused.Refused.{Refused};

use crate::accepted_rows::rows_and_reply;
use crate::arrival::Arrival;
use crate::tables::Tables;
use crate::took::Took;
use lisp_admission::{
    Refused, check_nonce, key_under, most_jump_at, most_routers_at, most_rows_at, pair_of,
    save_nonce,
};
use lisp_hmac::Key;
use lisp_lookup::Table;
use lisp_memory::Memory;
use lisp_messages::MapRegister;
use lisp_nonces::{NonceStore, Pair, PairKind};
use lisp_policy::{Full, Sites};
use lisp_records::{Bytes, Row};
use std::alloc::{AllocError, Allocator};

/// Receives a Map-Register that was read from the bytes of an arrival. All that takes memory comes before
/// its nonce is saved; what the tables hold changes only after that.
pub(crate) fn receive_register<S: NonceStore, A: Memory + Copy>(
    alloc: A,
    sites: &Sites<A>,
    tables: &mut Tables<A>,
    store: &mut S,
    arrival: Arrival<'_>,
    register: MapRegister<A>,
) -> Result<Took<A>, Refused>
    requires { IsMapNotify (reply_to register) }
    ensures answer { AnswersRegister A.may_refuse S.may_refuse sites.now tables.old tables.new
        (S.seen store.old) (S.seen store.new) arrival.entry register result }
    ensures proceeds { Proceeds (S.seen store.old) (S.seen store.new) }
{
    let key = key_under(sites, &arrival.from, arrival.bytes, &register)?;
    let pair = pair_of(&register);
    let nonce = nonce_of(&register);
    let most_jump = most_jump_at(sites, pair.router.site);
    check_nonce(store, &pair, tables.nonces.get(&pair), nonce, most_jump)?;
    let (rows, reply) = prepared(alloc, tables, &pair, key, arrival, register)?;
    check_space(sites, &tables.rows, &rows, pair.router.site, arrival.now)?;
    save_nonce(store, &pair, nonce)?;
    tables.accept(rows, pair, nonce, arrival.from);
    Ok(Took::Accepted {
        router: pair.router,
        key: pair.key,
        nonce,
        reply,
    })
}

// The rows of a Map-Register that is to be accepted, and the Map-Notify that answers it, where it wants one; with
// room for what it leaves.
fn prepared<A: Memory + Copy>(
    alloc: A,
    tables: &mut Tables<A>,
    pair: &Pair,
    key: &Key,
    arrival: Arrival<'_>,
    register: MapRegister<A>,
) -> Result<(Vec<Row<A>, A>, Option<Bytes<A>>), AllocError>
    ensures ok { IfOk result
        (λ x. IsPrepared key.now arrival.entry register tables.new pair.now x.0.items x.1) }
    ensures same { SameTables tables.old tables.new }
    ensures memory { OnErr result A.may_refuse }
{
    let (rows, reply) = rows_and_reply(alloc, key, register, arrival.from, arrival.now)?;
    tables.prepare(&rows, pair)?;
    Ok((rows, reply))
}

// Whether the limits of a site on what is held let the rows in; `Full`, `OutOfMemory`.
fn check_space<A: Memory + Copy>(
    sites: &Sites<A>,
    held: &Table<A>,
    rows: &[Row<A>],
    site: u64,
    now: u64,
) -> Result<(), Refused>
    ensures fits { OnOk result (LetsIn sites.now held.now.rows rows.now site now) }
    ensures refused { IfErr result (KeepsOut sites.now held.now.rows rows.now site now) }
    ensures memory { IsErrOf result Refused.OutOfMemory → A.may_refuse }
{
    if held.exceeds_routers(rows, site, most_routers_at(sites, site), now)? {
        return Err(Refused::Full {
            site,
            full: Full::Routers,
        });
    }
    if held.exceeds_rows(rows, site, most_rows_at(sites, site), now) {
        return Err(Refused::Full {
            site,
            full: Full::Rows,
        });
    }
    Ok(())
}

fn nonce_of<A: Allocator>(register: &MapRegister<A>) -> u64
    ensures { result ≡ register.now.nonce }
{
    register.nonce
}
