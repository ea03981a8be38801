//! Sending a router an unsolicited Map-Notify (notice) of what is held for it.

ghost use Rattle.std.specs.Prelude.{◌≡◌, ◌≤◌, None, length, IfOk, IfErr, IfSome, MatchResult, OnErr};
ghost use Rattle.lisp_records.specs.Moment.{max_moment};
ghost use Rattle.lisp_nonces.specs.Store.{Proceeds};
ghost use Rattle.lisp_lookup.specs.Table.{OneEach};
ghost use Rattle.lisp_lookup.specs.Records.{live_of};
ghost use Rattle.lisp_server.specs.SendNotice.{Announces, Unregistered};
ghost use Rattle.lisp_server.specs.Contacts.{IsHeard, Knows};
ghost use Rattle.lisp_server.specs.Server.{SameTables, state_of};
ghost use Rattle.lisp_server.specs.Recipient.{IsHeardAs, IsRecipient, IsNoticeTo, sent_notice, IsReadyNotice, RefusesToNotify};

use crate::contacts::{Contact, Contacts};
use crate::standing_notice::StandingNotice;
use crate::tables::Tables;
use lisp_admission::{NOTICES, NoticeFault, key_at, next_nonce, save_notice};
use lisp_hmac::Key;
use lisp_lookup::Table;
use lisp_memory::Memory;
use lisp_messages::{MapNotify, write_notify_under};
use lisp_nonces::NonceStore;
use lisp_policy::Sites;
use lisp_records::{Addr, Bytes, Records, RouterId};
use std::alloc::{AllocError, Allocator};

/// Sends a notice to a router at a time, in ms. All that takes memory comes before its nonce is saved; what
/// the tables hold changes only after that.
pub(crate) fn send_notice<S: NonceStore, A: Memory + Copy>(
    alloc: A,
    sites: &Sites<A>,
    tables: &mut Tables<A>,
    store: &mut S,
    router: &RouterId,
    now: u64,
) -> Result<(Addr, Vec<u8, A>), NoticeFault>
    requires moment { now ≤ max_moment }
    requires known { Knows sites.now tables.old.rows.rows tables.old.contacts.contacts }
    ensures answer { MatchResult result
        (λ x. Announces (state_of sites.now tables.old) (state_of sites.now tables.new)
        (S.seen store.old) (S.seen store.new) router.now now x.0 x.1.items)
        (RefusesToNotify A.may_refuse S.may_refuse sites.now tables.old tables.new
        (S.seen store.old) (S.seen store.new) router.now now) }
    ensures one_each { OneEach tables.old.rows.rows }
    ensures proceeds { Proceeds (S.seen store.old) (S.seen store.new) }
{
    let recipient = recipient_of(sites, tables, router, now)?;
    let nonce = next_nonce(store, tables.nonces.get(&NOTICES))?;
    let (notice, bytes) = recipient.prepare(alloc, tables, now, nonce)?;
    save_notice(store, nonce)?;
    tables.keep_notice(notice);
    Ok((recipient.contact.from, bytes))
}

/// Where a router was heard last, and the key that its notices are sent under.
#[derive(Clone, Copy, Drop)]
struct Recipient<'s> {
    contact: Contact,
    key: &'s Key,
}

impl Recipient<'_> {
    // The notice that stands once its nonce is saved, room for it, and its bytes.
    fn prepare<A: Memory + Copy>(
        &self,
        alloc: A,
        tables: &mut Tables<A>,
        now: u64,
        nonce: u64,
    ) -> Result<(StandingNotice<A>, Vec<u8, A>), AllocError>
        requires moment { now ≤ max_moment }
        requires few { length (live_of tables.old.rows.rows self.now.contact.router now) ≤ 255 }
        ensures notice { IfOk result
            (λ x. IsReadyNotice self.now tables.old tables.new now nonce x.0 x.1.items) }
        ensures same { SameTables tables.old tables.new }
        ensures memory { OnErr result A.may_refuse }
    {
        tables.prepare_notice(&self.contact.router)?;
        let bytes = self.notify(alloc, &tables.rows, now, nonce)?;
        let notice = self.notice(nonce, bytes.copy(alloc)?, now);
        Ok((notice, bytes.into_vec()))
    }

    // The Map-Notify of the router's live records.
    fn notify<A: Memory + Copy>(
        &self,
        alloc: A,
        rows: &Table<A>,
        now: u64,
        nonce: u64,
    ) -> Result<Bytes<A>, AllocError>
        requires few { length (live_of rows.now.rows self.now.contact.router now) ≤ 255 }
        ensures notice { IfOk result (IsNoticeTo self.now rows.now.rows now nonce) }
        ensures memory { OnErr result A.may_refuse }
    {
        let notify = MapNotify {
            ack: false,
            nonce,
            key_id: self.contact.key,
            records: Records::from_vec(rows.live_records(&self.contact.router, now)?),
        };
        Ok(Bytes::from_vec(write_notify_under(alloc, &notify, self.key)?))
    }

    // The notice that stands once its nonce is saved.
    fn notice<A: Allocator>(&self, nonce: u64, bytes: Bytes<A>, now: u64) -> StandingNotice<A>
        requires { now ≤ max_moment }
        ensures { result ≡ sent_notice self.now.contact nonce bytes now }
    {
        StandingNotice {
            router: self.contact.router,
            to: self.contact.from,
            key: self.contact.key,
            nonce,
            bytes,
            resends: 0,
            last: now,
        }
    }
}

// Whom a notice goes to: `NotRegistered`, `TooLarge`. Takes no memory.
fn recipient_of<'s, A: Allocator + Copy>(
    sites: &'s Sites<A>,
    tables: &Tables<A>,
    router: &RouterId,
    now: u64,
) -> Result<Recipient<'s>, NoticeFault>
    requires { Knows sites.now tables.now.rows.rows tables.now.contacts.contacts }
    ensures registered { IfOk result (IsRecipient (state_of sites.now tables.now) router.now now) }
    ensures refused { IfErr result (Unregistered (live_of tables.now.rows.rows router.now now)) }
    ensures one_each { OneEach tables.now.rows.rows }
{
    let Some(count) = tables.rows.count_live(router, now) else {
        return Err(NoticeFault::TooLarge);
    };
    if count == 0 {
        return Err(NoticeFault::NotRegistered);
    }
    heard(sites, &tables.contacts, router).ok_or(NoticeFault::NotRegistered)
}

// Where a router was heard last, and that key.
fn heard<'s, A: Allocator>(
    sites: &'s Sites<A>,
    contacts: &Contacts<A>,
    router: &RouterId,
) -> Option<Recipient<'s>>
    ensures some { IfSome result (IsHeardAs sites.now contacts.now.contacts router.now) }
    ensures none { result ≡ None → IsHeard sites.now contacts.now.contacts router.now → ⊥ }
{
    let contact = contacts.get(router)?;
    let key = key_at(sites, router.site, contact.key)?;
    Some(Recipient { contact, key })
}
