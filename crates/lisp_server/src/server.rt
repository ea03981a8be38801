//! The Map-Server.

ghost use Rattle.std.specs.Prelude.{◌≡◌, ◌≤◌, [], None, true, IfOk, IfErr, IfSome, IsErrOf, OnErr, length};
ghost use Rattle.std.specs.List.{All};
ghost use Rattle.std.specs.Option.{MatchOption};
ghost use Rattle.lisp_nonces.specs.Store.{Proceeds};
ghost use Rattle.lisp_messages.specs.Reading.{HasHead};
ghost use Rattle.lisp_lookup.specs.Table.{OneEach, Expires, DropsDead, IsHeld, IsNextLive, live_from};
ghost use Rattle.lisp_lookup.specs.Answer.{Answers};
ghost use Rattle.lisp_records.specs.Moment.{max_moment};
ghost use Rattle.lisp_records.specs.Row.{is_alive};
ghost use Rattle.lisp_server.specs.SendNotice.{Announces, RefusesNotice};
ghost use Rattle.lisp_server.specs.LastNonces.{nonce_at};
ghost use Rattle.lisp_server.specs.Notices.{OneForEach, IsDueRouter, RefusesResend, Resends};
ghost use Rattle.lisp_server.specs.Receiving.{RefusesBadHead, TakesMessage, RefusesMessage};
ghost use Rattle.lisp_admission.specs.Refused.{load_out_of_memory, save_out_of_memory};
ghost use Rattle.lisp_admission.specs.declared.refused.Refused.{Refused};
ghost use Rattle.lisp_admission.specs.declared.notice_fault.NoticeFault.{NoticeFault};
ghost use Rattle.lisp_admission.specs.NoticeFault.{notice_load_out_of_memory, notice_save_out_of_memory};
ghost use Rattle.lisp_replies.specs.Reply.{IsReply};
ghost use Rattle.lisp_policy.specs.Extends.{extends};
ghost use Rattle.lisp_server.specs.Server.{empty_server, reloaded};

use crate::arrival::Arrival;
use crate::contacts::Contacts;
use crate::last_nonces::LastNonces;
use crate::receive_ack::receive_ack;
use crate::receive_register::receive_register;
use crate::send_notice::send_notice;
use crate::standing_notices::StandingNotices;
use crate::tables::Tables;
use crate::took::Took;
use lisp_admission::{NoticeFault, Refused};
use lisp_lookup::{Answer, Table};
use lisp_memory::Memory;
use lisp_messages::{Message, read_message};
use lisp_nonces::{NonceStore, Pair};
use lisp_policy::Sites;
use lisp_records::{Addr, Prefix, RouterId, Row};
use lisp_replies::{Reply, server_reply};
use std::alloc::{AllocError, Allocator, Global};
use std::marker::Model;

/// A Map-Server: its sites, what it learnt of their routers since its start, and the unsolicited Map-Notifies
/// (notices) that it sent them and that are not yet acknowledged.
#[derive(Drop)]
pub struct Server<A: Allocator = Global> {
    alloc: A,
    sites: Sites<A>,
    tables: Tables<A>,
}

impl<A: Allocator> Model for Server<A> {
    ghost use Rattle.std.specs.Coded.{codes};
    ghost use Rattle.lisp_server.specs.LastNonces.{nonces_code};
    ghost use Rattle.lisp_server.specs.Contacts.{Knows};
    ghost use Rattle.lisp_server.specs.Server.{ServerState, state_of};

    ghost Value = { ServerState };

    ghost coded = { Prim.hlevel (codes, nonces_code) };

    ghost view = { λ s. state_of s.sites s.tables };

    ghost invariant = { λ s. Knows s.sites s.tables.rows.rows s.tables.contacts.contacts };
}

impl<A: Allocator + Copy> Server<A> {
    /// A Map-Server of these sites that holds nothing; what it learns lies in memory of `alloc`. Takes no
    /// memory.
    pub fn start(alloc: A, sites: Sites<A>) -> Server<A>
        ensures { result ≡ empty_server sites }
    {
        Server {
            alloc,
            sites,
            tables: Tables {
                rows: Table::new(alloc),
                nonces: LastNonces::new(alloc),
                contacts: Contacts::new(alloc),
                notices: StandingNotices::new(alloc),
            },
        }
    }

    /// Its sites again; rows, nonces and notices in memory are gone. Takes no memory.
    pub fn stop(self) -> Sites<A>
        ensures { result ≡ self.sites }
    {
        self.sites
    }

    /// Takes other sites in place of its own. Where they have all that those have (each site, key with its secret, and prefix, under limits
    /// that are as wide) it goes on with its rows, last nonces and notices; else those are gone, as at a start. Answers whether it goes
    /// on. Takes no memory.
    pub fn reload(&mut self, sites: Sites<A>) -> bool
        ensures kept { result ≡ extends self.old.sites sites }
        ensures state { self.new ≡ reloaded self.old sites }
    {
        if sites.extends(&self.sites) {
            self.sites = sites;
            true
        } else {
            *self = Server::start(self.alloc, sites);
            false
        }
    }

    /// Its sites. Takes no memory.
    pub fn sites(&self) -> &Sites<A>
        ensures { result.now ≡ self.now.sites }
    {
        &self.sites
    }

    /// The least router, by Site-ID, then xTR-ID, to which a notice is due at a time, in ms: a notice is due 3,
    /// 3, 3, 6, 12 and 24 s after it was last sent, then never. Takes no memory.
    pub fn due_notices(&self, now: u64) -> Option<RouterId>
        ensures due { IsDueRouter self.now.notices now result }
        ensures one_each { OneForEach self.now.notices }
    {
        self.tables.notices.due(now)
    }

    /// How many notices stand: they aren't acknowledged yet. Takes no memory.
    pub fn count_notices(&self) -> usize
        ensures { result ≡ length self.now.notices }
    {
        self.tables.notices.count()
    }

    /// Who answers for an address at a time, in ms, by the rows that are held: of those whose prefix has
    /// the address the one with the longest prefix; of several one whose router asked for proxy replies,
    /// before one that didn't; then the one that was accepted last; then that of the greater router, by
    /// Site-ID, then xTR-ID (RFC 9301 section 8.3). Takes no memory.
    pub fn answer(&self, addr: &Addr, now: u64) -> Answer<'_, A>
        ensures answers { Answers self.now.rows self.now.sites addr.now now result }
        ensures one_each { OneEach self.now.rows }
    {
        self.tables.rows.answer(&self.sites, addr, now)
    }

    /// The first row from a place on that is alive at a time, in ms, and its place; `None` where all from there on are dead. As
    /// long as nothing changes the Map-Server, this gives from place 0 on, each time from the one after the last, every row
    /// once that is alive at the time. Takes no memory.
    pub fn next_held(&self, place: usize, now: u64) -> Option<(usize, &Row<A>)>
        ensures { MatchOption result (live_from self.now.rows place now ≡ [])
            (λ found. IsNextLive self.now.rows place now found.0 found.1.now) }
    {
        self.tables.rows.next_live(place, now)
    }

    /// The last nonce of a pair since the start, `None` where there is none: of the last Map-Register that was
    /// accepted from its router under its key; of the last notice to any router under the pair of all notices,
    /// which has `PairKind::Notice`, Site-ID 0, xTR-ID 0 and Key ID 0. Takes no memory.
    pub fn last_nonce(&self, pair: &Pair) -> Option<u64>
        ensures { result ≡ nonce_at self.now.nonces pair.now }
    {
        self.tables.nonces.get(pair)
    }

    /// Drops the rows that are dead at a time, in ms, of at most 2^62. Takes no memory.
    pub fn expire(&mut self, now: u64)
        requires { now ≤ max_moment }
        ensures rows { Expires self.old.rows self.new.rows now }
        ensures rest { self.new ≡ record self.old { rows = self.new.rows } }
        ensures one_each { OneEach self.new.rows }
    {
        self.tables.rows.drop_dead(now);
    }

    /// Drops a row that is dead at a time, in ms, of at most 2^62: of several the one that died first. Answers whose it was,
    /// the router and its EID-Prefix; `None` where no row is dead, and then nothing changes. Takes no memory.
    pub fn expire_one(&mut self, now: u64) -> Option<(RouterId, Prefix)>
        requires { now ≤ max_moment }
        ensures dropped { IfSome result (λ key. DropsDead self.old.rows self.new.rows now key) }
        ensures none { result ≡ None → All (λ h. is_alive h now ≡ true) self.old.rows
            × (self.new.rows ≡ self.old.rows) }
        ensures rest { self.new ≡ record self.old { rows = self.new.rows } }
        ensures one_each { OneEach self.new.rows }
    {
        self.tables.rows.drop_first_dead(now)
    }
}

impl<A: Memory + Copy> Server<A> {
    /// What it sends at a time, in ms, for an EID-Prefix that a Map-Request asks for, by the rows that are held (RFC 9301 sections 8.3 and
    /// 8.4): see [`server_reply`]. `starting` says whether its life has just begun, so that rows may not have come back yet.
    pub fn reply_to(&self, asked: &Prefix, starting: bool, now: u64) -> Result<Reply<A>, AllocError>
        ensures reply { IfOk result
            (λ reply. IsReply self.now.rows self.now.sites asked.now starting now reply) }
        ensures one_each { OneEach self.now.rows }
        ensures memory { OnErr result A.may_refuse }
    {
        server_reply(
            self.alloc,
            &self.tables.rows,
            &self.sites,
            asked,
            starting,
            now,
        )
    }

    /// Receives a message that came from an address at a time, in ms. It refuses bytes that are no message
    /// (`Read`) and a Map-Notify (`NotMine`). A refusal changes nothing here.
    ///
    /// A Map-Register is refused in this order: `UnknownSite`, `UnknownKey`, `BadAuth`, `Limited` (its router, then its
    /// source address), `MergeAsked`, `NotAllowed` (the first record whose prefix its site doesn't allow), `Limited` (the
    /// first record that would live for a TTL out of bounds), `StoreLoad` (only where the last nonce isn't in memory),
    /// `Replay` (the nonce isn't above the last one), `Jump` (it is too far above it), `OutOfMemory`, `Full` (a router of its site has its
    /// first live row in it, and more would have one than may; then a live row is new, and the site would have more than it may),
    /// `StoreSave`. An accepted one sets the row of each prefix that it names, of several records for one prefix the last,
    /// and no other row; its nonce was saved before (RFC 9301 sections 5.6 and 8.2).
    ///
    /// A Map-Notify-Ack is refused in this order: `NoNotice` (no notice that went to this address and stands has
    /// its key and nonce), `BadAuth` (it isn't authentic under the secret of the notice's site and key). Else it
    /// ends the notice, which is not sent again, and the answer is `NoticeDone` (RFC 9301 section 5.7). The
    /// store isn't used.
    ///
    /// In reading, and only where the message has records, `OutOfMemory` may come in place of any answer but a
    /// fault of the bytes before them.
    pub fn receive<S: NonceStore>(
        &mut self,
        store: &mut S,
        from: Addr,
        bytes: &[u8],
        now: u64,
    ) -> Result<Took<A>, Refused>
        // Accepted, or a notice done: what that means.
        ensures taken { IfOk result (TakesMessage from bytes.now self.old self.new
            (S.seen store.old) (S.seen store.new) now) }

        // Refused: why, and what is left of the store.
        ensures refused { IfErr result (RefusesMessage from bytes.now self.old
            (S.seen store.old) (S.seen store.new) now) }

        ensures err { OnErr result (self.new ≡ self.old) }
        ensures memory { IsErrOf result Refused.OutOfMemory → A.may_refuse }
        ensures load_memory { IsErrOf result load_out_of_memory → S.may_refuse }
        ensures save_memory { IsErrOf result save_out_of_memory → S.may_refuse }
        ensures proceeds { Proceeds (S.seen store.old) (S.seen store.new) }

        // Before the first record nothing takes memory.
        ensures early { RefusesBadHead bytes.now result }
        ensures head { IsErrOf result Refused.OutOfMemory → HasHead bytes.now }
    {
        match read_message(self.alloc, bytes) {
            Ok(Message::Register(message)) => receive_register(
                self.alloc,
                &self.sites,
                &mut self.tables,
                store,
                Arrival { from, bytes, now },
                message,
            ),
            Ok(Message::Notify(notify)) => receive_ack(
                &self.sites,
                &mut self.tables.notices,
                Arrival { from, bytes, now },
                &notify,
            ),
            Err(fault) => Err(Refused::of_read(fault)),
        }
    }

    /// Sends a router a notice of what is held of it, at a time, in ms, of at most 2^62: a Map-Notify of its
    /// live records, by prefix, under the key and to the source address of its last accepted Map-Register. Its
    /// nonce is the greater of 2^63 and one more than the last one of the notices, and is saved before. The
    /// notice stands, in place of an earlier one to that router, until it is acknowledged (RFC 9301 sections
    /// 5.7 and 8.2). The answer is the address and the datagram.
    ///
    /// It refuses in this order: `NotRegistered` (no record of the router is alive), `TooLarge` (they are more
    /// than 255, or have more than 16,384 bytes), `StoreLoad` (only where the last nonce isn't in memory),
    /// `NonceSpent` (it is 2^64 - 1), `OutOfMemory`, `StoreSave`; the first two take no memory. A refusal
    /// changes nothing here.
    pub fn notify<S: NonceStore>(
        &mut self,
        store: &mut S,
        router: &RouterId,
        now: u64,
    ) -> Result<(Addr, Vec<u8, A>), NoticeFault>
        requires { now ≤ max_moment }
        ensures announces { IfOk result (λ x. Announces self.old self.new
            (S.seen store.old) (S.seen store.new) router.now now x.0 x.1.items) }
        ensures refused { IfErr result (RefusesNotice self.old
            (S.seen store.old) (S.seen store.new) router.now now) }
        ensures err { OnErr result (self.new ≡ self.old) }
        ensures memory { IsErrOf result NoticeFault.OutOfMemory → A.may_refuse }
        ensures load_memory { IsErrOf result notice_load_out_of_memory → S.may_refuse }
        ensures save_memory { IsErrOf result notice_save_out_of_memory → S.may_refuse }
        ensures proceeds { Proceeds (S.seen store.old) (S.seen store.new) }
        ensures one_each { OneEach self.old.rows }
    {
        send_notice(
            self.alloc,
            &self.sites,
            &mut self.tables,
            store,
            router,
            now,
        )
    }

    /// Sends the notice to a router again that is due at a time, in ms, of at most 2^62: the same bytes to the
    /// same address. It refuses in this order: `NotDue`, `OutOfMemory`. A refusal changes nothing.
    pub fn resend(&mut self, router: &RouterId, now: u64) -> Result<(Addr, Vec<u8, A>), NoticeFault>
        requires { now ≤ max_moment }
        ensures resends { IfOk result
            (λ x. Resends self.old.notices self.new.notices router.now now x.0 x.1.items) }
        ensures rest { self.new ≡ record self.old { notices = self.new.notices } }
        ensures refused { IfErr result (RefusesResend self.old.notices router.now now) }
        ensures err { OnErr result (self.new ≡ self.old) }
        ensures memory { IsErrOf result NoticeFault.OutOfMemory → A.may_refuse }
    {
        self.tables.notices.resend(self.alloc, router, now)
    }

    /// Copies of the rows that are alive at a time, in ms: by router, then by prefix.
    pub fn held(&self, now: u64) -> Result<Vec<Row<A>, A>, AllocError>
        ensures held { IfOk result (λ rows. IsHeld self.now.rows now rows.items) }
        ensures memory { OnErr result A.may_refuse }
    {
        self.tables.rows.rows(now)
    }
}
