//! The site router.

ghost use Rattle.std.specs.Prelude.{◌≡◌, ◌↔◌, ◌≤◌, ◌<◌, ℕ, List, Ok, Err, IfOk, IfErr, IfSome, OnOk, OnErr, IsErrOf, length};
ghost use Rattle.lisp_nonces.specs.Store.{Proceeds, MayLoad};
ghost use Rattle.lisp_messages.specs.Message.{IsMapRegister};
ghost use Rattle.lisp_etr.specs.Config.{EtrConfigValue};
ghost use Rattle.lisp_records.specs.Database.{database_of};
ghost use Rattle.lisp_records.specs.Moment.{max_moment};
ghost use Rattle.lisp_records.specs.Parts.{part_count};
ghost use Rattle.lisp_replies.specs.Own.{IsOwnReply};
ghost use Rattle.lisp_etr.specs.Rounds.{acked_at};
ghost use Rattle.lisp_etr.specs.Faults.{store_out_of_memory};
ghost use Rattle.lisp_etr.specs.Etr.{etr_started, etr_changed, due_at};
ghost use Rattle.lisp_etr.specs.Rotating.{RotatesTo, GoesOnIfHonest, RefusesSameKey, IsOfFullStore as IsOfFullStoreToRotate, SameIfFull as SameIfFullToRotate, FailsAsArmed as FailsToRotateAsArmed, FailsByDevice as FailsToRotateByDevice};
ghost use Rattle.lisp_etr.specs.Sending.{EtrSends, next_datagram, next_register, NoServerAt, NoPartFor, NoNonceFor};
ghost use Rattle.lisp_etr.specs.Hearing.{Gives, AnswerFits, counted_in, seen_at, etr_after, TakesMemoryIfOut, RefusesBadHead, notice_from};
ghost use Rattle.lisp_etr.specs.declared.start_fault.StartFault.{StartFault};
ghost use Rattle.lisp_etr.specs.declared.send_fault.SendFault.{SendFault};
ghost use Rattle.lisp_etr.specs.declared.notify_fault.NotifyFault.{NotifyFault};
ghost use Rattle.lisp_nonces.specs.Promises.{KeepsListsIfHonest};
ghost use Rattle.lisp_etr.specs.Starting.{StartsIfHonest, UnaskedIfNoMemory, IsOfFullStore, SameIfFull, FailsAsArmed, FailsByDevice};
ghost use Rattle.lisp_etr.specs.Saving.{SendSaves};

use crate::config::EtrConfig;
use crate::hearing::hear;
use crate::notify_fault::NotifyFault;
use crate::rotate_fault::{RotateFault, RotateRefused};
use crate::rounds::{Rounds, begin_all, first_due, rotate_all};
use crate::seen::Seen;
use crate::send_fault::SendFault;
use crate::sending::{datagram, keep_block};
use crate::start_fault::{StartFault, StartRefused};
use lisp_hmac::Key;
use lisp_memory::{FallibleCopies, Memory};
use lisp_messages::{MapNotify, write_notify_under};
use lisp_nonces::{FIRST_NOTICE_NONCE, LAST_ROUTER_NONCE, NonceStore};
use lisp_records::{Addr, Bytes, Database, Prefix};
use lisp_replies::{Reply, router_reply};
use std::alloc::{AllocError, Allocator, Global};
use std::marker::Model;

/// A site router: what it registers, its last nonce, and how it stands with its Map-Servers.
#[derive(Drop)]
pub struct Etr<A: Allocator = Global> {
    alloc: A,
    config: EtrConfig<A>,
    database: Database<A>,
    last: u64,
    // What the last save that was done has saved, 0 before: after a restart the store has no less. No nonce above it is sent.
    safe: u64,
    rounds: Vec<Rounds, A>,
}

impl<A: Allocator> Model for Etr<A> {
    ghost use Rattle.std.specs.Prelude.{◌≡◌, ◌≤◌, length};
    ghost use Rattle.lisp_etr.specs.Etr.{EtrState};

    ghost Value = { EtrState };

    ghost view = { λ e. record { config = e.config; database = e.database; last = e.last; safe = e.safe; rounds = e.rounds.items } };

    ghost invariant = { λ e. length e.rounds.items ≡ length e.config.servers };
}

impl<A: Memory + Copy> Etr<A> {
    /// A router that starts at a time, in ms: its last nonce is the one that the store keeps, 0 where
    /// it keeps none, and all its Map-Servers are due. What it makes lies in memory of `alloc`. It
    /// refuses in this order, and gives back what it was given: `OutOfMemory`, `Store`.
    pub fn start<S: NonceStore>(
        alloc: A,
        config: EtrConfig<A>,
        database: Database<A>,
        store: &mut S,
        now: u64,
    ) -> Result<Etr<A>, StartRefused<A>>
        ensures started { IfOk result (λ e. e ≡ etr_started config database e.last now) }
        ensures last { StartsIfHonest config (S.seen store.old) result }
        ensures back { IfErr result (λ r. (r.config ≡ config) × (r.database ≡ database)) }
        ensures same { KeepsListsIfHonest (S.seen store.old) (S.seen store.new) }
        ensures memory { IfErr result (λ r. r.fault ≡ StartFault.OutOfMemory → A.may_refuse) }
        ensures unasked { IfErr result (UnaskedIfNoMemory (S.seen store.old) (S.seen store.new)) }
        ensures store_memory { IfErr result (λ r. IsOfFullStore r.fault → S.may_refuse) }
        ensures refused { IfErr result (SameIfFull (S.seen store.old) (S.seen store.new)) }
        ensures loads { OnOk result (MayLoad (S.seen store.old)) }
        ensures load_fails { IfErr result (FailsAsArmed (S.seen store.old)) }
        ensures cause { IfErr result (FailsByDevice (S.seen store.old) (S.seen store.new)) }
        ensures proceeds { Proceeds (S.seen store.old) (S.seen store.new) }
    {
        let rounds = Rounds::start(now);
        let Ok(rounds) = Vec::try_for_each(alloc, rounds, config.servers.as_slice()) else {
            return Err(StartRefused {
                fault: StartFault::OutOfMemory,
                config,
                database,
            });
        };
        match store.load(&config.pair()) {
            Ok(last) => Ok(Etr {
                alloc,
                config,
                database,
                last: last.unwrap_or(0),
                safe: 0,
                rounds,
            }),
            Err(fault) => Err(StartRefused {
                fault: StartFault::Store(fault),
                config,
                database,
            }),
        }
    }

    /// Its configuration and its present database; rounds and nonces in memory are gone. Takes no memory.
    pub fn stop(self) -> (EtrConfig<A>, Database<A>)
        ensures config { result.0 ≡ self.config }
        ensures database { result.1 ≡ self.database }
    {
        (self.config, self.database)
    }

    /// Registers this database from a time on, in ms: all its parts are due at all its Map-Servers. Takes no memory.
    pub fn change(&mut self, database: Database<A>, now: u64)
        ensures { self.new ≡ etr_changed self.old database now }
    {
        self.database = database;
        begin_all(&mut self.rounds, now);
    }

    /// Registers under another key of its site from a time on, in ms: its last nonce is the one that the store
    /// keeps for that key, 0 where it keeps none; all its Map-Servers are due, and what they were sent under the
    /// former key is no longer counted. What they acknowledged before stays. Takes no memory.
    ///
    /// It refuses in this order, changes nothing then, and gives back the key: `SameKey`, `Store`.
    pub fn rotate<S: NonceStore>(
        &mut self,
        key_id: u8,
        key: Key,
        store: &mut S,
        now: u64,
    ) -> Result<(), RotateRefused>
        ensures rotated { OnOk result (RotatesTo self.old self.new key_id key now) }
        ensures last { OnOk result (GoesOnIfHonest self.old self.new key_id (S.seen store.old)) }

        // The refusals, in their order.
        ensures same_key { RefusesSameKey key result ↔ (key_id ≡ self.old.config.key_id) }
        ensures back { IfErr result (λ refused. refused.key ≡ key) }
        ensures err { OnErr result (self.new ≡ self.old) }

        // Loading changes no list, and the key that it has isn't asked for.
        ensures same { KeepsListsIfHonest (S.seen store.old) (S.seen store.new) }
        ensures unasked { key_id ≡ self.old.config.key_id → S.seen store.new ≡ S.seen store.old }
        ensures store_memory { IfErr result (λ refused. IsOfFullStoreToRotate refused
            → S.may_refuse) }
        ensures refused { IfErr result (SameIfFullToRotate (S.seen store.old) (S.seen store.new)) }
        ensures loads { OnOk result (MayLoad (S.seen store.old)) }
        ensures load_fails { IfErr result (FailsToRotateAsArmed (S.seen store.old)) }
        ensures cause { IfErr result (FailsToRotateByDevice (S.seen store.old) (S.seen store.new)) }
        ensures proceeds { Proceeds (S.seen store.old) (S.seen store.new) }
    {
        if key_id == self.config.key_id {
            let fault = RotateFault::SameKey;
            return Err(RotateRefused { fault, key });
        }
        let last = match store.load(&self.config.pair_under(key_id)) {
            Ok(last) => last,
            Err(fault) => {
                let fault = RotateFault::Store(fault);
                return Err(RotateRefused { fault, key });
            }
        };
        self.config.set_key(key_id, key);
        self.last = last.unwrap_or(0);
        self.safe = 0;
        rotate_all(&mut self.rounds, now);
        Ok(())
    }

    /// The least number, from 0 on, of a Map-Server that is due at a time, in ms, and of the parts of the present
    /// database the least that is due there; `None` where none is. Takes no memory.
    pub fn due(&self, now: u64) -> Option<(usize, usize)>
        ensures due { result ≡ due_at self.now now }
        ensures server { IfSome result (λ due. due.0 < length self.now.config.servers) }
        ensures part { IfSome result (λ due. due.1 < part_count self.now.database) }
    {
        let parts = self.database.parts();
        let server = first_due(&self.rounds, parts, now)?;
        let part = self.rounds[server].due(parts, now)?;
        Some((server, part))
    }

    /// A Map-Register to a Map-Server, by its number, at a time, in ms, of at most 2^62: of a part of the present
    /// database, from 0 on, under the nonce after the last (RFC 9301 sections 5.6 and 8.2). Before that it saves the end of a
    /// block of nonces which begins with this one, unless it did so with an earlier nonce of the block.
    ///
    /// It refuses in this order: `NoServer`, `NoPart`, `NonceSpent` (the last nonce is 2^63 - 1 or more), `OutOfMemory`,
    /// `Store`. A refusal changes nothing here; at `Store(Device)` it is open whether the store keeps the end of the block.
    pub fn send<S: NonceStore>(
        &mut self,
        store: &mut S,
        server: usize,
        part: usize,
        now: u64,
    ) -> Result<Vec<u8, A>, SendFault>
        requires { now ≤ max_moment }
        ensures datagram { IfOk result (λ bytes. bytes.items ≡ next_datagram self.old part) }
        ensures known { OnOk result (IsMapRegister (next_register self.old part)) }
        ensures fits { OnOk result (database_of self.old.database ≡ Ok self.old.database) }
        ensures sends { OnOk result (EtrSends self.old self.new server part now) }
        ensures store { SendSaves self.old self.new (S.seen store.old) (S.seen store.new) result }

        // The refusals, in their order.
        ensures no_server { (result ≡ Err SendFault.NoServer) ↔ NoServerAt self.old server }
        ensures no_part { (result ≡ Err SendFault.NoPart) ↔ NoPartFor self.old server part }
        ensures spent { (result ≡ Err SendFault.NonceSpent) ↔ NoNonceFor self.old server part }
        ensures memory { IsErrOf result SendFault.OutOfMemory → A.may_refuse }
        ensures store_memory { IsErrOf result store_out_of_memory → S.may_refuse }
        ensures err { OnErr result (self.new ≡ self.old) }
    {
        if server >= self.rounds.len() {
            return Err(SendFault::NoServer);
        }
        if part >= self.database.parts() {
            return Err(SendFault::NoPart);
        }
        if self.last >= LAST_ROUTER_NONCE {
            return Err(SendFault::NonceSpent);
        }
        let nonce = self.last + 1;
        let records = self.database.part_records(part, self.alloc)?;
        let datagram = datagram(self.alloc, &self.config, records, nonce)?;
        self.safe = keep_block(store, &self.config, nonce, self.safe)?;
        self.last = nonce;
        self.rounds[server].send(part, nonce, now);
        Ok(datagram)
    }

    /// Takes a message that came from an address at a time, in ms, which isn't used: a new round counts from
    /// the send that is acknowledged. It answers `Counted`, or `Notice` with the Map-Notify-Ack to send (RFC
    /// 9301 sections 5.7 and 8.2).
    ///
    /// It refuses in this order: `Read` (the bytes spell no message), `NotMine` (no Map-Notify, or from
    /// no Map-Server of this router), `WrongKey`, `BadAuth`, `Stale` (the nonce is below 2^63 and isn't
    /// that of the last Map-Register of any part to that Map-Server). `OutOfMemory` may come in place of any answer past
    /// the first 32 bytes where the message has records, and in place of a notice. A refusal changes nothing.
    #[tactic(auto, unfolding(crate::specs::Hearing::seen_in))]
    pub fn receive(&mut self, from: Addr, bytes: &[u8], _now: u64) -> Result<Seen<A>, NotifyFault>
        ensures answer { Gives (λ seen. seen) result (seen_at self.old from bytes.now) }
        ensures after { self.new ≡ etr_after self.old result }
        ensures fits { IfOk result (λ seen. AnswerFits self.old.config.key_id seen) }

        // Only records that are read and a notice that is answered take memory.
        ensures grows { TakesMemoryIfOut self.old.config from bytes.now result }

        // Before the first record nothing takes memory.
        ensures early { RefusesBadHead bytes.now result }
        ensures memory { IsErrOf result NotifyFault.OutOfMemory → A.may_refuse }
    {
        let (server, notify) = hear(self.alloc, &self.config, from, bytes)?;
        if notify.nonce >= FIRST_NOTICE_NONCE {
            return self.notice(server, notify);
        }
        self.count(server, notify.nonce)
    }

    // A Map-Server's notice, and its answer.
    fn notice(&self, server: usize, notify: MapNotify<A>) -> Result<Seen<A>, NotifyFault>
        ensures notice { IfOk result (λ seen. seen ≡ notice_from self.now.config server notify) }
        ensures fits { IfOk result (λ seen. AnswerFits notify.key_id seen) }
        ensures err { IfErr result (λ fault. fault ≡ NotifyFault.OutOfMemory) }
        ensures memory { OnErr result A.may_refuse }
    {
        let ack = MapNotify {
            ack: true,
            ..notify
        };
        let bytes = write_notify_under(self.alloc, &ack, &self.config.key)?;
        Ok(Seen::Notice {
            server,
            nonce: ack.nonce,
            records: ack.records,
            answer: Bytes::from_vec(bytes),
        })
    }

    // The acknowledgement of the last Map-Register of a part to a Map-Server.
    fn count(&mut self, server: usize, nonce: u64) -> Result<Seen<A>, NotifyFault>
        requires { server < length self.old.config.servers }
        ensures answer { result ≡ counted_in self.old.rounds server nonce }
        ensures plain { ¬ (IsErrOf result NotifyFault.OutOfMemory) }
        ensures after { self.new ≡ etr_after self.old result }
    {
        let rounds = &mut self.rounds[server];
        let Some(part) = rounds.part_with(nonce) else {
            return Err(NotifyFault::Stale {
                latest: rounds.latest(),
            });
        };
        rounds.count(self.config.key_id, part);
        Ok(Seen::Counted {
            server,
            part,
            nonce,
        })
    }

    /// For each of 16 parts, the Key ID and the nonce of the last Map-Register to a Map-Server, by its number, that was
    /// acknowledged since the start, `None` where none was; nothing where there is no such Map-Server. A part that the
    /// present database doesn't have keeps what was acknowledged of it before. Takes no memory.
    pub fn acked(&self, server: usize) -> &[Option<(u8, u64)>]
        ensures { result.now ≡ acked_at self.now.rounds server }
    {
        match self.rounds.get(server) {
            Some(rounds) => &rounds.acked,
            None => &[],
        }
    }

    /// Its configuration: who it is, its key, and its Map-Servers. Takes no memory.
    pub fn config(&self) -> &EtrConfig<A>
        ensures { result.now ≡ self.now.config }
    {
        &self.config
    }

    /// What the last save that was done has saved since the start, or since it went over to another key; 0 where none was. No
    /// nonce above it was sent since then. Takes no memory.
    pub fn safe(&self) -> u64
        ensures { result ≡ self.now.safe }
    {
        self.safe
    }

    /// What it sends for an EID-Prefix that a Map-Request asks for, by its present database, in memory of `alloc`: see
    /// [`router_reply`]. Where an address is `probed` (P of the Map-Request), each locator of that address has the probe
    /// bit (RFC 9301 sections 5.5, 7.1 and 8.2).
    pub fn reply_to<C: Memory + Copy>(
        &self,
        alloc: C,
        asked: &Prefix,
        probed: Option<Addr>,
    ) -> Result<Reply<C>, AllocError>
        ensures reply { IfOk result
            (λ reply. IsOwnReply self.now.database asked.now probed reply) }
        ensures memory { OnErr result C.may_refuse }
    {
        router_reply(alloc, &self.database, asked, probed)
    }

    /// What it registers. Takes no memory.
    pub fn database(&self) -> &Database<A>
        ensures { result.now ≡ self.now.database }
    {
        &self.database
    }
}
