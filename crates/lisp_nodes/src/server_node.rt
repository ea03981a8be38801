//! A Map-Server of a network, with its store.

ghost use Rattle.std.specs.Prelude.{◌≡◌, ◌≤◌, None, true, IfOk, IfSome, IsErrOf, OnErr};
ghost use Rattle.std.specs.List.{All};
ghost use Rattle.lisp_records.specs.Moment.{max_moment};
ghost use Rattle.lisp_records.specs.Row.{is_alive};
ghost use Rattle.lisp_lookup.specs.Table.{DropsDead, OneEach};
ghost use Rattle.lisp_policy.specs.Extends.{extends};
ghost use Rattle.lisp_admission.specs.declared.refused.Refused.{Refused};
ghost use Rattle.lisp_admission.specs.declared.notice_fault.NoticeFault.{NoticeFault};
ghost use Rattle.lisp_refinement.specs.Calls.{NodeReceives, NodeNotifies, StoreRestarts};
ghost use Rattle.lisp_refinement.specs.Events.{ExpiresNode, NodeReloads, NodeResends, ChangesNoticesAlone};
ghost use Rattle.lisp_refinement.specs.Nodes.{fresh_server};
ghost use Rattle.lisp_refinement.specs.Replied.{NodeReplies};
ghost use Rattle.lisp_nodes.specs.Memory.{no_store_memory_to_load, no_store_memory_to_save, no_store_memory_to_load_notice, no_store_memory_to_save_notice};

use crate::arming::arm;
use core::mem::replace_with;
use lisp_memory::Memory;
use lisp_nonces::{Fate, WorldStore};
use lisp_policy::Sites;
use lisp_records::{Addr, Bytes, Prefix, RouterId};
use lisp_replies::{Reply, is_starting};
use lisp_server::{NoticeFault, Refused, Server, Took};
use std::alloc::{AllocError, Allocator, Global};
use std::marker::Model;

/// A Map-Server with its store.
#[derive(Drop)]
pub struct ServerNode<S: WorldStore, A: Allocator = Global> {
    core: Server<A>,
    store: S,
    // the moment, in ms, at which its present life began: what it holds was registered since
    started: u64,
}

impl<S: WorldStore, A: Allocator> Model for ServerNode<S, A> {
    ghost use Rattle.std.specs.Coded.{codes};
    ghost use Rattle.lisp_nonces.specs.Kept.{kept_code};
    ghost use Rattle.lisp_server.specs.LastNonces.{nonces_code};
    ghost use Rattle.lisp_refinement.specs.World.{ServerNodeState};

    ghost Value = { ServerNodeState };

    ghost coded = { Prim.hlevel (codes, nonces_code, kept_code) };

    ghost view = { λ n. record { core = n.core; store = S.seen n.store; started = n.started } };
}

impl<S: WorldStore, A: Allocator> ServerNode<S, A> {
    /// The Map-Server. Takes no memory.
    pub fn core(&self) -> &Server<A>
        ensures { result.now ≡ self.now.core }
    {
        &self.core
    }

    /// Its store. Takes no memory.
    pub fn store(&self) -> &S
        ensures { S.seen result.now ≡ self.now.store }
    {
        &self.store
    }

    /// The moment, in ms, at which its present life began: that of its last restart, or of the last sites under which it started
    /// anew (`reload`); 0 where there was neither. Takes no memory.
    pub fn started(&self) -> u64
        ensures { result ≡ self.now.started }
    {
        self.started
    }
}

impl<S: WorldStore + Drop, A: Allocator + Copy> ServerNode<S, A> {
    /// Its sites again; what it held and its store are gone. Takes no memory.
    pub fn stop(self) -> Sites<A>
        ensures { result ≡ self.core.sites }
    {
        self.core.stop()
    }
}

impl<S: WorldStore, A: Memory + Copy> ServerNode<S, A> {
    /// A Map-Server of these sites that holds nothing, over its store, at the moment 0. Takes no memory; what it holds
    /// later lies in memory of `alloc`.
    pub fn start(alloc: A, sites: Sites<A>, store: S) -> ServerNode<S, A>
        ensures { result
            ≡ record { core = fresh_server sites; store = S.seen store; started = 0 } }
    {
        ServerNode::start_at(alloc, sites, store, 0)
    }

    /// As `start`, at a moment, in ms. Takes no memory.
    pub fn start_at(alloc: A, sites: Sites<A>, store: S, now: u64) -> ServerNode<S, A>
        ensures { result
            ≡ record { core = fresh_server sites; store = S.seen store; started = now } }
    {
        ServerNode {
            core: Server::start(alloc, sites),
            store,
            started: now,
        }
    }

    /// It stops, its store crashes, and it starts with its sites alone, at a moment, in ms. Takes no memory.
    pub fn restart(&mut self, alloc: A, pick: u64, now: u64)
        ensures core { self.new.core ≡ fresh_server self.old.core.sites }
        ensures crashes { StoreRestarts self.old.store self.new.store pick }
        ensures started { self.new.started ≡ now }
    {
        self.store.restart(pick);
        replace_with(&mut self.core, alloc, started_again);
        self.started = now;
    }

    /// It takes other sites at a moment, in ms. Where they have all that its own have it goes on with what it holds; else it
    /// starts anew under them, and its life begins at that moment. Answers whether it goes on. Its store isn't used. Takes no
    /// memory.
    pub fn reload(&mut self, sites: Sites<A>, now: u64) -> bool
        ensures reloads { NodeReloads self.old self.new sites now }
        ensures kept { result ≡ extends self.old.core.sites sites }
    {
        let goes_on = self.core.reload(sites);
        if !goes_on {
            self.started = now;
        }
        goes_on
    }

    /// It drops the rows that are dead at a moment, in ms; the rest is left unchanged, its store too. Takes no memory.
    pub fn expire(&mut self, now: u64)
        requires { now ≤ max_moment }
        ensures expires { ExpiresNode self.old self.new now }
    {
        self.core.expire(now);
    }

    /// It drops a row that is dead at a moment, in ms, of at most 2^62: of several the one that died first. Answers whose it
    /// was, the router and its EID-Prefix; `None` where no row is dead, and then nothing changes. Takes no memory.
    pub fn expire_one(&mut self, now: u64) -> Option<(RouterId, Prefix)>
        requires { now ≤ max_moment }
        ensures dropped { IfSome result
            (λ key. DropsDead self.old.core.rows self.new.core.rows now key) }
        ensures none { result ≡ None → All (λ h. is_alive h now ≡ true) self.old.core.rows
            × (self.new ≡ self.old) }
        ensures rest { self.new
            ≡ record self.old { core = record self.old.core { rows = self.new.core.rows } } }
        ensures one_each { OneEach self.new.core.rows }
    {
        self.core.expire_one(now)
    }

    /// What it sends at a moment, in ms, for an EID-Prefix that a Map-Request asks for, where its life is starting for so many ms
    /// (RFC 9301 sections 8.3 and 8.4).
    pub fn reply_to(&self, asked: &Prefix, quiet: u64, now: u64) -> Result<Reply<A>, AllocError>
        ensures reply { IfOk result (NodeReplies self.now asked.now quiet now) }
        ensures memory { OnErr result A.may_refuse }
    {
        let starting = is_starting(self.started, quiet, now);
        self.core.reply_to(asked, starting, now)
    }

    /// It receives bytes from an address, its store's calls as the fate says.
    pub(crate) fn receive(
        &mut self,
        fate: Fate,
        from: Addr,
        bytes: &[u8],
        now: u64,
    ) -> Result<Took<A>, Refused>
        ensures receives { NodeReceives self.old self.new fate from bytes.now now result }
        ensures memory { IsErrOf result Refused.OutOfMemory → A.may_refuse }
        ensures load_memory { IsErrOf result no_store_memory_to_load → S.may_refuse }
        ensures save_memory { IsErrOf result no_store_memory_to_save → S.may_refuse }
    {
        arm(&mut self.store, fate);
        let answer = self.core.receive(&mut self.store, from, bytes, now);
        arm(&mut self.store, Fate::Done);
        answer
    }

    /// It makes a router an unsolicited Map-Notify (notice) of what it holds of it at a moment, in ms, its store armed with
    /// the fate for the call and with `Done` after it: the address to send it to and its bytes, or why there is none, and
    /// then nothing but its store may have changed.
    pub fn notify(
        &mut self,
        fate: Fate,
        router: &RouterId,
        now: u64,
    ) -> Result<(Addr, Bytes<A>), NoticeFault>
        requires { now ≤ max_moment }
        ensures notifies { NodeNotifies self.old self.new fate router.now now result }
        ensures memory { IsErrOf result NoticeFault.OutOfMemory → A.may_refuse }
        ensures load_memory { IsErrOf result no_store_memory_to_load_notice → S.may_refuse }
        ensures save_memory { IsErrOf result no_store_memory_to_save_notice → S.may_refuse }
    {
        arm(&mut self.store, fate);
        let answer = self.core.notify(&mut self.store, router, now);
        arm(&mut self.store, Fate::Done);
        let (to, bytes) = answer?;
        Ok((to, Bytes::from_vec(bytes)))
    }

    /// It gives a router's notice again, where that is due at a moment, in ms: the address to send it to and its bytes, or
    /// why there is none. Its store is not used, and nothing but the count of that notice changes.
    pub fn resend(&mut self, router: &RouterId, now: u64) -> Result<(Addr, Bytes<A>), NoticeFault>
        requires { now ≤ max_moment }
        ensures resends { NodeResends self.old self.new now router.now result }
        ensures rest { ChangesNoticesAlone self.old self.new }
        ensures memory { IsErrOf result NoticeFault.OutOfMemory → A.may_refuse }
    {
        let (to, bytes) = self.core.resend(router, now)?;
        Ok((to, Bytes::from_vec(bytes)))
    }
}

// A Map-Server that stopped and starts with its sites alone.
fn started_again<A: Allocator + Copy>(server: Server<A>, alloc: A) -> (Server<A>, ())
    ensures { result.0 ≡ fresh_server server.sites }
{
    (Server::start(alloc, server.stop()), ())
}
