//! A router of a network, with its store.

ghost use Rattle.std.specs.Prelude.{◌≡◌, ◌≤◌, None, false, IfSome, IsErrOf, ◌==◌, position};
ghost use Rattle.std.specs.Option.{option_map};
ghost use Rattle.lisp_records.specs.Moment.{max_moment};
ghost use Rattle.lisp_etr.specs.declared.notify_fault.NotifyFault.{NotifyFault};
ghost use Rattle.lisp_etr.specs.declared.send_fault.SendFault.{SendFault};
ghost use Rattle.lisp_etr.specs.declared.start_fault.StartFault.{StartFault};
ghost use Rattle.lisp_refinement.specs.Calls.{config_of, database_of, NodeStarts, NodeRestarts, NodeLoses};
ghost use Rattle.lisp_refinement.specs.World.{is_used};
ghost use Rattle.lisp_nodes.specs.Cores.{core_of, down_over, stopped_under};
ghost use Rattle.lisp_nodes.specs.Memory.{RefusesOnlyIf, no_store_memory_to_send, no_store_memory_to_rotate, no_store_memory_to_start};
ghost use Rattle.lisp_refinement.specs.Events.{changed_node, is_up, place_of, NodeSends, NodeHears, NodeRotates};
ghost use Rattle.lisp_refinement.specs.Nodes.{up_in};

use crate::arming::arm;
use crate::router_core::RouterCore;
use crate::used_keys::UsedKeys;
use core::mem::replace_with;
use lisp_etr::{
    Etr, EtrConfig, NotifyFault, RotateFault, Seen, SendFault, StartFault, StartRefused,
};
use lisp_hmac::Key;
use lisp_memory::Memory;
use lisp_nonces::{Fate, WorldStore};
use lisp_policy::Places;
use lisp_records::{Addr, Bytes, Database, RouterId};
use std::alloc::{Allocator, Global};
use std::marker::Model;

/// A router with its store: who it is, and the numbers of its Map-Servers in its order.
#[derive(Drop)]
pub struct RouterNode<S: WorldStore, A: Allocator = Global> {
    me: RouterId,
    // The key that it registers under.
    key_id: u8,
    servers: Places<A>,
    used: UsedKeys,
    core: RouterCore<A>,
    store: S,
}

/// How a router starts.
#[derive(Drop)]
pub struct Start<A: Allocator = Global> {
    /// The memory that what it makes lies in.
    pub alloc: A,
    /// The moment, in ms.
    pub now: u64,
    /// The database that it registers from then on; `None`: the one that it has.
    pub db: Option<Database<A>>,
}

impl<S: WorldStore, A: Allocator> Model for RouterNode<S, A> {
    ghost use Rattle.std.specs.Prelude.{◌≡◌};
    ghost use Rattle.std.specs.Coded.{codes};
    ghost use Rattle.lisp_nonces.specs.Kept.{kept_code};
    ghost use Rattle.lisp_refinement.specs.Calls.{config_of};
    ghost use Rattle.lisp_nodes.specs.Cores.{core_of};
    ghost use Rattle.lisp_refinement.specs.World.{RouterNodeState};

    ghost Value = { RouterNodeState };

    ghost coded = { Prim.hlevel (codes, kept_code) };

    ghost view = { λ n. record { me = n.me; servers = n.servers; used = n.used; core = core_of n.core; store = S.seen n.store } };

    ghost invariant = { λ n. n.key_id ≡ (config_of (core_of n.core)).key_id };
}

impl<S: WorldStore, A: Allocator> RouterNode<S, A> {
    /// A router that is down, over its store: what it starts from, and the numbers of its Map-Servers in the order of
    /// its configuration. Takes no memory.
    pub fn down(
        servers: Places<A>,
        config: EtrConfig<A>,
        database: Database<A>,
        store: S,
    ) -> RouterNode<S, A>
        ensures { result ≡ down_over servers config database (S.seen store) }
    {
        RouterNode {
            me: config.me,
            key_id: config.key_id,
            servers,
            used: UsedKeys::of(config.key_id),
            core: RouterCore::Down { config, database },
            store,
        }
    }

    /// Who it is. Takes no memory.
    pub fn me(&self) -> RouterId
        ensures { result ≡ self.now.me }
    {
        self.me
    }

    /// The numbers of its Map-Servers, and the key that it registers under.
    pub(crate) fn registers_with(&self) -> (&[usize], u8)
        ensures servers { result.0.now ≡ self.now.servers }
        ensures key { result.1 ≡ (config_of self.now.core).key_id }
    {
        (self.servers.as_slice(), self.key_id)
    }

    /// Whether it was started under a key or went over to it since its store was lost last, a start that was refused
    /// counting. Takes no memory.
    pub fn used_since_loss(&self, key: u8) -> bool
        ensures { result ≡ is_used self.now.used.since_loss key }
    {
        self.used.since_loss(key)
    }

    /// Whether it was or did before its store was lost last. Takes no memory.
    pub fn used_before_loss(&self, key: u8) -> bool
        ensures { result ≡ is_used self.now.used.before_loss key }
    {
        self.used.before_loss(key)
    }

    /// The router where it is up; `None` where it is down. Takes no memory.
    pub fn etr(&self) -> Option<&Etr<A>>
        ensures { option_map (λ e. e.now) result ≡ up_in self.now.core }
    {
        match &self.core {
            RouterCore::Up(etr) => Some(etr),
            RouterCore::Down { .. } => None,
        }
    }

    /// Its store. Takes no memory.
    pub fn store(&self) -> &S
        ensures { S.seen result.now ≡ self.now.store }
    {
        &self.store
    }
}

impl<S: WorldStore, A: Memory + Copy> RouterNode<S, A> {
    /// It registers another database from a moment on, in ms, where it is up; whether it is. One that is down is left
    /// unchanged. Takes no memory.
    pub fn change(&mut self, db: Database<A>, now: u64) -> bool
        ensures { (self.new ≡ changed_node db now self.old) × (result ≡ is_up self.old.core) }
    {
        match &mut self.core {
            RouterCore::Up(etr) => {
                etr.change(db, now);
                true
            }
            RouterCore::Down { .. } => false,
        }
    }

    /// It makes a Map-Register of a part of its database, from 0 on, for the Map-Server with a number at a moment, in ms, its
    /// store armed with the fate for the call and with `Done` after it: the bytes to send, or why there are none (`NoServer`
    /// where it doesn't register with that Map-Server, `NoPart` where its database doesn't have the part). `None` where it is
    /// down, and it is left unchanged.
    pub fn send(
        &mut self,
        server: usize,
        part: usize,
        fate: Fate,
        now: u64,
    ) -> Option<Result<Bytes<A>, SendFault>>
        requires { now ≤ max_moment }
        ensures up { IfSome result (NodeSends self.old self.new server part fate now) }
        ensures down { result ≡ None → (is_up self.old.core ≡ false) × (self.new ≡ self.old) }
        ensures memory { RefusesOnlyIf result SendFault.OutOfMemory A.may_refuse }
        ensures store_memory { RefusesOnlyIf result no_store_memory_to_send S.may_refuse }
    {
        let place = place_of(self.servers.as_slice(), server);
        let etr = match &mut self.core {
            RouterCore::Up(etr) => etr,
            RouterCore::Down { .. } => return None,
        };
        arm(&mut self.store, fate);
        let answer = etr.send(&mut self.store, place, part, now);
        arm(&mut self.store, Fate::Done);
        Some(match answer {
            Ok(bytes) => Ok(Bytes::from_vec(bytes)),
            Err(fault) => Err(fault),
        })
    }

    /// It registers under another key of its site from a moment on, in ms, its store armed with the fate for the call and
    /// with `Done` after it: the key counts as used from then on; or it keeps its key, and says why. `None` where it is
    /// down, and it is left unchanged. Takes no memory.
    pub fn rotate(
        &mut self,
        key_id: u8,
        key: Key,
        fate: Fate,
        now: u64,
    ) -> Option<Result<(), RotateFault>>
        ensures up { IfSome result (NodeRotates self.old self.new key_id key fate now) }
        ensures down { result ≡ None → (is_up self.old.core ≡ false) × (self.new ≡ self.old) }
        ensures store_memory { RefusesOnlyIf result no_store_memory_to_rotate S.may_refuse }
    {
        let etr = match &mut self.core {
            RouterCore::Up(etr) => etr,
            RouterCore::Down { .. } => return None,
        };
        arm(&mut self.store, fate);
        let answer = etr.rotate(key_id, key, &mut self.store, now);
        arm(&mut self.store, Fate::Done);
        Some(match answer {
            Ok(()) => {
                self.key_id = key_id;
                self.used.add(key_id);
                Ok(())
            }
            Err(refused) => Err(refused.fault),
        })
    }

    /// It receives bytes from an address at a time, in ms, its store armed with the fate; `None` where it is down.
    pub(crate) fn receive(
        &mut self,
        fate: Fate,
        from: Addr,
        bytes: &[u8],
        now: u64,
    ) -> Option<Result<Seen<A>, NotifyFault>>
        ensures up { IfSome result (NodeHears self.old self.new fate from bytes.now) }
        ensures down { result ≡ None → (is_up self.old.core ≡ false) × (self.new ≡ self.old) }
        ensures memory { RefusesOnlyIf result NotifyFault.OutOfMemory A.may_refuse }
    {
        let etr = match &mut self.core {
            RouterCore::Up(etr) => etr,
            RouterCore::Down { .. } => return None,
        };
        arm(&mut self.store, fate);
        let answer = etr.receive(from, bytes, now);
        arm(&mut self.store, Fate::Done);
        Some(answer)
    }

    /// It stops, its store crashes, and it starts again; or it is down and says why.
    pub fn restart(&mut self, pick: u64, how: Start<A>) -> Result<(), StartFault>
        ensures restarts { NodeRestarts self.old self.new pick how.db how.now result }
        ensures memory { IsErrOf result StartFault.OutOfMemory → A.may_refuse }
        ensures store_memory { IsErrOf result no_store_memory_to_start → S.may_refuse }
    {
        self.store.restart(pick);
        replace_with(self, how, RouterNode::start)
    }

    /// It stops, its store loses what it kept, and it starts again under another key; or it is down and says why. The key
    /// counts as used either way.
    pub fn lose(&mut self, key_id: u8, key: Key, how: Start<A>) -> Result<(), StartFault>
        ensures loses { NodeLoses self.old self.new key_id key how.db how.now result }
        ensures memory { IsErrOf result StartFault.OutOfMemory → A.may_refuse }
        ensures store_memory { IsErrOf result no_store_memory_to_start → S.may_refuse }
    {
        self.store.lose();
        self.used.lose(key_id);
        replace_with(self, (key_id, key), RouterNode::stop_under);
        replace_with(self, how, RouterNode::start)
    }

    // It stops, and has another key to start under.
    fn stop_under(self, other: (u8, Key)) -> (RouterNode<S, A>, ())
        ensures { result.0 ≡ stopped_under self other.0 other.1 }
    {
        let (key_id, key) = other;
        let RouterNode {
            me,
            servers,
            used,
            core,
            store,
            ..
        } = self;
        let (config, database) = stopped(core);
        let config = EtrConfig {
            key_id,
            key,
            ..config
        };
        (
            RouterNode {
                me,
                key_id,
                servers,
                used,
                core: RouterCore::Down { config, database },
                store,
            },
            (),
        )
    }

    /// It starts over its store; or it is down and says why. Who it is, its configuration, its Map-Servers and the keys
    /// that it used stay.
    pub fn start(self, how: Start<A>) -> (RouterNode<S, A>, Result<(), StartFault>)
        ensures me { result.0.me ≡ self.me }
        ensures servers { result.0.servers ≡ self.servers }
        ensures used { result.0.used ≡ self.used }
        ensures starts { NodeStarts self result.0 how.db how.now result.1 }
        ensures memory { IsErrOf result.1 StartFault.OutOfMemory → A.may_refuse }
        ensures store_memory { IsErrOf result.1 no_store_memory_to_start → S.may_refuse }
    {
        let Start { alloc, now, db } = how;
        let RouterNode {
            me,
            key_id,
            servers,
            used,
            core,
            mut store,
        } = self;
        let (config, database) = stopped(core);
        let database = db.unwrap_or(database);
        let (core, answer) = match Etr::start(alloc, config, database, &mut store, now) {
            Ok(etr) => (RouterCore::Up(etr), Ok(())),
            Err(
                StartRefused {
                    fault,
                    config,
                    database,
                },
            ) => (RouterCore::Down { config, database }, Err(fault)),
        };
        (
            RouterNode {
                me,
                key_id,
                servers,
                used,
                core,
                store,
            },
            answer,
        )
    }
}

// The place of a Map-Server in a router's list; where it isn't listed, the list's length, which `send` refuses.
fn place_of(servers: &[usize], server: usize) -> usize
    ensures { result ≡ place_of servers.now server }
{
    place_in(servers, server).unwrap_or(servers.len())
}

fn place_in(servers: &[usize], server: usize) -> Option<usize>
    ensures { result ≡ position (λ s. s == server) servers.now }
{
    servers.iter().position(|other| *other == server)
}

// What a router starts from again.
fn stopped<A: Memory + Copy>(core: RouterCore<A>) -> (EtrConfig<A>, Database<A>)
    ensures config { result.0 ≡ config_of (core_of core) }
    ensures database { result.1 ≡ database_of (core_of core) }
{
    match core {
        RouterCore::Up(etr) => etr.stop(),
        RouterCore::Down { config, database } => (config, database),
    }
}
