//! A site router (ETR) that takes turns.

ghost use Rattle.std.specs.Prelude.{◌≡◌, ◌<◌, ◌≤◌, None, IfOk, IfSome, IsSome, OnErr, length};
ghost use Rattle.lisp_records.specs.Moment.{max_moment};
ghost use Rattle.lisp_messages.specs.Head.{head_at};
ghost use Rattle.lisp_nonces.specs.declared.fate.Fate.TheVariants.{Done};
ghost use Rattle.lisp_model.specs.Memory.{MayTell};
ghost use Rattle.lisp_model.specs.declared.event.Event.TheVariants as events;
ghost use Rattle.lisp_world.specs.Faults.{refusal_of};
ghost use Rattle.lisp_turns.specs.Acts.{DoesOne};
ghost use Rattle.lisp_turns.specs.Due.{IsRegisterDue, NothingDue, DoesDuty};
ghost use Rattle.lisp_turns.specs.Node.{Router as RouterNodeOf, IsPlaced};
ghost use Rattle.lisp_turns.specs.Order.{rotate_fault};
ghost use Rattle.lisp_turns.specs.Serving.{SendAct};

use crate::act::Act;
use crate::node::Node;
use crate::node_core::NodeCore;
use crate::order::Order;
use crate::outside::Request;
use crate::place::Place;
use lisp_admission::key_at;
use lisp_etr::SendFault;
use lisp_mapping::{Handled, Unasked, router_handles};
use lisp_memory::Memory;
use lisp_model::WorldFault;
use lisp_nodes::{Arrival, RouterNode, changed, rotated, router_hears, sent};
use lisp_nonces::{Fate, WorldStore};
use lisp_records::{Addr, Bytes, Database, Prefix, RouterId};
use lisp_sites::ConfigNode;
use std::alloc::Global;

impl<S: WorldStore> Node for RouterNode<S> {
    ghost use Rattle.lisp_turns.specs.Node.{Router};

    ghost state = { λ n. Router n };

    ghost store_may_refuse = { S.may_refuse };

    fn core(&self) -> NodeCore<'_> {
        NodeCore::Router(self.etr())
    }

    fn handle(
        &self,
        alloc: Global,
        place: &Place,
        _quiet: u64,
        request: &Request,
        buffer: &[u8],
        _now: u64,
    ) -> Option<Result<Handled, Unasked>> {
        let Some(ConfigNode::Router(entry)) = place.config.node(place.number) else {
            return None;
        };
        let etr = self.etr()?;
        Some(router_handles(
            alloc,
            etr,
            &entry.address,
            &entry.resolve,
            request.port,
            &buffer[..request.count],
        ))
    }

    /// A router holds no rows.
    fn expire(&mut self, _now: u64) -> Option<(RouterId, Prefix)> {
        None
    }

    fn hear(&mut self, place: &Place, from: Addr, bytes: &[u8], now: u64) -> Act {
        let how = Arrival {
            fate: Fate::Done,
            from,
            now,
            next: 0,
        };
        let (line, reply) = router_hears(self, place.number, how, bytes);
        Act::answer(line, from, reply)
    }

    fn obey(&mut self, place: &Place, order: Order, now: u64) -> Result<Act, WorldFault> {
        match order {
            Order::Notice { router } => {
                place.identity_of(router)?;
                Err(WorldFault::WrongKind)
            }
            Order::Change { db } => Ok(change(self, place, db, now)),
            Order::Rotate { key } => rotate(self, place, key, now),
            Order::Reload { .. } => Err(WorldFault::WrongKind),
        }
    }

    fn serve(&mut self, place: &Place, now: u64) -> Option<Act> {
        let due = first_due(self, place, now)?;
        register(self, place, due, now)
    }
}

// A part of a router's database that is due.
#[derive(Clone, Copy)]
struct Due {
    // The number of the Map-Server that it is due to.
    server: usize,
    // The part, from 0 on.
    part: usize,
}

// What is due first at a moment, of the Map-Servers that the router registers with.
fn first_due<S: WorldStore>(router: &RouterNode<S>, place: &Place, now: u64) -> Option<Due>
    requires { IsPlaced place.now.config.now place.now.number (RouterNodeOf router.now) }
    ensures due { IfSome result (λ due. IsRegisterDue router.now due.server due.part now) }
    ensures server { IfSome result (λ due. due.server < length place.now.config.now.servers) }
    ensures none { result ≡ None → NothingDue (RouterNodeOf router.now) now }
{
    let (at, part) = router.etr()?.due(now)?;
    let server = *place.servers().get(at)?;
    Some(Due { server, part })
}

// Sends the Map-Register that is due at a moment.
fn register<S: WorldStore>(
    router: &mut RouterNode<S>,
    place: &Place,
    due: Due,
    now: u64,
) -> Option<Act>
    requires bound { now ≤ max_moment }
    requires placed { IsPlaced place.now.config.now place.now.number (RouterNodeOf router.old) }
    requires due { IsRegisterDue router.old due.server due.part now }
    requires server { due.server < length place.now.config.now.servers }
    ensures does { IfSome result
        (DoesDuty Global place.now.config.now place.now.number (RouterNodeOf router.old)
        (RouterNodeOf router.new) now) }
    ensures some { IsSome result }
    ensures tells { IfSome result
        (λ act. MayTell ⟦<Global as Memory>⟧.may_refuse S.may_refuse act.line) }
    ensures placed { IsPlaced place.now.config.now place.now.number (RouterNodeOf router.new) }
{
    let answer = router.send(due.server, due.part, Fate::Done, now)?;
    Some(told(place, due, answer))
}

// The act of a router that was asked for the Map-Register that is due.
fn told(place: &Place, due: Due, answer: Result<Bytes, SendFault>) -> Act
    requires head { IfOk answer (λ bytes. IsSome (head_at bytes)) }
    requires server { due.server < length place.now.config.now.servers }
    ensures { SendAct place.now.config.now place.now.number due.server due.part answer result }
{
    let (line, message) = sent(place.number, due.server, due.part, 0, Some(answer));
    Act::answer(line, place.address_of_server(due.server), message)
}

// Has the router register another database, where it is up.
fn change<S: WorldStore>(router: &mut RouterNode<S>, place: &Place, db: Database, now: u64) -> Act
    requires placed { IsPlaced place.now.config.now place.now.number (RouterNodeOf router.old) }
    ensures does { DoesOne Global place.now.config.now place.now.number (RouterNodeOf router.old)
        (RouterNodeOf router.new) now (events.Change place.now.number db) result }
    ensures tells { MayTell ⟦<Global as Memory>⟧.may_refuse S.may_refuse result.line }
{
    let records = db.records().len();
    let is_up = router.change(db, now);
    Act::line(changed(place.number, records, is_up))
}

// Has the router go over to another key of its site, where it is up. Not to one that it used before its store was lost.
fn rotate<S: WorldStore>(
    router: &mut RouterNode<S>,
    place: &Place,
    key: u8,
    now: u64,
) -> Result<Act, WorldFault>
    requires placed { IsPlaced place.now.config.now place.now.number (RouterNodeOf router.old) }
    ensures does { IfOk result
        (DoesOne Global place.now.config.now place.now.number (RouterNodeOf router.old)
        (RouterNodeOf router.new) now (events.Rotate place.now.number key Done)) }
    ensures fault { refusal_of result ≡ rotate_fault place.now.config.now router.old key }
    ensures same { OnErr result (router.new ≡ router.old) }
    ensures tells { IfOk result
        (λ act. MayTell ⟦<Global as Memory>⟧.may_refuse S.may_refuse act.line) }
{
    let Some(secret) = key_at(place.config.sites(), router.me().site, key) else {
        return Err(WorldFault::UnknownKey);
    };
    if router.used_before_loss(key) {
        return Err(WorldFault::KeyUsed);
    }
    let answer = router.rotate(key, secret.copy(), Fate::Done, now);
    Ok(Act::line(rotated(place.number, key, answer)))
}
