//! A Map-Server that takes turns.

ghost use Rattle.std.specs.Prelude.{◌≡◌, ◌<◌, ◌≤◌, IfOk, IsSome, length, true};
ghost use Rattle.lisp_records.specs.Moment.{max_moment};
ghost use Rattle.lisp_messages.specs.Head.{head_at};
ghost use Rattle.lisp_nonces.specs.declared.fate.Fate.TheVariants.{Done};
ghost use Rattle.lisp_server.specs.Notices.{notice_at, is_due_at};
ghost use Rattle.lisp_model.specs.Memory.{MayTell};
ghost use Rattle.lisp_model.specs.declared.event.Event.TheVariants as events;
ghost use Rattle.lisp_model.specs.Trace.{is_router, router_at};
ghost use Rattle.lisp_turns.specs.Acts.{DoesOne};
ghost use Rattle.lisp_turns.specs.Node.{Server as ServerNodeOf, IsPlaced};
ghost use Rattle.lisp_turns.specs.Serving.{number_of, resend_act, NoticeAct};

use crate::act::Act;
use crate::node::Node;
use crate::node_core::NodeCore;
use crate::order::Order;
use crate::outside::Request;
use crate::place::Place;
use lisp_mapping::{Handled, Unasked, server_handles};
use lisp_memory::Memory;
use lisp_model::WorldFault;
use lisp_nodes::{Arrival, ServerNode, noticed, reloaded, resent, server_hears};
use lisp_nonces::{Fate, WorldStore};
use lisp_policy::Sites;
use lisp_records::{Addr, Bytes, Prefix, RouterId};
use lisp_replies::is_starting;
use lisp_server::NoticeFault;
use lisp_sites::ConfigNode;
use std::alloc::Global;

impl<S: WorldStore> Node for ServerNode<S> {
    ghost use Rattle.lisp_turns.specs.Node.{Server};

    ghost state = { λ n. Server n };

    ghost store_may_refuse = { S.may_refuse };

    fn core(&self) -> NodeCore<'_> {
        NodeCore::Server(ServerNode::core(self))
    }

    fn handle(
        &self,
        alloc: Global,
        place: &Place,
        quiet: u64,
        request: &Request,
        buffer: &[u8],
        now: u64,
    ) -> Option<Result<Handled, Unasked>> {
        let Some(ConfigNode::Server(entry)) = place.config.node(place.number) else {
            return None;
        };
        let starting = is_starting(self.started(), quiet, now);
        Some(server_handles(
            alloc,
            ServerNode::core(self),
            &entry.resolve,
            entry.address.family(),
            starting,
            &buffer[..request.count],
            now,
        ))
    }

    fn expire(&mut self, now: u64) -> Option<(RouterId, Prefix)> {
        self.expire_one(now)
    }

    fn hear(&mut self, place: &Place, from: Addr, bytes: &[u8], now: u64) -> Act {
        let how = Arrival {
            fate: Fate::Done,
            from,
            now,
            next: 0,
        };
        let (line, reply) = server_hears(self, place.number, how, bytes);
        Act::answer(line, from, reply)
    }

    fn obey(&mut self, place: &Place, order: Order, now: u64) -> Result<Act, WorldFault> {
        match order {
            Order::Notice { router } => {
                let me = place.identity_of(router)?;
                Ok(notify(self, place, router, &me, now))
            }
            Order::Reload { sites } => Ok(reload(self, place, sites, now)),
            Order::Change { .. } | Order::Rotate { .. } => Err(WorldFault::WrongKind),
        }
    }

    fn serve(&mut self, place: &Place, now: u64) -> Option<Act> {
        let router = ServerNode::core(self).due_notices(now)?;
        Some(resend(self, place, &router, now))
    }
}

// Sends a router's notice again, which is due at a moment.
fn resend<S: WorldStore>(
    server: &mut ServerNode<S>,
    place: &Place,
    router: &RouterId,
    now: u64,
) -> Act
    requires bound { now ≤ max_moment }
    requires placed { IsPlaced place.now.config.now place.now.number (ServerNodeOf server.old) }
    requires due { is_due_at now (notice_at server.old.core.notices router.now) ≡ true }
    ensures does { DoesOne Global place.now.config.now place.now.number (ServerNodeOf server.old)
        (ServerNodeOf server.new) now
        (events.Resend place.now.number (number_of place.now.config.now router.now)) result }
    ensures tells { MayTell ⟦<Global as Memory>⟧.may_refuse S.may_refuse result.line }
{
    let answer = server.resend(router, now);
    act_of_resend(place.number, place.number_of(router), answer)
}

// The act of a Map-Server with a number that was asked for the notice to the router with another one.
fn act_of_resend(server: usize, router: usize, answer: Result<(Addr, Bytes), NoticeFault>) -> Act
    ensures { result ≡ resend_act server router answer }
{
    let (line, message) = resent(server, router, 0, answer);
    Act { line, message }
}

// Sends a notice to the router with a number, whose identity is given.
fn notify<S: WorldStore>(
    server: &mut ServerNode<S>,
    place: &Place,
    router: usize,
    me: &RouterId,
    now: u64,
) -> Act
    requires bound { now ≤ max_moment }
    requires placed { IsPlaced place.now.config.now place.now.number (ServerNodeOf server.old) }
    requires router { is_router place.now.config.now router ≡ true }
    requires me { me.now ≡ (router_at place.now.config.now router).me }
    ensures does { DoesOne Global place.now.config.now place.now.number (ServerNodeOf server.old)
        (ServerNodeOf server.new) now (events.Notice place.now.number router Done) result }
    ensures tells { MayTell ⟦<Global as Memory>⟧.may_refuse S.may_refuse result.line }
{
    let answer = server.notify(Fate::Done, me, now);
    act_of_notice(place.number, router, answer)
}

// The act of a Map-Server with a number that was told to send a notice to the router with another one.
fn act_of_notice(server: usize, router: usize, answer: Result<(Addr, Bytes), NoticeFault>) -> Act
    requires { IfOk answer (λ sent. IsSome (head_at sent.1)) }
    ensures { NoticeAct server router answer result }
{
    let (line, message) = noticed(server, router, 0, answer);
    Act { line, message }
}

// Has the Map-Server take other sites.
fn reload<S: WorldStore>(server: &mut ServerNode<S>, place: &Place, sites: Sites, now: u64) -> Act
    requires placed { IsPlaced place.now.config.now place.now.number (ServerNodeOf server.old) }
    ensures does { DoesOne Global place.now.config.now place.now.number (ServerNodeOf server.old)
        (ServerNodeOf server.new) now (events.Reload place.now.number sites) result }
    ensures tells { MayTell ⟦<Global as Memory>⟧.may_refuse S.may_refuse result.line }
{
    let count = sites.as_slice().len();
    let kept = server.reload(sites, now);
    Act::line(reloaded(place.number, kept, count))
}
