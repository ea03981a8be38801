//! A node of either kind that takes turns.

ghost use Rattle.std.specs.Prelude.{◌≡◌, ◌≤◌, Some, None, Err, IfOk, IfSome, OnErr, length};
ghost use Rattle.lisp_records.specs.Moment.{max_moment};
ghost use Rattle.lisp_model.specs.declared.event.Event.TheVariants as events;
ghost use Rattle.lisp_model.specs.Memory.{MayTell};
ghost use Rattle.lisp_world.specs.Faults.{refusal_of};
ghost use Rattle.lisp_turns.specs.Acts.{DoesOne};
ghost use Rattle.lisp_turns.specs.Due.{NothingDue, DoesDuty};
ghost use Rattle.lisp_turns.specs.Node.{NodeState, core_of, core_value, IsPlaced, DropsRow, NoneDead};
ghost use Rattle.lisp_turns.specs.Order.{event_of, order_fault};
ghost use Rattle.lisp_turns.specs.Outside.{came_in};
ghost use Rattle.lisp_turns.specs.Requests.{Makes};
ghost use Rattle.lisp_requests.specs.declared.fault.RequestFault.TheVariants.{OutOfMemory};
ghost use Rattle.lisp_mapping.specs.declared.unasked.Unasked.TheVariants as unasked;

use crate::act::Act;
use crate::node_core::NodeCore;
use crate::order::Order;
use crate::outside::Request;
use crate::place::Place;
use lisp_mapping::{Handled, Unasked};
use lisp_memory::Memory;
use lisp_model::WorldFault;
use lisp_records::{Addr, Prefix, RouterId};
use std::alloc::Global;

/// A Map-Server or a router that runs at a place of a configuration. Moments are in ms.
pub trait Node {
    ghost state: { Self → NodeState };

    // Its store's memory may be refused.
    ghost store_may_refuse: { Type 0 };

    /// Its core.
    fn core(&self) -> NodeCore<'_>
        ensures { core_value result ≡ core_of (state self.now) };

    /// Time passes: a Map-Server drops a row that is dead at a moment. Answers whose it was, the router and its EID-Prefix;
    /// `None` where no row is dead, and then nothing changes.
    fn expire(&mut self, now: u64) -> Option<(RouterId, Prefix)>
        requires { now ≤ max_moment }
        ensures drops { IfSome result (λ row. DropsRow (state self.old) (state self.new) now row) }
        ensures none { result ≡ None → NoneDead (state self.old) now
            × (state self.new ≡ state self.old) };

    /// What it makes of a Map-Request that came, in a buffer, at a moment: what it says of each EID-Prefix, and the datagrams that are to be
    /// sent, or why it takes nothing of it; `None` where it is a router that is down. A Map-Server's life is starting for `quiet` ms: until
    /// then rows may not have come back (RFC 9301 sections 5.2 to 5.5, 8.2 and 8.3).
    fn handle(
        &self,
        alloc: Global,
        place: &Place,
        quiet: u64,
        request: &Request,
        buffer: &[u8],
        now: u64,
    ) -> Option<Result<Handled, Unasked>>
        requires { request.now.count ≤ length buffer.now }
        ensures makes { Makes place.now.config.now place.now.number (state self.now) quiet now
            (came_in buffer.now request.now) result }
        ensures memory { result ≡ Some (Err (unasked.Request OutOfMemory))
            → ⟦<Global as Memory>⟧.may_refuse };

    /// It is given bytes that come from an address, at a moment.
    fn hear(&mut self, place: &Place, from: Addr, bytes: &[u8], now: u64) -> Act
        requires { IsPlaced place.now.config.now place.now.number (state self.old) }
        ensures does { DoesOne Global place.now.config.now place.now.number (state self.old)
            (state self.new) now (events.Junk place.now.number from bytes.now) result }
        ensures tells { MayTell ⟦<Global as Memory>⟧.may_refuse store_may_refuse result.line };

    /// It does what a user tells it, at a moment; a refusal of its core is a line. What keeps it from being told so changes nothing:
    /// `NoNode` where no node has the number, `WrongKind` where the order isn't for a node of its kind, or names a Map-Server,
    /// `UnknownKey` where the router's site has no such key, `KeyUsed` where the router used it before its store was lost.
    fn obey(&mut self, place: &Place, order: Order, now: u64) -> Result<Act, WorldFault>
        requires bound { now ≤ max_moment }
        requires placed { IsPlaced place.now.config.now place.now.number (state self.old) }
        ensures does { IfOk result
            (DoesOne Global place.now.config.now place.now.number (state self.old)
            (state self.new) now (event_of place.now.number order)) }
        ensures fault { refusal_of result
            ≡ order_fault place.now.config.now (state self.old) order }
        ensures same { OnErr result (state self.new ≡ state self.old) }
        ensures tells { IfOk result
            (λ act. MayTell ⟦<Global as Memory>⟧.may_refuse store_may_refuse act.line) };

    /// It does what is due first at a moment: sends a Map-Register, or a notice again; `None` where nothing is due, and it is
    /// left unchanged. A Map-Register that it sent isn't due any more at that moment, and no other becomes so.
    fn serve(&mut self, place: &Place, now: u64) -> Option<Act>
        requires bound { now ≤ max_moment }
        requires placed { IsPlaced place.now.config.now place.now.number (state self.old) }
        ensures does { IfSome result
            (DoesDuty Global place.now.config.now place.now.number (state self.old)
            (state self.new) now) }
        ensures none { result ≡ None → (state self.new ≡ state self.old)
            × NothingDue (state self.old) now }
        ensures placed { IsPlaced place.now.config.now place.now.number (state self.new) }
        ensures tells { IfSome result
            (λ act. MayTell ⟦<Global as Memory>⟧.may_refuse store_may_refuse act.line) };
}
