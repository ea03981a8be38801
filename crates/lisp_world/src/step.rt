//! A network takes an event.

ghost use Rattle.std.specs.Prelude.{◌≡◌, IfOk, OnErr, IsErrOf};
ghost use Rattle.lisp_model.specs.Memory.{MayTell};
ghost use Rattle.lisp_model.specs.Trace.{fate_of, event_value};
ghost use Rattle.lisp_world.specs.Faults.{Faults, fault_of};
ghost use Rattle.lisp_world.specs.Quiet.{KeepsCalm};
ghost use Rattle.lisp_world.specs.Taking.{Takes};
ghost use Rattle.lisp_refinement.specs.Headline.{Promises};
ghost use Rattle.lisp_refinement.specs.Stands.{StandsAfter};

use crate::world::World;
use lisp_memory::Memory;
use lisp_model::{Event, Line, WorldFault};
use lisp_nonces::WorldStore;
use std::alloc::Allocator;

impl<S: WorldStore, A: Memory + Copy> World<S, A> {
    /// Takes one event, and says what it came to. The store of the node that acts is armed with the event's
    /// fate for the one call that is made, and with `Done` after it; a node's refusal is a line.
    ///
    /// What keeps it from taking the event is found before the call, in this order, and changes nothing:
    /// `NoNode`, `WrongKind`, `UnknownKey` (the router's site has no such key), `KeyUsed` (a rotation to a key that the
    /// router used before its store was lost last, or a loss with one that it ever used), `NoDatagram`, `Clock` (the
    /// moment would be above 2^62 ms), `OutOfMemory` (for a datagram, a database or sites; every other event takes no memory).
    pub fn step<E: Allocator>(&mut self, event: &Event<E>) -> Result<Line, WorldFault>
        // It stands for each trace that it stood for, followed by this event with its line.
        ensures stands { IfOk result (StandsAfter self.old self.new (event_value event.now)) }
        ensures headline { Promises self.new }
        ensures fault { Faults (fault_of self.old (event_value event.now)) result }
        ensures err { OnErr result (self.new ≡ self.old) }

        // Only where memory may be refused, or a store's memory, a fault or a line says so.
        ensures memory { IsErrOf result WorldFault.OutOfMemory → A.may_refuse }
        ensures tells { IfOk result (MayTell A.may_refuse S.may_refuse) }

        // Stores that obey and fail no more are so again, and none fails unless the event makes it.
        ensures calm { KeepsCalm self.old self.new (fate_of (event_value event.now)) }
    {
        self.take(event)
    }

    // Takes one event.
    fn take<E: Allocator>(&mut self, event: &Event<E>) -> Result<Line, WorldFault>
        ensures { Takes A.may_refuse S.may_refuse self.old self.new (event_value event.now) result }
    {
        match event {
            Event::Change { router, db } => self.change(*router, db),
            Event::Send {
                router,
                server,
                part,
                fate,
            } => self.send(*router, *server, *part, *fate),
            Event::Deliver { k, fate } => self.deliver(*k, *fate),
            Event::Junk { to, from, bytes } => self.junk(*to, *from, bytes.as_slice()),
            Event::Tick(ms) => self.tick(*ms),
            Event::Restart { node, pick, db } => self.restart(*node, *pick, db),
            Event::Rotate { router, key, fate } => self.rotate(*router, *key, *fate),
            Event::Lose { router, key, db } => self.lose(*router, *key, db),
            Event::Notice {
                server,
                router,
                fate,
            } => self.notice(*server, *router, *fate),
            Event::Resend { server, router } => self.resend(*server, *router),
            Event::Reload { server, sites } => self.reload(*server, sites),
        }
    }
}
