//! A node stops and starts again.

ghost use Rattle.std.specs.Prelude.{◌≡◌, ◌≤◌, ◌<◌, None, true, IfOk, OnOk, OnErr, length};
ghost use Rattle.lisp_model.specs.Memory.{MayTell};
ghost use Rattle.lisp_model.specs.Restarting.{Fits};
ghost use Rattle.lisp_model.specs.declared.event.Event.TheVariants.{Restart};
ghost use Rattle.lisp_world.specs.Faults.{is_server, refusal_of, restart_fault};
ghost use Rattle.lisp_world.specs.Taking.{Takes};
ghost use Rattle.lisp_refinement.specs.Events.{NetworkRestartsServer, NetworkRestartsRouter};

use crate::world::World;
use lisp_memory::Memory;
use lisp_model::{Line, Refusal, WorldFault};
use lisp_nodes::Start;
use lisp_nonces::WorldStore;
use lisp_records::Database;
use std::alloc::{AllocError, Allocator};

impl<S: WorldStore, A: Memory + Copy> World<S, A> {
    // A node stops, its store crashes, and it starts again, a router with another database where one is given.
    pub(crate) fn restart<E: Allocator>(
        &mut self,
        node: usize,
        pick: u64,
        db: &Option<Database<E>>,
    ) -> Result<Line, WorldFault>
        ensures { Takes A.may_refuse S.may_refuse self.old self.new
            (Restart node pick db.now) result }
    {
        self.check_restart(node, db)?;
        if self.is_server(node) {
            return Ok(self.restart_server(node, pick));
        }
        let db = copied(self.alloc, db)?;
        Ok(self.restart_router(node, pick, db))
    }

    // Refuses the number of no node, and a database for a Map-Server.
    fn check_restart<E: Allocator>(
        &self,
        node: usize,
        db: &Option<Database<E>>,
    ) -> Result<(), WorldFault>
        ensures fault { refusal_of result ≡ restart_fault self.now node db.now }
        ensures none { OnOk result (is_server self.now node ≡ true → db.now ≡ None) }
    {
        if self.is_missing(node) {
            return Err(WorldFault::NoNode);
        }
        if self.is_server(node) && db.is_some() {
            return Err(WorldFault::WrongKind);
        }
        Ok(())
    }

    fn restart_server(&mut self, node: usize, pick: u64) -> Line
        requires { node < length self.old.servers }
        ensures { NetworkRestartsServer self.old self.new node pick result }
    {
        let (alloc, clock) = (self.alloc, self.clock);
        self.servers[node].restart(alloc, pick, clock);
        Line::Restarted { node }
    }

    fn restart_router(&mut self, node: usize, pick: u64, db: Option<Database<A>>) -> Line
        requires { (length self.old.servers ≤ node) × (node < length self.old.addresses) }
        ensures restarts { NetworkRestartsRouter self.old self.new node pick db result }
        ensures tells { MayTell A.may_refuse S.may_refuse result }
    {
        let how = Start {
            alloc: self.alloc,
            now: self.clock,
            db,
        };
        let place = node - self.servers.len();
        match self.routers[place].restart(pick, how) {
            Ok(()) => Line::Restarted { node },
            Err(fault) => Line::Refused {
                node,
                what: Refusal::Start(fault),
            },
        }
    }
}

// A database in other memory, where there is one.
pub(crate) fn copied<A: Memory + Copy, E: Allocator>(
    alloc: A,
    db: &Option<Database<E>>,
) -> Result<Option<Database<A>>, AllocError>
    ensures equal { IfOk result (λ copy. copy ≡ db.now) }
    ensures fits { OnOk result (Fits db.now) }
    ensures memory { OnErr result A.may_refuse }
{
    match db {
        None => Ok(None),
        Some(db) => Ok(Some(db.copy(alloc)?)),
    }
}
