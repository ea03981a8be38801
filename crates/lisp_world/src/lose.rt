//! A router whose store is lost starts again under another key.

ghost use Rattle.std.specs.Prelude.{◌≡◌};
ghost use Rattle.lisp_model.specs.declared.event.Event.TheVariants.{Lose};
ghost use Rattle.lisp_refinement.specs.Events.{loss_line};
ghost use Rattle.lisp_world.specs.Faults.{used_ever};
ghost use Rattle.lisp_world.specs.Taking.{Takes};

use crate::restart::copied;
use crate::world::World;
use lisp_etr::StartFault;
use lisp_memory::Memory;
use lisp_model::{Line, Refusal, WorldFault};
use lisp_nodes::{RouterNode, Start};
use lisp_nonces::WorldStore;
use lisp_records::Database;
use std::alloc::Allocator;

impl<S: WorldStore, A: Memory + Copy> World<S, A> {
    // A router stops, its store loses what it kept, and the router starts again under a key that it never used, with
    // another database where one is given.
    pub(crate) fn lose<E: Allocator>(
        &mut self,
        router: usize,
        key: u8,
        db: &Option<Database<E>>,
    ) -> Result<Line, WorldFault>
        ensures { Takes A.may_refuse S.may_refuse self.old self.new
            (Lose router key db.now) result }
    {
        let (place, secret) = self.place_and_key(router, key)?;
        if used_ever(&self.routers[place], key) {
            return Err(WorldFault::KeyUsed);
        }
        let db = copied(self.alloc, db)?;
        let how = Start {
            alloc: self.alloc,
            now: self.clock,
            db,
        };
        let answer = self.routers[place].lose(key, secret, how);
        Ok(loss_line(router, key, answer))
    }
}

// Whether a router ever used a key.
fn used_ever<S: WorldStore, A: Allocator>(node: &RouterNode<S, A>, key: u8) -> bool
    ensures { result ≡ used_ever key node.now.used }
{
    node.used_since_loss(key) || node.used_before_loss(key)
}

// The line of a router that was to start under a key after its store was lost.
fn loss_line(router: usize, key: u8, answer: Result<(), StartFault>) -> Line
    ensures { result ≡ loss_line router key answer }
{
    match answer {
        Ok(()) => Line::Emptied { router, key },
        Err(fault) => Line::Refused {
            node: router,
            what: Refusal::Start(fault),
        },
    }
}
