//! A router is given another database.

ghost use Rattle.lisp_model.specs.declared.event.Event.TheVariants.{Change};
ghost use Rattle.lisp_world.specs.Taking.{Takes};

use crate::world::World;
use lisp_memory::Memory;
use lisp_model::{Line, WorldFault};
use lisp_nodes::changed;
use lisp_nonces::WorldStore;
use lisp_records::Database;
use std::alloc::Allocator;

impl<S: WorldStore, A: Memory + Copy> World<S, A> {
    // A router registers another database from now on, where it is up.
    pub(crate) fn change<E: Allocator>(
        &mut self,
        router: usize,
        db: &Database<E>,
    ) -> Result<Line, WorldFault>
        ensures { Takes A.may_refuse S.may_refuse self.old self.new (Change router db.now) result }
    {
        let place = self.router_place(router)?;
        let records = db.records().len();
        let copy = db.copy(self.alloc)?;
        let clock = self.clock;
        let is_up = self.routers[place].change(copy, clock);
        Ok(changed(router, records, is_up))
    }
}
