//! A Map-Server takes other sites.

ghost use Rattle.lisp_model.specs.declared.event.Event.TheVariants.{Reload};
ghost use Rattle.lisp_world.specs.Taking.{Takes};

use crate::world::World;
use lisp_memory::Memory;
use lisp_model::{Line, WorldFault};
use lisp_nodes::reloaded;
use lisp_nonces::WorldStore;
use lisp_sites::Sites;
use std::alloc::Allocator;

impl<S: WorldStore, A: Memory + Copy> World<S, A> {
    // A Map-Server has other sites from now on. It goes on with what it holds where they have all that its own have.
    pub(crate) fn reload<E: Allocator>(
        &mut self,
        server: usize,
        sites: &Sites<E>,
    ) -> Result<Line, WorldFault>
        ensures { Takes A.may_refuse S.may_refuse self.old self.new
            (Reload server sites.now) result }
    {
        self.check_server(server)?;
        let count = sites.as_slice().len();
        let copy = sites.copy(self.alloc)?;
        let clock = self.clock;
        let goes_on = self.servers[server].reload(copy, clock);
        Ok(reloaded(server, goes_on, count))
    }
}
