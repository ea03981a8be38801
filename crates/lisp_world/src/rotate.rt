//! A router goes over to another key.

ghost use Rattle.lisp_model.specs.declared.event.Event.TheVariants.{Rotate};
ghost use Rattle.lisp_world.specs.Taking.{Takes};

use crate::world::World;
use lisp_memory::Memory;
use lisp_model::{Line, WorldFault};
use lisp_nodes::rotated;
use lisp_nonces::{Fate, WorldStore};

impl<S: WorldStore, A: Memory + Copy> World<S, A> {
    // A router goes over to another key of its site, where it is up. Not to one that it used before its store was lost.
    pub(crate) fn rotate(&mut self, router: usize, key: u8, fate: Fate) -> Result<Line, WorldFault>
        ensures { Takes A.may_refuse S.may_refuse self.old self.new
            (Rotate router key fate) result }
    {
        let (place, secret) = self.place_and_key(router, key)?;
        if self.routers[place].used_before_loss(key) {
            return Err(WorldFault::KeyUsed);
        }
        let clock = self.clock;
        let answer = self.routers[place].rotate(key, secret, fate, clock);
        Ok(rotated(router, key, answer))
    }
}
