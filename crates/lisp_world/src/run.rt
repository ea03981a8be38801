//! A network takes events, one after another.

ghost use Rattle.std.specs.Prelude.{◌≡◌, IfErr};
ghost use Rattle.lisp_world.specs.Quiet.{AllCalm, stores_of};
ghost use Rattle.lisp_world.specs.Runs.{Runs};
ghost use Rattle.lisp_model.specs.declared.world_fault.WorldFault.TheVariants.{OutOfMemory};
ghost use Rattle.lisp_refinement.specs.Headline.{Promises};

use crate::world::World;
use lisp_memory::{FallibleVec, Memory};
use lisp_model::{Event, Line, WorldFault};
use lisp_nonces::WorldStore;
use std::alloc::Allocator;

impl<S: WorldStore, A: Memory + Copy> World<S, A> {
    /// Takes events in their order, each as `step` does, and appends the line of each. It stops at the first that it
    /// doesn't take: the place of that event, from 0 on, and why; `OutOfMemory` also where there is no room for its
    /// line. The events before it were taken, and their lines stand.
    pub fn run<E: Allocator>(
        &mut self,
        events: &[Event<E>],
        lines: &mut Vec<Line, A>,
    ) -> Result<(), (usize, WorldFault)>
        ensures runs { Runs A.may_refuse S.may_refuse self.old self.new lines.old.items
            lines.new.items events.now result }
        ensures headline { Promises self.new }
        ensures memory { IfErr result (λ at. at.1 ≡ OutOfMemory → A.may_refuse) }
        ensures calm { AllCalm (stores_of self.old) → AllCalm (stores_of self.new) }
    {
        for (i, event) in events.iter().enumerate() {
            if lines.make_room(1).is_err() {
                return Err((i, WorldFault::OutOfMemory));
            }
            match self.step(event) {
                Ok(line) => lines.push_reserved(line),
                Err(fault) => return Err((i, fault)),
            }
        }
        Ok(())
    }
}
