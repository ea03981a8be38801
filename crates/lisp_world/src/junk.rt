//! Bytes from outside arrive.

ghost use Rattle.lisp_model.specs.declared.event.Event.TheVariants.{Junk};
ghost use Rattle.lisp_world.specs.Taking.{Takes};

use crate::world::World;
use lisp_memory::{FallibleVec, Memory};
use lisp_model::{Line, WorldFault};
use lisp_nodes::{Arrival, hear, post_reply};
use lisp_nonces::{Fate, WorldStore};
use lisp_records::Addr;

impl<S: WorldStore, A: Memory + Copy> World<S, A> {
    // Bytes that no node sent arrive at a node, as if they came from an address.
    pub(crate) fn junk(&mut self, to: usize, from: Addr, bytes: &[u8]) -> Result<Line, WorldFault>
        ensures { Takes A.may_refuse S.may_refuse self.old self.new
            (Junk to from bytes.now) result }
    {
        self.check_node(to)?;
        self.bag.make_room(1)?;
        let address = self.address(to);
        let how = Arrival {
            fate: Fate::Done,
            from,
            now: self.clock,
            next: self.bag.len(),
        };
        let (line, reply) = hear(&mut self.servers, &mut self.routers, to, how, bytes);
        post_reply(&mut self.bag, address, from, reply);
        Ok(line)
    }
}
