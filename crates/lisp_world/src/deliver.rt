//! A datagram that was sent arrives.

ghost use Rattle.std.specs.Prelude.{◌≡◌};
ghost use Rattle.lisp_model.specs.declared.event.Event.TheVariants.{Deliver};
ghost use Rattle.lisp_world.specs.Faults.{datagram_fault, refusal_of};
ghost use Rattle.lisp_world.specs.Taking.{Takes};

use crate::room::with_room;
use crate::world::World;
use lisp_memory::Memory;
use lisp_model::{Line, WorldFault};
use lisp_nodes::{Arrival, hear, post_reply};
use lisp_nonces::{Fate, WorldStore};

impl<S: WorldStore, A: Memory + Copy> World<S, A> {
    // A datagram arrives at the first node with its address, perhaps not for the first time.
    pub(crate) fn deliver(&mut self, k: usize, fate: Fate) -> Result<Line, WorldFault>
        ensures { Takes A.may_refuse S.may_refuse self.old self.new (Deliver k fate) result }
    {
        let checked = self.check_datagram(k);
        with_room(&mut self.bag, checked)?;
        let datagram = &self.bag[k];
        let (from, to) = (datagram.from, datagram.to);
        let Some(node) = self.node_with(&to) else {
            return Ok(Line::Nowhere { datagram: k });
        };
        let address = self.address(node);
        let how = Arrival {
            fate,
            from,
            now: self.clock,
            next: self.bag.len(),
        };
        let bytes = self.bag[k].bytes.as_slice();
        let (line, reply) = hear(&mut self.servers, &mut self.routers, node, how, bytes);
        post_reply(&mut self.bag, address, from, reply);
        Ok(line)
    }

    // Refuses the number of no datagram.
    fn check_datagram(&self, k: usize) -> Result<(), WorldFault>
        ensures { refusal_of result ≡ datagram_fault self.now k }
    {
        if self.bag.len() <= k {
            return Err(WorldFault::NoDatagram);
        }
        Ok(())
    }
}
