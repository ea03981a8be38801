//! A Map-Server sends an unsolicited Map-Notify (notice).

ghost use Rattle.std.specs.Prelude.{◌<◌, IfOk, IsSome};
ghost use Rattle.std.specs.Vec.{vec_len, vec_capacity};
ghost use Rattle.lisp_messages.specs.Head.{head_at};
ghost use Rattle.lisp_model.specs.declared.event.Event.TheVariants.{Notice};
ghost use Rattle.lisp_world.specs.Asked.{BagGrowsByNotice};
ghost use Rattle.lisp_world.specs.Taking.{Takes};

use crate::room::with_room;
use crate::world::World;
use lisp_memory::Memory;
use lisp_model::{Line, WorldFault};
use lisp_nodes::{Datagram, noticed, post_to};
use lisp_nonces::{Fate, WorldStore};
use lisp_records::{Addr, Bytes};
use lisp_server::NoticeFault;

impl<S: WorldStore, A: Memory + Copy> World<S, A> {
    // A Map-Server sends a router a notice of what it holds of it.
    pub(crate) fn notice(
        &mut self,
        server: usize,
        router: usize,
        fate: Fate,
    ) -> Result<Line, WorldFault>
        ensures { Takes A.may_refuse S.may_refuse self.old self.new
            (Notice server router fate) result }
    {
        let place = self.place_beside(server, router);
        let place = with_room(&mut self.bag, place)?;
        let (from, me) = (self.address(server), self.routers[place].me());
        let clock = self.clock;
        let notice = self.servers[server].notify(fate, &me, clock);
        Ok(notice_line(&mut self.bag, from, server, router, notice))
    }
}

// The line of a notice; where it was made it goes to the end of the datagrams, which have room for it.
fn notice_line<A: Memory>(
    bag: &mut Vec<Datagram<A>, A>,
    from: Addr,
    server: usize,
    router: usize,
    notice: Result<(Addr, Bytes<A>), NoticeFault>,
) -> Line
    requires room { vec_len bag.old < vec_capacity bag.old }
    requires head { IfOk notice (λ sent. IsSome (head_at sent.1)) }
    ensures { BagGrowsByNotice bag.old.items bag.new.items from server router notice result }
{
    let (line, message) = noticed(server, router, bag.len(), notice);
    post_to(bag, from, message);
    line
}
