//! A Map-Server sends a notice again.

ghost use Rattle.std.specs.Prelude.{◌<◌};
ghost use Rattle.std.specs.Vec.{vec_len, vec_capacity};
ghost use Rattle.lisp_model.specs.declared.event.Event.TheVariants.{Resend};
ghost use Rattle.lisp_world.specs.Asked.{BagGrowsByResend};
ghost use Rattle.lisp_world.specs.Taking.{Takes};

use crate::room::with_room;
use crate::world::World;
use lisp_memory::Memory;
use lisp_model::{Line, WorldFault};
use lisp_nodes::{Datagram, post_to, resent};
use lisp_nonces::WorldStore;
use lisp_records::{Addr, Bytes};
use lisp_server::NoticeFault;

impl<S: WorldStore, A: Memory + Copy> World<S, A> {
    // A Map-Server sends a router a notice again that is due.
    pub(crate) fn resend(&mut self, server: usize, router: usize) -> Result<Line, WorldFault>
        ensures { Takes A.may_refuse S.may_refuse self.old self.new (Resend server router) result }
    {
        let place = self.place_beside(server, router);
        let place = with_room(&mut self.bag, place)?;
        let (from, me) = (self.address(server), self.routers[place].me());
        let clock = self.clock;
        let notice = self.servers[server].resend(&me, clock);
        Ok(resend_line(&mut self.bag, from, server, router, notice))
    }
}

// The line of a notice that is sent again; where it is, it goes to the end of the datagrams, which have room for it.
fn resend_line<A: Memory>(
    bag: &mut Vec<Datagram<A>, A>,
    from: Addr,
    server: usize,
    router: usize,
    notice: Result<(Addr, Bytes<A>), NoticeFault>,
) -> Line
    requires { vec_len bag.old < vec_capacity bag.old }
    ensures { BagGrowsByResend bag.old.items bag.new.items from server router notice result }
{
    let (line, message) = resent(server, router, bag.len(), notice);
    post_to(bag, from, message);
    line
}
