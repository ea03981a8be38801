//! A router sends a Map-Register.

ghost use Rattle.std.specs.Prelude.{◌<◌, IfOk, IfSome, IsSome};
ghost use Rattle.std.specs.Vec.{vec_len, vec_capacity};
ghost use Rattle.lisp_messages.specs.Head.{head_at};
ghost use Rattle.lisp_model.specs.declared.event.Event.TheVariants.{Send};
ghost use Rattle.lisp_world.specs.Asked.{BagGrowsBySend};
ghost use Rattle.lisp_world.specs.Taking.{Takes};

use crate::room::with_room;
use crate::world::World;
use lisp_etr::SendFault;
use lisp_memory::Memory;
use lisp_model::{Line, WorldFault};
use lisp_nodes::{Datagram, post_reply, sent};
use lisp_nonces::{Fate, WorldStore};
use lisp_records::{Addr, Bytes};

impl<S: WorldStore, A: Memory + Copy> World<S, A> {
    // A router sends a Map-Register of a part of its database to a Map-Server.
    pub(crate) fn send(
        &mut self,
        router: usize,
        server: usize,
        part: usize,
        fate: Fate,
    ) -> Result<Line, WorldFault>
        ensures { Takes A.may_refuse S.may_refuse self.old self.new
            (Send router server part fate) result }
    {
        let place = self.place_beside(server, router);
        let place = with_room(&mut self.bag, place)?;
        let (from, to) = (self.address(router), self.address(server));
        let clock = self.clock;
        let answer = self.routers[place].send(server, part, fate, clock);
        Ok(send_line(&mut self.bag, from, to, router, server, part, answer))
    }
}

// The line of a router that was asked for a Map-Register of a part; where it made one it goes to the end of the datagrams,
// which have room for it.
fn send_line<A: Memory>(
    bag: &mut Vec<Datagram<A>, A>,
    from: Addr,
    to: Addr,
    router: usize,
    server: usize,
    part: usize,
    answer: Option<Result<Bytes<A>, SendFault>>,
) -> Line
    requires room { vec_len bag.old < vec_capacity bag.old }
    requires head { IfSome answer (λ sent. IfOk sent (λ bytes. IsSome (head_at bytes))) }
    ensures { BagGrowsBySend bag.old.items bag.new.items from to router server part answer result }
{
    let (line, message) = sent(router, server, part, bag.len(), answer);
    post_reply(bag, from, to, message);
    line
}
