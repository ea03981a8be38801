//! Time passes.

ghost use Rattle.std.specs.Prelude.{◌≡◌, ◌≤◌, length};
ghost use Rattle.lisp_records.specs.Moment.{max_moment};
ghost use Rattle.lisp_model.specs.declared.event.Event.TheVariants.{Tick};
ghost use Rattle.lisp_refinement.specs.Events.{ExpiresEach};
ghost use Rattle.lisp_world.specs.Taking.{Takes};

use crate::world::World;
use lisp_memory::Memory;
use lisp_model::{Line, WorldFault};
use lisp_nodes::ServerNode;
use lisp_nonces::WorldStore;
use lisp_records::MAX_MOMENT;

impl<S: WorldStore, A: Memory + Copy> World<S, A> {
    // Time passes, in ms, and each Map-Server drops its dead rows.
    pub(crate) fn tick(&mut self, ms: u64) -> Result<Line, WorldFault>
        ensures { Takes A.may_refuse S.may_refuse self.old self.new (Tick ms) result }
    {
        if MAX_MOMENT - self.clock < ms {
            return Err(WorldFault::Clock);
        }
        self.clock += ms;
        expire_all(&mut self.servers, self.clock);
        Ok(Line::Ticked {
            ms,
            now: self.clock,
        })
    }
}

// Each Map-Server drops the rows that are dead at a time, in ms.
fn expire_all<S: WorldStore, A: Memory + Copy>(servers: &mut [ServerNode<S, A>], now: u64)
    requires { now ≤ max_moment }
    ensures count { length servers.new ≡ length servers.old }
    ensures each { ExpiresEach servers.old servers.new now }
{
    for server in servers.iter_mut() {
        server.expire(now);
    }
}
