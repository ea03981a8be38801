//! Room for what an event makes.

ghost use Rattle.std.specs.Prelude.{◌≡◌, ◌<◌};
ghost use Rattle.std.specs.Vec.{vec_len, vec_capacity};
ghost use Rattle.lisp_world.specs.Taking.{HasRoom};

use lisp_memory::{FallibleVec, Memory};
use lisp_model::WorldFault;
use lisp_nodes::Datagram;

// Where a check passed, there is room for one more datagram, or the memory for it is refused.
pub(crate) fn with_room<T: Copy, A: Memory>(
    bag: &mut Vec<Datagram<A>, A>,
    checked: Result<T, WorldFault>,
) -> Result<T, WorldFault>
    ensures same { bag.new.items ≡ bag.old.items }
    ensures room { HasRoom A.may_refuse checked result (vec_len bag.new < vec_capacity bag.new) }
{
    let found = checked?;
    bag.make_room(1)?;
    Ok(found)
}
