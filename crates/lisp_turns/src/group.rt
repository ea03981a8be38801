//! The datagrams of a turn: the node takes one after the other, and prints and sends what comes of them once its saves are committed.

ghost use Rattle.std.specs.Prelude.{◌≡◌, ◌≤◌, ◌++◌, reverse};
ghost use Rattle.std.specs.Option.{option_to_list};
ghost use Rattle.lisp_model.specs.declared.event.Event.TheVariants as events;
ghost use Rattle.lisp_turns.specs.Acts.{DoesOne};
ghost use Rattle.lisp_turns.specs.Node.{IsPlaced};
ghost use Rattle.lisp_turns.specs.Group.{HearsNext, HearsOthers, HearsGroup, TellsEach};
ghost use Rattle.lisp_turns.specs.Outside.{FitsBuffer, reception};
ghost use Rattle.lisp_turns.specs.Stretch.{Tells};
ghost use Rattle.lisp_turns.specs.declared.outside.Printed.TheVariants as printed;

use crate::act::Act;
use crate::node::Node;
use crate::outside::{Endpoint, Lines, Printed, Received};
use crate::place::Place;
use crate::telling::tell;
use lisp_memory::FallibleVec;
use lisp_records::Addr;
use std::alloc::Global;

/// What a node made of a datagram, which isn't told yet.
#[derive(Drop)]
pub(crate) struct Heard {
    /// Where the datagram came from.
    from: Addr,
    /// What the node made of it.
    act: Act,
}

impl Heard {
    /// Its line is printed, and then its message is sent, if there is one.
    pub(crate) fn tell<O: Endpoint + Lines>(&self, outside: &mut O)
        ensures { Tells (O.seen outside.old) (O.seen outside.new)
            (printed.Heard self.now.act.line self.now.from) self.now.act.message }
    {
        let line = Printed::Heard {
            line: self.act.line,
            from: self.from,
        };
        tell(&line, &self.act.message, outside);
    }
}

// The node hears bytes that came from an address.
fn hear<N: Node>(node: &mut N, place: &Place, from: Addr, bytes: &[u8], now: u64) -> Heard
    requires { IsPlaced place.now.config.now place.now.number (N.state node.old) }
    ensures does { DoesOne Global place.now.config.now place.now.number (N.state node.old)
        (N.state node.new) now (events.Junk place.now.number from bytes.now) result.act }
    ensures from { result.from ≡ from }
    ensures placed { IsPlaced place.now.config.now place.now.number (N.state node.new) }
{
    let act = node.hear(place, from, bytes, now);
    Heard { from, act }
}

/// The node hears the first datagram, where one was received in a buffer, and those that wait behind it, so that it heard `places` at
/// most.
pub(crate) fn hear_group<N: Node, O: Endpoint>(
    alloc: Global,
    node: &mut N,
    place: &Place,
    places: usize,
    received: Received,
    buffer: &mut [u8],
    now: u64,
    outside: &mut O,
) -> (Option<Heard>, Vec<Heard>)
    requires within { FitsBuffer received buffer.old }
    requires placed { IsPlaced place.now.config.now place.now.number (N.state node.old) }
    ensures hears { HearsGroup Global place.now.config.now place.now.number places
        (N.state node.old) (N.state node.new) now (reception received buffer.old)
        (reverse result.1.items ++ option_to_list result.0) (O.seen outside.old)
        (O.seen outside.new) }
    ensures placed { IsPlaced place.now.config.now place.now.number (N.state node.new) }
{
    let Received::Datagram { from, count } = received else {
        return (None, Vec::new(alloc));
    };
    let first = hear(node, place, from, &buffer[..count], now);
    let others = hear_others(alloc, node, place, places, buffer, now, outside);
    (Some(first), others)
}

// Behind the first datagram the node hears those that wait already, so that it heard so many at most: until none waits, or
// memory for one more is refused.
fn hear_others<N: Node, O: Endpoint>(
    alloc: Global,
    node: &mut N,
    place: &Place,
    places: usize,
    buffer: &mut [u8],
    now: u64,
    outside: &mut O,
) -> Vec<Heard>
    requires { IsPlaced place.now.config.now place.now.number (N.state node.old) }
    ensures hears { HearsOthers Global place.now.config.now place.now.number places
        (N.state node.old) (N.state node.new) now (reverse result.items) (O.seen outside.old)
        (O.seen outside.new) }
    ensures placed { IsPlaced place.now.config.now place.now.number (N.state node.new) }
{
    let mut others = Vec::new(alloc);
    for _ in 1..places {
        if others.make_room(1).is_err() {
            break;
        }
        let Some(next) = hear_next(node, place, buffer, now, outside) else {
            break;
        };
        others.push_reserved(next);
    }
    others
}

// The node hears the next datagram that waits already, if one does.
fn hear_next<N: Node, O: Endpoint>(
    node: &mut N,
    place: &Place,
    buffer: &mut [u8],
    now: u64,
    outside: &mut O,
) -> Option<Heard>
    requires { IsPlaced place.now.config.now place.now.number (N.state node.old) }
    ensures hears { HearsNext Global place.now.config.now place.now.number (N.state node.old)
        (N.state node.new) now result (O.seen outside.old) (O.seen outside.new) }
    ensures placed { IsPlaced place.now.config.now place.now.number (N.state node.new) }
{
    let Received::Datagram { from, count } = outside.poll(buffer) else {
        return None;
    };
    Some(hear(node, place, from, &buffer[..count], now))
}

/// What the node made of the datagrams behind the first is told, in their order.
pub(crate) fn tell_others<O: Endpoint + Lines>(others: &Vec<Heard>, outside: &mut O)
    ensures { TellsEach (reverse others.now.items) (O.seen outside.old) (O.seen outside.new) }
{
    for heard in others {
        heard.tell(outside);
    }
}
