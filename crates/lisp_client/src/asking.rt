//! What a client is promised of a Map-Server's answer to a Map-Request.

ghost use Rattle.std.specs.Prelude.{IfNone, IfSome};
ghost use Rattle.lisp_client.specs.Looked.{LooksInVain, LooksPromised};

use crate::client::run;
use lisp_memory::Memory;
use lisp_model::Event;
use lisp_records::Prefix;
use lisp_replies::Reply;
use lisp_sites::Config;
use std::alloc::Allocator;

/// Makes a network over stores in memory that keep nothing yet, lets the events happen, and asks a Map-Server for an EID-Prefix, as a
/// Map-Request does; so many ms after its life began the Map-Server may be silent. `None` if two nodes of the configuration are
/// alike, an event isn't taken, the number isn't a Map-Server's, or memory runs out (RFC 9301 sections 5.5, 8.3 and 8.4).
pub fn look<A: Memory + Copy, E: Allocator, F: Allocator>(
    alloc: A,
    config: &Config<E>,
    events: &[Event<F>],
    server: usize,
    asked: &Prefix,
    quiet: u64,
) -> Option<Reply<A>>
    ensures looked { IfSome result
        (LooksPromised config.now events.now server asked.now quiet) }
    ensures in_vain { IfNone result
        (LooksInVain A.may_refuse config.now events.now server) }
{
    let world = run(alloc, config, events)?;
    let answer = world.request(server, asked, quiet)?;
    answer.ok()
}
