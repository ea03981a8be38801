//! A network whose datagrams go over sockets.

ghost use Rattle.std.specs.Prelude.{◌≡◌, IfOk, OnOk, length, map, drop};
ghost use Rattle.lisp_player.specs.Playing.{Wrote};
ghost use Rattle.lisp_script.specs.Command.{command_value};
ghost use Rattle.lisp_udp.specs.Network.{awaited, TellsAwaited, SendsAll, TakesAll, TakesCommand};
ghost use Rattle.lisp_sites.specs.Numbers.{node_count};
ghost use Rattle.lisp_udp.specs.Printing.{WritesTold};

use crate::datagrams::Sockets;
use lisp_memory::Memory;
use lisp_model::Event;
use lisp_nonces::WorldStore;
use lisp_player::{Command, play_on};
use lisp_script::RunFault;
use lisp_sites::Config;
use lisp_turns::Endpoint;
use lisp_upkeep::flush;
use lisp_world::World;
use std::alloc::Global;
use std::io::Write;
use std::net::Net;

/// Plays commands in the network of a configuration over these stores, with a socket for each node, and prints what comes of them. Faults:
/// 74 to 76 where no network can be made; 92 for the sockets; 88 where a line can't be written; 97.
pub fn play_over<R: Net + AllocGlobal, S: WorldStore + Drop, W: Write>(
    rt: &R,
    config: &Config,
    stores: Vec<S>,
    commands: &[Command],
    writer: &mut W,
) -> Result<(), RunFault>
    requires { length stores.items ≡ node_count config.now }
{
    let world = World::new(rt.alloc(), config, stores)?;
    let sockets = Sockets::bind(rt, config)?;
    let mut network = RunningNetwork {
        alloc: rt.alloc(),
        config,
        world,
        sockets,
    };
    network.run(commands, writer)
}

/// A network that runs.
#[derive(Drop)]
struct RunningNetwork<'a, S: WorldStore, E: Endpoint> {
    alloc: Global,
    config: &'a Config,
    world: World<S>,
    sockets: Sockets<'a, E>,
}

impl<S: WorldStore + Drop, E: Endpoint> RunningNetwork<'_, S, E> {
    // Takes the commands, one after the other.
    fn run<W: Write>(&mut self, commands: &[Command], writer: &mut W) -> Result<(), RunFault>
        ensures { OnOk result (TakesAll
            (λ old new orders. Wrote Global
            ⟦<Global as Memory>⟧.may_refuse S.may_refuse old new self.old.config.now orders)
            self.old.world self.new.world self.old.sockets.sockets.items
            self.new.sockets.sockets.items (map command_value commands.now) (W.contents writer.old)
            (W.contents writer.new)) }
    {
        for at in 0..commands.len() {
            self.take(&commands[at..at + 1], writer)?;
        }
        Ok(())
    }

    // Takes a command, which stands alone in the list, if it waits for no datagram or that arrives, and sends what it adds to
    // the datagrams.
    fn take<W: Write>(&mut self, command: &[Command], writer: &mut W) -> Result<(), RunFault>
        ensures takes { OnOk result
            (TakesCommand (Wrote Global
            ⟦<Global as Memory>⟧.may_refuse S.may_refuse self.old.world self.new.world
            self.old.config.now (map command_value command.now))
            self.old.world self.new.world self.old.sockets.sockets.items
            self.new.sockets.sockets.items (map command_value command.now) (W.contents writer.old)
            (W.contents writer.new)) }
        ensures config { self.new.config ≡ self.old.config }
    {
        if !arrives(self.alloc, &self.world, command, &mut self.sockets, writer)? {
            return Ok(());
        }
        let sent = self.world.sent();
        play_on(self.alloc, &mut self.world, self.config, command, writer)?;
        flush(writer)?;
        send_from(self.alloc, &self.world, sent, &mut self.sockets, writer)
    }
}

// Whether the datagram that the command delivers arrives, if it delivers one that was sent; else it prints what came of it.
// Faults: 88, 97.
fn arrives<S: WorldStore, E: Endpoint, W: Write>(
    alloc: Global,
    world: &World<S>,
    command: &[Command],
    sockets: &mut Sockets<'_, E>,
    writer: &mut W,
) -> Result<bool, RunFault>
    ensures { IfOk result (λ arrived. WritesTold W.contents writer.old writer.new
        (TellsAwaited (awaited world.now (map command_value command.now)) sockets.old.sockets.items
        sockets.new.sockets.items arrived)) }
{
    let Some(Command::Act(Event::Deliver { k, .. })) = command.first() else {
        return Ok(true);
    };
    match world.datagram(*k) {
        Some(datagram) => sockets.arrives(alloc, *k, datagram, writer),
        None => Ok(true),
    }
}

// Sends the datagrams of a network from a number on. Faults: 88, 97.
fn send_from<S: WorldStore, E: Endpoint, W: Write>(
    alloc: Global,
    world: &World<S>,
    first: usize,
    sockets: &mut Sockets<'_, E>,
    writer: &mut W,
) -> Result<(), RunFault>
    ensures { OnOk result (SendsAll sockets.old.sockets.items sockets.new.sockets.items
        (drop first world.now.bag) (W.contents writer.old) (W.contents writer.new)) }
{
    for k in first..world.sent() {
        if let Some(datagram) = world.datagram(k) {
            sockets.send(alloc, datagram, writer)?;
        }
    }
    Ok(())
}
