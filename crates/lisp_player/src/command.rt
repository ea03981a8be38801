//! What a command comes to.

ghost use Rattle.std.specs.Prelude.{◌≡◌, IfOk, OnErr};
ghost use Rattle.lisp_script.specs.declared.command.Command.TheVariants.{Act};
ghost use Rattle.lisp_player.specs.Outcomes.{Leads, ListsKept, TellsLine};
ghost use Rattle.lisp_player.specs.Playing.{LosesText};

use crate::asked::{ack_lines, ask_line, due_line, fault_line, hold_lines, request_lines};
use crate::outcome::Outcome;
use lisp_lines::{DatagramPlace, Wording, line_text};
use lisp_memory::Memory;
use lisp_model::{Event, Line};
use lisp_nonces::WorldStore;
use lisp_script::Command;
use lisp_sites::Config;
use lisp_world::World;
use std::alloc::{AllocError, Allocator};

/// What a command comes to, as the network takes it: an event moves the network, a query changes nothing. Nothing is told of
/// what a store keeps. Out of memory an event may have been taken, whose line is lost.
pub(crate) fn command_outcome<S: WorldStore, A: Memory + Copy, E: Allocator, F: Allocator>(
    alloc: A,
    world: &mut World<S, A>,
    config: &Config<E>,
    command: &Command<F>,
) -> Result<Outcome<A>, AllocError>
    ensures turns { Leads result A A.may_refuse S.may_refuse
        world.old world.new config.now command.now }
    ensures lost { LosesText result A A.may_refuse S.may_refuse
        world.old world.new config.now command.now }
    ensures line { IfOk result (TellsLine config.now) }
    ensures kept { IfOk result ListsKept }
    ensures memory { OnErr result A.may_refuse }
{
    match command {
        Command::Act(event) => event_outcome(alloc, world, config, event),
        Command::Hold(server) => {
            let text = hold_lines(alloc, world, config, *server)?;
            Ok(outcome(alloc, None, text))
        }
        Command::Acks(router) => {
            let text = ack_lines(alloc, world, config, *router)?;
            Ok(outcome(alloc, None, text))
        }
        Command::Ask { server, addr } => {
            let text = ask_line(alloc, world, config, *server, addr)?;
            Ok(outcome(alloc, None, text))
        }
        Command::Request {
            server,
            asked,
            from,
        } => {
            let text = request_lines(alloc, world, config, *server, asked, *from)?;
            Ok(outcome(alloc, None, text))
        }
        Command::Due(node) => {
            let text = due_line(alloc, world, config, *node)?;
            Ok(outcome(alloc, None, text))
        }
    }
}

// What an event comes to: its line, or what keeps the network from taking it.
fn event_outcome<S: WorldStore, A: Memory + Copy, E: Allocator, F: Allocator>(
    alloc: A,
    world: &mut World<S, A>,
    config: &Config<E>,
    event: &Event<F>,
) -> Result<Outcome<A>, AllocError>
    ensures turns { Leads result A A.may_refuse S.may_refuse
        world.old world.new config.now (Act event.now) }
    ensures lost { LosesText result A A.may_refuse S.may_refuse
        world.old world.new config.now (Act event.now) }
    ensures line { IfOk result (TellsLine config.now) }
    ensures kept { IfOk result ListsKept }
    ensures memory { OnErr result A.may_refuse }
{
    match world.step(event) {
        Ok(line) => {
            let wording = Wording::Schedule(DatagramPlace::Shown);
            let text = line_text(alloc, config, &line, wording)?;
            Ok(outcome(alloc, Some(line), text))
        }
        Err(fault) => {
            let text = fault_line(alloc, fault)?;
            Ok(outcome(alloc, None, text))
        }
    }
}

// A line and a text, and nothing that a store keeps.
fn outcome<A: Allocator>(alloc: A, line: Option<Line>, text: String<A>) -> Outcome<A>
    ensures line { result.line ≡ line }
    ensures text { result.text ≡ text }
    ensures kept { ListsKept result }
{
    Outcome {
        line,
        text,
        kept: Vec::new(alloc),
        kept_count: 0,
    }
}
