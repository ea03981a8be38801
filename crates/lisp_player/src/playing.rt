//! Playing commands over a network.

ghost use Rattle.std.specs.Prelude.{map, OnOk, IfErr, IsErrOf};
ghost use Rattle.lisp_lines.specs.Output.{IsSilentAt};
ghost use Rattle.lisp_script.specs.Command.{command_value};
ghost use Rattle.lisp_script.specs.PlayFault.{IsWritingFault};
ghost use Rattle.lisp_player.specs.Playing.{Loses, WroteOne, Wrote, StopsAt, BreaksOne, Breaks};
ghost use Rattle.lisp_script.specs.declared.play_fault.PlayFault.TheVariants as faults;

use crate::command::command_outcome;
use crate::untaken::{Untaken, add_untaken};
use lisp_lines::write_text;
use lisp_memory::Memory;
use lisp_nonces::WorldStore;
use lisp_script::{Command, PlayFault};
use lisp_sites::Config;
use lisp_world::World;
use std::alloc::Allocator;
use std::io::Write;

/// Plays commands over a network of the configuration, from wherever it stands: writes one line for each event, `fault N`
/// for one that the network doesn't take, the lines of each query, and nothing else. A query changes nothing.
///
/// Faults: `OutOfMemory`, where the lines of the commands before were written, whole; the event that was to be next may
/// have been taken, and its line lost. `Write`, where behind them a front of the lines of the next one went out, and not all;
/// the network stands behind it.
pub fn play_on<S: WorldStore, A: Memory + Copy, E: Allocator, F: Allocator, W: Write>(
    alloc: A,
    world: &mut World<S, A>,
    config: &Config<E>,
    commands: &[Command<F>],
    writer: &mut W,
) -> Result<(), PlayFault>
    ensures plays { OnOk result (Wrote A A.may_refuse S.may_refuse world.old world.new config.now
        (map command_value commands.now) (W.contents writer.old) (W.contents writer.new)) }
    ensures stops { IsErrOf result PlayFault.OutOfMemory
        → StopsAt A A.may_refuse S.may_refuse world.old world.new config.now
        (map command_value commands.now) (W.contents writer.old) (W.contents writer.new) }
    ensures breaks { IsErrOf result faults.Write
        → Breaks A A.may_refuse S.may_refuse world.old world.new config.now
        (map command_value commands.now) (W.contents writer.old) (W.contents writer.new) }
    ensures memory { IsErrOf result PlayFault.OutOfMemory → A.may_refuse }
    ensures faults { IfErr result (λ fault. IsWritingFault fault) }
{
    let mut untaken = Vec::new(alloc);
    play_all(alloc, world, config, commands, &[], writer, &mut untaken)
}

/// Plays commands as `play_on` does, and appends those that the network doesn't take, where their lines are known: `lines` has
/// the line of the script that each of them stands on, in their order.
pub(crate) fn play_all<S: WorldStore, A: Memory + Copy, E: Allocator, F: Allocator, W: Write>(
    alloc: A,
    world: &mut World<S, A>,
    config: &Config<E>,
    commands: &[Command<F>],
    lines: &[usize],
    writer: &mut W,
    untaken: &mut Vec<Untaken, A>,
) -> Result<(), PlayFault>
    ensures plays { OnOk result (Wrote A A.may_refuse S.may_refuse world.old world.new config.now
        (map command_value commands.now) (W.contents writer.old) (W.contents writer.new)) }
    ensures stops { IsErrOf result PlayFault.OutOfMemory
        → StopsAt A A.may_refuse S.may_refuse world.old world.new config.now
        (map command_value commands.now) (W.contents writer.old) (W.contents writer.new) }
    ensures breaks { IsErrOf result faults.Write
        → Breaks A A.may_refuse S.may_refuse world.old world.new config.now
        (map command_value commands.now) (W.contents writer.old) (W.contents writer.new) }
    ensures memory { IsErrOf result PlayFault.OutOfMemory → A.may_refuse }
    ensures faults { IfErr result (λ fault. IsWritingFault fault) }
{
    for (place, command) in commands.iter().enumerate() {
        let line = lines.get(place).copied();
        play_one(alloc, world, config, command, line, writer, untaken)?;
    }
    Ok(())
}

// Plays one command, and writes its lines; appends it, where the network doesn't take it and its line is known. Out of memory
// nothing was written, though an event may have been taken.
fn play_one<S: WorldStore, A: Memory + Copy, E: Allocator, F: Allocator, W: Write>(
    alloc: A,
    world: &mut World<S, A>,
    config: &Config<E>,
    command: &Command<F>,
    line: Option<usize>,
    writer: &mut W,
    untaken: &mut Vec<Untaken, A>,
) -> Result<(), PlayFault>
    ensures plays { OnOk result (WroteOne A A.may_refuse S.may_refuse world.old world.new config.now
        (command_value command.now) (W.contents writer.old) (W.contents writer.new)) }
    ensures keeps { IsSilentAt result PlayFault.OutOfMemory W.contents writer.old writer.new }
    ensures lost { IsErrOf result PlayFault.OutOfMemory
        → Loses A A.may_refuse S.may_refuse world.old world.new config.now
        (command_value command.now) }
    ensures breaks { IsErrOf result faults.Write
        → BreaksOne A A.may_refuse S.may_refuse world.old world.new config.now
        (command_value command.now) (W.contents writer.old) (W.contents writer.new) }
    ensures memory { IsErrOf result PlayFault.OutOfMemory → A.may_refuse }
    ensures faults { IfErr result (λ fault. IsWritingFault fault) }
{
    let text = command_outcome(alloc, world, config, command)?.text;
    add_untaken(untaken, line, &text)?;
    write_text(&text, writer)
}
