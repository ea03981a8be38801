//! A schedule: a configuration and a script, parted by a line `---`.

ghost use Rattle.std.specs.Prelude.{◌≡◌, false, map, replicate, Some, OnOk, OnErr, IfOk, IfErr, IsErrOf};
ghost use Rattle.lisp_world.specs.Openings.{repeats};
ghost use Rattle.lisp_script.specs.Command.{command_value};
ghost use Rattle.lisp_player.specs.Schedule.{Begins, BrokenFrom, Cuts, Ends, EndsBy, IsSilentElse, NotBegun, PlayedFrom, Refuses, RefusesInput, StoppedFrom, Stops, fresh};
ghost use Rattle.lisp_script.specs.declared.play_fault.PlayFault.TheVariants as faults;

use crate::playing::play_all;
use crate::untaken::Untaken;
use lisp_memory::{FallibleVec, Memory};
use lisp_nonces::MemoryStore;
use lisp_script::{Command, PlayFault, read_schedule, read_to_end, schedule_lines};
use lisp_sites::Config;
use lisp_world::World;
use std::alloc::{AllocError, Allocator, Global};
use std::io::{Read, Write};

/// Reads a configuration, a line `---` and a script, and plays the script over a network of the configuration, with stores
/// in memory that open empty and fail only where an event says so: writes one line for each event, `fault N` for one that
/// the network doesn't take, the lines of each query, and nothing else. `heap` serves the reading of TOML alone.
///
/// It reads at most 1,048,576 bytes (`TooLong`) in at most 2,097,152 reads (`Read`); then come `NotUtf8`, `NoScript`,
/// `Config`, `Script` and `World`, in this order. At these nothing was written; at `OutOfMemory` whole lines of the
/// commands before; at `Write` these, and a front of the lines of the next one.
pub fn play<A: Memory + Copy, R: Read, W: Write>(
    heap: Global,
    alloc: A,
    reader: &mut R,
    writer: &mut W,
) -> Result<(), PlayFault>
    ensures plays { Ends result A A.may_refuse (R.remaining reader.old)
        W.contents writer.old writer.new }
    ensures stops { Stops result A A.may_refuse (R.remaining reader.old)
        W.contents writer.old writer.new }
    ensures breaks { Cuts result A A.may_refuse (R.remaining reader.old)
        W.contents writer.old writer.new }
    ensures refuses { Refuses result A.may_refuse (R.remaining reader.old) }
    ensures silent { IsSilentElse result W.contents writer.old writer.new }
    ensures memory { IsErrOf result PlayFault.OutOfMemory → A.may_refuse }
{
    let mut untaken = Vec::new(alloc);
    play_noting(heap, alloc, reader, writer, &mut untaken)
}

/// Plays as `play` does, and appends the commands that the network doesn't take, in their order: those whose text is `fault N`,
/// by N and by their line, which is counted from 1 on right after the line `---`. It does so also where the play then ends by a
/// fault.
pub fn play_noting<A: Memory + Copy, R: Read, W: Write>(
    heap: Global,
    alloc: A,
    reader: &mut R,
    writer: &mut W,
    untaken: &mut Vec<Untaken, A>,
) -> Result<(), PlayFault>
    ensures plays { Ends result A A.may_refuse (R.remaining reader.old)
        W.contents writer.old writer.new }
    ensures stops { Stops result A A.may_refuse (R.remaining reader.old)
        W.contents writer.old writer.new }
    ensures breaks { Cuts result A A.may_refuse (R.remaining reader.old)
        W.contents writer.old writer.new }
    ensures refuses { Refuses result A.may_refuse (R.remaining reader.old) }
    ensures silent { IsSilentElse result W.contents writer.old writer.new }
    ensures memory { IsErrOf result PlayFault.OutOfMemory → A.may_refuse }
{
    let input = read_to_end(alloc, reader)?;
    play_input(heap, alloc, &input, writer, untaken)
}

// Plays the schedule that an input is.
fn play_input<A: Memory + Copy, W: Write>(
    heap: Global,
    alloc: A,
    input: &[u8],
    writer: &mut W,
    untaken: &mut Vec<Untaken, A>,
) -> Result<(), PlayFault>
    ensures plays { Ends result A A.may_refuse (Some input.now) W.contents writer.old writer.new }
    ensures stops { Stops result A A.may_refuse (Some input.now) W.contents writer.old writer.new }
    ensures breaks { Cuts result A A.may_refuse (Some input.now) W.contents writer.old writer.new }
    ensures refuses { IfErr result (λ fault. RefusesInput A.may_refuse input.now fault) }
    ensures silent { IsSilentElse result W.contents writer.old writer.new }
    ensures memory { IsErrOf result PlayFault.OutOfMemory → A.may_refuse }
{
    let (config, commands) = read_schedule(heap, alloc, input)?;
    let lines = schedule_lines(alloc, input)?;
    play_commands(alloc, &config, &commands, &lines, writer, untaken)
}

// Plays commands from the beginning of a network of the configuration.
fn play_commands<A: Memory + Copy, E: Allocator, F: Allocator, W: Write>(
    alloc: A,
    config: &Config<E>,
    commands: &[Command<F>],
    lines: &[usize],
    writer: &mut W,
    untaken: &mut Vec<Untaken, A>,
) -> Result<(), PlayFault>
    ensures plays { OnOk result (PlayedFrom A A.may_refuse config.now
        (map command_value commands.now) (W.contents writer.old) (W.contents writer.new)) }
    ensures stops { IsErrOf result PlayFault.OutOfMemory
        → StoppedFrom A A.may_refuse config.now (map command_value commands.now)
        (W.contents writer.old) (W.contents writer.new) }
    ensures breaks { IsErrOf result faults.Write
        → BrokenFrom A A.may_refuse config.now (map command_value commands.now)
        (W.contents writer.old) (W.contents writer.new) }
    ensures silent { IsSilentElse result W.contents writer.old writer.new }
    ensures memory { IsErrOf result PlayFault.OutOfMemory → A.may_refuse }
    ensures faults { IfErr result (EndsBy A.may_refuse config.now) }
{
    let mut world = begin(alloc, config)?;
    play_all(alloc, &mut world, config, commands, lines, writer, untaken)
}

/// A network of a configuration, over stores that keep nothing.
pub(crate) fn begin<A: Memory + Copy, E: Allocator>(
    alloc: A,
    config: &Config<E>,
) -> Result<World<MemoryStore<A>, A>, PlayFault>
    ensures begins { IfOk result (λ w. Begins config.now w) }
    ensures repeats { IfOk result (λ w. repeats config.now ≡ false) }
    ensures memory { IsErrOf result PlayFault.OutOfMemory → A.may_refuse }
    ensures faults { IfErr result (NotBegun A.may_refuse config.now) }
{
    let stores = stores(alloc, config.node_count())?;
    Ok(World::new(alloc, config, stores)?)
}

// So many stores that keep nothing.
fn stores<A: Memory + Copy>(alloc: A, count: usize) -> Result<Vec<MemoryStore<A>, A>, AllocError>
    ensures empty { IfOk result (λ stores. stores.items ≡ replicate count fresh) }
    ensures memory { OnErr result A.may_refuse }
{
    let mut stores = Vec::new(alloc);
    for _ in 0..count {
        stores.try_push(MemoryStore::new(alloc))?;
    }
    Ok(stores)
}
