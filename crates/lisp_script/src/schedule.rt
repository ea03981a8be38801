//! A schedule: a configuration and a script, parted by a line `---`.

ghost use Rattle.std.specs.Prelude.{◌≡◌, Ok, IfOk, IfErr};
ghost use Rattle.lisp_script.specs.Schedule.{schedule_of, schedule_value, IsFaulty};

use crate::command::Command;
use crate::parts::parted;
use crate::play_fault::PlayFault;
use crate::script::parse_script;
use lisp_memory::Memory;
use lisp_sites::Config;
use std::alloc::Global;
use std::str;

/// The configuration and the commands of an input, a schedule. `heap` serves the reading of TOML alone.
///
/// Faults, in this order: `NotUtf8`, `NoScript` where no line is `---`, `Config` and `Script`. Memory runs out inside the last
/// two alone: for the configuration, or in a line of the script, which is named.
pub fn read_schedule<A: Memory + Copy>(
    heap: Global,
    alloc: A,
    input: &[u8],
) -> Result<(Config<A>, Vec<Command<A>, A>), PlayFault>
    ensures schedule { IfOk result (λ s. schedule_of input.now ≡ Ok (schedule_value s)) }
    ensures faults { IfErr result (λ fault. IsFaulty A.may_refuse input.now fault) }
{
    let Ok(text) = str::from_utf8(input) else {
        return Err(PlayFault::NotUtf8);
    };
    let Some((configuration, script)) = parted(text) else {
        return Err(PlayFault::NoScript);
    };
    let config = Config::from_toml(heap, alloc, configuration)?;
    let commands = parse_script(heap, alloc, &config, script)?;
    Ok((config, commands))
}
