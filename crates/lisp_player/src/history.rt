//! A schedule that was played, and what each of its commands came to.

ghost use Rattle.std.specs.Prelude.{◌≡◌, [], map, length, take, All, Some, Ok, OnErr, IfOk, IfErr, IsErrOf};
ghost use Rattle.lisp_script.specs.Command.{command_value};
ghost use Rattle.lisp_script.specs.CommandLines.{schedule_lines};
ghost use Rattle.lisp_script.specs.Schedule.{schedule_value};
ghost use Rattle.lisp_player.specs.Outcomes.{Leads, ListsKept, OutcomesFrom, OutcomesLead, TellsLine, texts};
ghost use Rattle.lisp_player.specs.Playing.{Wrote};
ghost use Rattle.lisp_player.specs.Schedule.{IsOfInput, NotBegun, Played, PlayedFrom, RefusesInput, schedule_in};

use crate::command::command_outcome;
use crate::kept_nonce::KeptNonce;
use crate::outcome::Outcome;
use crate::schedule::begin;
use lisp_memory::{FallibleVec, Memory};
use lisp_model::Line;
use lisp_nonces::MemoryStore;
use lisp_script::{Command, PlayFault, read_schedule, schedule_lines};
use lisp_sites::Config;
use lisp_world::World;
use std::alloc::{AllocError, Allocator, Global};

/// How many nonces an outcome lists at most.
const MOST_KEPT: usize = 4;

/// A schedule that was played.
#[derive(Drop)]
pub struct History<A: Allocator = Global> {
    /// Its configuration.
    pub config: Config<A>,
    /// Its commands.
    pub commands: Vec<Command<A>, A>,
    /// The lines of the script that they stand on, in their order, counted from 1 on right after the line `---`.
    pub lines: Vec<usize, A>,
    /// What they came to: one for each command, in their order.
    pub outcomes: Vec<Outcome<A>, A>,
}

/// Plays the schedule of an input as `play` does, over stores in memory, and gives what each command came to. `heap` serves
/// the reading of TOML alone. Faults: as `play`'s, but `Read`, `TooLong` and `Write`.
pub fn history_of<A: Memory + Copy>(
    heap: Global,
    alloc: A,
    input: &[u8],
) -> Result<History<A>, PlayFault>
    ensures schedule { IfOk result (λ h.
        schedule_in input.now ≡ Ok (schedule_value (h.config, h.commands))) }
    ensures plays { IfOk result (λ h. Played A A.may_refuse input.now (λ orders. orders)
        (Some []) (Some (texts h.outcomes.items))) }
    ensures each { IfOk result (λ h. OutcomesFrom A A.may_refuse h.config
        (map command_value h.commands.items) h.outcomes.items) }
    ensures counts { IfOk result (λ h. length h.outcomes.items ≡ length h.commands.items) }
    ensures numbers { IfOk result (λ h. h.lines.items ≡ schedule_lines input.now) }
    ensures numbered { IfOk result (λ h. length h.lines.items ≡ length h.commands.items) }
    ensures lines { IfOk result (λ h. All (TellsLine h.config) h.outcomes.items) }
    ensures kept { IfOk result (λ h. All ListsKept h.outcomes.items) }
    ensures refuses { IfErr result (RefusesInput A.may_refuse input.now) }
    ensures faults { IfErr result IsOfInput }
    ensures memory { IsErrOf result PlayFault.OutOfMemory → A.may_refuse }
{
    let (config, commands) = read_schedule(heap, alloc, input)?;
    let lines = schedule_lines(alloc, input)?;
    let outcomes = outcomes_from(alloc, &config, &commands)?;
    Ok(History {
        config,
        commands,
        lines,
        outcomes,
    })
}

// What commands come to, from the beginning of a network of the configuration.
fn outcomes_from<A: Memory + Copy, E: Allocator, F: Allocator>(
    alloc: A,
    config: &Config<E>,
    commands: &[Command<F>],
) -> Result<Vec<Outcome<A>, A>, PlayFault>
    ensures plays { IfOk result (λ outcomes. PlayedFrom A A.may_refuse config.now
        (map command_value commands.now) (Some []) (Some (texts outcomes.items))) }
    ensures each { IfOk result (λ outcomes. OutcomesFrom A A.may_refuse config.now
        (map command_value commands.now) outcomes.items) }
    ensures counts { IfOk result (λ outcomes. length outcomes.items ≡ length commands.now) }
    ensures lines { IfOk result (λ outcomes. All (TellsLine config.now) outcomes.items) }
    ensures kept { IfOk result (λ outcomes. All ListsKept outcomes.items) }
    ensures memory { IsErrOf result PlayFault.OutOfMemory → A.may_refuse }
    ensures faults { IfErr result (NotBegun A.may_refuse config.now) }
{
    let mut world = begin(alloc, config)?;
    let outcomes = outcomes_on(alloc, &mut world, config, commands)?;
    Ok(outcomes)
}

// What commands come to, over a network of the configuration.
fn outcomes_on<A: Memory + Copy, E: Allocator, F: Allocator>(
    alloc: A,
    world: &mut World<MemoryStore<A>, A>,
    config: &Config<E>,
    commands: &[Command<F>],
) -> Result<Vec<Outcome<A>, A>, AllocError>
    ensures plays { IfOk result (λ outcomes. Wrote A A.may_refuse A.may_refuse
        world.old world.new config.now
        (map command_value commands.now) (Some []) (Some (texts outcomes.items))) }
    ensures each { IfOk result (λ outcomes. OutcomesLead A A.may_refuse A.may_refuse
        world.old world.new config.now (map command_value commands.now) outcomes.items) }
    ensures counts { IfOk result (λ outcomes. length outcomes.items ≡ length commands.now) }
    ensures lines { IfOk result (λ outcomes. All (TellsLine config.now) outcomes.items) }
    ensures kept { IfOk result (λ outcomes. All ListsKept outcomes.items) }
    ensures memory { OnErr result A.may_refuse }
{
    let mut outcomes = Vec::new(alloc);
    for command in commands {
        outcomes.try_push(outcome_on(alloc, world, config, command)?)?;
    }
    Ok(outcomes)
}

// What a command comes to, and what the store keeps of a node that started again.
fn outcome_on<A: Memory + Copy, E: Allocator, F: Allocator>(
    alloc: A,
    world: &mut World<MemoryStore<A>, A>,
    config: &Config<E>,
    command: &Command<F>,
) -> Result<Outcome<A>, AllocError>
    ensures turns { Leads result A A.may_refuse A.may_refuse
        world.old world.new config.now command.now }
    ensures line { IfOk result (TellsLine config.now) }
    ensures kept { IfOk result ListsKept }
    ensures memory { OnErr result A.may_refuse }
{
    let mut outcome = command_outcome(alloc, world, config, command)?;
    if let Some(node) = started_again(&outcome) {
        let kept = kept_by(alloc, world, node)?;
        list_kept(&mut outcome, kept);
    }
    Ok(outcome)
}

// Lists the first few nonces that a store keeps, and counts all.
fn list_kept<A: Memory>(outcome: &mut Outcome<A>, kept: Vec<KeptNonce, A>)
    ensures kept { outcome.new.kept.items ≡ take 4 kept.items }
    ensures count { outcome.new.kept_count ≡ length kept.items }
    ensures line { outcome.new.line ≡ outcome.old.line }
    ensures text { outcome.new.text ≡ outcome.old.text }
{
    let mut listed = kept;
    outcome.kept_count = listed.len();
    listed.truncate(MOST_KEPT);
    outcome.kept = listed;
}

// The node that started again.
fn started_again<A: Allocator>(outcome: &Outcome<A>) -> Option<usize> {
    match outcome.line {
        Some(Line::Restarted { node }) => Some(node),
        Some(Line::Emptied { router, .. }) => Some(router),
        Some(Line::Renewed { server, .. }) => Some(server),
        _ => None,
    }
}

// All that the store of a node keeps.
fn kept_by<A: Memory + Copy>(
    alloc: A,
    world: &World<MemoryStore<A>, A>,
    node: usize,
) -> Result<Vec<KeptNonce, A>, AllocError>
    ensures memory { OnErr result A.may_refuse }
{
    match world.store(node) {
        Some(store) => kept_of(alloc, store),
        None => Ok(Vec::new(alloc)),
    }
}

// All that a store keeps, in the order of the first saves. Of a nonce in doubt the first is taken.
fn kept_of<A: Memory + Copy>(
    alloc: A,
    store: &MemoryStore<A>,
) -> Result<Vec<KeptNonce, A>, AllocError>
    ensures memory { OnErr result A.may_refuse }
{
    let mut kept = Vec::new(alloc);
    for place in 0..usize::MAX {
        let Some(pair) = store.pair_at(place) else {
            break;
        };
        if let Some(nonce) = store.kept(&pair)[0] {
            kept.try_push(KeptNonce { pair, nonce })?;
        }
    }
    Ok(kept)
}
