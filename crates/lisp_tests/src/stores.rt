//! Each load and save of a play refused in turn, by a store of which one call fails: the command says so, and, given
//! again, prints its line.

use crate::playing::SCHEDULE;
use crate::support::assert_at;
use lisp_nonces::WorldStore;
use lisp_player::{Command, PlayFault, parse_script, play_on};
use lisp_sites::Config;
use lisp_store::Failing;
use lisp_world::{World, WorldFault};
use std::alloc::{AllocError, Global};
use std::io::Write;
use std::process::Abort;

/// A registration, a repeat, both restarts, a later registration, a notice and one after a restart; then a registration
/// under another key.
const SCRIPT: &str = "\
send r1 s1
deliver 0
deliver 1
deliver 0
restart s1 0
deliver 0
restart r1 0 10.1.0.0/16=60
send r1 s1
deliver 2
notice s1 r1
deliver 4
deliver 5
restart s1 0
send r1 s1
deliver 6
notice s1 r1
rotate r1 2
send r1 s1
deliver 9
";

/// What the commands print.
const PRINTED: &str = "\
sent r1 s1 key 1 nonce 1 datagram 0
accepted s1 r1 key 1 nonce 1 datagram 1
counted r1 s1 key 1 nonce 1
refused s1 57 saved 1
restarted s1
refused s1 57 saved 1
restarted r1
sent r1 s1 key 1 nonce 2 datagram 2
accepted s1 r1 key 1 nonce 2 datagram 3
notice s1 r1 key 1 nonce 9223372036854775808 datagram 4
noticed r1 s1 nonce 9223372036854775808 datagram 5
done s1 r1 nonce 9223372036854775808
restarted s1
sent r1 s1 key 1 nonce 3 datagram 6
accepted s1 r1 key 1 nonce 3 datagram 7
notice s1 r1 key 1 nonce 9223372036854775809 datagram 8
rotated r1 key 2
sent r1 s1 key 2 nonce 1 datagram 9
accepted s1 r1 key 2 nonce 1 datagram 10
";

/// What each node says of a load or save that failed: when it starts, goes over to another key, sends, receives, or sends a
/// notice.
const REFUSED: [&str; 7] = [
    "refused r1 35 store 30\n",
    "refused r1 38 store 30\n",
    "refused r1 42 store 30\n",
    "refused s1 56 store 30\n",
    "refused s1 59 store 30\n",
    "refused s1 65 store 30\n",
    "refused s1 68 store 30\n",
];

/// How often the Map-Server loads or saves here, and the router: at its start or a change of its key, for a Map-Register or
/// a notice, unless the nonce before is known. A nonce that is loaded for a message that is refused stays unknown.
const CALLS: [u64; 2] = [13, 7];

/// The router's load at its first start.
const FIRST_LOAD: (usize, u64) = (1, 1);

#[test]
fn a_command_whose_load_or_save_fails_says_so_and_prints_its_line_when_given_again(
    rt: HostRuntime,
) {
    let config = config(rt.alloc()).expect(&rt, "the configuration");
    let commands = parse_script(rt.alloc(), rt.alloc(), &config, SCRIPT).expect(&rt, "the script");
    for (node, calls) in CALLS.iter().enumerate() {
        for turn in 1..calls.saturating_add(2) {
            let refused = played(&rt, rt.alloc(), &config, &commands, (node, turn));
            let is_so = refused == Some(usize::from(turn <= *calls));
            assert_at(&rt, node, is_so);
        }
    }
}

/// The configuration of the schedule that `playing` plays.
fn config(alloc: Global) -> Option<Config> {
    let (configuration, _) = SCHEDULE.split_once("---\n")?;
    Config::from_toml(alloc, alloc, configuration).ok()
}

/// How many commands are refused and given again in a play in which this load or save of this node fails, if each prints its
/// line in the end. A router whose first load fails doesn't start: no network is made, which counts as one.
fn played(
    rt: &impl Abort,
    alloc: Global,
    config: &Config,
    commands: &[Command],
    call: (usize, u64),
) -> Option<usize> {
    match world(alloc, config, call) {
        Ok(mut world) if call != FIRST_LOAD => {
            plays(alloc, &mut world, config, commands).expect(rt, "a play")
        }
        Err(fault) if call == FIRST_LOAD && fault.number() == 76 => Some(1),
        _ => None,
    }
}

/// A network whose nodes have such stores: this load or save of this node fails. Out of memory is no fault of a start.
fn world(alloc: Global, config: &Config, call: (usize, u64)) -> Result<World<Failing>, WorldFault> {
    let stores = stores(alloc, config, call)?;
    if stores.len() != config.node_count() {
        return Err(WorldFault::NoNode);
    }
    World::new(alloc, config, stores)
}

/// A store for each node; none of its calls fails, but for this one of this node.
fn stores(
    alloc: Global,
    config: &Config,
    (node, turn): (usize, u64),
) -> Result<Vec<Failing>, AllocError> {
    let mut stores = Vec::new(alloc);
    for place in 0..config.node_count() {
        let turn = if place == node { turn } else { 0 };
        stores.push(Failing::new(alloc, turn))?;
    }
    Ok(stores)
}

/// How many commands were refused and given again, if each prints its line then.
fn plays(
    alloc: Global,
    world: &mut World<Failing>,
    config: &Config,
    commands: &[Command],
) -> Result<Option<usize>, PlayFault> {
    let (mut printed, mut refused) = (Vec::new(alloc), 0_usize);
    for command in commands.chunks(1) {
        let before = printed.len();
        play_over(alloc, world, config, command, &mut printed)?;
        if is_refused(&printed, before) {
            printed.truncate(before);
            refused = refused.saturating_add(1);
            play_over(alloc, world, config, command, &mut printed)?;
        }
    }
    let is_whole = printed.as_slice() == PRINTED.as_bytes();
    Ok(if is_whole { Some(refused) } else { None })
}

/// Whether a load or save that failed is all that was printed behind so many bytes.
fn is_refused(printed: &[u8], before: usize) -> bool {
    let line = printed.get(before..).unwrap_or(&[]);
    REFUSED.iter().any(|refused| refused.as_bytes() == line)
}

// A function of its own, since what `play_on` promises would be proved of these stores and this writer too.
fn play_over<S: WorldStore, W: Write>(
    alloc: Global,
    world: &mut World<S>,
    config: &Config,
    command: &[Command],
    writer: &mut W,
) -> Result<(), PlayFault> {
    play_on(alloc, world, config, command, writer)
}
