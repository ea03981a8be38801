//! What the words of a line spell: a command.

ghost use Rattle.std.specs.Prelude.{◌≡◌, [], ◌∷◌};
ghost use Rattle.lisp_records.specs.Result.{Reads};
ghost use Rattle.lisp_script.specs.Command.{command_value};
ghost use Rattle.lisp_script.specs.Words.{texts};
ghost use Rattle.lisp_script.specs.Spelling.{change_of, part_in, send_of, source_in, request_of, deliver_of, restart_of, rotate_of, lose_of, notice_of, given_to, spelt};
ghost use Rattle.lisp_script.specs.Answers.{GivesCommand, GivesRestart, GivesLose, GivesReload, GivesOfVerb, GivesOfWord, Spells, SpellsPlainly};
ghost use Rattle.lisp_script.specs.declared.verb.Verb.TheVariants as verbs;

use crate::command::Command;
use crate::fault::ScriptWhat;
use crate::verb::Verb;
use crate::words::{
    address, bytes, database, doubt, fate, key, load_fails, mark, node, number, prefix, router,
    server, sites,
};
use lisp_memory::Memory;
use lisp_model::Event;
use lisp_nonces::Fate;
use lisp_records::Addr;
use lisp_sites::Config;
use std::alloc::{Allocator, Global};

/// The command of a line's first word, and the words behind it. `heap` serves the reading of TOML alone.
pub(crate) fn command<A: Memory + Copy, E: Allocator>(
    heap: Global,
    alloc: A,
    config: &Config<E>,
    word: &str,
    words: &[&str],
) -> Result<Command<A>, ScriptWhat>
    ensures { GivesOfWord A.may_refuse config.now word.now words.now result }
{
    let verb = Verb::from_word(word)?;
    of_verb(heap, alloc, config, verb, words)
}

// The command of a verb, and the words behind it.
fn of_verb<A: Memory + Copy, E: Allocator>(
    heap: Global,
    alloc: A,
    config: &Config<E>,
    verb: Verb,
    words: &[&str],
) -> Result<Command<A>, ScriptWhat>
    ensures { GivesOfVerb A.may_refuse config.now verb words.now result }
{
    match verb {
        Verb::Change => change(alloc, config, words),
        Verb::Restart => restart(alloc, config, words),
        Verb::Lose => lose(alloc, config, words),
        Verb::Reload => reload(heap, alloc, config, words),
        verb => counted(alloc, config, verb, words),
    }
}

// The command of a verb that no list follows, and the words behind it.
fn counted<A: Memory + Copy, E: Allocator>(
    alloc: A,
    config: &Config<E>,
    verb: Verb,
    words: &[&str],
) -> Result<Command<A>, ScriptWhat>
    ensures { Spells A.may_refuse config.now verb (texts words.now) result }
{
    match *words {
        [first] => with_one(config, verb, first),
        [first, second] => with_two(config, verb, first, second),
        [first, second, third] => with_three(alloc, config, verb, first, second, third),
        [first, second, third, fourth] => with_four(config, verb, first, second, third, fourth),
        [first, second, third, fourth, fifth] => {
            with_five(config, verb, first, second, third, fourth, fifth)
        }
        _ => Err(ScriptWhat::Count),
    }
}

// The command of a verb and one word.
#[tactic(auto, unfolding(crate::specs::Spelling::spelt))]
fn with_one<A: Allocator, E: Allocator>(
    config: &Config<E>,
    verb: Verb,
    first: &str,
) -> Result<Command<A>, ScriptWhat>
    ensures { Reads command_value result (spelt config.now verb (first.now ∷ [])) }
{
    match verb {
        Verb::Deliver => delivered(first, Ok(Fate::Done)),
        Verb::Tick => Ok(Command::Act(Event::Tick(number(first)?))),
        Verb::Hold => Ok(Command::Hold(server(config, first)?)),
        Verb::Acks => Ok(Command::Acks(router(config, first)?)),
        Verb::Due => Ok(Command::Due(node(config, first)?)),
        _ => Err(ScriptWhat::Count),
    }
}

// The command of a verb that no list follows, and two words.
#[tactic(auto, unfolding(crate::specs::Spelling::spelt))]
fn with_two<A: Allocator, E: Allocator>(
    config: &Config<E>,
    verb: Verb,
    first: &str,
    second: &str,
) -> Result<Command<A>, ScriptWhat>
    ensures { SpellsPlainly config.now verb (first.now ∷ second.now ∷ []) result }
{
    match verb {
        Verb::Send => sent(config, first, second, Ok(0), Ok(Fate::Done)),
        Verb::Deliver => delivered(first, fate(second)),
        Verb::Rotate => rotated(config, first, second, Ok(Fate::Done)),
        Verb::Notice => noticed(config, first, second, Ok(Fate::Done)),
        Verb::Resend => {
            let server = server(config, first)?;
            let router = router(config, second)?;
            Ok(Command::Act(Event::Resend { server, router }))
        }
        Verb::Ask => {
            let server = server(config, first)?;
            let addr = address(second)?;
            Ok(Command::Ask { server, addr })
        }
        Verb::Request => requested(config, first, second, Ok(None)),
        _ => Err(ScriptWhat::Count),
    }
}

// The command of a verb that no list follows, and three words.
#[tactic(auto, unfolding(crate::specs::Spelling::spelt))]
fn with_three<A: Memory + Copy, E: Allocator>(
    alloc: A,
    config: &Config<E>,
    verb: Verb,
    first: &str,
    second: &str,
    third: &str,
) -> Result<Command<A>, ScriptWhat>
    ensures { Spells A.may_refuse config.now verb (first.now ∷ second.now ∷ third.now ∷ []) result }
{
    match verb {
        Verb::Send => sent(config, first, second, Ok(0), doubt(third)),
        Verb::Junk => {
            let to = node(config, first)?;
            let from = address(second)?;
            let bytes = bytes(alloc, third)?;
            Ok(Command::Act(Event::Junk { to, from, bytes }))
        }
        Verb::Rotate => rotated(config, first, second, load_fails(third)),
        Verb::Notice => noticed(config, first, second, fate(third)),
        _ => Err(ScriptWhat::Count),
    }
}

// The command of a verb that no list follows, and four words.
#[tactic(auto, unfolding(crate::specs::Spelling::spelt))]
fn with_four<A: Allocator, E: Allocator>(
    config: &Config<E>,
    verb: Verb,
    first: &str,
    second: &str,
    third: &str,
    fourth: &str,
) -> Result<Command<A>, ScriptWhat>
    ensures { SpellsPlainly config.now verb
        (first.now ∷ second.now ∷ third.now ∷ fourth.now ∷ []) result }
{
    match verb {
        Verb::Send => sent(config, first, second, part(third, fourth), Ok(Fate::Done)),
        Verb::Request => requested(config, first, second, source(third, fourth)),
        _ => Err(ScriptWhat::Count),
    }
}

// The command of a verb that no list follows, and five words.
#[tactic(auto, unfolding(crate::specs::Spelling::spelt))]
fn with_five<A: Allocator, E: Allocator>(
    config: &Config<E>,
    verb: Verb,
    first: &str,
    second: &str,
    third: &str,
    fourth: &str,
    fifth: &str,
) -> Result<Command<A>, ScriptWhat>
    ensures { SpellsPlainly config.now verb
        (first.now ∷ second.now ∷ third.now ∷ fourth.now ∷ fifth.now ∷ []) result }
{
    match verb {
        Verb::Send => sent(config, first, second, part(third, fourth), doubt(fifth)),
        _ => Err(ScriptWhat::Count),
    }
}

// change R, with a database
fn change<A: Memory + Copy, E: Allocator>(
    alloc: A,
    config: &Config<E>,
    words: &[&str],
) -> Result<Command<A>, ScriptWhat>
    ensures { GivesCommand A.may_refuse result (spelt config.now verbs.Change (texts words.now)) }
{
    match words {
        [] | [_] => Err(ScriptWhat::Count),
        [router, records @ ..] => changed(alloc, config, router, records),
    }
}

// restart N P, and perhaps with a database
fn restart<A: Memory + Copy, E: Allocator>(
    alloc: A,
    config: &Config<E>,
    words: &[&str],
) -> Result<Command<A>, ScriptWhat>
    ensures { GivesCommand A.may_refuse result (spelt config.now verbs.Restart (texts words.now)) }
{
    match words {
        [] | [_] => Err(ScriptWhat::Count),
        [node, pick] => restarted(config, node, pick),
        [node, pick, records @ ..] => restarted_with(alloc, config, node, pick, records),
    }
}

// lose R K, and perhaps with a database
fn lose<A: Memory + Copy, E: Allocator>(
    alloc: A,
    config: &Config<E>,
    words: &[&str],
) -> Result<Command<A>, ScriptWhat>
    ensures { GivesCommand A.may_refuse result (spelt config.now verbs.Lose (texts words.now)) }
{
    match words {
        [] | [_] => Err(ScriptWhat::Count),
        [router, key] => emptied(config, router, key),
        [router, key, records @ ..] => emptied_with(alloc, config, router, key, records),
    }
}

// reload S, with sites
fn reload<A: Memory + Copy, E: Allocator>(
    heap: Global,
    alloc: A,
    config: &Config<E>,
    words: &[&str],
) -> Result<Command<A>, ScriptWhat>
    ensures { GivesCommand (Unit {0}) result (spelt config.now verbs.Reload (texts words.now)) }
{
    match words {
        [] | [_] | [_, _] => Err(ScriptWhat::Count),
        [server, mark, sites @ ..] => reloaded(heap, alloc, config, server, mark, sites),
    }
}

// A router is given a database.
#[tactic(auto, unfolding(crate::specs::Spelling::change_of))]
fn changed<A: Memory + Copy, E: Allocator>(
    alloc: A,
    config: &Config<E>,
    name: &str,
    records: &[&str],
) -> Result<Command<A>, ScriptWhat>
    ensures { GivesCommand A.may_refuse result (change_of config.now name.now (texts records.now)) }
{
    let router = router(config, name)?;
    let db = database(alloc, records)?;
    Ok(Command::Act(Event::Change { router, db }))
}

// part I
fn part(word: &str, place: &str) -> Result<usize, ScriptWhat>
    ensures { result ≡ part_in word.now place.now }
{
    if word == "part" {
        Ok(number(place)? as usize)
    } else {
        Err(ScriptWhat::Word)
    }
}

// send R S, which part, and what becomes of the save
#[tactic(auto, unfolding(crate::specs::Spelling::send_of))]
fn sent<A: Allocator, E: Allocator>(
    config: &Config<E>,
    from: &str,
    to: &str,
    which: Result<usize, ScriptWhat>,
    becomes: Result<Fate, ScriptWhat>,
) -> Result<Command<A>, ScriptWhat>
    ensures { Reads command_value result (send_of config.now from.now to.now which becomes) }
{
    let router = router(config, from)?;
    let server = server(config, to)?;
    let part = which?;
    let fate = becomes?;
    Ok(Command::Act(Event::Send {
        router,
        server,
        part,
        fate,
    }))
}

// from A
fn source(word: &str, from: &str) -> Result<Option<Addr>, ScriptWhat>
    ensures { result ≡ source_in word.now from.now }
{
    if word == "from" {
        Ok(Some(address(from)?))
    } else {
        Err(ScriptWhat::Word)
    }
}

// request S P, and from which address
#[tactic(auto, unfolding(crate::specs::Spelling::request_of))]
fn requested<A: Allocator, E: Allocator>(
    config: &Config<E>,
    name: &str,
    asked: &str,
    source: Result<Option<Addr>, ScriptWhat>,
) -> Result<Command<A>, ScriptWhat>
    ensures { Reads command_value result (request_of config.now name.now asked.now source) }
{
    let server = server(config, name)?;
    let asked = prefix(asked)?;
    let from = source?;
    Ok(Command::Request {
        server,
        asked,
        from,
    })
}

// deliver D, and what becomes of a load or a save
#[tactic(auto, unfolding(crate::specs::Spelling::deliver_of))]
fn delivered<A: Allocator>(
    datagram: &str,
    becomes: Result<Fate, ScriptWhat>,
) -> Result<Command<A>, ScriptWhat>
    ensures { Reads command_value result (deliver_of datagram.now becomes) }
{
    let k = number(datagram)? as usize;
    let fate = becomes?;
    Ok(Command::Act(Event::Deliver { k, fate }))
}

// A node restarts.
#[tactic(auto, unfolding(crate::specs::Spelling::restart_of))]
fn restarted<A: Allocator, E: Allocator>(
    config: &Config<E>,
    name: &str,
    pick: &str,
) -> Result<Command<A>, ScriptWhat>
    ensures { Reads command_value result (restart_of config.now name.now pick.now) }
{
    let node = node(config, name)?;
    let pick = number(pick)?;
    Ok(Command::Act(Event::Restart {
        node,
        pick,
        db: None,
    }))
}

// A router restarts with another database.
#[tactic(auto, unfolding(crate::specs::Spelling::restart_with))]
fn restarted_with<A: Memory + Copy, E: Allocator>(
    alloc: A,
    config: &Config<E>,
    name: &str,
    pick: &str,
    records: &[&str],
) -> Result<Command<A>, ScriptWhat>
    ensures { GivesRestart A.may_refuse config.now name.now pick.now records.now result }
{
    let node = node(config, name)?;
    let pick = number(pick)?;
    let node = given_to(config, node)?;
    let db = Some(database(alloc, records)?);
    Ok(Command::Act(Event::Restart { node, pick, db }))
}

// A database is given to a router alone.
fn given_to<E: Allocator>(config: &Config<E>, node: usize) -> Result<usize, ScriptWhat>
    ensures { result ≡ given_to config.now node }
{
    if config.is_server(node) {
        Err(ScriptWhat::Name)
    } else {
        Ok(node)
    }
}

// rotate R K, and what becomes of the load
#[tactic(auto, unfolding(crate::specs::Spelling::rotate_of))]
fn rotated<A: Allocator, E: Allocator>(
    config: &Config<E>,
    name: &str,
    id: &str,
    becomes: Result<Fate, ScriptWhat>,
) -> Result<Command<A>, ScriptWhat>
    ensures { Reads command_value result (rotate_of config.now name.now id.now becomes) }
{
    let router = router(config, name)?;
    let key = key(id)?;
    let fate = becomes?;
    Ok(Command::Act(Event::Rotate { router, key, fate }))
}

// A router starts under another key, after its store was lost.
#[tactic(auto, unfolding(crate::specs::Spelling::lose_of))]
fn emptied<A: Allocator, E: Allocator>(
    config: &Config<E>,
    name: &str,
    id: &str,
) -> Result<Command<A>, ScriptWhat>
    ensures { Reads command_value result (lose_of config.now name.now id.now) }
{
    let router = router(config, name)?;
    let key = key(id)?;
    Ok(Command::Act(Event::Lose {
        router,
        key,
        db: None,
    }))
}

// A router starts so with another database.
#[tactic(auto, unfolding(crate::specs::Spelling::lose_with))]
fn emptied_with<A: Memory + Copy, E: Allocator>(
    alloc: A,
    config: &Config<E>,
    name: &str,
    id: &str,
    records: &[&str],
) -> Result<Command<A>, ScriptWhat>
    ensures { GivesLose A.may_refuse config.now name.now id.now records.now result }
{
    let router = router(config, name)?;
    let key = key(id)?;
    let db = Some(database(alloc, records)?);
    Ok(Command::Act(Event::Lose { router, key, db }))
}

// notice S R, and what becomes of a load or a save
#[tactic(auto, unfolding(crate::specs::Spelling::notice_of))]
fn noticed<A: Allocator, E: Allocator>(
    config: &Config<E>,
    from: &str,
    to: &str,
    becomes: Result<Fate, ScriptWhat>,
) -> Result<Command<A>, ScriptWhat>
    ensures { Reads command_value result (notice_of config.now from.now to.now becomes) }
{
    let server = server(config, from)?;
    let router = router(config, to)?;
    let fate = becomes?;
    Ok(Command::Act(Event::Notice {
        server,
        router,
        fate,
    }))
}

// A Map-Server takes other sites.
#[tactic(auto, unfolding(crate::specs::Spelling::reload_of))]
fn reloaded<A: Memory + Copy, E: Allocator>(
    heap: Global,
    alloc: A,
    config: &Config<E>,
    name: &str,
    word: &str,
    text: &[&str],
) -> Result<Command<A>, ScriptWhat>
    ensures { GivesReload config.now name.now word.now text.now result }
{
    let server = server(config, name)?;
    mark(word)?;
    let sites = sites(heap, alloc, text)?;
    Ok(Command::Act(Event::Reload { server, sites }))
}
