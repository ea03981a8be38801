//! The turns of a node.

ghost use Rattle.std.specs.Prelude.{◌≡◌, ◌≤◌, ℕ, List, true};
ghost use Rattle.lisp_records.specs.Moment.{max_moment};
ghost use Rattle.lisp_turns.specs.Node.{IsPlaced, Passes};
ghost use Rattle.lisp_turns.specs.Outside.{FitsBuffer, reception};
ghost use Rattle.lisp_turns.specs.Pause.{may_try};
ghost use Rattle.lisp_turns.specs.Beginning.{RunsAsPart};
ghost use Rattle.lisp_turns.specs.Turn.{failure_calls, receives_after, rest_calls};
ghost use Rattle.lisp_turns.specs.Stretch.{Asks, Expires, TakesIn, ServesDue, EndsTurn, EndsTurns, at_station};

use crate::intake::Intake;
use crate::node::Node;
use crate::outside::{
    Clock, Commit, Control, Endpoint, Lines, Printed, Received, Requests, SocketCall,
};
use crate::pause::{Pause, RETRY_MS};
use crate::place::Place;
use crate::requests::Resolving;
use crate::telling::tell;
use std::alloc::Global;

/// The most bytes of a datagram.
const MOST_BYTES: usize = 65_535;

/// A node at its place, and how it stands with what failed.
#[derive(Drop)]
struct Station<'a> {
    place: Place<'a>,
    // How many datagrams a turn takes at most, but at least one.
    places: usize,
    // When a failure of its socket is told again.
    receives: Pause,
    // When what is due is tried again after it was refused, and that is told again.
    sends: Pause,
    // How it answers Map-Requests.
    resolving: Resolving,
}

/// A turn was lost: what it heard couldn't be committed. The node has to begin anew over its store.
#[derive(Clone, Copy, Debug, PartialEq, Eq)]
pub struct Uncommitted {
    /// How many turns were left behind it.
    pub turns_left: u64,
}

/// Takes so many turns, from a node's start on; none after one in which a line couldn't be printed. A turn takes one datagram,
/// or none where none comes in time, and then those that wait already, `places` in all, at least one; drops the rows that are dead;
/// does what a user tells it, if one does; commits what the node saved; answers each datagram to where it came from, in their order, and
/// last the user; sends what is due: a Map-Register of each part of a router's database to each Map-Server, at most one of
/// each, or each notice of a Map-Server (RFC 9301 sections 5.7 and 8.2), until one is refused; and then answers the Map-Requests that wait,
/// `places` at most, by what the node holds now, as far as the budget lets it (RFC 9301 sections 8.2 and 8.3). Each event is a line, and so
/// is each row that dies. No line of a datagram or of a user's, and no answer, goes out before the commit. A socket that fails is a line, too,
/// once a minute, and a second's rest; what was refused is tried again a second later, and told once a minute.
///
/// `Uncommitted` where the commit of a turn failed: no line of a datagram of that turn and no answer went out, and no turn follows it.
pub fn take_turns<N: Node, O: Endpoint + Requests + Clock + Commit + Lines + Control>(
    alloc: Global,
    node: &mut N,
    place: &Place,
    places: usize,
    resolving: Resolving,
    turns: u64,
    outside: &mut O,
) -> Result<(), Uncommitted>
    requires { IsPlaced place.now.config.now place.now.number (N.state node.old) }
    ensures turns { EndsTurns Global place.now.config.now place.now.number places turns
        (N.state node.old) (N.state node.new) resolving (O.seen outside.old) (O.seen outside.new)
        result }
    ensures part { RunsAsPart place.now.config.now place.now.number (N.state node.old)
        (O.seen outside.old) (O.seen outside.new) result }
    ensures placed { IsPlaced place.now.config.now place.now.number (N.state node.new) }
{
    let mut station = Station {
        place: *place,
        places,
        receives: Pause::NONE,
        sends: Pause::NONE,
        resolving,
    };
    let mut buffer = [0; MOST_BYTES];
    for number in 0..turns {
        if !turn(alloc, node, &mut station, &mut buffer, outside) {
            let turns_left = turns - number - 1;
            return Err(Uncommitted { turns_left });
        }
        if outside.is_cut() {
            return Ok(());
        }
    }
    Ok(())
}

// Datagrams are taken into `buffer` and answered, and what is due is sent. Whether what it heard was committed: where it wasn't,
// it ends there.
fn turn<N: Node, O: Endpoint + Requests + Clock + Commit + Lines + Control>(
    alloc: Global,
    node: &mut N,
    station: &mut Station,
    buffer: &mut [u8],
    outside: &mut O,
) -> bool
    requires { IsPlaced station.old.place.config.now station.old.place.number (N.state node.old) }
    ensures turn { EndsTurn Global station.old.place.config.now station.old.place.number
        station.old.places (at_station (N.state node.old) station.old (O.seen outside.old))
        (at_station (N.state node.new) station.new (O.seen outside.new)) result }
    ensures placed { IsPlaced station.old.place.config.now station.old.place.number
        (N.state node.new) }
    ensures place { station.new.place ≡ station.old.place }
    ensures places { station.new.places ≡ station.old.places }
{
    let received = outside.receive(buffer);
    let now = outside.now();
    expire(node, now, outside);
    if !take_in(alloc, node, station, received, buffer, now, outside) {
        return false;
    }
    drop_withdrawn(node, now);
    serve_due(node, station, now, outside);
    let place = &station.place;
    station
        .resolving
        .answer_waiting(alloc, node, place, station.places, buffer, now, outside);
    rest(received, outside);
    true
}

// Time passes, and each row that dies is told.
fn expire<N: Node, O: Lines>(node: &mut N, now: u64, outside: &mut O)
    requires { now ≤ max_moment }
    ensures { Expires (N.state node.old) (N.state node.new) now (O.seen outside.old)
        (O.seen outside.new) }
{
    while let Some((router, eid)) = node.expire(now) {
        outside.print(&Printed::Expired { router, eid });
    }
}

// The rows that a Map-Register withdrew (RFC 9301 section 5.6: a Record TTL of 0) leave at once: they didn't die unrenewed, and
// aren't told.
fn drop_withdrawn<N: Node>(node: &mut N, now: u64)
    requires { now ≤ max_moment }
    ensures { Passes (N.state node.old) (N.state node.new) now }
{
    while let Some(_withdrawn) = node.expire(now) {}
}

// What was received, in a buffer, is taken in with what waits, committed and then told; a failure of the socket is told, too. Whether what
// was taken in was committed: where it wasn't, nothing is told.
fn take_in<N: Node, O: Endpoint + Commit + Lines + Control>(
    alloc: Global,
    node: &mut N,
    station: &mut Station,
    received: Received,
    buffer: &mut [u8],
    now: u64,
    outside: &mut O,
) -> bool
    requires bound { now ≤ max_moment }
    requires within { FitsBuffer received buffer.old }
    requires placed { IsPlaced station.old.place.config.now station.old.place.number
        (N.state node.old) }
    ensures takes { TakesIn Global station.old.place.config.now station.old.place.number
        station.old.places (at_station (N.state node.old) station.old (O.seen outside.old))
        (at_station (N.state node.new) station.new (O.seen outside.new)) now
        (reception received buffer.old) result }
    ensures placed { IsPlaced station.old.place.config.now station.old.place.number
        (N.state node.new) }
    ensures place { station.new.place ≡ station.old.place }
    ensures places { station.new.places ≡ station.old.places }
    ensures sends { station.new.sends ≡ station.old.sends }
    ensures resolving { station.new.resolving ≡ station.old.resolving }
{
    let place = &station.place;
    let places = station.places;
    let intake = Intake::take(alloc, node, place, places, received, buffer, now, outside);
    if intake.has_acts() && !outside.commit() {
        return false;
    }
    tell_failure(received, &mut station.receives, now, outside);
    intake.tell(outside);
    outside.answer(node.core(), now, intake.answer());
    true
}

// A socket that failed is told, once a minute.
fn tell_failure<O: Lines>(received: Received, receives: &mut Pause, now: u64, outside: &mut O)
    requires { now ≤ max_moment }
    ensures pause { (buffer : List ℕ)
        → receives.new ≡ receives_after (reception received buffer) receives.old now }
    ensures told { (buffer : List ℕ)
        → Asks (O.seen outside.old) (O.seen outside.new)
        (failure_calls (reception received buffer) receives.old now) }
{
    if let Received::Failed = received {
        if receives.fail(now) {
            outside.print(&Printed::Failed(SocketCall::Receive));
        }
    }
}

// Does what is due, but for a second after something that was due was refused.
fn serve_due<N: Node, O: Endpoint + Lines>(
    node: &mut N,
    station: &mut Station,
    now: u64,
    outside: &mut O,
)
    requires bound { now ≤ max_moment }
    requires placed { IsPlaced station.old.place.config.now station.old.place.number
        (N.state node.old) }
    ensures serves { ServesDue Global station.old.place.config.now station.old.place.number
        (at_station (N.state node.old) station.old (O.seen outside.old))
        (at_station (N.state node.new) station.new (O.seen outside.new)) now
        (may_try station.old.sends now) }
    ensures placed { IsPlaced station.old.place.config.now station.old.place.number
        (N.state node.new) }
    ensures place { station.new.place ≡ station.old.place }
    ensures places { station.new.places ≡ station.old.places }
    ensures receives { station.new.receives ≡ station.old.receives }
    ensures resolving { station.new.resolving ≡ station.old.resolving }
{
    if station.sends.may_try(now) {
        serve_all(node, station, now, outside);
    }
}

// Does what is due, until nothing is or something is refused.
fn serve_all<N: Node, O: Endpoint + Lines>(
    node: &mut N,
    station: &mut Station,
    now: u64,
    outside: &mut O,
)
    requires bound { now ≤ max_moment }
    requires placed { IsPlaced station.old.place.config.now station.old.place.number
        (N.state node.old) }
    ensures serves { ServesDue Global station.old.place.config.now station.old.place.number
        (at_station (N.state node.old) station.old (O.seen outside.old))
        (at_station (N.state node.new) station.new (O.seen outside.new)) now true }
    ensures placed { IsPlaced station.old.place.config.now station.old.place.number
        (N.state node.new) }
    ensures place { station.new.place ≡ station.old.place }
    ensures places { station.new.places ≡ station.old.places }
    ensures receives { station.new.receives ≡ station.old.receives }
    ensures resolving { station.new.resolving ≡ station.old.resolving }
{
    for _ in 0..u64::MAX {
        let Some(act) = node.serve(&station.place, now) else {
            return;
        };
        if act.is_refused() {
            if station.sends.fail(now) {
                tell(&Printed::Event(act.line), &act.message, outside);
            }
            return;
        }
        tell(&Printed::Event(act.line), &act.message, outside);
    }
}

// After a socket failed, a second passes.
fn rest<O: Clock>(received: Received, outside: &mut O)
    ensures { (buffer : List ℕ)
        → Asks (O.seen outside.old) (O.seen outside.new) (rest_calls (reception received buffer)) }
{
    if let Received::Failed = received {
        outside.wait(RETRY_MS);
    }
}
