//! The lives of a Map-Server that begins anew where its store couldn't commit.

ghost use Rattle.std.specs.Prelude.{IfOk};
ghost use Rattle.lisp_database_store.specs.Keeper.{shared_store};
ghost use Rattle.lisp_udp.specs.Lives.{Lives, SaysRestarted};
ghost use Rattle.lisp_sites.specs.Numbers.{IsMapServer};

use crate::life::serve_over;
use crate::resolving::Answering;
use lisp_database_store::{SharedDatabase, SystemTable};
use lisp_model::Line;
use lisp_script::RunFault;
use lisp_sites::Config;
use lisp_turns::{Clock, Commit, Control, Endpoint, Lines, Printed, Requests, Uncommitted};
use std::alloc::Global;

/// How long a node rests before it begins anew, in ms.
const REST_MS: u64 = 1_000;

/// Runs the Map-Server with a number over a store in the database, in so many turns of so many datagrams. Where a turn couldn't be
/// committed, it says that it restarted, rests, and begins anew over a store in that database, with the turns that are left: as a
/// crash would have it. Each life begins at the moment that the clock tells then: the first one under the sites of the configuration, each
/// other one under those that the Map-Server had last. What is outside is given back. Faults: that of what is outside, or 97; at a
/// later start 97.
pub fn live<T: SystemTable, O: Endpoint + Requests + Clock + Commit + Lines + Control + Drop>(
    alloc: Global,
    config: &Config,
    number: usize,
    database: &SharedDatabase<'_, T>,
    places: usize,
    answering: Answering,
    turns: u64,
    outside: Result<O, RunFault>,
) -> Result<O, RunFault>
    requires { IsMapServer config.now number }
    ensures { IfOk outside (λ before. IfOk result
        (λ after. Lives Global config.now number shared_store places answering turns (O.seen before)
        (O.seen after))) }
{
    let sites = config.sites().copy(alloc)?;
    let store = database.store();
    let mut life = serve_over(
        alloc, config, sites, number, store, places, answering, turns, outside,
    )?;
    while let Err(Uncommitted { turns_left }) = life.ended {
        let mut outside = life.outside;
        rest(number, &mut outside);
        if outside.is_cut() {
            return Ok(outside);
        }
        let sites = life.node.stop();
        let store = database.store();
        life = serve_over(
            alloc,
            config,
            sites,
            number,
            store,
            places,
            answering,
            turns_left,
            Ok(outside),
        )?;
    }
    Ok(life.outside)
}

// The node with a number says that it restarted, and rests.
fn rest<O: Clock + Lines>(number: usize, outside: &mut O)
    ensures { SaysRestarted number (O.seen outside.old) (O.seen outside.new) }
{
    outside.print(&Printed::Event(Line::Restarted { node: number }));
    outside.wait(REST_MS);
}
