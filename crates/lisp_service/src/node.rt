//! A node of either kind that runs: a Map-Server or a site router, on its socket and over its folder.

ghost use Rattle.std.specs.Prelude.{◌≤◌, length};
ghost use Rattle.lisp_sites.specs.Numbers.{IsMapServer, IsNode};

use crate::devices::Devices;
use crate::subject::{NodeStart, Stretch};
use lisp_control_socket::{AskedNode, ControlSocket, DatabaseFolder};
use lisp_database_store::{DatabaseStore, SharedDatabase, SystemTable};
use lisp_files::Ending;
use lisp_nonces::WorldStore;
use lisp_script::RunFault;
use lisp_sites::Config;
use lisp_turns::{Clock, Commit, Control, Endpoint, Lines, Requests};
use lisp_udp::{
    Journal, LineForm, LineWriter, Printer, SaveTimes, TimedStore, live, ms_since_1970,
    number_named, route_over, serve_over,
};
use lisp_upkeep::{DATABASE, LockedFolder, NodeStore, Storage, open_folder};
use std::cell::Cell;
use std::io::{ErrorKind, Write};

/// Runs a node of a configuration, with the file or the folder that failed, where one did: for so many turns, as `run_server` and
/// `run_router` do; or without an end, as `run_subject` says.
pub(crate) fn run<T: SystemTable, W: Write>(
    rt: &HostRuntime,
    config: &Config,
    dir: &str,
    storage: Storage,
    start: NodeStart<'_>,
    writer: &mut W,
) -> Result<(), Ending> {
    let number = number_named(config, start.kind, start.name)?;
    let folder = open_folder(rt, dir, start.name)?;
    let node = NodeRun {
        rt,
        config,
        number,
        start,
        storage,
    };
    match start.stretch {
        Stretch::Turns(turns) => node.run_turns::<T, W>(&folder, u64::from(turns), writer),
        Stretch::Endless { is_known, form } => node.keep_running::<T>(&folder, is_known, form),
    }
}

/// A node of a configuration that runs.
#[derive(Clone, Copy)]
struct NodeRun<'a> {
    rt: &'a HostRuntime,
    config: &'a Config,
    number: usize,
    start: NodeStart<'a>,
    storage: Storage,
}

impl<'a> NodeRun<'a> {
    // Runs it over its folder for so many turns.
    fn run_turns<T: SystemTable, W: Write>(
        self,
        folder: &LockedFolder,
        turns: u64,
        writer: &mut W,
    ) -> Result<(), Ending>
        requires { IsNode self.config.now self.number }
    {
        let failure = Cell::new(None);
        let store = folder.open_store::<T>(self.rt, self.storage, &failure)?;
        let control = self.control(folder);
        let printer = LineWriter::new(self.rt.alloc(), self.config, self.start.name, writer);
        let printer = self.run_in_store(store, &failure, control, turns, printer)?;
        Ok(printer.end()?)
    }

    // Runs it over its folder without an end.
    fn keep_running<T: SystemTable>(
        self,
        folder: &LockedFolder,
        is_known: bool,
        form: LineForm,
    ) -> Result<(), Ending>
        requires { IsNode self.config.now self.number }
    {
        let failure = Cell::new(None);
        let mut store = folder.open_store::<T>(self.rt, self.storage, &failure)?;
        let pairs = folder.pairs(self.rt, &mut store, is_known)?;
        let control = self.control(folder);
        let journal = self.journal(pairs, form, &failure)?;
        self.run_in_store(store, &failure, control, u64::MAX, journal)?;
        Ok(())
    }

    // Where its lines go while it runs without an end; its store keeps so many pairs.
    fn journal(
        self,
        pairs: usize,
        form: LineForm,
        failure: &'a Cell<Option<ErrorKind>>,
    ) -> Result<Journal<'a, HostRuntime>, RunFault> {
        let NodeRun {
            rt,
            config,
            number,
            start,
            ..
        } = self;
        let servers = config.servers_of(number);
        let now = ms_since_1970(rt);
        Journal::open(rt, config, start.name, servers, pairs, now, form, failure)
    }

    // Where it is asked: in a folder that is given, or in its own; `None` where that can't be made, which is a warning on standard error.
    fn control(self, folder: &'a LockedFolder) -> Option<ControlSocket<'a>> {
        let node = AskedNode {
            alloc: self.rt.alloc(),
            config: self.config,
            number: self.number,
            name: self.start.name,
        };
        let database = match self.storage {
            Storage::Files => None,
            Storage::Database { .. } => Some(DatabaseFolder {
                rt: self.rt,
                path: folder.path(),
                database: DATABASE,
            }),
        };
        let path = self.start.control.unwrap_or(folder.path());
        ControlSocket::open(self.rt, path, node, database)
    }

    // Runs it over its store: a Map-Server in groups, where its store has them; a router saves each nonce by itself before it sends. Where
    // its lines went is given back. `failure` holds the kind of the last error of the store's device.
    fn run_in_store<T: SystemTable, P: Printer + Drop>(
        self,
        store: NodeStore<'_, T>,
        failure: &Cell<Option<ErrorKind>>,
        control: Option<ControlSocket<'_>>,
        turns: u64,
        printer: P,
    ) -> Result<P, RunFault>
        requires { IsNode self.config.now self.number }
    {
        let saves = SaveTimes::new(self.rt);
        let is_server = self.config.is_server(self.number);
        match store {
            NodeStore::Files(store) => {
                self.run_alone::<T, _, P>(store, &saves, control, turns, printer)
            }
            NodeStore::Database { database, group } if is_server && group > 1 => {
                let database = SharedDatabase::over(database, failure);
                self.run_in_groups(&database, group, &saves, control, turns, printer)
            }
            NodeStore::Database { database, .. } => {
                let store = DatabaseStore::over(database, failure);
                self.run_alone::<T, _, P>(store, &saves, control, turns, printer)
            }
        }
    }

    // Runs it over a store that commits each save by itself.
    fn run_alone<T: SystemTable, S: WorldStore + Drop, P: Printer + Drop>(
        self,
        store: S,
        saves: &'a SaveTimes<'a, HostRuntime>,
        control: Option<ControlSocket<'a>>,
        turns: u64,
        printer: P,
    ) -> Result<P, RunFault>
        requires { IsNode self.config.now self.number }
    {
        let devices = Devices::<_, T, _>::open(
            self.rt,
            self.config,
            self.number,
            1,
            None,
            control,
            saves,
            printer,
        );
        let store = TimedStore::over(store, saves);
        let outside = if self.config.is_server(self.number) {
            self.serve(store, turns, devices)?
        } else {
            self.route(store, turns, devices)?
        };
        Ok(outside.into_printer())
    }

    // Runs it, a Map-Server; what is outside is given back.
    fn serve<
        S: WorldStore + Drop,
        O: Endpoint + Requests + Clock + Commit + Lines + Control + Drop,
    >(self, store: S, turns: u64, outside: Result<O, RunFault>) -> Result<O, RunFault>
        requires { IsMapServer self.config.now self.number }
    {
        let NodeRun {
            rt,
            config,
            number,
            start,
            ..
        } = self;
        let sites = config.sites().copy(rt.alloc())?;
        let life = serve_over(
            rt.alloc(),
            config,
            sites,
            number,
            store,
            1,
            start.answering,
            turns,
            outside,
        )?;
        Ok(life.outside)
    }

    // Runs it, a router; what is outside is given back.
    fn route<
        S: WorldStore + Drop,
        O: Endpoint + Requests + Clock + Commit + Lines + Control + Drop,
    >(self, store: S, turns: u64, outside: Result<O, RunFault>) -> Result<O, RunFault>
        requires { (length self.config.now.servers ≤ self.number)
            × (IsNode self.config.now self.number) }
    {
        let NodeRun {
            rt,
            config,
            number,
            start,
            ..
        } = self;
        let life = route_over(
            rt.alloc(),
            config,
            number,
            store,
            1,
            start.answering,
            turns,
            outside,
        )?;
        Ok(life.outside)
    }

    // Runs it, a Map-Server, over a database, to which groups of so many datagrams are committed.
    fn run_in_groups<T: SystemTable, P: Printer + Drop>(
        self,
        database: &'a SharedDatabase<'a, T>,
        places: u8,
        saves: &'a SaveTimes<'a, HostRuntime>,
        control: Option<ControlSocket<'a>>,
        turns: u64,
        printer: P,
    ) -> Result<P, RunFault>
        requires { IsMapServer self.config.now self.number }
    {
        let NodeRun {
            rt,
            config,
            number,
            start,
            ..
        } = self;
        let answering = start.answering;
        let devices = Devices::open(
            rt,
            config,
            number,
            places,
            Some(database),
            control,
            saves,
            printer,
        );
        let places = usize::from(places);
        let outside = live(
            rt.alloc(),
            config,
            number,
            database,
            places,
            answering,
            turns,
            devices,
        )?;
        Ok(outside.into_printer())
    }
}
