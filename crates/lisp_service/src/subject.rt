//! What runs on sockets: a node or a network.

use crate::network::run_network;
use crate::node::run;
use lisp_database_store::SystemTable;
use lisp_files::{Ending, read_config};
use lisp_script::RunFault;
use lisp_udp::{Answering, LineForm, NodeKind};
use lisp_upkeep::Storage;
use std::io::Write;

/// What runs on sockets.
#[derive(Clone, Copy)]
pub enum Subject<'a> {
    /// A node.
    Node(NodeStart<'a>),
    /// The whole network, which a script drives.
    Network {
        /// The script's file.
        script: &'a str,
    },
}

/// A node that is to run.
#[derive(Clone, Copy)]
pub struct NodeStart<'a> {
    /// Its kind.
    pub kind: NodeKind,
    /// Its name.
    pub name: &'a str,
    /// For how long it runs.
    pub stretch: Stretch,
    /// The folder in which it is asked; `None` where that is its own.
    pub control: Option<&'a str>,
    /// How it answers Map-Requests.
    pub answering: Answering,
}

/// For how long a node runs.
#[derive(Clone, Copy)]
pub enum Stretch {
    /// For so many turns.
    Turns(u32),
    /// Until the process is killed.
    Endless {
        /// Whether its store is known to keep nonces.
        is_known: bool,
        /// In which form it prints its lines.
        form: LineForm,
    },
}

/// Runs what is asked for, of a configuration's file, with the nonces in the folders `dir`/NAME: a Map-Server as `run_server`, a router as
/// `run_router`, and a network as `run_loop`. A node that has a folder for `control` makes its socket there.
///
/// What runs without an end takes 2^64 - 1 turns, and doesn't print to `writer`: its lines go through a log to standard output, which never
/// ends or delays it, and what can't be written at once waits, or is dropped and counted. The first line says how many pairs the node keeps
/// nonces for.
///
/// Faults: those of these functions, and which file or folder failed, where one did. What runs without an end ends by no 88; 93 is told too
/// where its nonces can't be counted, or there are none and `is_known` says that there are some.
pub fn run_subject<T: SystemTable, W: Write>(
    rt: &HostRuntime,
    config: &str,
    dir: &str,
    storage: Storage,
    subject: Subject<'_>,
    writer: &mut W,
) -> Result<(), Ending> {
    let config = read_config(rt, config)?;
    match subject {
        Subject::Network { script } => {
            run_network::<T, W>(rt, &config, script, dir, storage, writer)
        }
        Subject::Node(node) => run::<T, W>(rt, &config, dir, storage, node, writer),
    }
}

/// Runs the Map-Server with a name for so many turns, which answers Map-Requests so. A turn takes one datagram, or none where none comes
/// within 100 ms, answers it to where it came from, drops dead rows, and sends the notices that are due. Its nonces are kept in the folder
/// `dir`/`name`, each saved before its Map-Register is answered (RFC 9301 section 8.3). Each event is a line, printed at
/// once; a socket that fails is the line `refused NAME 90` (receive) or 91 (send), and it goes on: after a receive that failed a
/// second later, with one such line a minute.
///
/// Over a database with a group of more than 1, a turn takes a group of datagrams that wait: the nonces of all are committed before
/// the first of their lines and answers. While others wait, the datagrams of one source address take at most half the places. Where
/// the commit fails, none of the lines is printed and no answer is sent: the line `restarted NAME` is printed, and a second later the
/// Map-Server begins anew over its database, with no rows, for the turns that are left.
///
/// Faults, in this order: those of the configuration's file (93, 87, 89, 95, then its own); 70 where no node has the name,
/// 71 where a router has it; 93 for the folder, for a database that stands there where `storage` is files, and for a database or the
/// files that it takes over; 92 for the socket and the clock; 88 where a line can't be written, at the end of its turn. 97 is out
/// of memory.
pub fn run_server<T: SystemTable, W: Write>(
    rt: &HostRuntime,
    config: &str,
    name: &str,
    dir: &str,
    storage: Storage,
    answering: Answering,
    turns: u32,
    writer: &mut W,
) -> Result<(), RunFault> {
    let subject = turns_of(NodeKind::Server, name, answering, turns);
    Ok(run_subject::<T, W>(rt, config, dir, storage, subject, writer)?)
}

/// Runs the site router with a name for so many turns, which answers Map-Requests so. A turn takes one datagram, or none where none comes
/// within 100 ms, and then sends a Map-Register of each part of its database that is due to each Map-Server, at most one of each part
/// (RFC 9301 section 8.2). Its nonces are kept in the folder `dir`/`name`: each, or a higher one, is saved before its
/// Map-Register is sent. Each event is a line, printed at once; a socket that fails is the line `refused NAME 90` (receive)
/// or 91 (send), and it goes on: after a receive that failed a second later, with one such line a minute. So it does where its
/// store fails, or its nonces are spent.
///
/// Faults, in this order: those of the configuration's file (93, 87, 89, 95, then its own); 70 where no node has the name,
/// 71 where a Map-Server has it; 93 for the folder, for a database that stands there where `storage` is files, and for a database or
/// the files that it takes over; 35 or 36 where the router doesn't start; 92 for the socket and the clock; 88 where a line can't be
/// written, at the end of its turn. 97 is out of memory.
pub fn run_router<T: SystemTable, W: Write>(
    rt: &HostRuntime,
    config: &str,
    name: &str,
    dir: &str,
    storage: Storage,
    answering: Answering,
    turns: u32,
    writer: &mut W,
) -> Result<(), RunFault> {
    let subject = turns_of(NodeKind::Router, name, answering, turns);
    Ok(run_subject::<T, W>(rt, config, dir, storage, subject, writer)?)
}

// A node that runs for so many turns, and is asked in its own folder.
fn turns_of<'a>(kind: NodeKind, name: &'a str, answering: Answering, turns: u32) -> Subject<'a> {
    Subject::Node(NodeStart {
        kind,
        name,
        stretch: Stretch::Turns(turns),
        control: None,
        answering,
    })
}

/// Plays a script over a network whose nodes keep their nonces in the folders `dir`/NAME, in files or databases, and send each datagram
/// for a node over UDP too. `deliver K` takes the next datagram that comes to where datagram K was sent, within 1,000 ms: where it is
/// datagram K, byte for byte, the event is taken, else it prints `lost K`. Where datagram K isn't there, or goes to no node,
/// the event is taken at once. Every other command is taken as `play` takes it, so a save is committed by itself, whatever the group. A
/// socket that fails is the line `refused NAME 90` (receive) or 91 (send), and it goes on.
///
/// Faults, in this order: those of the configuration's file (93, 87, 89, 95, then its own); of the script's file (93, 87,
/// 89, 95, then that of its first faulty line); 93 for the folders, then for what is in them, as for `run_server`; 74 to 76 where no
/// network can be made; 92 for the sockets; 88 where a line can't be written. 97 is out of memory.
pub fn run_loop<T: SystemTable, W: Write>(
    rt: &HostRuntime,
    config: &str,
    file: &str,
    dir: &str,
    storage: Storage,
    writer: &mut W,
) -> Result<(), RunFault> {
    let subject = Subject::Network { script: file };
    Ok(run_subject::<T, W>(rt, config, dir, storage, subject, writer)?)
}
