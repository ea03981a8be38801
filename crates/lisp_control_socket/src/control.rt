//! The Unix socket at which a node that runs is asked, and told what to do: one of the devices.

use crate::backup::DatabaseFolder;
use crate::bound_socket::{BoundSocket, warn};
use crate::connection::{AskedNode, Connection, MOST_MS};
use lisp_log::Replay;
use lisp_model::{Line, WorldFault};
use lisp_statistics::Statistics;
use lisp_turns::{NodeCore, Order};

/// A socket in the folder of a node, or in another one, and the connection that is served, one at a
/// time. Of what the system makes of its calls nothing is known.
#[derive(Drop)]
pub struct ControlSocket<'a> {
    node: AskedNode<'a>,
    // Where the node keeps a database, if it keeps one.
    database: Option<DatabaseFolder<'a>>,
    socket: BoundSocket<'a>,
    connection: Option<Connection>,
    // Until this moment somebody may ask again, in ms.
    busy_until: u64,
}

impl<'a> ControlSocket<'a> {
    /// A socket in a folder, as `BoundSocket::bind` makes it, of a node that keeps a database in a folder, or none. `None` where it can't
    /// be made, which is a warning on standard error.
    pub fn open(
        rt: &'a HostRuntime,
        folder: &'a str,
        node: AskedNode<'a>,
        database: Option<DatabaseFolder<'a>>,
    ) -> Option<ControlSocket<'a>> {
        match BoundSocket::bind(rt, folder) {
            Ok(socket) => Some(ControlSocket {
                node,
                database,
                socket,
                connection: None,
                busy_until: 0,
            }),
            Err(error) => {
                warn(rt, folder, &error);
                None
            }
        }
    }

    /// Whether somebody is connected.
    pub fn is_connected(&self) -> bool {
        self.connection.is_some()
    }

    /// Whether somebody is connected, or was so lately that another question may come soon, at a moment in ms.
    pub fn is_busy(&self, now: u64) -> bool {
        self.is_connected() || now < self.busy_until
    }

    /// What a user tells the node at a moment, in ms, if one does. Waits for nobody. A socket that was removed is bound again.
    pub fn listen(&mut self, now: u64) -> Option<Order> {
        self.socket.keep_bound(now);
        let mut connection = match self.connection.take() {
            Some(connection) => connection,
            None => self.next(now)?,
        };
        let order = connection.listen(&self.node);
        self.connection = Some(connection);
        order
    }

    /// Answers the user, if there is one, as far as the connection takes it: by the node's core at a
    /// moment, in ms, what is counted of it, and the runs of Map-Registers that it refuses as replays, or
    /// by what came of the order. Then a connection whose time is over is dropped.
    pub fn answer(
        &mut self,
        core: NodeCore<'_>,
        statistics: &Statistics,
        runs: &[Replay],
        now: u64,
        outcome: Option<Result<Line, WorldFault>>,
    ) {
        let Some(mut connection) = self.connection.take() else {
            return;
        };
        connection.answer(
            &self.node,
            self.database,
            core,
            statistics,
            runs,
            now,
            outcome,
        );
        if connection.goes_on(now) {
            self.connection = Some(connection);
        }
    }

    // The next connection that waits.
    fn next(&mut self, now: u64) -> Option<Connection> {
        let stream = self.socket.accept()?;
        self.busy_until = now.saturating_add(MOST_MS);
        Connection::new(self.node.alloc, stream, now)
    }
}
