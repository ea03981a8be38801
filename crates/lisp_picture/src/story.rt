//! What happens in a schedule that was played.

ghost use Rattle.std.specs.Prelude.{OnErr};

use crate::datagram::{Datagram, datagram_of};
use crate::row::{Arrival, Row, row_of};
use lisp_memory::{FallibleVec, Memory};
use lisp_player::History;
use std::alloc::{AllocError, Allocator};

/// What happens in a schedule that was played.
#[derive(Drop)]
pub(crate) struct Story<A: Allocator> {
    /// What each command did, in their order.
    pub(crate) rows: Vec<Row, A>,
    /// The datagrams that were sent, by their numbers.
    pub(crate) datagrams: Vec<Datagram, A>,
    /// The nodes that something happens to, in their order.
    pub(crate) nodes: Vec<usize, A>,
}

impl<A: Allocator> Story<A> {
    /// The datagram that arrives at a row, where one does.
    pub(crate) fn arrived(&self, row: &Row) -> Option<&Datagram> {
        match row.arrival? {
            Arrival::Datagram(k) => self.datagrams.get(k),
            Arrival::Outside => None,
        }
    }

    /// The datagram that is sent at a row, where it never arrives.
    pub(crate) fn lost(&self, row: &Row) -> Option<&Datagram> {
        let datagram = self.datagrams.get(row.sends?)?;
        (!datagram.arrives).then_some(datagram)
    }
}

/// What happens in a schedule that was played.
pub(crate) fn story_of<A: Memory + Copy>(
    alloc: A,
    history: &History<A>,
) -> Result<Story<A>, AllocError>
    ensures memory { OnErr result A.may_refuse }
{
    let mut rows = Vec::new(alloc);
    let mut datagrams = Vec::new(alloc);
    for (place, outcome) in history.outcomes.iter().enumerate() {
        let Some(command) = history.commands.get(place) else {
            break;
        };
        rows.try_push(row_of(command, outcome.line.as_ref()))?;
        if let Some(line) = &outcome.line {
            let sent = datagram_of(&history.config, command, line, place, &datagrams);
            if let Some(datagram) = sent {
                datagrams.try_push(datagram)?;
            }
        }
    }
    mark_arrivals(&rows, &mut datagrams);
    let nodes = busy_nodes(alloc, &rows, &datagrams, history.config.node_count())?;
    Ok(Story {
        rows,
        datagrams,
        nodes,
    })
}

fn mark_arrivals(rows: &[Row], datagrams: &mut [Datagram]) {
    for row in rows {
        if let Some(Arrival::Datagram(k)) = row.arrival {
            if let Some(datagram) = datagrams.get_mut(k) {
                datagram.arrives = true;
            }
        }
    }
}

// The nodes that something happens to, or that a datagram is for.
fn busy_nodes<A: Memory + Copy>(
    alloc: A,
    rows: &[Row],
    datagrams: &[Datagram],
    count: usize,
) -> Result<Vec<usize, A>, AllocError>
    ensures memory { OnErr result A.may_refuse }
{
    let mut is_busy = Vec::new(alloc);
    for _ in 0..count {
        is_busy.try_push(false)?;
    }
    for row in rows {
        if let Some((node, _)) = row.sign {
            set(&mut is_busy, node);
        }
    }
    for datagram in datagrams {
        if let Some(node) = datagram.to {
            set(&mut is_busy, node);
        }
    }
    let mut nodes = Vec::new(alloc);
    for (node, flag) in is_busy.iter().enumerate() {
        if *flag {
            nodes.try_push(node)?;
        }
    }
    Ok(nodes)
}

fn set(flags: &mut [bool], place: usize) {
    if let Some(flag) = flags.get_mut(place) {
        *flag = true;
    }
}
