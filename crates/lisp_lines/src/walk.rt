//! A walk over the rows that a Map-Server holds, which is made by parts.

ghost use Rattle.std.specs.Prelude.{◌≡◌, length, nat_le};
ghost use Rattle.std.specs.Option.{option_map};
ghost use Rattle.lisp_lookup.specs.Table.{live_from};
ghost use Rattle.lisp_lines.specs.Walk.{HavePlaces, LooksAt, TakesSome, walk_start};

use lisp_memory::Memory;
use lisp_records::Row;
use lisp_server::Server;

/// How far the rows were looked at that are alive at a moment. As long as the Map-Server's rows stay as they are, each of them is
/// looked at once; one that comes or goes meanwhile may be looked at or not. Where one goes, the last row of all takes its place, and is
/// left out where that place was passed.
#[derive(Clone, Copy, Debug, PartialEq, Eq)]
pub struct Walk {
    // The moment, in ms.
    moment: u64,
    // Rows from this place on are left.
    place: usize,
    // How many were looked at.
    rows: u64,
}

impl Walk {
    /// Of the rows that are alive at a moment, in ms, none was looked at.
    pub fn start(now: u64) -> Walk
        ensures { result ≡ walk_start now }
    {
        Walk {
            moment: now,
            place: 0,
            rows: 0,
        }
    }

    /// The moment, in ms.
    pub fn moment(&self) -> u64
        ensures { result ≡ self.now.moment }
    {
        self.moment
    }

    /// How many rows were looked at, up to 2^64 - 1.
    pub fn rows(&self) -> u64
        ensures { result ≡ self.now.rows }
    {
        self.rows
    }

    /// The next row that is alive at the moment; `None` where no row is left. Takes no memory.
    pub fn next<'s, A: Memory + Copy>(&mut self, core: &'s Server<A>) -> Option<&'s Row<A>>
        ensures { LooksAt core.now.rows self.old self.new
            (option_map (λ row. row.now) result) }
    {
        let (found, row) = core.next_held(self.place, self.moment)?;
        self.place = found.saturating_add(1);
        self.rows = self.rows.saturating_add(1);
        Some(row)
    }

    // Looks at the next rows, at most so many; whether they were fewer.
    fn skip<A: Memory + Copy>(&mut self, core: &Server<A>, most: usize) -> bool
        ensures { TakesSome core.now.rows self.old self.new most result }
    {
        // Reading the field shows the proof that it has 64 bits.
        let _rows = self.rows;
        for _count in 0..most {
            if self.next(core).is_none() {
                return true;
            }
        }
        false
    }
}

/// Whether a Map-Server holds at least so many rows at a moment, in ms. Looks at no more of them. Takes no memory.
pub fn holds_at_least<A: Memory + Copy>(core: &Server<A>, fewest: usize, now: u64) -> bool
    ensures { HavePlaces core.now.rows →
        result ≡ nat_le fewest (length (live_from core.now.rows 0 now)) }
{
    !Walk::start(now).skip(core, fewest)
}
