//! A Map-Server that takes turns: it answers a Map-Register, and sends a notice again until that is acknowledged (RFC 9301
//! sections 5.7 and 8.2); and of a group of datagrams it prints and sends what comes once that is committed. Its messages were worked by hand; the tags
//! are from Python's `hmac`.

ghost use Rattle.std.specs.Prelude.{None, false};
ghost use Rattle.lisp_turns.specs.Outside.{OutsideState};

use crate::messages::MAP_REGISTER;
use crate::playing::SCHEDULE;
use crate::support::assert_at;
use lisp_budget::Budget;
use lisp_mapping::Datagram;
use lisp_model::{Line, WorldFault};
use lisp_nodes::ServerNode;
use lisp_nonces::MemoryStore;
use lisp_records::{Addr, Bytes, RouterId};
use lisp_sites::Config;
use lisp_turns::{
    Clock, Commit, Control, Endpoint, Lines, NodeCore, Order, Outside, Place, Printed, Received,
    Request, Requests, Resolving, Uncommitted, take_turns,
};
use std::alloc::Global;

/// The router.
const ROUTER: RouterId = RouterId {
    site: 1,
    xtr: [0, 0, 0, 0, 0, 0, 0, 0, 0, 0, 0, 0, 0, 0, 0, 10],
};

/// Where its messages come from.
const FROM: Addr = Addr::V4([127, 0, 0, 21]);

/// The first nonce of a notice.
const NOTICE_NONCE: u64 = 1 << 63;

/// What the Map-Server is to answer the worked Map-Register.
const MAP_NOTIFY: [u8; 60] = [
    0x40, 0, 0, 1, // type 4, one record
    0, 0, 0, 0, 0, 0, 0, 1, // nonce
    1, 2, 0, 16, // Key ID, HMAC-SHA-256-128-None, 16 bytes of Authentication Data
    0x4f, 0x18, 0xaa, 0x8f, 0xdf, 0x87, 0x91, 0xb5, // the tag
    0x1c, 0xf1, 0x27, 0x26, 0x40, 0xb5, 0x5d, 0x8d, // its second half
    0, 0, 0x05, 0xa0, 1, 16, 0x10, 0, 0, 0, 0, 1, 10, 1, 0, 0, // the worked record
    1, 100, 255, 0, 0, 0x05, 0, 1, 192, 0, 2, 1, // its locator
];

/// Its notice.
const NOTICE: [u8; 60] = [
    0x40, 0, 0, 1, // type 4, one record
    0x80, 0, 0, 0, 0, 0, 0, 0, // nonce
    1, 2, 0, 16, // Key ID, HMAC-SHA-256-128-None, 16 bytes of Authentication Data
    0x7a, 0xad, 0xcf, 0xdc, 0x2a, 0x0f, 0x8a, 0x6f, // the tag
    0x39, 0xc6, 0x02, 0x33, 0x33, 0x78, 0xe5, 0x8b, // its second half
    0, 0, 0x05, 0xa0, 1, 16, 0x10, 0, 0, 0, 0, 1, 10, 1, 0, 0, // the worked record
    1, 100, 255, 0, 0, 0x05, 0, 1, 192, 0, 2, 1, // its locator
];

/// The Map-Notify-Ack of the notice.
const ACK: [u8; 60] = [
    0x50, 0, 0, 1, // type 5, one record
    0x80, 0, 0, 0, 0, 0, 0, 0, // nonce
    1, 2, 0, 16, // Key ID, HMAC-SHA-256-128-None, 16 bytes of Authentication Data
    0x0e, 0x73, 0x96, 0x68, 0xc6, 0xc2, 0xb4, 0x10, // the tag
    0x21, 0x80, 0xe0, 0x0c, 0x08, 0x4b, 0xc0, 0xb7, // its second half
    0, 0, 0x05, 0xa0, 1, 16, 0x10, 0, 0, 0, 0, 1, 10, 1, 0, 0, // the worked record
    1, 100, 255, 0, 0, 0x05, 0, 1, 192, 0, 2, 1, // its locator
];

/// What a turn is to come to: what waits; whether a user tells the Map-Server to send a notice; and what is done then, in its order.
struct Turn {
    waits: &'static [&'static [u8]],
    is_told: bool,
    does: [Deed; 3],
}

/// What a Map-Server is to do outside: the lines that it prints, a refusal by its number; and the messages that it sends, the
/// answer to the worked Map-Register and its notice.
#[derive(Clone, Copy)]
enum Deed {
    Nothing,
    Commits,
    Prints(Printed),
    Refuses(u16),
    Answers,
    Notices,
}

const ACCEPTED: Printed = Printed::Heard {
    line: Line::Accepted {
        server: 0,
        router: ROUTER,
        key: 1,
        nonce: 1,
        datagram: Some(0),
    },
    from: FROM,
};

const REGISTERS: Turn = Turn {
    waits: &[&MAP_REGISTER],
    is_told: false,
    does: [Deed::Commits, Deed::Prints(ACCEPTED), Deed::Answers],
};

const NOTIFIES: Turn = Turn {
    waits: &[],
    is_told: true,
    does: [
        Deed::Commits,
        Deed::Prints(Printed::Event(Line::Notice {
            server: 0,
            router: 1,
            key: 1,
            nonce: NOTICE_NONCE,
            datagram: 0,
        })),
        Deed::Notices,
    ],
};

const WAITS: Turn = Turn {
    waits: &[],
    is_told: false,
    does: [Deed::Nothing; 3],
};

const RESENDS: Turn = Turn {
    waits: &[],
    is_told: false,
    does: [
        Deed::Prints(Printed::Event(Line::Resent {
            server: 0,
            router: 1,
            datagram: 0,
        })),
        Deed::Notices,
        Deed::Nothing,
    ],
};

const IS_DONE: Turn = Turn {
    waits: &[&ACK],
    is_told: false,
    does: [
        Deed::Commits,
        Deed::Prints(Printed::Heard {
            line: Line::Done {
                server: 0,
                router: ROUTER,
                nonce: NOTICE_NONCE,
            },
            from: FROM,
        }),
        Deed::Nothing,
    ],
};

/// The turns, each at its moment in ms.
const TURNS: [(u32, Turn); 9] = [
    (0, REGISTERS),
    (0, NOTIFIES),
    (2_999, WAITS),
    (3_000, RESENDS),
    (3_001, WAITS),
    (5_999, WAITS),
    (6_000, RESENDS),
    (7_000, IS_DONE),
    (100_000, WAITS),
];
/// A Map-Register, the same once more, which is a replay, and a datagram of no bytes.
const THREE: &[&[u8]] = &[&MAP_REGISTER, &MAP_REGISTER, &[]];

/// What is done of a group of them, in its order; the refusals are `Replay` and `Read`.
const GROUP: [Deed; 5] = [
    Deed::Commits,
    Deed::Prints(ACCEPTED),
    Deed::Answers,
    Deed::Refuses(57),
    Deed::Refuses(50),
];

/// How many places a turn has, whether its commit is done, and how much of that is done then.
const GROUPS: [(usize, bool, usize); 6] = [
    (0, true, 3),
    (1, true, 3),
    (2, true, 4),
    (3, true, 5),
    (64, true, 5),
    (2, false, 1),
];

/// What a Map-Server has outside here: its moment, what waits and how many of it were taken, whether a user tells it to send the router a
/// notice, whether its commits are done, and what it did.
#[derive(Drop)]
struct Bench {
    now: u32,
    waits: &'static [&'static [u8]],
    taken: usize,
    is_told: bool,
    commits: bool,
    did: Vec<Done>,
    alloc: Global,
}

/// What it did.
#[derive(Drop)]
enum Done {
    Committed,
    Printed(Printed),
    Sent(Addr, Bytes),
}

impl Bench {
    fn new(alloc: Global, now: u32, waits: &'static [&'static [u8]]) -> Bench {
        Bench {
            now,
            waits,
            taken: 0,
            is_told: false,
            commits: true,
            did: Vec::new(alloc),
            alloc,
        }
    }
}

impl Outside for Bench {
    ghost seen = { λ b. record { log = None; moment = b.now; is_cut = false; is_asked = false } };
}

impl Endpoint for Bench {
    fn receive(&mut self, buffer: &mut [u8]) -> Received {
        let Some(bytes) = self.waits.get(self.taken) else {
            return Received::Nothing;
        };
        self.taken = self.taken.saturating_add(1);
        let count = bytes.len().min(buffer.len());
        buffer[..count].copy_from_slice(&bytes[..count]);
        Received::Datagram { from: FROM, count }
    }

    fn poll(&mut self, buffer: &mut [u8]) -> Received {
        self.receive(buffer)
    }

    fn send(&mut self, to: &Addr, message: &[u8]) -> bool {
        match Vec::from_slice(self.alloc, message) {
            Ok(bytes) => self
                .did
                .push(Done::Sent(*to, Bytes::from_vec(bytes)))
                .is_ok(),
            Err(_) => false,
        }
    }
}

impl Requests for Bench {
    fn next_request(&mut self, _buffer: &mut [u8]) -> Option<Request> {
        None
    }

    fn reply(&mut self, _datagram: &Datagram) -> bool {
        false
    }
}

impl Clock for Bench {
    fn now(&mut self) -> u64 {
        u64::from(self.now)
    }

    fn wait(&mut self, _ms: u64) {}
}

impl Commit for Bench {
    fn commit(&mut self) -> bool {
        let _ = self.did.push(Done::Committed);
        self.commits
    }
}

impl Control for Bench {
    fn listen(&mut self) -> Option<Order> {
        self.is_told.then_some(Order::Notice { router: 1 })
    }

    fn answer(
        &mut self,
        _core: NodeCore<'_>,
        _now: u64,
        _outcome: Option<Result<Line, WorldFault>>,
    ) {}
}

impl Lines for Bench {
    fn print(&mut self, line: &Printed) {
        let _ = self.did.push(Done::Printed(*line));
    }

    fn is_cut(&self) -> bool {
        false
    }
}

#[test]
fn a_notice_is_sent_again_until_it_is_acknowledged(rt: HostRuntime) {
    let config = config(rt.alloc()).expect(&rt, "the configuration");
    let mut server = server(rt.alloc(), &config).expect(&rt, "the memory");
    for (at, turn) in TURNS.iter().enumerate() {
        assert_at(&rt, at, takes(rt.alloc(), &config, &mut server, turn));
    }
}

#[test]
fn a_group_is_told_behind_its_commit_and_not_without_one(rt: HostRuntime) {
    let config = config(rt.alloc()).expect(&rt, "the configuration");
    for (place, group) in GROUPS.iter().enumerate() {
        let told = tells(rt.alloc(), &config, group);
        assert_at(&rt, place, told == Some(true));
    }
}

/// The configuration of one Map-Server and one router.
fn config(alloc: Global) -> Option<Config> {
    let (configuration, _) = SCHEDULE.split_once("---\n")?;
    Config::from_toml(alloc, alloc, configuration).ok()
}

/// Its Map-Server, which holds nothing.
fn server(alloc: Global, config: &Config) -> Option<ServerNode<MemoryStore>> {
    let sites = config.sites().copy(alloc).ok()?;
    Some(ServerNode::start(alloc, sites, MemoryStore::new(alloc)))
}

/// Whether it takes the turn, with one place: does that, in its order, and nothing else.
fn takes(
    alloc: Global,
    config: &Config,
    server: &mut ServerNode<MemoryStore>,
    (now, turn): &(u32, Turn),
) -> bool {
    let mut bench = Bench::new(alloc, *now, turn.waits);
    bench.is_told = turn.is_told;
    let taken = turns(alloc, config, server, 1, 1, &mut bench);
    taken == Some(Ok(())) && did(bench.did.as_slice(), &turn.does)
}

/// Whether a Map-Server that holds nothing takes three datagrams so: in one turn, or, where that isn't committed, in the first of three.
fn tells(
    alloc: Global,
    config: &Config,
    (places, commits, done): &(usize, bool, usize),
) -> Option<bool> {
    let mut server = server(alloc, config)?;
    let mut bench = Bench::new(alloc, 0, THREE);
    bench.commits = *commits;
    let (count, ended) = if *commits {
        (1, Ok(()))
    } else {
        (3, Err(Uncommitted { turns_left: 2 }))
    };
    let taken = turns(alloc, config, &mut server, *places, count, &mut bench)?;
    let wanted = GROUP.get(..*done)?;
    Some(taken == ended && did(bench.did.as_slice(), wanted))
}

/// What comes of so many turns, each of so many places; `None` where no Map-Server is configured, or for want of memory.
fn turns(
    alloc: Global,
    config: &Config,
    server: &mut ServerNode<MemoryStore>,
    places: usize,
    turns: u64,
    bench: &mut Bench,
) -> Option<Result<(), Uncommitted>> {
    if config.servers().is_empty() {
        return None;
    }
    let place = Place { config, number: 0 };
    // No Map-Request waits.
    let resolving = Resolving {
        quiet: 0,
        budget: Budget::new(alloc, 0, 0).ok()?,
    };
    Some(take_turns(alloc, server, &place, places, resolving, turns, bench))
}

// Whether what was done is that, in its order.
fn did(done: &[Done], wanted: &[Deed]) -> bool {
    done.len() <= wanted.len()
        && wanted
            .iter()
            .enumerate()
            .all(|(at, deed)| is(done.get(at), deed))
}

fn is(did: Option<&Done>, deed: &Deed) -> bool {
    match (did, deed) {
        (None, Deed::Nothing) | (Some(Done::Committed), Deed::Commits) => true,
        (Some(Done::Printed(line)), Deed::Prints(wanted)) => line == wanted,
        (Some(Done::Printed(line)), Deed::Refuses(number)) => refuses(line, *number),
        (Some(Done::Sent(to, bytes)), Deed::Answers) => {
            *to == FROM && bytes.as_slice() == MAP_NOTIFY.as_slice()
        }
        (Some(Done::Sent(to, bytes)), Deed::Notices) => {
            *to == FROM && bytes.as_slice() == NOTICE.as_slice()
        }
        _ => false,
    }
}

// Whether the line tells that refusal of what came from the router.
fn refuses(line: &Printed, number: u16) -> bool {
    match line {
        Printed::Heard {
            line: Line::Refused { node: 0, what },
            from,
        } => *from == FROM && what.number() == number,
        _ => false,
    }
}
