//! What a client is told of a network of one Map-Server and one router, after a registration and its reply.

use crate::playing::SCHEDULE;
use crate::support::assert_at;
use lisp_client::{Answers, Question, ask};
use lisp_nonces::Fate;
use lisp_sites::Config;
use lisp_world::Event;
use std::alloc::Global;

/// A registration of the router, and its way to the Map-Server and back.
const EVENTS: [Event; 3] = [
    Event::Send {
        router: 1,
        server: 0,
        part: 0,
        fate: Fate::Done,
    },
    Event::Deliver {
        k: 0,
        fate: Fate::Done,
    },
    Event::Deliver {
        k: 1,
        fate: Fate::Done,
    },
];

#[test]
fn a_client_is_told_the_row_that_was_sent_and_what_was_counted(rt: HostRuntime) {
    let told = told(rt.alloc()).expect(&rt, "what is told");
    assert_at(&rt, 0, is_row_of(&told, 1));
    assert_at(&rt, 1, told.other_rows.len() == 1);
    assert_at(&rt, 2, told.counted == Some((1, 1)));
}

/// Whether one row is told, with this nonce.
fn is_row_of(told: &Answers, nonce: u64) -> bool {
    match told.rows.as_slice() {
        [row] => row.nonce == nonce,
        _ => false,
    }
}

/// What the Map-Server and the router tell after the events.
fn told(alloc: Global) -> Option<Answers> {
    let (configuration, _) = SCHEDULE.split_once("---\n")?;
    let config = Config::from_toml(alloc, alloc, configuration).ok()?;
    let question = Question {
        server: 0,
        other: 0,
        router: 1,
        place: 0,
        part: 0,
    };
    ask(alloc, &config, &EVENTS, question)
}
