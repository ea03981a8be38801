//! The answer of a fresh Map-Server to one datagram.

ghost use Rattle.lisp_answer.specs.Answer.{Answers, AnswersIfFresh};

use lisp_memory::Memory;
use lisp_nonces::MemoryStore;
use lisp_policy::Sites;
use lisp_records::{Addr, Bytes};
use lisp_server::{Refused, Server};

/// Where the datagram is said to come from: no answer shows it, but where a site lists source addresses.
const SOURCE: Addr = Addr::V4([127, 0, 0, 1]);

/// What a fresh server of these sites, over an empty store in memory, answers to the bytes: the Map-Notify
/// where the Map-Register wants one, in memory of `alloc`, or the refusal.
pub(crate) fn respond<A: Memory + Copy>(
    alloc: A,
    sites: Sites<A>,
    bytes: &[u8],
) -> Result<Option<Bytes<A>>, Refused>
    ensures { Answers A.may_refuse sites bytes.now result }
{
    let mut server = Server::start(alloc, sites);
    let mut store = MemoryStore::new(alloc);
    answered(&mut server, &mut store, bytes)
}

// What a server answers to the bytes: as a fresh one of its sites would, where it is one over an empty store.
fn answered<A: Memory + Copy>(
    server: &mut Server<A>,
    store: &mut MemoryStore<A>,
    bytes: &[u8],
) -> Result<Option<Bytes<A>>, Refused>
    ensures { AnswersIfFresh A.may_refuse server.old store.old bytes.now result }
{
    match server.receive(store, SOURCE, bytes, 0) {
        Ok(took) => Ok(took.into_reply()),
        Err(refused) => Err(refused),
    }
}
