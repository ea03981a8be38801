//! What holds of the timer of an unsolicited Map-Notify (notice), and which Map-Registers are accepted: each
//! function's contract is a law.

ghost use Rattle.std.specs.Prelude.{IfOk};
ghost use Rattle.lisp_admission.specs.NoticeTimer.{PromptNotices};
ghost use Rattle.lisp_server.specs.Notices.{NoticesKeepTime};
ghost use Rattle.lisp_server.specs.Receiving.{AcceptsUnlessFailed, TakesMessage};
ghost use Rattle.lisp_nonces.specs.Promises.{Unrefused};

use crate::server::Server;
use crate::took::Took;
use lisp_admission::Refused;
use lisp_memory::Memory;
use lisp_nonces::NonceStore;
use lisp_records::Addr;

/// A notice that is sent again each time when it is due goes out 3, 6, 9, 15, 27 and 51 s after it was first
/// sent, and then no more.
#[tactic(auto, using(crate::proofs::NoticeLaws::prompt_notices))]
pub fn prompt_notices()
    ensures { PromptNotices }
{}

/// What a Map-Server keeps of a notice says when it is due, by the times at which it was sent.
#[tactic(auto, using(crate::proofs::NoticeLaws::notices_keep_time))]
pub fn notices_keep_time()
    ensures { NoticesKeepTime }
{}

/// Over memory that is never refused, a Map-Register that passes all checks with a nonce above each value that
/// may be its base, and not too far above it, is accepted if its site has space for its records, unless the store's device failed.
pub fn accepts_exactly<S: NonceStore, A: Memory + Copy>(
    server: &mut Server<A>,
    store: &mut S,
    from: Addr,
    bytes: &[u8],
    now: u64,
) -> Result<Took<A>, Refused>
    ensures accepts { Unrefused A.may_refuse S.may_refuse
        (AcceptsUnlessFailed from bytes.now server.old (S.seen store.old) (S.seen store.new) now
        result) }
    ensures only { IfOk result (TakesMessage from bytes.now server.old server.new
        (S.seen store.old) (S.seen store.new) now) }
{
    server.receive(store, from, bytes, now)
}
