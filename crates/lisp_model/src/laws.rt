//! What holds of legal traces: each function's contract is a law, and its body is empty.

ghost use Rattle.std.specs.Prelude.{◌≡◌, ℕ, List, [], ◌∷◌, length, Some};
ghost use Rattle.lisp_model.specs.Trace.{Opening, Step};
ghost use Rattle.lisp_model.specs.Held.{Acceptance, rows, ListsAllHeld};
ghost use Rattle.lisp_model.specs.Legal.{Legal, LegalTrace};
ghost use Rattle.lisp_model.specs.Must.{Must, IsExcused, DeviceFailed};
ghost use Rattle.lisp_model.specs.Memory.{MayTell};
ghost use Rattle.lisp_model.specs.OverTraces.{OfLegalTraces, OfLegalSteps, OfCleanTraces, OfCleanSteps};
ghost use Rattle.lisp_model.specs.Promises.{NoncesRise, ReplaysAreTried, NoticeNoncesRise, NoticesDiffer, LeavesOthers, AcceptedWasSent, HeldWasSent, HeldAgree, CountedWasAccepted, AbsentPartsRest, DoneWasNoticed, SitesStayWithin};
ghost use Rattle.lisp_model.specs.Bag.{bag, since_start};
ghost use Rattle.lisp_model.specs.Counted.{acked};
ghost use Rattle.lisp_model.specs.Story.{opening, one_taken, one_counted, server_restarted, six_steps, first_row};

/// The story: six steps of a small network are legal. After the second the Map-Server holds a row, after the third the
/// router has counted nonce 1, after the fourth no row is held; three datagrams were sent.
pub fn story()
    ensures legal { LegalTrace opening six_steps }
    ensures row { rows (since_start opening one_taken 0) 0 ≡ first_row ∷ [] }
    ensures counted { acked one_counted 2 0 0 ≡ Some (1, 1) }
    ensures forgotten { rows (since_start opening server_restarted 0) 0 ≡ [] }
    ensures sent { length (bag opening six_steps) ≡ 3 }
{}

/// The nonces that a Map-Server accepts of a router under a key rise, over its restarts too (RFC 9301
/// section 5.6).
#[tactic(auto, using(crate::proofs::RisingLaws::nonces_rise))]
pub fn nonces_rise()
    ensures { OfLegalTraces NoncesRise }
{}

/// A replay is refused with a number that the Map-Server tried before, or that its store kept at the opening.
#[tactic(auto, using(crate::proofs::RisingLaws::replays_tried))]
pub fn replays_are_tried()
    ensures { OfLegalSteps ReplaysAreTried }
{}

/// The nonces of a Map-Server's notices rise, over its restarts too (RFC 9301 section 5.7).
#[tactic(auto, using(crate::proofs::NoticeRising::notice_nonces_rise))]
pub fn notice_nonces_rise()
    ensures { OfLegalTraces (λ o T. NoticeNoncesRise T) }
{}

/// No two standing notices of a Map-Server have one nonce, so that a Map-Notify-Ack ends at most one.
pub fn notices_differ()
    ensures { OfLegalTraces NoticesDiffer }
{}

/// A legal step leaves the part of each node that doesn't act as it was.
#[tactic(auto, using(crate::proofs::Locality::leaves_others))]
pub fn others_stay()
    ensures { (o : Opening) (T : List Step) (s : Step) → Legal o T s → LeavesOthers o T s }
{}

/// What meets its conditions is sent, accepted, counted, answered or done, save where memory or a store's device
/// failed.
#[tactic(auto, using(crate::proofs::Sound::must))]
pub fn must_be_done()
    ensures { OfLegalSteps (Must IsExcused) }
{}

/// Where neither a node's memory nor its store's may be refused, only a store's device that failed excuses what must
/// be done.
pub fn must_be_done_with_memory()
    ensures { OfLegalSteps (λ o T s. MayTell ⊥ ⊥ s.line → Must DeviceFailed o T s) }
{}

/// At each moment a Map-Server holds no more live rows of a site, and of no more of its routers, than the site may have, where the site
/// has such limits.
#[tactic(auto, using(crate::proofs::LimitLaws::sites_stay_within))]
pub fn sites_stay_within()
    ensures { OfLegalTraces SitesStayWithin }
{}

/// What is held at a moment is listed by router, then prefix: exactly the live records, each once (RFC 9301 section
/// 8.2).
pub fn rows_are_held()
    ensures { (since : List Acceptance) (now : ℕ) → ListsAllHeld since now (rows since now) }
{}

/// Over a clean trace each accepted message is that of exactly one entry: it was sent to that Map-Server, from
/// its router's address. Nodes have different addresses, routers different identities, and each router's list names
/// Map-Servers, here and below.
#[tactic(auto, using(crate::proofs::CleanLaws::accepted_was_sent))]
pub fn accepted_messages_were_sent()
    ensures { OfCleanTraces AcceptedWasSent }
{}

/// Over a clean trace each record that is held is one of an entry that was sent to that Map-Server: what its
/// database has for the prefix.
#[tactic(auto, using(crate::proofs::CleanLaws::held_was_sent))]
pub fn held_records_were_sent()
    ensures { OfCleanTraces HeldWasSent }
{}

/// Over a clean trace Map-Servers that hold a prefix of a router, from entries with no change between them,
/// hold equal records.
#[tactic(auto, using(crate::proofs::CleanLaws::held_agree))]
pub fn held_records_agree()
    ensures { OfCleanTraces HeldAgree }
{}

/// Over a clean trace each nonce that a router counts for a part is that of a Map-Register of that part that it sent to
/// that Map-Server, under its key, and that the Map-Server accepted.
#[tactic(auto, using(crate::proofs::CleanLaws::counted_was_accepted))]
pub fn counted_messages_were_accepted()
    ensures { OfCleanTraces CountedWasAccepted }
{}

/// A part that the database of a router that is up doesn't have has no sends in its round, so that a Map-Notify that
/// counts for it moves no timer.
#[tactic(auto, using(crate::proofs::Sound::absent_parts_rest))]
pub fn absent_parts_rest()
    ensures { OfLegalTraces AbsentPartsRest }
{}

/// Over a clean trace a notice that is done was noticed by its router before.
pub fn done_notices_were_noticed()
    ensures { OfCleanSteps DoneWasNoticed }
{}
