//! A client of the table: what it saved is there after a crash.

ghost use Rattle.std.specs.Prelude.{◌≡◌, ◌≢◌, ◌≤◌, ◌⊎◌, false, Some, IfSome};
ghost use Rattle.sqlite_trees.specs.View.{doubt};
ghost use Rattle.sqlite.specs.State.{HasCleanDisk};
ghost use Rattle.sqlite.specs.Held.{state};
ghost use Rattle.lisp_store.specs.PairName.{IsPair};
ghost use Rattle.lisp_database.specs.Kept.{IsOfNonces, Keeps, CommitsSave, rows_of};

use crate::table::save_nonce;
use lisp_nonces::Pair;
use sqlite::{Alter, Connection};
use sqlite_trees::store::Reopen;
use std::alloc::Global;

/// Saves a nonce and then another one, whose save may fail, crashes, and opens the database again. `None` where the first save or the
/// open failed.
pub fn save_and_crash<S: Alter + Reopen + Drop>(
    alloc: Global,
    mut connection: Connection<S>,
    pair: &Pair,
    first: u64,
    second: u64,
) -> Option<Connection<S>>
    requires nonces { IsOfNonces (state S.Store connection).now }
    requires outside { connection.in_transaction ≡ false }

    // The nonce of the save that was done is kept, or that of the later one.
    ensures kept { IfSome result (λ again. HasCleanDisk (state S.Store again)
        → Keeps (state S.Store again).now.trees pair.now (Some first)
        ⊎ Keeps (state S.Store again).now.trees pair.now (Some second)) }

    // For every other pair, what was kept before.
    ensures others { IfSome result (λ again. HasCleanDisk (state S.Store again) → (q : _)
        → IsPair q → q ≢ pair.now
        → rows_of (state S.Store again).now.trees q
        ≡ rows_of (state S.Store connection).now.trees q) }
{
    match save_nonce(&mut connection, pair, first) {
        Ok(_) => save_later(alloc, connection, pair, second),
        Err(_) => None,
    }
}

// Saves a nonce, perhaps in vain, crashes, and opens the database again.
fn save_later<S: Alter + Reopen + Drop>(
    alloc: Global,
    mut connection: Connection<S>,
    pair: &Pair,
    nonce: u64,
) -> Option<Connection<S>>
    ensures clean { IfSome result
        (λ again. doubt (state S.Store connection).is_clean
        ≤ doubt (state S.Store again).is_clean) }
    ensures left { IfSome result (λ again. HasCleanDisk (state S.Store again)
        → (state S.Store connection).may_leave (state S.Store again).now.trees
        ⊎ (IsOfNonces (state S.Store connection).now
        → CommitsSave (state S.Store connection) pair.now nonce (state S.Store again).now.trees)) }
{
    let _ = save_nonce(&mut connection, pair, nonce);
    crash(alloc, connection)
}

// Crashes, and opens what the crash left.
fn crash<S: Alter + Reopen + Drop>(
    alloc: Global,
    connection: Connection<S>,
) -> Option<Connection<S>>
    ensures clean { IfSome result
        (λ again. doubt (state S.Store connection).is_clean
        ≤ doubt (state S.Store again).is_clean) }
    ensures left { IfSome result (λ again. HasCleanDisk (state S.Store again)
        → (state S.Store connection).may_leave (state S.Store again).now.trees) }
{
    let mut store = connection.into_store();
    match store.crash_and_reopen() {
        Ok(()) => {}
        Err(_) => return None,
    }
    match Connection::over(alloc, store) {
        Ok(again) => Some(again),
        Err(_) => None,
    }
}
