//! The write-ahead log beside a database, as it is found.

ghost use Rattle.std.specs.Prelude.{◌≡◌, ◌↔◌, IfErr, IsErr};
ghost use Rattle.lisp_nonces.specs.declared.fault.StoreFault.{StoreFault};
ghost use Rattle.lisp_database_log.specs.Log.{IsDamaged};
ghost use Rattle.lisp_database_store.specs.EmptyDatabase.{IsEmptyDatabase};

use crate::failure::{DAMAGED, Failure, LOG_GONE};
use crate::new_file::{is_empty_database, is_marked};
use lisp_database_log::is_damaged;
use lisp_memory::FallibleString;
use lisp_store::is_file_there;
use std::fs::{self, Files};

/// Refuses a database whose log is damaged: SQLite would drop the nonces after the damage without a word. And one whose log is gone,
/// which may have had nonces: a crash leaves no database without a log, but for an empty one. `front` has the first bytes of the
/// database, as `front_of` answers them. `Damaged`, of the kind `NotFound` where the log of a database of nonces is gone; `Device` where
/// the log can't be read.
pub(crate) fn refuse_damage<R: Files + AllocGlobal>(
    rt: &R,
    path: &str,
    front: &[u8],
) -> Result<(), Failure> {
    read_log(rt, path, front)?;
    Ok(())
}

/// The bytes of the log, of which there are none where it isn't there. Refuses what `refuse_damage` does.
pub(crate) fn read_log<R: Files + AllocGlobal>(
    rt: &R,
    path: &str,
    front: &[u8],
) -> Result<Vec<u8>, Failure> {
    let path = String::try_format(rt.alloc(), format_args!("{path}-wal"))?;
    if !is_file_there(rt, path.as_str())? {
        judge_alone(front)?;
        return Ok(Vec::new(rt.alloc()));
    }
    let log = fs::read(rt, path.as_str())?;
    judge(&log)?;
    Ok(log)
}

// Whether a database with these first bytes may be without a log.
fn judge_alone(front: &[u8]) -> Result<(), Failure>
    ensures gone { IsErr result ↔ ¬ (IsEmptyDatabase front.now) }
    ensures fault { IfErr result (λ failure. failure.fault ≡ StoreFault.Damaged) }
{
    if is_empty_database(front) {
        return Ok(());
    }
    if is_marked(front) {
        return Err(LOG_GONE);
    }
    Err(DAMAGED)
}

// Whether the bytes of a log are as a crash may leave them.
fn judge(log: &[u8]) -> Result<(), Failure>
    ensures damaged { IsErr result ↔ IsDamaged log.now }
    ensures fault { IfErr result (λ failure. failure.fault ≡ StoreFault.Damaged) }
{
    if is_damaged(log) {
        return Err(DAMAGED);
    }
    Ok(())
}
