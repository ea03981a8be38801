//! A router over the nonce that the program kept.

ghost use Rattle.std.specs.Prelude.{◌≡◌, IfOk, OnErr};
ghost use Rattle.lisp_embedded.specs.Routers.{started_from};

use crate::host_store::host_store;
use lisp_etr::{Etr, EtrConfig};
use lisp_memory::Memory;
use lisp_records::Database;
use std::alloc::AllocError;

/// A router that starts at a time, in ms, and goes on from what the program passed: `kept`, the nonce that it loaded for the
/// router's pair (`EtrConfig::pair`), or `None` where it has saved none. All its Map-Servers are due. What it makes lies in
/// memory of `alloc`; out of memory is the only refusal.
pub fn start_kept<A: Memory + Copy>(
    alloc: A,
    config: EtrConfig<A>,
    database: Database<A>,
    kept: Option<u64>,
    now: u64,
) -> Result<Etr<A>, AllocError>
    ensures started { IfOk result (λ e. e ≡ started_from config database kept now) }
    ensures memory { OnErr result A.may_refuse }
{
    let mut store = host_store(alloc, &config.pair(), kept)?;
    match Etr::start(alloc, config, database, &mut store, now) {
        Ok(router) => Ok(router),
        Err(_) => Err(AllocError),
    }
}
