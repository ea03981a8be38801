//! The nonces of a database that isn't opened.

use crate::failure::{DAMAGED, Failure};
use crate::log_file::read_log;
use crate::new_file::PAGE;
use crate::table::SystemTable;
use lisp_store::{KeptNonce, is_file_there};
use std::fs::{self, Files};
use std::io::{self, ErrorKind};

/// The nonces of the database at `path`, which isn't opened: its file and its log are read as they lie there, and what an open makes of
/// them is made of a copy in memory. So no file is made or changed, and none is taken over. Fails as `Database::open` does; and by the
/// device, with the kind `NotFound`, where no database is there.
pub fn read_database<T: SystemTable, R: Files + AllocGlobal>(
    rt: &R,
    path: &str,
) -> Result<Vec<KeptNonce>, Failure> {
    if !is_file_there(rt, path)? {
        return Err(Failure::from(io::Error::from(ErrorKind::NotFound)));
    }
    let file = fs::read(rt, path)?;
    if file.len() < PAGE {
        return Err(DAMAGED);
    }
    let log = read_log(rt, path, &file)?;
    T::read(rt.alloc(), &file, &log)
}
