//! The nonces that the files of a folder keep: to list them, to put their files aside, to forget one.

use crate::file::FileStore;
use crate::kept_nonce::KeptNonce;
use crate::name::{pair_from_name, pair_name};
use lisp_memory::{FallibleString, FallibleVec};
use lisp_nonces::{NonceStore, Pair, StoreFault};
use std::alloc::Global;
use std::cell::Cell;
use std::fs::{self, OpenFile};
use std::io::{self, ErrorKind};
use std::rt::Files;

/// The nonces that files of the folder `dir` keep. An error of the kind `InvalidData` where a file holds no nonce.
pub fn read_nonces<R: Files + AllocGlobal + Clone + Drop>(
    rt: &R,
    dir: &str,
) -> io::Result<Vec<KeptNonce>> {
    let failure = Cell::new(None);
    let mut store = FileStore::open(rt, dir, &failure)?;
    let mut found = Vec::new(rt.alloc());
    for entry in fs::read_dir(rt, dir)? {
        let Some(pair) = pair_of_entry(entry)? else {
            continue;
        };
        match store.load(&pair) {
            Ok(Some(nonce)) => found.try_push(KeptNonce { pair, nonce })?,
            Ok(None) => {}
            Err(fault) => return Err(file_error(fault, failure.get())),
        }
    }
    Ok(found)
}

/// Names the files of these nonces in the folder `dir` `NAME.nonce.taken`, and syncs the folder.
pub fn put_aside<R: Files + AllocGlobal>(
    rt: &R,
    dir: &str,
    nonces: &[KeptNonce],
) -> io::Result<()> {
    for kept in nonces {
        let name = pair_name(&kept.pair);
        let name = str::from_utf8(&name).unwrap();
        let path = String::try_format(rt.alloc(), format_args!("{dir}/{name}"))?;
        let taken = String::try_format(rt.alloc(), format_args!("{dir}/{name}.taken"))?;
        fs::rename(rt, path.as_str(), taken.as_str())?;
    }
    fs::open(rt, dir)?.sync_all()
}

/// Removes the file of the pair from the folder `dir`, and syncs the folder. An error of the kind `NotFound` where the pair has no
/// file; where the sync fails, it is open whether a crash brings the file back.
pub fn forget_nonce<R: Files + AllocGlobal>(rt: &R, dir: &str, pair: &Pair) -> io::Result<()> {
    let name = pair_name(pair);
    let name = str::from_utf8(&name).unwrap();
    let path = String::try_format(rt.alloc(), format_args!("{dir}/{name}"))?;
    fs::remove_file(rt, path.as_str())?;
    fs::open(rt, dir)?.sync_all()
}

/// The pair whose file an entry of a folder is, if it is one's. A name that is no text is no pair's.
pub(crate) fn pair_of_entry<R: Files + AllocGlobal + Drop>(
    entry: io::Result<fs::DirEntry<R, Global>>,
) -> io::Result<Option<Pair>> {
    match entry {
        Ok(entry) => Ok(pair_from_name(entry.file_name())),
        Err(error) if error.kind() == ErrorKind::InvalidFilename => Ok(None),
        Err(error) => Err(error),
    }
}

// Why a file couldn't be read; `kind` is that of the error of its device, if it failed.
fn file_error(fault: StoreFault, kind: Option<ErrorKind>) -> io::Error {
    match fault {
        StoreFault::Damaged => io::Error::from(ErrorKind::InvalidData),
        StoreFault::OutOfMemory => io::Error::from(ErrorKind::OutOfMemory),
        StoreFault::Device => io::Error::from(kind.unwrap_or(ErrorKind::Other)),
    }
}
