//! What the files of a folder are found to keep, one by one.

ghost use Rattle.std.specs.Prelude.{◌≡◌, ◌++◌, ◌⊎◌, [], Err, OnOk, OnErr};
ghost use Rattle.lisp_nonces.specs.declared.fault.StoreFault.{StoreFault};
ghost use Rattle.lisp_store.specs.FoundFiles.{damage_by_kind, nonces_in, damaged_in};

use crate::file::FileStore;
use crate::kept_nonce::KeptNonce;
use crate::nonce_file::pair_of_entry;
use lisp_memory::{FallibleVec, Memory};
use lisp_nonces::{NonceStore, Pair, StoreFault};
use std::alloc::{AllocError, Allocator, Global};
use std::cell::Cell;
use std::fs;
use std::io::{self, ErrorKind};
use std::rt::Files;

/// Why no nonce can be read of a file.
#[derive(Clone, Copy, Debug, PartialEq, Eq)]
pub enum Damage {
    /// It has other bytes than the text of a nonce.
    Content,
    /// It is a folder, a device, a pipe or a link.
    NoFile,
    /// This process may not read it.
    Denied,
    /// The system can't read it.
    Unread,
}

/// The file of a pair of which no nonce can be read.
#[derive(Clone, Copy, Debug, PartialEq, Eq)]
pub struct DamagedFile {
    /// The pair whose name it has.
    pub pair: Pair,
    /// Why.
    pub damage: Damage,
}

/// What the files of a folder are found to keep.
#[derive(Drop)]
pub struct FoundFiles<A: Allocator = Global> {
    /// The nonces.
    pub nonces: Vec<KeptNonce, A>,
    /// The files of which none can be read.
    pub damaged: Vec<DamagedFile, A>,
}

impl<A: Memory + Copy> FoundFiles<A> {
    /// No file yet. Takes no memory.
    pub fn new(alloc: A) -> FoundFiles<A>
        ensures nonces { result.nonces.items ≡ [] }
        ensures damaged { result.damaged.items ≡ [] }
    {
        FoundFiles {
            nonces: Vec::new(alloc),
            damaged: Vec::new(alloc),
        }
    }

    /// Adds what loading the nonce of a pair came to: nothing where no file is there. `kind` is that of the device's error, where it
    /// failed. Out of memory, where the load was, nothing is added.
    pub fn note(
        &mut self,
        pair: Pair,
        loaded: Result<Option<u64>, StoreFault>,
        kind: Option<ErrorKind>,
    ) -> Result<(), AllocError>
        ensures nonces { OnOk result (self.new.nonces.items
            ≡ self.old.nonces.items ++ nonces_in pair loaded) }
        ensures damaged { OnOk result (self.new.damaged.items
            ≡ self.old.damaged.items ++ damaged_in pair kind loaded) }
        ensures memory { OnErr result ((loaded ≡ Err StoreFault.OutOfMemory) ⊎ A.may_refuse) }
    {
        let damage = match loaded {
            Ok(Some(nonce)) => {
                self.nonces.try_push(KeptNonce { pair, nonce })?;
                return Ok(());
            }
            Ok(None) => return Ok(()),
            Err(StoreFault::OutOfMemory) => return Err(AllocError),
            Err(StoreFault::Damaged) => Damage::Content,
            Err(StoreFault::Device) => damage_by_kind(kind),
        };
        self.damaged.try_push(DamagedFile { pair, damage })?;
        Ok(())
    }
}

// Why a file can't be read, by the kind of the device's error.
fn damage_by_kind(kind: Option<ErrorKind>) -> Damage
    ensures { result ≡ damage_by_kind kind }
{
    match kind {
        Some(ErrorKind::InvalidInput) => Damage::NoFile,
        Some(ErrorKind::PermissionDenied) => Damage::Denied,
        _ => Damage::Unread,
    }
}

/// What the files of the folder `dir` keep that have the name of a pair: each is read, whatever is found of the others. Other files are
/// left out, among them those that a crash left half written (`NAME.nonce.new`). Nothing is changed there. An error where the folder
/// can't be read.
pub fn find_files<R: Files + AllocGlobal + Clone + Drop>(
    rt: &R,
    dir: &str,
) -> io::Result<FoundFiles> {
    let failure = Cell::new(None);
    let mut store = FileStore::open(rt, dir, &failure)?;
    let mut found = FoundFiles::new(rt.alloc());
    for entry in fs::read_dir(rt, dir)? {
        if let Some(pair) = pair_of_entry(entry)? {
            let loaded = store.load(&pair);
            found.note(pair, loaded, failure.get())?;
        }
    }
    Ok(found)
}
