//! A store in files, one for each pair.

ghost use Rattle.std.specs.Prelude.{◌≡◌, ◌≢◌, ◌≤◌, Err, IfOk, IfErr, OnErr, IsErrOf};
ghost use Rattle.lisp_nonces.specs.declared.fault.StoreFault.{StoreFault};
ghost use Rattle.lisp_nonces.specs.Store.{Proceeds, Rose};
ghost use Rattle.lisp_nonces.specs.Promises.{LoadsIfHonest, KeepsListsIfHonest, KeepsOthersIfHonest, SavesIfHonest, DoubtsIfHonest, IsOfDevice};
ghost use Rattle.lisp_store.specs.NonceText.{nonce_text};
ghost use Rattle.lisp_store.specs.PairName.{IsPair, pair_name};
ghost use Rattle.lisp_store.specs.Folder.{DeviceFailed, KeepsFilesIfHonest, ReplacesIfHonest, DoubtsFileIfHonest, KeepsOtherFilesIfHonest};
ghost use Rattle.lisp_store.specs.KeptFiles.{store_over, IsNonce, FindsDamageIfHonest, ReadsNonceIfHonest};
ghost use Rattle.lisp_store.specs.File.{CountsFault};

use crate::folder::Folder;
use crate::name::pair_name;
use crate::system_folder::SystemFolder;
use crate::text::{nonce_from_text, nonce_text};
use lisp_memory::Memory;
use lisp_nonces::{Fate, NonceStore, Pair, StoreFault, WorldStore};
use std::alloc::{AllocError, Global};
use std::cell::Cell;
use std::io::ErrorKind;
use std::rt::Files;

/// How many bytes of a file are read: one more than a text has, so that a longer file is no text.
const ROOM: usize = 28;

/// A store of one file for each pair, in a folder. The file has the name of the pair (`pair_name`) and holds the text of its
/// nonce (`nonce_text`); a pair that has no file keeps nothing.
///
/// Over an honest folder it is an honest store: a pair keeps the nonces whose texts the file may hold. After a save that
/// failed it is open whether the file holds the new one. It is called neither quiet nor obedient. No call lowers its count of
/// faults, and one that answers `Device` or `Damaged` raises it, up to 2^64 - 1.
#[derive(Drop)]
pub struct FileStore<F> {
    folder: F,
    faults: u64,
}

impl<F: Folder> FileStore<F> {
    /// A store over a folder; touches no file.
    pub fn over(folder: F) -> FileStore<F>
        ensures { (⟦<Self as NonceStore>⟧.seen result) ≡ store_over (F.seen folder) 0 }
    {
        FileStore { folder, faults: 0 }
    }
}

impl<'a, R: Files + AllocGlobal + Clone + Drop> FileStore<SystemFolder<'a, R>> {
    /// A store over the folder `dir` of the system, which must be there; touches no file. `failure` holds the kind of the last
    /// error of its device from now on.
    pub fn open(
        rt: &R,
        dir: &str,
        failure: &'a Cell<Option<ErrorKind>>,
    ) -> Result<FileStore<SystemFolder<'a, R>>, AllocError>
        ensures faults { IfOk result (λ store. (⟦<Self as NonceStore>⟧.seen store).faults ≡ 0) }
        ensures memory { R.is_infallible rt.now → OnErr result ⟦<Global as Memory>⟧.may_refuse }
    {
        Ok(FileStore::over(SystemFolder::open(rt, dir, failure)?))
    }
}

impl<F: Folder> NonceStore for FileStore<F> {
    ghost seen = { λ s. store_over (F.seen s.folder) s.faults };

    ghost may_refuse = { F.may_refuse };

    /// `Damaged` where the file holds no text of a nonce, `Device` where reading it failed.
    fn load(&mut self, pair: &Pair) -> Result<Option<u64>, StoreFault>
        // What the pair's file may say.
        ensures nonce { ReadsNonceIfHonest (F.seen self.old.folder) pair.now result }
        ensures damaged { FindsDamageIfHonest (F.seen self.old.folder) pair.now result }

        // `Device` only where the folder's device failed.
        ensures device { IsErrOf result StoreFault.Device
            → DeviceFailed (F.seen self.old.folder) (F.seen self.new.folder) }

        // What every store promises.
        ensures member { LoadsIfHonest (⟦<Self as NonceStore>⟧.seen self.old) pair.now result }
        ensures same { KeepsListsIfHonest (⟦<Self as NonceStore>⟧.seen self.old)
            (⟦<Self as NonceStore>⟧.seen self.new) }
        ensures cause { IfErr result
            (IsOfDevice (⟦<Self as NonceStore>⟧.seen self.old)
            (⟦<Self as NonceStore>⟧.seen self.new)) }
        ensures refused { IsErrOf result StoreFault.OutOfMemory
            → ⟦<Self as NonceStore>⟧.seen self.new ≡ ⟦<Self as NonceStore>⟧.seen self.old }
        ensures memory { IsErrOf result StoreFault.OutOfMemory → F.may_refuse }
        ensures proceeds { Proceeds (⟦<Self as NonceStore>⟧.seen self.old)
            (⟦<Self as NonceStore>⟧.seen self.new) }
    {
        let loaded = read_nonce(&mut self.folder, pair);
        counted(&mut self.faults, loaded)
    }

    /// `Device` where replacing the file failed.
    fn save(&mut self, pair: &Pair, nonce: u64) -> Result<(), StoreFault>
        // Only where the folder's device failed.
        ensures device { IsErrOf result StoreFault.Device
            → DeviceFailed (F.seen self.old.folder) (F.seen self.new.folder) }

        // What every store promises.
        ensures done { SavesIfHonest (⟦<Self as NonceStore>⟧.seen self.old)
            (⟦<Self as NonceStore>⟧.seen self.new) pair.now nonce result }
        ensures doubt { DoubtsIfHonest (⟦<Self as NonceStore>⟧.seen self.old)
            (⟦<Self as NonceStore>⟧.seen self.new) pair.now nonce result }
        ensures others { KeepsOthersIfHonest (⟦<Self as NonceStore>⟧.seen self.old)
            (⟦<Self as NonceStore>⟧.seen self.new) pair.now }
        ensures sound { result ≢ Err StoreFault.Damaged }
        ensures cause { IsErrOf result StoreFault.Device
            → Rose (⟦<Self as NonceStore>⟧.seen self.old) (⟦<Self as NonceStore>⟧.seen self.new) }
        ensures refused { IsErrOf result StoreFault.OutOfMemory
            → ⟦<Self as NonceStore>⟧.seen self.new ≡ ⟦<Self as NonceStore>⟧.seen self.old }
        ensures memory { IsErrOf result StoreFault.OutOfMemory → F.may_refuse }
        ensures proceeds { Proceeds (⟦<Self as NonceStore>⟧.seen self.old)
            (⟦<Self as NonceStore>⟧.seen self.new) }
    {
        let saved = write_nonce(&mut self.folder, pair, nonce);
        counted(&mut self.faults, saved)
    }
}

impl<F: Folder> WorldStore for FileStore<F> {
    /// Does nothing: what becomes of its calls is the folder's affair.
    fn arm(&mut self, _fate: Fate) {}

    /// Does nothing: the files are what a crash left.
    fn restart(&mut self, _pick: u64) {}

    /// Does nothing: the files are what is left of the folder.
    fn lose(&mut self) {}
}

// The nonce of a pair's file, `None` where there is no file. A content that is no text of a nonce is `Damaged`.
fn read_nonce<F: Folder>(folder: &mut F, pair: &Pair) -> Result<Option<u64>, StoreFault>
    ensures pair { IsPair pair.now }
    ensures range { IfOk result IsNonce }
    ensures nonce { ReadsNonceIfHonest (F.seen folder.old) pair.now result }
    ensures damaged { FindsDamageIfHonest (F.seen folder.old) pair.now result }
    ensures device { IsErrOf result StoreFault.Device
        → DeviceFailed (F.seen folder.old) (F.seen folder.new) }
    ensures same { KeepsFilesIfHonest (F.seen folder.old) (F.seen folder.new) }
    ensures honest { (F.seen folder.new).is_honest ≡ (F.seen folder.old).is_honest }
    ensures refused { IsErrOf result StoreFault.OutOfMemory
        → F.seen folder.new ≡ F.seen folder.old }
    ensures memory { IsErrOf result StoreFault.OutOfMemory → F.may_refuse }
{
    let name = pair_name(pair);
    let name = str::from_utf8(&name).unwrap();
    let mut text = [0; ROOM];
    match folder.read(name, &mut text)? {
        Some(count) => match nonce_from_text(&text[..count]) {
            Some(nonce) => Ok(Some(nonce)),
            None => Err(StoreFault::Damaged),
        },
        None => Ok(None),
    }
}

// Puts a file of the nonce in the place of the pair's file.
fn write_nonce<F: Folder>(folder: &mut F, pair: &Pair, nonce: u64) -> Result<(), StoreFault>
    ensures pair { IsPair pair.now }
    ensures done { ReplacesIfHonest (F.seen folder.old) (F.seen folder.new) (pair_name pair.now)
        (nonce_text nonce) result }
    ensures doubt { DoubtsFileIfHonest (F.seen folder.old) (F.seen folder.new) (pair_name pair.now)
        (nonce_text nonce) result }
    ensures others { KeepsOtherFilesIfHonest (F.seen folder.old) (F.seen folder.new)
        (pair_name pair.now) }
    ensures honest { (F.seen folder.new).is_honest ≡ (F.seen folder.old).is_honest }
    ensures sound { result ≢ Err StoreFault.Damaged }
    ensures device { IsErrOf result StoreFault.Device
        → DeviceFailed (F.seen folder.old) (F.seen folder.new) }
    ensures refused { IsErrOf result StoreFault.OutOfMemory
        → F.seen folder.new ≡ F.seen folder.old }
    ensures memory { IsErrOf result StoreFault.OutOfMemory → F.may_refuse }
{
    let name = pair_name(pair);
    let name = str::from_utf8(&name).unwrap();
    folder.replace(name, &nonce_text(nonce))?;
    Ok(())
}

// The answer, which is counted if it is a fault of the device.
fn counted<T>(faults: &mut u64, answer: Result<T, StoreFault>) -> Result<T, StoreFault>
    ensures same { result ≡ answer }
    ensures fault { IfErr result (CountsFault faults.old faults.new) }
    ensures memory { IsErrOf result StoreFault.OutOfMemory → faults.new ≡ faults.old }
    ensures count { faults.old ≤ faults.new }
{
    if let Err(StoreFault::Device | StoreFault::Damaged) = answer {
        *faults = faults.saturating_add(1);
    }
    answer
}
