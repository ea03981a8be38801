//! What a folder of files promises to a store of nonces.

ghost use Rattle.std.specs.Prelude.{◌≡◌, ◌≤◌, IfOk, IfSome, IsErrOf, length};
ghost use Rattle.lisp_store.specs.Folder.{FolderState, HasContents, DeviceFailed, ReadsIfHonest, KeepsFilesIfHonest, ReplacesIfHonest, DoubtsFileIfHonest, KeepsOtherFilesIfHonest, store_fault};
ghost use Rattle.lisp_store.specs.declared.folder.FolderFault.{FolderFault};

use lisp_nonces::StoreFault;
use std::alloc::AllocError;

/// Why a folder gave no answer.
#[derive(Clone, Copy, Debug, PartialEq, Eq)]
pub enum FolderFault {
    /// The device failed, or what has the name is no file.
    Device,
    /// No memory; nothing was changed.
    OutOfMemory,
}

impl From<FolderFault> for StoreFault {
    ghost from_gives = { λ why fault. fault ≡ store_fault why };

    fn from(why: FolderFault) -> StoreFault {
        match why {
            FolderFault::Device => StoreFault::Device,
            FolderFault::OutOfMemory => StoreFault::OutOfMemory,
        }
    }
}

impl From<AllocError> for FolderFault {
    ghost from_gives = { λ _ fault. fault ≡ FolderFault.OutOfMemory };

    fn from(_error: AllocError) -> FolderFault {
        FolderFault::OutOfMemory
    }
}

/// A folder of files, across any crash. After a `replace` that was not answered done, and after a crash in the middle of one,
/// it is open whether the file has its new bytes: a read answers one of the contents that it may have. What is said of
/// contents is said of honest folders. It counts the failures of its device, up to 2^64 - 1.
pub trait Folder {
    ghost seen: { Self → FolderState };

    /// Whether the folder may run out of memory.
    ghost may_refuse: { Type 0 };

    /// Reads the file with a name into `buffer`, up to its end or the buffer's: how many bytes were read; `None` where there
    /// is no file. `Device` where reading failed, or no file has the name but something else.
    fn read(&mut self, name: &str, buffer: &mut [u8]) -> Result<Option<usize>, FolderFault>
        ensures content { ReadsIfHonest (seen self.old) name.now buffer.new result }
        ensures within { IfOk result (λ found. IfSome found (λ count. count ≤ length buffer.new)) }
        ensures room { length buffer.new ≡ length buffer.old }
        ensures same { KeepsFilesIfHonest (seen self.old) (seen self.new) }
        ensures cause { IsErrOf result FolderFault.Device
            → DeviceFailed (seen self.old) (seen self.new) }
        ensures count { (seen self.old).faults ≤ (seen self.new).faults }
        ensures honest { (seen self.new).is_honest ≡ (seen self.old).is_honest }
        ensures refused { IsErrOf result FolderFault.OutOfMemory → seen self.new ≡ seen self.old }
        ensures memory { IsErrOf result FolderFault.OutOfMemory → may_refuse };

    /// Puts a file with these bytes in the place of the one with a name. `Device` where any step failed: it is open then
    /// which of them is there.
    fn replace(&mut self, name: &str, bytes: &[u8]) -> Result<(), FolderFault>
        // Done: the file has these bytes.
        ensures done { ReplacesIfHonest (seen self.old) (seen self.new) name.now bytes.now result }

        // Not done: it may have what it had, and perhaps these.
        ensures doubt { DoubtsFileIfHonest (seen self.old)
            (seen self.new) name.now bytes.now result }
        ensures others { KeepsOtherFilesIfHonest (seen self.old) (seen self.new) name.now }
        ensures cause { IsErrOf result FolderFault.Device
            → DeviceFailed (seen self.old) (seen self.new) }
        ensures count { (seen self.old).faults ≤ (seen self.new).faults }
        ensures honest { (seen self.new).is_honest ≡ (seen self.old).is_honest }
        ensures refused { IsErrOf result FolderFault.OutOfMemory → seen self.new ≡ seen self.old }
        ensures memory { IsErrOf result FolderFault.OutOfMemory → may_refuse };

    /// A file has one content at least.
    ghost has_contents: { (f : Self) → HasContents (seen f) };
}
