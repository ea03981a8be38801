//! Which nonces a Map-Server accepted, those of a list that it has still, and the removal of these.

ghost use Rattle.std.specs.Prelude.{◌≡◌, ◌∷◌, ◌++◌, [], IfErr};
ghost use Rattle.lisp_lines.specs.Front.{GivesText};
ghost use Rattle.lisp_upkeep.specs.Line.{line_text};
ghost use Rattle.lisp_script.specs.RunFault.{numbered};

use crate::accepted_nonce::{AcceptedNonce, accepted_nonces};
use crate::folder::{LockedFolder, find_folder};
use crate::line::{LineWord, put_line};
use crate::list::read_list;
use crate::list_fault::ListFault;
use crate::output::print;
use crate::storage::{NodeStore, Storage};
use crate::unheard_nonces::unheard;
use lisp_database_store::SystemTable;
use lisp_files::{Ending, Problem};
use lisp_memory::FallibleString;
use lisp_script::{PlayFault, RunFault};
use lisp_store::KeptNonce;
use std::alloc::{AllocError, Global};
use std::cell::Cell;
use std::fs::{self, Files};
use std::io::{self, ErrorKind, Read, Write};
use std::str;

/// The most bytes of a list: 186,000 lines at least.
const MOST_BYTES: usize = 16_777_216;

/// The number of a list with a faulty line.
const LINE_FAULT: u16 = 141;

/// What is wanted of the nonces that a Map-Server accepted. A list is a file.
#[derive(Clone, Copy, Debug, PartialEq, Eq)]
pub enum Forgetting<'a> {
    /// They are printed, and all are kept.
    Nothing,
    /// Those of a list that it has still are printed, and all are kept.
    Unheard {
        /// The list.
        list: &'a str,
    },
    /// Those of a list that it has still are removed, and each is printed once it is.
    Remove {
        /// The list.
        list: &'a str,
    },
}

/// Prints which nonces a Map-Server accepted that keeps them in the folder `dir`/`name`, in the order Site-ID, xTR-ID, key, a line
/// `kept SITE XTR key K nonce N` for each; of a list those alone that are still kept with the same nonce; or removes these, with a line
/// `forgotten ..` for each, which is printed once the removal is synced. Nonces that a router sent, and those of notices, aren't looked at.
///
/// The folder has to be there, and no node may run over it: it is locked meanwhile. A database takes over the nonces of files, as where a
/// node starts.
///
/// Faults, in this order: of the list 93 where it can't be opened, 87 where it can't be read, 89 where it has more than 16,777,216 bytes,
/// 95 where it isn't UTF-8, 141 for its first line that is no line `kept ..`, nor blank, nor a comment; 93 for the folder, then for the
/// store in it, and where a nonce can't be removed; 88 where a line can't be written. 97 is out of memory.
pub fn forget<T: SystemTable, W: Write>(
    rt: &HostRuntime,
    dir: &str,
    name: &str,
    storage: Storage,
    forgetting: Forgetting<'_>,
    writer: &mut W,
) -> Result<(), Ending> {
    let listed = listed(rt, forgetting)?;
    let folder = find_folder(rt, dir, name)?;
    forget_in::<T, W>(rt, &folder, storage, forgetting, listed, writer)
}

// The nonces of the list that is given, if one is.
fn listed<R: Files + AllocGlobal>(
    rt: &R,
    forgetting: Forgetting<'_>,
) -> Result<Option<Vec<AcceptedNonce>>, Ending> {
    match forgetting {
        Forgetting::Nothing => Ok(None),
        Forgetting::Unheard { list } | Forgetting::Remove { list } => {
            Ok(Some(read_file(rt, list)?))
        }
    }
}

// The same as `forget`, in the folder.
fn forget_in<T: SystemTable, W: Write>(
    rt: &HostRuntime,
    folder: &LockedFolder,
    storage: Storage,
    forgetting: Forgetting<'_>,
    listed: Option<Vec<AcceptedNonce>>,
    writer: &mut W,
) -> Result<(), Ending> {
    let failure = Cell::new(None);
    let mut store = folder.find_store::<T>(rt, storage, &failure)?;
    let nonces = chosen(rt.alloc(), listed, &folder.nonces(rt, &mut store)?)?;
    match forgetting {
        Forgetting::Remove { .. } => remove(rt, folder, &mut store, &nonces, writer),
        Forgetting::Nothing | Forgetting::Unheard { .. } => Ok(print_kept(
            rt.alloc(),
            &nonces,
            writer,
        )?),
    }
}

// The nonces that were accepted among those that are kept; of a list those alone that it has too.
fn chosen(
    alloc: Global,
    listed: Option<Vec<AcceptedNonce>>,
    kept: &[KeptNonce],
) -> Result<Vec<AcceptedNonce>, AllocError> {
    let nonces = accepted_nonces(alloc, kept)?;
    match listed {
        Some(listed) => unheard(alloc, &listed, &nonces),
        None => Ok(nonces),
    }
}

// Removes nonces, and prints each that it removed.
fn remove<T: SystemTable, W: Write>(
    rt: &HostRuntime,
    folder: &LockedFolder,
    store: &mut NodeStore<'_, T>,
    nonces: &[AcceptedNonce],
    writer: &mut W,
) -> Result<(), Ending> {
    for nonce in nonces {
        folder.forget(rt, store, &nonce.pair())?;
        print_nonce(rt.alloc(), LineWord::Forgotten, nonce, writer)?;
    }
    Ok(())
}

// Prints nonces that are kept. Faults: 88, 97.
fn print_kept<W: Write>(
    alloc: Global,
    nonces: &[AcceptedNonce],
    writer: &mut W,
) -> Result<(), RunFault> {
    for nonce in nonces {
        print_nonce(alloc, LineWord::Kept, nonce, writer)?;
    }
    Ok(())
}

// Prints the line of a nonce, which goes out at once. Faults: 88, 97.
fn print_nonce<W: Write>(
    alloc: Global,
    word: LineWord,
    nonce: &AcceptedNonce,
    writer: &mut W,
) -> Result<(), RunFault> {
    print(&nonce_line(alloc, word, nonce)?, writer)
}

fn nonce_line(alloc: Global, word: LineWord, nonce: &AcceptedNonce) -> Result<String, AllocError>
    ensures { GivesText result (line_text word nonce.now ++ 10 ∷ []) }
{
    let mut text = String::new(alloc);
    put_line(&mut text, word, nonce)?;
    text.try_push('\n')?;
    Ok(text)
}

// The nonces of a list's file.
fn read_file<R: Files + AllocGlobal>(rt: &R, path: &str) -> Result<Vec<AcceptedNonce>, Ending> {
    let bytes = read_bytes(rt, path)?;
    let Ok(text) = str::from_utf8(&bytes) else {
        return Err(Ending::from(PlayFault::NotUtf8));
    };
    match read_list(rt.alloc(), text) {
        Ok(nonces) => Ok(nonces),
        Err(ListFault::Line(line)) => Err(Ending::from(faulty_line(line))),
        Err(ListFault::OutOfMemory) => Err(Ending::from(RunFault::MEMORY)),
    }
}

const fn faulty_line(line: usize) -> RunFault
    ensures number { result.number ≡ 141 }
    ensures line { result.line ≡ line }
{
    RunFault {
        number: LINE_FAULT,
        line,
    }
}

// The bytes of a list's file, by its bound.
fn read_bytes<R: Files + AllocGlobal>(rt: &R, path: &str) -> Result<Vec<u8>, Ending> {
    let alloc = rt.alloc();
    let file = match fs::open(rt, path) {
        Ok(file) => file,
        Err(error) => return Err(Ending::of_file(alloc, path, Problem::Open(error))),
    };
    let mut bytes = Vec::new(alloc);
    match file.take(MOST_BYTES as u64 + 1).read_to_end(&mut bytes) {
        Ok(_) if bytes.len() > MOST_BYTES => Err(Ending::from(PlayFault::TooLong)),
        Ok(_) => Ok(bytes),
        Err(error) => Err(unread(alloc, path, error)),
    }
}

// A list that can't be read; fault 87, or 97 where memory ran out.
fn unread(alloc: Global, path: &str, error: io::Error) -> Ending {
    if error.kind() == ErrorKind::OutOfMemory {
        return Ending::from(RunFault::MEMORY);
    }
    let fault = RunFault::from(PlayFault::Read);
    Ending::with_words(alloc, fault, path, Problem::Read(error))
}
