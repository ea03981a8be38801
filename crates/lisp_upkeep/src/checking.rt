//! The store of a node that doesn't run, read whole: what it keeps, and what of it is damaged.

use crate::folder::find_folder;
use crate::output::print;
use crate::storage::Storage;
use crate::store_lines::{StoreWord, damaged_line, kept_line, sum_line};
use lisp_database_store::SystemTable;
use lisp_files::Ending;
use lisp_lines::write_text;
use lisp_script::RunFault;
use lisp_store::{DamagedFile, FoundFiles, KeptNonce};
use std::alloc::Global;
use std::io::Write;

/// Reads all that a node keeps in the folder `dir`/`name`, and prints a line `found KIND SITE XTR key K nonce N` for each nonce, in the
/// order KIND (`sent`, `received`, `notice`), Site-ID, xTR-ID, key; a line `damaged FILE WHY` for each file that has the name of a pair and
/// of which no nonce can be read; and a line `store NAME nonces N damaged M`. Of a database it reads the nonces too that files beside it
/// keep, which the node takes over at its start.
///
/// The folder has to be there, and no node may run over it: it is locked meanwhile. Nothing else is changed there.
///
/// Faults, in this order: 93 for the folder, and for the database, where it is damaged or can't be read; 88 where a line can't be written; 93
/// where a file is damaged: all lines are printed then. 97 is out of memory.
pub fn check_store<T: SystemTable, W: Write>(
    rt: &HostRuntime,
    dir: &str,
    name: &str,
    storage: Storage,
    writer: &mut W,
) -> Result<(), Ending> {
    let folder = find_folder(rt, dir, name)?;
    let mut found = folder.find_nonces::<T>(rt, storage)?;
    sort(&mut found);
    print_found(rt.alloc(), name, &found, writer)?;
    folder.refuse_damaged(rt, &found)
}

// Puts what was found in the order of pairs.
fn sort(found: &mut FoundFiles) {
    found.nonces.sort_unstable_by_key(|kept| kept.pair);
    found.damaged.sort_unstable_by_key(|file| file.pair);
}

// Prints what was found. Faults: 88, 97.
fn print_found<W: Write>(
    alloc: Global,
    name: &str,
    found: &FoundFiles,
    writer: &mut W,
) -> Result<(), RunFault> {
    write_kept(alloc, &found.nonces, writer)?;
    write_damaged(alloc, &found.damaged, writer)?;
    let (nonces, damaged) = (found.nonces.len(), found.damaged.len());
    print(&sum_line(alloc, name, nonces, damaged)?, writer)
}

fn write_kept<W: Write>(
    alloc: Global,
    nonces: &[KeptNonce],
    writer: &mut W,
) -> Result<(), RunFault> {
    for kept in nonces {
        write_text(&kept_line(alloc, StoreWord::Found, kept)?, writer)?;
    }
    Ok(())
}

fn write_damaged<W: Write>(
    alloc: Global,
    files: &[DamagedFile],
    writer: &mut W,
) -> Result<(), RunFault> {
    for file in files {
        write_text(&damaged_line(alloc, file)?, writer)?;
    }
    Ok(())
}
