//! A folder in memory, for tests.

ghost use Rattle.std.specs.Prelude.{◌≡◌, ◌≤◌, [], ◌∷◌, ◌+◌, ◌-◌, ◌^◌, min, Some, Ok, Err, if◌then◌else◌, IfOk, IfSome, IsOk, IsErrOf, OnOk, OnErr, ◌++◌, option_map, length, reverse};
ghost use Rattle.std.specs.Ordering.{eq_by_cmp, nat_cmp};
ghost use Rattle.std.specs.Cmp.Lexicographic.{slice_cmp};
ghost use Rattle.std.specs.List.{find};
ghost use Rattle.lisp_store.specs.Folder.{contents_at, DeviceFailed, Rises, IsFront, ReadsIfHonest, ReplacesIfHonest, DoubtsFileIfHonest, KeepsOtherFilesIfHonest};
ghost use Rattle.lisp_store.specs.MemoryFolder.{memory_files, memory_folder_state, gives_content, content_found, first_content, replace_answer, faults_replaced, contents_replaced, HadMemory, has_contents};
ghost use Rattle.lisp_store.specs.declared.folder.FolderFault.{FolderFault};

use crate::folder::{Folder, FolderFault};
use lisp_memory::{FallibleCopies, FallibleVec, Memory};
use std::alloc::{AllocError, Allocator, Global};
use std::marker::Model;

/// What one `replace` did.
#[derive(Drop)]
struct Replaced<A: Allocator> {
    name: Vec<u8, A>,
    bytes: Vec<u8, A>,
    /// Whether it failed; then the file may have the bytes or not.
    failed: bool,
}

impl<A: Allocator> Model for Replaced<A> {
    ghost use Rattle.lisp_store.specs.MemoryFolder.{ReplacedValue};

    ghost Value = { ReplacedValue };

    ghost view = { λ r. record { name = r.name.items; bytes = r.bytes.items; failed = r.failed } };
}

impl<A: Memory + Copy> Replaced<A> {
    fn new(alloc: A, name: &str, bytes: &[u8], failed: bool) -> Result<Replaced<A>, AllocError>
        ensures value { IfOk result
            (λ r. r ≡ record { name = name.now; bytes = bytes.now; failed = failed }) }
        ensures memory { OnErr result A.may_refuse }
    {
        Ok(Replaced {
            name: Vec::try_from_slice(alloc, name.as_bytes())?,
            bytes: Vec::try_from_slice(alloc, bytes)?,
            failed,
        })
    }
}

impl<A: Allocator> Replaced<A> {
    // Whether the file of a name has these bytes since then, if nothing was done to it later.
    fn gives_content(&self, name: &str) -> bool
        ensures { result ≡ gives_content name.now self.now }
    {
        !self.failed && name.as_bytes().cmp(self.name.as_slice()).is_eq()
    }

    fn bytes(&self) -> &[u8]
        ensures { result.now ≡ self.now.bytes }
    {
        &self.bytes
    }
}

/// A folder in memory, honest, of which one `replace` can be told to fail. It keeps what each `replace` did: a file has the
/// bytes of the last one of its name that was done, or those of any later one, which failed.
#[derive(Drop)]
pub struct MemoryFolder<A: Allocator = Global> {
    alloc: A,
    /// The last is the latest.
    replaced: Vec<Replaced<A>, A>,
    turn: u64,
    faults: u64,
}

impl<A: Allocator> Model for MemoryFolder<A> {
    ghost use Rattle.std.specs.Prelude.{reverse};
    ghost use Rattle.lisp_store.specs.MemoryFolder.{MemoryFolderState};

    ghost Value = { MemoryFolderState };

    ghost view = { λ f. record { replaced = reverse f.replaced.items; turn = f.turn; faults = f.faults } };
}

impl<A: Allocator + Copy> MemoryFolder<A> {
    /// A folder without files, whose `replace` number `turn`, counted from 1, fails as `Device`; none where `turn` is 0. Takes
    /// no memory.
    pub fn failing(alloc: A, turn: u64) -> MemoryFolder<A>
        ensures { result ≡ record { replaced = []; turn = turn; faults = 0 } }
    {
        MemoryFolder {
            alloc,
            replaced: Vec::new(alloc),
            turn,
            faults: 0,
        }
    }
}

impl<A: Memory + Copy> Folder for MemoryFolder<A> {
    ghost seen = { memory_folder_state };

    ghost may_refuse = { A.may_refuse };

    /// The first of the contents that the file may have: that of the last `replace` which was done. Never fails, and takes no
    /// memory.
    fn read(&mut self, name: &str, buffer: &mut [u8]) -> Result<Option<usize>, FolderFault>
        // Exactly.
        ensures answers { IsOk result }
        ensures first { IfOk result
            (λ found. IsFront (length buffer.new) found buffer.new
            (first_content self.old name.now)) }
        ensures unchanged { self.new ≡ self.old }

        // What every folder promises.
        ensures content { ReadsIfHonest (memory_folder_state self.old) name.now buffer.new result }
        ensures within { IfOk result (λ found. IfSome found (λ count. count ≤ length buffer.new)) }
        ensures room { length buffer.new ≡ length buffer.old }
        ensures memory { IsErrOf result FolderFault.OutOfMemory → A.may_refuse }
    {
        Ok(copied(buffer, content(&self.replaced, name)))
    }

    /// Takes memory for a copy of the name and of the bytes, before anything is changed.
    fn replace(&mut self, name: &str, bytes: &[u8]) -> Result<(), FolderFault>
        // Exactly, where there is memory for it.
        ensures answer { HadMemory result → result ≡ replace_answer self.old }
        ensures contents { HadMemory result
            → contents_at (memory_files self.new) name.now
            ≡ contents_replaced self.old name.now bytes.now }
        ensures faults { HadMemory result → self.new.faults ≡ faults_replaced self.old }
        ensures turn { self.new.turn ≡ self.old.turn - 1 }

        // What every folder promises.
        ensures done { ReplacesIfHonest (memory_folder_state self.old)
            (memory_folder_state self.new) name.now bytes.now result }
        ensures doubt { DoubtsFileIfHonest (memory_folder_state self.old)
            (memory_folder_state self.new) name.now bytes.now result }
        ensures others { KeepsOtherFilesIfHonest (memory_folder_state self.old)
            (memory_folder_state self.new) name.now }
        ensures cause { IsErrOf result FolderFault.Device
            → DeviceFailed (memory_folder_state self.old) (memory_folder_state self.new) }
        ensures count { self.old.faults ≤ self.new.faults }
        ensures refused { IsErrOf result FolderFault.OutOfMemory
            → memory_folder_state self.new ≡ memory_folder_state self.old }
        ensures memory { IsErrOf result FolderFault.OutOfMemory → A.may_refuse }
    {
        let fails = self.turn == 1;
        self.turn = self.turn.saturating_sub(1);
        let last = Replaced::new(self.alloc, name, bytes, fails)?;
        note(&mut self.replaced, last)?;
        answer(fails, &mut self.faults)
    }

    ghost has_contents = { has_contents };
}

// Keeps what a `replace` did.
fn note<A: Memory>(replaced: &mut Vec<Replaced<A>, A>, last: Replaced<A>) -> Result<(), AllocError>
    ensures noted { OnOk result (replaced.new.items ≡ replaced.old.items ++ last ∷ []) }
    ensures err { OnErr result (replaced.new.items ≡ replaced.old.items) }
    ensures memory { OnErr result A.may_refuse }
{
    replaced.try_push(last)?;
    Ok(())
}

// The last `replace` of a name that was done.
fn last_done<'a, A: Allocator>(replaced: &'a [Replaced<A>], name: &str) -> Option<&'a Replaced<A>>
    ensures { option_map (λ r. r.now) result
        ≡ find (gives_content name.now) (reverse replaced.now) }
{
    replaced.iter().rev().find(|r| r.gives_content(name))
}

// What a `replace` answers, which is counted if it fails.
fn answer(fails: bool, faults: &mut u64) -> Result<(), FolderFault>
    ensures answer { result ≡ (if fails then Err FolderFault.Device else Ok tt) }
    ensures once { faults.new ≡ (if fails then min (faults.old + 1) (2 ^ 64 - 1) else faults.old) }
    ensures cause { OnErr result (Rises faults.old faults.new) }
    ensures count { faults.old ≤ faults.new }
{
    if fails {
        *faults = faults.saturating_add(1);
        return Err(FolderFault::Device);
    }
    Ok(())
}

// The bytes of the last `replace` of a name that was done.
fn content<'a, A: Allocator>(replaced: &'a [Replaced<A>], name: &str) -> Option<&'a [u8]>
    ensures { option_map (λ bytes. bytes.now) result
        ≡ content_found name.now (reverse replaced.now) }
{
    match last_done(replaced, name) {
        Some(last) => Some(last.bytes()),
        None => None,
    }
}

// How many bytes of a file are copied, if there is one.
fn copied(buffer: &mut [u8], content: Option<&[u8]>) -> Option<usize>
    ensures front { IsFront (length buffer.new) result buffer.new
        (option_map (λ bytes. bytes.now) content.entry) }
    ensures within { IfSome result (λ count. count ≤ length buffer.new) }
    ensures room { length buffer.new ≡ length buffer.old }
{
    match content {
        Some(bytes) => Some(fill(buffer, bytes)),
        None => None,
    }
}

// Copies as many of the bytes as there is room for.
fn fill(buffer: &mut [u8], bytes: &[u8]) -> usize
    ensures front { IsFront (length buffer.new) (Some result) buffer.new (Some bytes.now) }
    ensures within { result ≤ length buffer.new }
    ensures room { length buffer.new ≡ length buffer.old }
{
    let count = buffer.len().min(bytes.len());
    buffer[..count].copy_from_slice(&bytes[..count]);
    count
}
