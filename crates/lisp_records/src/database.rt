//! What a router registers: its records, in parts that each fit one message.

ghost use Rattle.std.specs.Prelude.{◌≡◌, ◌<◌, ◌≤◌, true, length, IfOk, OnOk, OnErr};
ghost use Rattle.lisp_records.specs.Fault.{database_fault_number};
ghost use Rattle.lisp_records.specs.Parts.{fits_message, most_parts, part_count, part_at, cut, IsCut};
ghost use Rattle.lisp_records.specs.Database.{has_prefix, repeats, database_of};

use crate::parts::Parts;
use crate::prefix::Prefix;
use crate::record::MapRecord;
use crate::records::Records;
use lisp_memory::{FallibleVec, Memory};
use std::alloc::{AllocError, Allocator, Global};
use std::marker::Model;
use thiserror::Error;

/// The most records of a database.
pub const MAX_DATABASE_RECORDS: usize = 1024;

/// Why records are no database.
#[derive(Clone, Copy, Debug, PartialEq, Eq, Error)]
pub enum DatabaseFault {
    /// Two records are of the same EID-Prefix.
    #[error("two records are of the same EID-Prefix")]
    RepeatedPrefix,
    /// More than 1,024 records, or more than 16 parts of them.
    #[error("there are too many records, or too many parts of them")]
    TooLarge,
}

impl DatabaseFault {
    /// The number that operators see: `RepeatedPrefix` 4, `TooLarge` 5.
    pub const fn number(&self) -> u16
        ensures { result ≡ database_fault_number self.now }
    {
        match self {
            DatabaseFault::RepeatedPrefix => 4,
            DatabaseFault::TooLarge => 5,
        }
    }
}

/// What a router registers: records of different EID-Prefixes, in their order, seen as a list.
#[derive(Debug, Drop)]
pub struct Database<A: Allocator = Global> {
    records: Vec<MapRecord<A>, A>,
    parts: Parts,
}

impl<A: Allocator> Model for Database<A> {
    ghost use Rattle.std.specs.Prelude.{List};
    ghost use Rattle.lisp_records.specs.Record.{MapRecordValue};
    ghost use Rattle.lisp_records.specs.Database.{IsDatabase};

    ghost Value = { List MapRecordValue };

    ghost view = { λ d. d.records.items };

    ghost invariant = { λ d. IsDatabase d.records.items d.parts.starts d.parts.count };
}

impl<A: Allocator> Database<A> {
    /// The records as a database, in their order; takes no memory. The refusals come in this order:
    /// `TooLarge` (more than 1,024 records), `RepeatedPrefix`, `TooLarge` (more than 16 parts).
    pub fn new(records: Vec<MapRecord<A>, A>) -> Result<Database<A>, DatabaseFault>
    where
        A: Drop,
        ensures exact { result ≡ database_of records.items }
        ensures kept { IfOk result (λ d. d ≡ records.items) }
    {
        if records.len() > MAX_DATABASE_RECORDS {
            return Err(DatabaseFault::TooLarge);
        }
        if repeats(&records) {
            return Err(DatabaseFault::RepeatedPrefix);
        }
        let Some(parts) = Parts::new(&records) else {
            return Err(DatabaseFault::TooLarge);
        };
        Ok(Database { records, parts })
    }

    /// The records, in their order.
    pub fn records(&self) -> &[MapRecord<A>]
        ensures value { result.now ≡ self.now }
        ensures fits { database_of self.now ≡ Ok self.now }
    {
        self.records.as_slice()
    }

    /// An equal database, in memory of `alloc`.
    pub fn copy<B: Memory + Copy>(&self, alloc: B) -> Result<Database<B>, AllocError>
        ensures equal { IfOk result (λ d. d ≡ self.now) }
        ensures fits { OnOk result (database_of self.now ≡ Ok self.now) }
        ensures memory { OnErr result B.may_refuse }
    {
        let records = copy_records(&self.records, alloc)?.into_vec();
        Ok(Database {
            records,
            parts: self.parts,
        })
    }

    /// How many parts it has: 1 to 16.
    #[tactic(auto, using(crate::proofs::Cuts::cut_is_a_cut))]
    pub fn parts(&self) -> usize
        ensures value { result ≡ part_count self.now }
        ensures few { result ≤ most_parts }

        // What the type promises of every database.
        ensures cut { IsCut self.now (cut self.now) }
        ensures fits { database_of self.now ≡ Ok self.now }
    {
        self.parts.count()
    }

    /// The records of one of its parts, from 0 on.
    #[tactic(auto, using(crate::proofs::Filling::range_fits))]
    pub fn part(&self, part: usize) -> &[MapRecord<A>]
        requires { part < part_count self.now }
        ensures value { result.now ≡ part_at self.now part }
        ensures fits { fits_message result.now ≡ true }
    {
        let start = self.parts.start(part);
        let end = self.parts.start(part + 1);
        &self.records[start..end]
    }

    /// Equal records to those of one of its parts, from 0 on, as a message carries them, in memory of `alloc`.
    pub fn part_records<B: Memory + Copy>(
        &self,
        part: usize,
        alloc: B,
    ) -> Result<Records<B>, AllocError>
        requires { part < part_count self.now }
        ensures value { IfOk result (λ r. r ≡ part_at self.now part) }
        ensures few { IfOk result (λ r. length r < 256) }
        ensures memory { OnErr result B.may_refuse }
    {
        copy_records(self.part(part), alloc)
    }
}

// Whether some record's EID-Prefix occurs again later.
fn repeats<A: Allocator>(records: &[MapRecord<A>]) -> bool
    ensures { result ≡ repeats records.now }
{
    for (i, record) in records.iter().enumerate() {
        if has_prefix(&records[i + 1..], record.eid()) {
            return true;
        }
    }
    false
}

// Whether a record is of this EID-Prefix.
fn has_prefix<A: Allocator>(records: &[MapRecord<A>], eid: Prefix) -> bool
    ensures { result ≡ has_prefix eid records.now }
{
    for record in records {
        if eid == *record.eid_ref() {
            return true;
        }
    }
    false
}

// Equal records, in memory of `alloc`.
fn copy_records<A: Allocator, B: Memory + Copy>(
    records: &[MapRecord<A>],
    alloc: B,
) -> Result<Records<B>, AllocError>
    ensures equal { IfOk result (λ r. r ≡ records.now) }
    ensures memory { OnErr result B.may_refuse }
{
    let mut copies = Vec::new(alloc);
    for record in records {
        let copy = record.copy(alloc)?;
        copies.try_push(copy)?;
    }
    Ok(Records::from_vec(copies))
}
