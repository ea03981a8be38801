//! A list of records, as a message carries it.

ghost use Rattle.std.specs.Prelude.{◌≡◌};

use crate::record::MapRecord;
use std::alloc::{Allocator, Global};
use std::marker::Model;

/// Records in their order, seen as a list.
#[derive(Debug, Drop)]
pub struct Records<A: Allocator = Global> {
    items: Vec<MapRecord<A>, A>,
}

impl<A: Allocator> Model for Records<A> {
    ghost use Rattle.std.specs.Prelude.{List};
    ghost use Rattle.lisp_records.specs.Record.{MapRecordValue};

    ghost Value = { List MapRecordValue };

    ghost view = { λ r. r.items.items };
}

impl<A: Allocator> Records<A> {
    /// The records of a `Vec`; takes no memory.
    pub fn from_vec(items: Vec<MapRecord<A>, A>) -> Records<A>
        ensures { result ≡ items.items }
    {
        Records { items }
    }

    /// The records in their order.
    pub fn as_slice(&self) -> &[MapRecord<A>]
        ensures { result.now ≡ self.now }
    {
        &self.items
    }

    /// The records as a `Vec`; takes no memory.
    pub fn into_vec(self) -> Vec<MapRecord<A>, A>
        ensures { result.items ≡ self }
    {
        self.items
    }
}
