//! The parts of a database: what one message carries, and where each part begins.

ghost use Rattle.std.specs.Prelude.{◌≡◌, ◌<◌, ◌≤◌, nat_le, ◌&&◌, None, length, slice_index, IfSome};
ghost use Rattle.lisp_records.specs.Parts.{most_parts, part_count, EachFitsAlone, AreStarts};

use crate::record::MapRecord;
use std::alloc::Allocator;

/// The most records of a message, which counts them in one byte; so also of a part.
pub const MAX_RECORDS: usize = 255;

/// The most bytes of a message's records, as they are written; so also of a part's.
pub const MAX_SIZE: usize = 16384;

/// The most parts of a database.
pub const MAX_PARTS: usize = 16;

/// Where the parts of a database begin.
#[derive(Clone, Copy, Debug)]
pub(crate) struct Parts {
    // The place of each part's first record, and after the last part the count of all records.
    starts: [u16; MAX_PARTS + 1],
    count: usize,
}

impl Parts {
    /// The parts of at most 1,024 records; `None` where they are more than 16.
    pub(crate) fn new<A: Allocator>(records: &[MapRecord<A>]) -> Option<Parts>
        requires { length records.now ≤ 1024 }
        ensures starts { IfSome result (λ parts. AreStarts records.now parts.starts parts.count) }
        ensures few { IfSome result (λ parts. part_count records.now ≤ most_parts) }
        ensures alone { IfSome result (λ parts. EachFitsAlone records.now) }
        ensures many { result ≡ None → most_parts < part_count records.now }
    {
        let mut starts = [0; MAX_PARTS + 1];
        let mut last = 0;
        let mut start = 0;
        let mut size = 0;
        for (i, record) in records.iter().enumerate() {
            let len = record.written_len();
            if fits_message(i - start + 1, size + len) {
                size += len;
                continue;
            }
            last += 1;
            if last == MAX_PARTS {
                return None;
            }
            starts[last] = i as u16;
            start = i;
            size = len;
        }
        let count = last + 1;
        starts[count] = records.len() as u16;
        Some(Parts { starts, count })
    }

    /// How many there are.
    pub(crate) fn count(&self) -> usize
        ensures { result ≡ self.now.count }
    {
        self.count
    }

    /// The place of a part's first record; for the place after the last part, the count of all records.
    pub(crate) fn start(&self, part: usize) -> usize
        requires { part ≤ most_parts }
        ensures { result ≡ slice_index self.now.starts part }
    {
        usize::from(self.starts[part])
    }
}

// Whether one message can carry so many records, of so many bytes.
fn fits_message(records: usize, size: usize) -> bool
    ensures { result ≡ (nat_le records 255 && nat_le size 16384) }
{
    records <= MAX_RECORDS && size <= MAX_SIZE
}
